//! Words for a POSIX shell.
ghost use Rattle.std.specs.Prelude.{◌≡◌, IfOk};
ghost use Rattle.std.specs.List.{list_all, Contains};
ghost use Rattle.example_forward.specs.Shell as spec;

use std::alloc::{AllocError, Global};

// Whether a shell takes this byte as it is, wherever it occurs in an argument.
fn is_plain(byte: u8) -> bool
    ensures { result ≡ spec.is_plain byte }
{
    byte.is_ascii_alphanumeric() || b"%+,-./:=@_".contains(&byte)
}

fn are_plain(bytes: &[u8]) -> bool
    ensures { result ≡ list_all spec.is_plain bytes.now }
{
    bytes.iter().all(|byte| is_plain(*byte))
}

// Whether a word needs no quotes.
fn needs_none(word: &[u8]) -> bool
    ensures { result ≡ spec.needs_none word.now }
{
    match word {
        [] => false,
        _ => are_plain(word),
    }
}

/// Returns the word for a shell: as it is, or in single quotes if it needs them.
///
/// A quote in the word comes after a backslash, between two quoted parts: `it's` is `'it'\''s'`. A
/// shell reads the result back as the word, unless that has the byte 00, which no shell reads.
///
/// # Errors
///
/// Returns an error if an allocation fails.
pub fn quoted(alloc: Global, word: &[u8]) -> Result<Vec<u8>, AllocError>
    ensures form { IfOk result (λ bytes. bytes.items ≡ spec.quoted word.now) }
    ensures read_back { IfOk result (λ bytes. ¬ Contains word.now spec.nul
        → spec.IsReadAs bytes.items word.now) }
{
    let mut bytes = Vec::new(alloc);
    if needs_none(word) {
        bytes.extend_from_slice(word)?;
        return Ok(bytes);
    }
    bytes.push(b'\'')?;
    for byte in word {
        if *byte == b'\'' {
            bytes.extend_from_slice(b"'\\''")?;
        } else {
            bytes.push(*byte)?;
        }
    }
    bytes.push(b'\'')?;
    Ok(bytes)
}

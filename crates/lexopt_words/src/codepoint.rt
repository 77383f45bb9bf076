//! Decodes the first piece of some bytes: a character, or damage.
ghost use Rattle.std.specs.Prelude.{◌≡◌, ◌<◌, ◌++◌, [], drop, length, IfOk, OnOk, encode_utf8};
ghost use Rattle.std.specs.Prelude.{string_bytes};
ghost use Rattle.lexopt_spec.specs.Pieces.{first_piece, lossy, shown};
ghost use Rattle.lexopt_words.specs.Codepoint.{IsFirstOf, character_of, size_of};
ghost use Rattle.bstr.specs.Utf8.{decoded};

use bstr::decode_utf8;
use std::alloc::{AllocError, Global};

/// The first piece of some bytes. Sizes are in bytes.
#[derive(Clone, Copy)]
pub enum FirstCodepoint {
    /// There are no bytes.
    Empty,
    /// A character and its size.
    Character(char, usize),
    /// Damage of this size.
    Damage(usize),
}

impl FirstCodepoint {
    /// Returns the size of the piece in bytes: 0 if there is none.
    pub fn size(self) -> usize
        ensures { result ≡ size_of self }
    {
        match self {
            FirstCodepoint::Empty => 0,
            FirstCodepoint::Character(_, size) | FirstCodepoint::Damage(size) => size,
        }
    }

    /// Returns the character that lossy text has for the piece: its own, or U+FFFD for damage.
    pub fn shown(self) -> char
        ensures { result ≡ shown (character_of self) }
    {
        match self {
            FirstCodepoint::Character(character, _) => character,
            FirstCodepoint::Empty | FirstCodepoint::Damage(_) => '\u{FFFD}',
        }
    }
}

/// Returns the first piece of the bytes.
///
/// By table 3-7 of the Unicode Standard this is a well-formed sequence, otherwise the maximal
/// subpart of one, otherwise a single byte. The last two are damage.
///
/// # Examples
///
/// ```rust
/// use lexopt_words::codepoint::first_codepoint;
///
/// // The bytes `66 6F FF` begin with `Character('f', 1)`, and `FF 66` with `Damage(1)`.
/// let bytes = b"fo\xFF";
/// let piece = first_codepoint(bytes);
/// let rest = &bytes[piece.size()..];
/// ```
#[inline(always)]
pub fn first_codepoint(bytes: &[u8]) -> FirstCodepoint
    ensures by_the_table { IsFirstOf bytes.now result }
    ensures character { character_of result ≡ (decoded bytes.now).char }
    ensures size { size_of result ≡ (decoded bytes.now).size }
{
    match bytes {
        [] => FirstCodepoint::Empty,
        [first @ ..=0x7F, ..] => FirstCodepoint::Character(char::from(*first), 1),
        _ => decoded_codepoint(bytes),
    }
}

/// Returns the first piece of the bytes from this position on. At least one byte is there.
#[inline(always)]
pub fn codepoint_at(bytes: &[u8], position: usize) -> FirstCodepoint
    requires { position < length bytes.now }
    ensures by_the_table { IsFirstOf (drop position bytes.now) result }
    ensures character { character_of result ≡ (decoded (drop position bytes.now)).char }
    ensures size { size_of result ≡ (decoded (drop position bytes.now)).size }
{
    match bytes[position] {
        first @ ..=0x7F => FirstCodepoint::Character(char::from(first), 1),
        _ => decoded_codepoint(&bytes[position..]),
    }
}

// Returns the first piece of the bytes. At least one byte is there.
#[inline(always)]
fn decoded_codepoint(bytes: &[u8]) -> FirstCodepoint
    requires { 0 < length bytes.now }
    ensures by_the_table { IsFirstOf bytes.now result }
    ensures character { character_of result ≡ (decoded bytes.now).char }
    ensures size { size_of result ≡ (decoded bytes.now).size }
{
    match decode_utf8(bytes) {
        (Some(character), size) => FirstCodepoint::Character(character, size),
        (None, size) => FirstCodepoint::Damage(size),
    }
}

/// Returns the lossy text of the bytes, in which each damaged piece is one U+FFFD.
///
/// # Errors
///
/// `AllocError` if memory for the text runs out.
///
/// # Examples
///
/// ```rust
/// use lexopt_words::codepoint::lossy_text;
///
/// // The bytes `66 6F 6F FF` give `foo` and U+FFFD.
/// let text = lossy_text(alloc, b"foo\xFF")?;
/// ```
pub fn lossy_text(alloc: Global, bytes: &[u8]) -> Result<String, AllocError>
    ensures { IfOk result (λ text. string_bytes text ≡ lossy bytes.now) }
{
    // U+FFFD has 3 bytes: there is room for one damaged byte, and most texts have no more damage.
    let mut text = String::with_capacity(alloc, bytes.len().saturating_add(2))?;
    let mut rest = bytes;
    while !rest.is_empty() {
        let (character, size) = decode_utf8(rest);
        push_shown(&mut text, character)?;
        rest = &rest[size..];
    }
    Ok(text)
}

// Appends a piece to lossy text: its character, or U+FFFD for damage.
fn push_shown(text: &mut String, character: Option<char>) -> Result<(), AllocError>
    ensures { OnOk result (string_bytes text.new
        ≡ string_bytes text.old ++ encode_utf8 (shown character)) }
{
    match character {
        Some(character) => text.push(character),
        None => text.push_str("\u{FFFD}"),
    }
}

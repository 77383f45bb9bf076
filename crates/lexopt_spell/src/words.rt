//! Words that borrow from the items that they spell, and calls that append them to a list of words.
//! `words.rt` of `lexopt_words` copies lists of words.
ghost use Rattle.std.specs.Prelude.{◌≡◌, ◌++◌, [], IfOk, OnOk, string_bytes};
ghost use Rattle.lexopt_line_spec.specs.Speller.{after_bytes};
ghost use Rattle.lexopt_spell.specs.Models.{after_view, continues, word_bytes};
ghost use Rattle.lexopt_spell.specs.Words.{onto_last, pushed};

use crate::forms::After;
use lexopt_words::os_string::OsString;
use std::alloc::{AllocError, Global};

/// A word to append, or text that continues the last word of the list.
#[derive(Clone, Copy)]
pub enum Word<'a> {
    /// A short option.
    Short(char, After<'a>),
    /// The short option `-`, which continues the cluster of the flag before it.
    Dash(After<'a>),
    /// A long option.
    Long(&'a String, After<'a>),
    /// The separator, `--`.
    Separator,
    /// A positional.
    Positional(&'a OsString),
}

// Appends the text after a name to the name.
fn with_after(name: String, after: After<'_>) -> Result<OsString, AllocError>
    ensures { IfOk result (λ word.
        word ≡ string_bytes name ++ after_bytes (after_view after.entry)) }
{
    let mut bytes = name.into_bytes();
    match after {
        After::Nothing => {}
        After::Attached(value) => bytes.extend_from_slice(value.as_bytes())?,
        After::Joined(value) => {
            bytes.push(b'=')?;
            bytes.extend_from_slice(value.as_bytes())?;
        }
    }
    Ok(OsString::from_vec(bytes))
}

// Copies a word.
fn to_os_string(alloc: Global, word: Word<'_>) -> Result<OsString, AllocError>
    ensures { IfOk result (λ bytes. bytes ≡ word_bytes word.entry) }
{
    match word {
        Word::Short(option, after) => with_after(format!(in alloc; "-{option}")?, after),
        Word::Dash(after) => with_after(String::from_str(alloc, "-")?, after),
        Word::Long(name, after) => with_after(format!(in alloc; "--{name}")?, after),
        Word::Separator => OsString::from_text(alloc, "--"),
        Word::Positional(word) => OsString::from_bytes(alloc, word.as_bytes()),
    }
}

// Appends bytes to the last word of the list.
fn extend_last(words: &mut Vec<OsString>, bytes: &OsString) -> Result<(), AllocError>
    ensures { OnOk result (words.new.items ≡ onto_last words.old.items bytes.now) }
{
    if let Some(last) = words.pop() {
        let mut longer = last.into_vec();
        longer.extend_from_slice(bytes.as_bytes())?;
        words.push(OsString::from_vec(longer))?;
    }
    Ok(())
}

// Appends a word to the list, or bytes to its last word.
fn push_word(alloc: Global, words: &mut Vec<OsString>, word: Word<'_>) -> Result<(), AllocError>
    ensures { OnOk result (words.new.items
        ≡ pushed (continues word.entry) words.old.items (word_bytes word.entry) []) }
{
    let bytes = to_os_string(alloc, word)?;
    match word {
        Word::Dash(_) => extend_last(words, &bytes),
        _ => Ok(words.push(bytes)?),
    }
}

/// Appends a word to the list, or bytes to its last word, and then more words.
///
/// # Errors
///
/// `AllocError` if an allocation fails. The list may then have lost its last word, or have only
/// some of the new ones.
pub fn push(
    alloc: Global,
    words: &mut Vec<OsString>,
    word: Word<'_>,
    more: &[OsString],
) -> Result<(), AllocError>
    ensures { OnOk result (words.new.items
        ≡ pushed (continues word.entry) words.old.items (word_bytes word.entry) more.now) }
{
    push_word(alloc, words, word)?;
    for other in more {
        words.push(OsString::from_bytes(alloc, other.as_bytes())?)?;
    }
    Ok(())
}

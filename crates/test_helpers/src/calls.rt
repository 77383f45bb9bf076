//! Calls of a parser, and comparisons of their results with the expected ones.
use lexopt_base::{Arg, Error, OsString, Parser};

/// Whether `next` returns this short option.
pub fn reads_short(parser: &mut Parser, wanted: char) -> Result<bool, Error> {
    match parser.next()? {
        Some(Arg::Short(option)) => Ok(option == wanted),
        _ => Ok(false),
    }
}

/// Whether `next` returns this long option.
pub fn reads_long(parser: &mut Parser, wanted: &str) -> Result<bool, Error> {
    match parser.next()? {
        Some(Arg::Long(name)) => Ok(name == wanted),
        _ => Ok(false),
    }
}

/// Whether `next` returns a positional with these bytes.
pub fn reads_word(parser: &mut Parser, wanted: &[u8]) -> Result<bool, Error> {
    match parser.next()? {
        Some(Arg::Value(word)) => Ok(word.as_bytes() == wanted),
        _ => Ok(false),
    }
}

/// Whether `next` returns `None`.
pub fn is_at_end(parser: &mut Parser) -> Result<bool, Error> {
    Ok(parser.next()?.is_none())
}

/// Whether `value` returns these bytes.
pub fn takes(parser: &mut Parser, wanted: &[u8]) -> Result<bool, Error> {
    Ok(parser.value()?.as_bytes() == wanted)
}

/// Whether a view or `optional_value` returned a word with these bytes.
pub fn gives(word: Option<OsString>, wanted: &[u8]) -> bool {
    match word {
        Some(word) => word.as_bytes() == wanted,
        None => false,
    }
}

/// Whether a parser has this name, and these are its unread words.
pub fn has_words(
    parser: &mut Parser,
    name: Option<&str>,
    words: &[OsString],
) -> Result<bool, Error> {
    let is_named = parser.bin_name() == name;
    let mut unread = parser.raw_args()?;
    let are_there = words
        .iter()
        .all(|word| unread.next().as_ref() == Some(word));
    Ok(is_named && are_there && unread.next().is_none())
}

//! Words, and parsers of them.
use lexopt_base::{Error, OsString, Parser};
use std::alloc::{AllocError, Global};

/// The words of a line, which has one space between two words. An empty word is between two spaces.
pub fn words_of(alloc: Global, line: &[u8]) -> Result<Vec<OsString>, AllocError> {
    let mut words = Vec::new(alloc);
    if !line.is_empty() {
        for word in line.split(|byte| *byte == b' ') {
            words.push(OsString::from_bytes(alloc, word)?)?;
        }
    }
    Ok(words)
}

/// Words with these bytes.
pub fn words_from(alloc: Global, list: &[&[u8]]) -> Result<Vec<OsString>, AllocError> {
    let mut words = Vec::with_capacity(alloc, list.len())?;
    for bytes in list {
        words.push(OsString::from_bytes(alloc, bytes)?)?;
    }
    Ok(words)
}

/// A parser of these words, without a binary name.
pub fn parser_of(alloc: Global, words: &[&[u8]]) -> Result<Parser, Error> {
    Parser::from_args(alloc, words_from(alloc, words)?)
}

/// A parser of these words, the first of which is the binary name.
pub fn named(alloc: Global, words: &[&[u8]]) -> Result<Parser, Error> {
    Parser::from_iter(alloc, words_from(alloc, words)?)
}

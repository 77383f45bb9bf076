//! The words that a program was called with: `arguments` and `from_env_os`, which take any bytes,
//! and `from_env`, which refuses words that are not UTF-8.
use crate::errors::prints;
use lexopt_base::{Error, OsString, Parser};
use lexopt_words::os_string::arguments;
use std::alloc::{AllocError, Global};
use std::env;
use std::env::Env;
use test_helpers::calls::has_words;
use test_helpers::environments::Arguments;
use test_helpers::parsers::words_from;

// Whether a parser of these words has this name, and its unread words are those after the first.
fn is_made_of(parser: &mut Parser, words: &[OsString], name: Option<&str>) -> Result<bool, Error> {
    has_words(parser, name, words.get(1..).unwrap_or(&[]))
}

// Whether `arguments` returns these words, and `from_env_os` a parser of them with this name.
fn has_all_words(
    rt: &impl Env,
    alloc: Global,
    words: &[OsString],
    name: Option<&str>,
) -> Result<bool, Error> {
    let are_read = arguments(rt, alloc)?.as_slice() == words;
    Ok(is_made_of(&mut Parser::from_env_os(rt, alloc)?, words, name)? && are_read)
}

// Whether both calls return these words if the environment has them.
fn are_read(alloc: Global, words: &[OsString], name: Option<&str>) -> Result<bool, Error> {
    has_all_words(&Arguments { words }, alloc, words, name)
}

// The same for the words of a line.
fn is_read(alloc: Global, line: &[&[u8]], name: Option<&str>) -> Result<bool, Error> {
    are_read(alloc, &words_from(alloc, line)?, name)
}

// A word of this length. Its bytes count up from `first`, and go on with 01 after FF.
fn word_of_length(alloc: Global, length: usize, first: u8) -> Result<OsString, AllocError> {
    let mut bytes = Vec::with_capacity(alloc, length)?;
    let mut byte = first;
    for _ in 0..length {
        bytes.push(byte)?;
        byte = byte.checked_add(1).unwrap_or(1);
    }
    Ok(OsString::from_vec(bytes))
}

// A line with damage.
const NO_TEXT: [&[u8]; 2] = [b"tool", b"foo\xff"];

// Lines, each with the name of its parser.
static LINES: [(&[&[u8]], Option<&str>); 9] = [
    (&[], None),
    (&[b""], Some("")),
    (&[b"", b"", b"a", b""], Some("")),
    (&[b"tool"], Some("tool")),
    (&[b"tool", b"-x", b"--", b"a b", b"\xc2\xb5"], Some("tool")),
    (
        &[b"tool", b"a\xff", b"\xff", b"-\xff", b"--\xff=\xfe"],
        Some("tool"),
    ),
    (&[b"\xfftool\xc2", b"-x"], Some("\u{FFFD}tool\u{FFFD}")),
    (&[b"\x80", b"\x80"], Some("\u{FFFD}")),
    (&NO_TEXT, Some("tool")),
];

#[test]
fn lines_of_any_bytes(rt: HostRuntime) {
    for (line, name) in LINES.iter() {
        assert!(rt;
            is_read(rt.alloc(), line, *name).expect(&rt, "success"),
            "{name:?}"
        );
    }
}

// Words of these lengths. The word at place N begins with the byte N + 1.
fn words_of_lengths(alloc: Global, lengths: &[usize]) -> Result<Vec<OsString>, AllocError> {
    let mut words = Vec::new(alloc);
    for (length, first) in lengths.iter().zip(1..=u8::MAX) {
        words.push(word_of_length(alloc, *length, first)?)?;
    }
    Ok(words)
}

// Lengths around the first three sizes of the buffer for a word, which are 512, 8,192 and 131,072
// bytes, with short words between them. The longest length that Linux allows is 131,071. The word of
// 255 bytes has each byte except 00.
const LENGTHS: [usize; 18] = [
    5, 255, 1, 511, 0, 512, 2, 513, 3, 8_192, 1, 8_193, 0, 131_071, 4, 131_073, 513, 1,
];

// Whether words of these lengths are read whole.
fn lengths_are_read(alloc: Global, lengths: &[usize]) -> Result<bool, Error> {
    let words = words_of_lengths(alloc, lengths)?;
    Ok(words.len() == lengths.len() && are_read(alloc, &words, Some("\u{1}\u{2}\u{3}\u{4}\u{5}"))?)
}

#[test]
fn long_and_short_words(rt: HostRuntime) {
    assert!(rt; lengths_are_read(rt.alloc(), &LENGTHS).expect(&rt, "success"));
}

// This many words. Each is the number of its place.
fn numbered_words(alloc: Global, count: usize) -> Result<Vec<OsString>, AllocError> {
    let mut words = Vec::new(alloc);
    for place in 0..count {
        words.push(OsString::from_string(format!(in alloc; "{place}")?))?;
    }
    Ok(words)
}

#[test]
fn many_words(rt: HostRuntime) {
    let words = numbered_words(rt.alloc(), 2_000).expect(&rt, "success");
    assert!(rt; are_read(rt.alloc(), &words, Some("0")).expect(&rt, "success"));
}

// Whether an error is a `Custom` error that prints this message.
fn is_custom(alloc: Global, error: &Error, message: &str) -> Result<bool, AllocError> {
    Ok(matches!(error, Error::Custom(_)) && prints(alloc, error, message)?)
}

// Whether `from_env` refuses these words with this message.
fn is_refused(alloc: Global, words: &[OsString], message: &str) -> Result<bool, AllocError> {
    match Parser::from_env(&(Arguments { words }, alloc), alloc) {
        Err(error) => is_custom(alloc, &error, message),
        Ok(_) => Ok(false),
    }
}

// `from_env` refuses a word with damage, which the other two calls read.
#[test]
fn words_that_are_no_text(rt: HostRuntime) {
    let words = words_from(rt.alloc(), &NO_TEXT).expect(&rt, "memory");
    assert!(rt; is_refused(rt.alloc(), &words, "arguments unavailable").expect(&rt, "success"));
}

// Whether `from_env` makes a parser of these words with this name.
fn are_texts<R: Env + AllocGlobal>(
    rt: &R,
    words: &[OsString],
    name: Option<&str>,
) -> Result<bool, Error> {
    is_made_of(&mut Parser::from_env(rt, rt.alloc())?, words, name)
}

// The same for the words of a line.
fn is_text(alloc: Global, line: &[&[u8]], name: Option<&str>) -> Result<bool, Error> {
    let words = &words_from(alloc, line)?;
    are_texts(&(Arguments { words }, alloc), words, name)
}

#[test]
fn words_that_are_texts(rt: HostRuntime) {
    let line: [&[u8]; 3] = [b"tool", b"-x", b"\xc2\xb5"];
    assert!(rt; is_text(rt.alloc(), &line, Some("tool")).expect(&rt, "success"));
    assert!(rt; is_text(rt.alloc(), &[], None).expect(&rt, "success"));
}

#[test]
fn words_of_this_program(rt: HostRuntime) {
    let words: Vec<OsString> = env::args(&rt)
        .expect(&rt, "success")
        .map(OsString::from_string)
        .collect(rt.alloc())
        .expect(&rt, "success");
    let name = env::args(&rt).expect(&rt, "success").next();
    assert!(rt; has_all_words(&rt, rt.alloc(), &words, name.as_deref()).expect(&rt, "success"));
    assert!(rt;
        !words.is_empty() && are_texts(&rt, &words, name.as_deref()).expect(&rt, "success")
    );
}

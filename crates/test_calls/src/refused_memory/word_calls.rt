//! Errors of arguments and of conversions. Each call is made twice. At most one allocation fails, so
//! at least one of the two calls has the expected result.
use crate::refused_memory::{Outcome, check_outcome, out_of_memory_in};
use lexopt::{Arg, Error, OsString, ValueExt};
use std::str::FromStr;
use std::test::Fail;

// How a call went that is expected to report the option `--name` as unexpected.
fn unexpected_option(error: &Error) -> Outcome {
    match error {
        Error::UnexpectedOption(option) => Outcome::of(option.as_str() == "--name"),
        Error::OutOfMemory => Outcome::OutOfMemory,
        _ => Outcome::Wrong,
    }
}

#[test]
fn unexpected_options(rt: HostRuntime) -> Result<(), Fail> {
    let first = unexpected_option(&Arg::Long("name").unexpected(rt.alloc()));
    let second = unexpected_option(&Arg::Long("name").unexpected(rt.alloc()));
    check_outcome(first.and_again(second), "unexpected")
}

// How a call went that is expected to refuse this word, which is not a number or not UTF-8.
fn refused_word(found: &Result<u8, Error>, word: &OsString) -> Outcome {
    match found {
        Err(Error::ParsingFailed { value, .. }) => {
            Outcome::of(word.to_str() == Some(value.as_str()))
        }
        Err(Error::NonUnicodeValue(copy)) => Outcome::of(word.to_str().is_none() && copy == word),
        Err(Error::OutOfMemory) => Outcome::OutOfMemory,
        _ => Outcome::Wrong,
    }
}

// Calls `parse` twice on a word that it refuses.
fn parse_twice(word: &OsString) -> Outcome {
    let first = refused_word(&word.parse::<u8>(), word);
    let second = refused_word(&word.parse::<u8>(), word);
    first.and_again(second)
}

// Calls `parse_with` twice on a word that it refuses.
fn parse_with_twice(word: &OsString) -> Outcome {
    let first = refused_word(&word.parse_with(u8::from_str), word);
    let second = refused_word(&word.parse_with(u8::from_str), word);
    first.and_again(second)
}

#[test]
fn refused_values(rt: HostRuntime) -> Result<(), Fail> {
    for bytes in [b"1x".as_slice(), b"1\xff"] {
        let Ok(word) = OsString::from_bytes(rt.alloc(), bytes) else {
            return out_of_memory_in("from_bytes");
        };
        check_outcome(parse_twice(&word), "parse")?;
        check_outcome(parse_with_twice(&word), "parse_with")?;
    }
    Ok(())
}

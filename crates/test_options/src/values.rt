//! Conversions of values, and what is printed if one fails. No clause states the texts of errors of
//! `FromStr`.
use crate::archive::{Maybe, Value, Values, archive_of_files};
use lexopt_options::{Error, OsString, USAGE_ERROR, UsageError, ValueExt};
use std::alloc::{AllocError, Global};

// What converts a word.
#[derive(Clone, Copy)]
enum Call {
    Value,
    Maybe,
    Values,
    // `parse` of a word that belongs to no option.
    Parse,
}

// The number that this call makes of a word, or the mistake.
fn converted(call: Call, word: &OsString) -> Result<u32, UsageError<'static>> {
    let options = archive_of_files();
    match call {
        Call::Value => options.parse_value::<u32>(Value::Output, word),
        Call::Maybe => options.parse_maybe::<u32>(Maybe::Backup, word),
        Call::Values => options.parse_values::<u32>(Values::Exclude, word),
        Call::Parse => match word.parse::<u32>() {
            Ok(number) => Ok(number),
            Err(error) => Err(UsageError::from(error)),
        },
    }
}

// Whether this is printed for a mistake that the program found, with this exit status.
fn is_reported(
    alloc: Global,
    error: UsageError<'static>,
    text: &str,
    status: u8,
) -> Result<bool, AllocError> {
    let options = archive_of_files();
    let report = options.report(error);
    Ok(report.status() == status && report.to_string(alloc)?.as_str() == text)
}

// Whether the call makes 7 of `7`.
fn makes_seven(alloc: Global, call: Call) -> Result<bool, AllocError> {
    let word = OsString::from_text(alloc, "7")?;
    Ok(matches!(converted(call, &word), Ok(7)))
}

// Whether the call refuses this word, and this is printed.
fn is_refused(alloc: Global, call: Call, word: &[u8], text: &str) -> Result<bool, AllocError> {
    let word = OsString::from_bytes(alloc, word)?;
    match converted(call, &word) {
        Ok(_) => Ok(false),
        Err(error) => is_reported(alloc, error, text, USAGE_ERROR),
    }
}

// Calls, words that they refuse, and what is printed.
static ROWS: [(Call, &[u8], &str); 4] = [
    (
        Call::Value,
        b"x",
        "archive: invalid value \"x\" for '--output': invalid digit found in string\n\
        Try 'archive --help' for more information.",
    ),
    (
        Call::Maybe,
        b"7\xFF",
        "archive: invalid value \"7\\xFF\" for '--backup': not UTF-8\n\
        Try 'archive --help' for more information.",
    ),
    (
        Call::Values,
        b"-1",
        "archive: invalid value \"-1\" for '--exclude': invalid digit found in string\n\
        Try 'archive --help' for more information.",
    ),
    (
        Call::Parse,
        b"",
        "archive: invalid value \"\": cannot parse integer from empty string\n\
        Try 'archive --help' for more information.",
    ),
];

#[test]
fn conversions(rt: HostRuntime) {
    for (call, word, text) in ROWS.iter() {
        assert!(rt;
            makes_seven(rt.alloc(), *call).expect(&rt, "memory")
                && is_refused(rt.alloc(), *call, word, text).expect(&rt, "memory"),
            "{text}"
        );
    }
    // Running out of memory is not a mistake in the line.
    let error = UsageError::from(Error::OutOfMemory);
    assert!(rt; is_reported(rt.alloc(), error, "archive: out of memory", 1).expect(&rt, "memory"));
}

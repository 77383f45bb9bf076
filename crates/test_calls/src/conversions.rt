//! Conversions of values. No clause states the text of an error of `FromStr`.
use crate::errors::prints;
use lexopt_base::prelude::ValueExt;
use lexopt_base::{Error, OsString};
use std::alloc::{AllocError, Global};
use std::fmt;

// An error of the program's own.
#[derive(Debug, Drop)]
struct Bad;

impl fmt::Display for Bad {
    fn fmt<W: fmt::Write>(&self, f: &mut fmt::Formatter<W>) -> fmt::Result {
        f.write_str("bad")
    }
}

impl std::error::Error for Bad {}

// What converts a word.
#[derive(Clone, Copy)]
enum Call {
    // `string`, and the length of the text.
    Text,
    Number,
    // `parse_with` and a function that returns 0, or that fails.
    Zero,
    Failure,
}

// The number that this call makes of a word.
fn converted(word: OsString, call: Call) -> Result<i32, Error> {
    match call {
        Call::Text => Ok(i32::try_from(word.string()?.len()).unwrap_or(-1)),
        Call::Number => word.parse::<i32>(),
        Call::Zero => word.parse_with(|_text| -> Result<i32, Bad> { Ok(0) }),
        Call::Failure => word.parse_with(|_text| -> Result<i32, Bad> { Err(Bad) }),
    }
}

// Whether the call makes this number of a word, or refuses it with this message.
fn is_converted(
    alloc: Global,
    call: Call,
    word: &[u8],
    wanted: Result<i32, &str>,
) -> Result<bool, AllocError> {
    match (converted(OsString::from_bytes(alloc, word)?, call), wanted) {
        (Ok(found), Ok(number)) => Ok(found == number),
        (Err(error), Err(message)) => prints(alloc, &error, message),
        _ => Ok(false),
    }
}

const DAMAGED: &str = "argument is invalid unicode: \"foo\\xFF\"";

static ROWS: [(Call, &[u8], Result<i32, &str>); 10] = [
    (Call::Text, b"", Ok(0)),
    (Call::Text, b"-10", Ok(3)),
    (Call::Text, b"foo\xff", Err(DAMAGED)),
    (Call::Number, b"-10", Ok(-10)),
    (
        Call::Number,
        b"foo",
        Err("cannot parse argument \"foo\": invalid digit found in string"),
    ),
    (Call::Number, b"foo\xff", Err(DAMAGED)),
    (Call::Zero, b"-10", Ok(0)),
    // The function is not called.
    (Call::Zero, b"foo\xff", Err(DAMAGED)),
    (
        Call::Failure,
        b"-10",
        Err("cannot parse argument \"-10\": bad"),
    ),
    (Call::Failure, b"foo\xff", Err(DAMAGED)),
];

#[test]
fn conversions(rt: HostRuntime) {
    for (call, word, wanted) in ROWS.iter() {
        assert!(rt;
            is_converted(rt.alloc(), *call, word, *wanted).expect(&rt, "success"),
            "{word:?}: {wanted:?}"
        );
    }
}

#[test]
fn cause_of_a_failed_parse(rt: HostRuntime) {
    let word = OsString::from_text(rt.alloc(), "foo").expect(&rt, "success");
    assert!(rt; matches!(word.parse::<i32>(), Err(error) if error.cause().is_some()));
}

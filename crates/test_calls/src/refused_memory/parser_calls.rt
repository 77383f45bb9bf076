//! Calls of a parser that read a line. If one runs out of memory, it reads nothing, and can be made
//! again.
use crate::refused_memory::{Outcome, check_outcome, out_of_memory_in};
use lexopt::{Error, Parser};
use std::alloc::Global;
use std::test::Fail;
use test_helpers::calls::{is_at_end, reads_long, reads_short, reads_word, takes};
use test_helpers::parsers::parser_of;

// How a call went that is expected to read an option.
fn read_outcome(is_read: &Result<bool, Error>) -> Outcome {
    match is_read {
        Ok(is_read) => Outcome::of(*is_read),
        Err(Error::OutOfMemory) => Outcome::OutOfMemory,
        Err(_) => Outcome::Wrong,
    }
}

// How `next` went, which is expected to read the option `out`.
fn long_outcome(parser: &mut Parser) -> Outcome {
    read_outcome(&reads_long(parser, "out"))
}

// Reads that option, again if memory runs out, and then its value `x`.
fn read_long_option(parser: &mut Parser) -> Result<Outcome, Error> {
    let mut outcome = long_outcome(parser);
    if let Outcome::OutOfMemory = outcome {
        outcome = outcome.and_again(long_outcome(parser));
    }
    Ok(outcome.only_if(takes(parser, b"x")?))
}

// `next` allocates once, for the name. So it runs out of memory in one run, and in each other run
// that has a parser it reads the option, even if the next allocation would fail.
#[test]
fn long_option(rt: HostRuntime) -> Result<(), Fail> {
    let Ok(mut parser) = parser_of(rt.alloc(), &[b"--out=x"]) else {
        return out_of_memory_in("from_args");
    };
    check_outcome(read_long_option(&mut parser)?, "next")
}

// A call after the option `-a` was read.
#[derive(Clone, Copy)]
enum Call {
    // These report that `-a` has the value `b` and takes none.
    Next,
    RawArgs,
    // These report that `-a` has no value.
    Value,
    Values,
}

// The error of this call.
fn error_of(parser: &mut Parser, call: Call) -> Option<Error> {
    match call {
        Call::Next => parser.next().err(),
        Call::RawArgs => parser.raw_args().err(),
        Call::Value => parser.value().err(),
        Call::Values => parser.values().err(),
    }
}

// Whether this call reports that `-a` has a value.
fn reports_value(call: Call) -> bool {
    matches!(call, Call::Next | Call::RawArgs)
}

// How this call went, which has this error.
fn error_outcome(error: &Option<Error>, call: Call) -> Outcome {
    match error {
        Some(Error::UnexpectedValue { option, value }) => Outcome::of(
            reports_value(call) && option.as_str() == "-a" && value.as_bytes() == b"b".as_slice(),
        ),
        Some(Error::MissingValue { option }) => {
            Outcome::of(!reports_value(call) && option.as_deref() == Some("-a"))
        }
        Some(Error::OutOfMemory) => Outcome::OutOfMemory,
        _ => Outcome::Wrong,
    }
}

// How this call goes.
fn outcome_of(parser: &mut Parser, call: Call) -> Outcome {
    error_outcome(&error_of(parser, call), call)
}

// Whether the parser then reads what comes after the option and its value.
fn reads_on(parser: &mut Parser, call: Call) -> Result<bool, Error> {
    match call {
        Call::Next => reads_word(parser, b"c"),
        Call::RawArgs => takes(parser, b"c"),
        Call::Value => is_at_end(parser),
        Call::Values => reads_short(parser, 'b'),
    }
}

// Reads `-a`, makes this call, again if memory runs out, and reads on. If memory runs out, a value
// of `-a` stays pending.
fn read_past(parser: &mut Parser, call: Call) -> Result<Outcome, Error> {
    let is_read = reads_short(parser, 'a')?;
    let mut outcome = outcome_of(parser, call);
    if let Outcome::OutOfMemory = outcome {
        let is_pending = parser.try_raw_args().is_none();
        let second = outcome_of(parser, call);
        let has_value = reports_value(call);
        outcome = outcome.and_again(second).only_if(is_pending == has_value);
    }
    Ok(outcome.only_if(is_read && reads_on(parser, call)?))
}

// Makes this call on a line of these words.
fn check_call(alloc: Global, words: &[&[u8]], call: Call, name: &str) -> Result<(), Fail> {
    let Ok(mut parser) = parser_of(alloc, words) else {
        return out_of_memory_in("from_args");
    };
    check_outcome(read_past(&mut parser, call)?, name)
}

#[test]
fn unexpected_value(rt: HostRuntime) -> Result<(), Fail> {
    check_call(rt.alloc(), &[b"-a=b", b"c"], Call::Next, "next")
}

#[test]
fn missing_value(rt: HostRuntime) -> Result<(), Fail> {
    check_call(rt.alloc(), &[b"-a"], Call::Value, "value")
}

// If there is no value, `values` allocates only for the error.
#[test]
fn missing_values(rt: HostRuntime) -> Result<(), Fail> {
    check_call(rt.alloc(), &[b"-a", b"-b"], Call::Values, "values")
}

// `raw_args` drops the value, and `value` then takes the next word.
#[test]
fn pending_value(rt: HostRuntime) -> Result<(), Fail> {
    check_call(rt.alloc(), &[b"-ab", b"c"], Call::RawArgs, "raw_args")
}

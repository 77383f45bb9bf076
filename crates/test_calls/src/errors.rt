//! Errors: what they are made from, what they hold, and what they print. Errors of scripts, and
//! their exit status.
use lexopt_base::{Arg, Error, OsString};
use lexopt_calls::run_error::RunError;
use std::alloc::{AllocError, Global};
use std::process::Abort;

/// Whether `Display` and `Debug` of an error both write this message.
pub fn prints(alloc: Global, error: &Error, message: &str) -> Result<bool, AllocError> {
    let displayed = error.to_string(alloc)?;
    let debugged = format!(in alloc; "{error:?}")?;
    Ok(displayed.as_str() == message && debugged.as_str() == message)
}

// How an error is made.
#[derive(Clone, Copy)]
enum Made {
    // A value of this option is missing.
    MissingOf(&'static str),
    // This option, word or value is unexpected.
    OfShort(char),
    OfLong(&'static str),
    OfWord(&'static [u8]),
    OfValue(&'static str, &'static [u8]),
    // These bytes are not UTF-8.
    OfBytes(&'static [u8]),
    // This is the program's own message.
    OfStr(&'static str),
    OfString(&'static str),
    // Memory ran out.
    OfAlloc,
}

fn text_of(rt: &(impl Abort + AllocGlobal), text: &str) -> String {
    String::from_str(rt.alloc(), text).expect(rt, "memory")
}

fn word_of(rt: &(impl Abort + AllocGlobal), bytes: &[u8]) -> OsString {
    OsString::from_bytes(rt.alloc(), bytes).expect(rt, "memory")
}

fn error_of(rt: &(impl Abort + AllocGlobal), made: Made) -> Error {
    match made {
        Made::MissingOf(option) => Error::MissingValue {
            option: Some(text_of(rt, option)),
        },
        Made::OfShort(option) => Arg::Short(option).unexpected(rt.alloc()),
        Made::OfLong(name) => Arg::Long(name).unexpected(rt.alloc()),
        Made::OfWord(word) => Arg::Value(word_of(rt, word)).unexpected(rt.alloc()),
        Made::OfValue(option, value) => Error::UnexpectedValue {
            option: text_of(rt, option),
            value: word_of(rt, value),
        },
        Made::OfBytes(word) => Error::from(word_of(rt, word)),
        Made::OfStr(message) => Error::from(message),
        Made::OfString(message) => Error::from(text_of(rt, message)),
        Made::OfAlloc => Error::from(AllocError),
    }
}

static MESSAGES: [(Made, &str); 11] = [
    (Made::MissingOf("-\""), "missing argument for option '-\"'"),
    (Made::OfShort('o'), "invalid option '-o'"),
    (Made::OfLong("opt"), "invalid option '--opt'"),
    (Made::OfWord(b"foo"), "unexpected argument \"foo\""),
    (
        Made::OfWord(b"\0\r\x1f\xe2\x82A"),
        "unexpected argument \"\\0\\r\\u{1f}\\xE2\\x82A\"",
    ),
    (
        Made::OfValue("--", b"\n"),
        "unexpected argument for option '--': \"\\n\"",
    ),
    (Made::OfBytes(b""), "argument is invalid unicode: \"\""),
    (
        Made::OfBytes(b"foo\xff"),
        "argument is invalid unicode: \"foo\\xFF\"",
    ),
    (
        Made::OfStr("this is an error message"),
        "this is an error message",
    ),
    (
        Made::OfString("this is an error message"),
        "this is an error message",
    ),
    (Made::OfAlloc, "out of memory"),
];

// Whether an error that is made in this way prints this message.
fn has_message(rt: &(impl Abort + AllocGlobal), made: Made, message: &str) -> bool {
    prints(rt.alloc(), &error_of(rt, made), message).expect(rt, "memory")
}

#[test]
fn messages(rt: HostRuntime) {
    for (made, message) in MESSAGES.iter() {
        assert!(rt; has_message(&rt, *made, message), "{message}");
    }
}

// Whether `anyhow` keeps the first bytes of a message of 121 bytes, but not all of them.
fn keeps_a_front(alloc: Global) -> Result<bool, AllocError> {
    let whole = "x".repeat(alloc, 121)?;
    let kept = Error::from(whole.clone()?).to_string(alloc)?;
    Ok(kept.as_str() != whole.as_str() && kept.as_bytes().get(..100) == whole.as_bytes().get(..100))
}

#[test]
fn long_message(rt: HostRuntime) {
    assert!(rt; keeps_a_front(rt.alloc()).expect(&rt, "success"));
}

// Whether the cause of an error prints this text. `None` means that there is no cause.
fn has_cause(rt: &(impl Abort + AllocGlobal), made: Made, by: Option<&str>) -> bool {
    match error_of(rt, made).cause() {
        Some(cause) => Some(cause.to_string(rt.alloc()).expect(rt, "memory").as_str()) == by,
        None => by.is_none(),
    }
}

#[test]
fn causes(rt: HostRuntime) {
    let custom = "this is an error message";
    assert!(rt; has_cause(&rt, Made::OfStr(custom), Some(custom)));
    assert!(rt; has_cause(&rt, Made::OfShort('o'), None));
}

// Whether an error of a script prints this message, and has this status.
fn ends_with(
    alloc: Global,
    error: RunError,
    message: &str,
    status: u8,
) -> Result<bool, AllocError> {
    Ok(error.to_string(alloc)?.as_str() == message && error.status() == status)
}

static RUN_ERRORS: [(RunError, &str, u8); 5] = [
    (RunError::BadLine(12), "line 12 refused", 2),
    (RunError::TooLong, "script too long", 2),
    (RunError::ReadFailed, "read failed", 1),
    (RunError::WriteFailed, "write failed", 1),
    (RunError::NoMemory, "out of memory", 1),
];

#[test]
fn run_errors(rt: HostRuntime) {
    for (error, message, status) in RUN_ERRORS.iter() {
        assert!(rt;
            ends_with(rt.alloc(), *error, message, *status).expect(&rt, "success"),
            "{message}"
        );
    }
    assert!(rt; RunError::from(AllocError) == RunError::NoMemory);
}

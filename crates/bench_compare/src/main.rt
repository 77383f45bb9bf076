//! Makes calls and writes their results. `bench/compare` compares these with the results of the Rust
//! crate, of which `bench/src/bin/compare` asks the same.
//!
//! Each line of standard input is a case: a constructor, words and calls, with a space between
//! them. The output for a case is a line: the result of each call and a space, and then the unread
//! line, which is the pending value and the words.
//!
//! - The constructor is `a` for `from_args`, or `i` for `from_iter`.
//! - Each word is a point and then its bytes, in hexadecimal digits.
//! - Each call is a letter and a digit N: `n` is `next`; `u` is `next`, and then `unexpected` of
//!   the argument; `v` is `value`; `p` is `value`, and then `parse`, `parse_with` and `string` of
//!   the value; `o` is `optional_value`; `s`, `r`, `t` are `values`, `raw_args`, `try_raw_args`, and
//!   then N items; `l` is `peek` and `as_slice`; `i` is `next_if` with the Nth wanted word; `e` is
//!   `set_short_equals`, false if N is 0; `c` is `clone`, after which the copy is used; `b` is
//!   `bin_name`.
#![tactic(auto)]

mod answers;

use answers::Answers;
use anyhow::Result;
use lexopt_base::prelude::ValueExt;
use lexopt_base::{Arg, Error, OsString, Parser, RawArgs};
use std::alloc::{AllocError, Global};
use std::io::{self, Read, Write};

// The words that are wanted from a view.
const WANTED: [&[u8]; 3] = [b"a", b"-a", b"--"];

fn next(parser: &mut Parser, answers: &mut Answers) -> Result<(), Error> {
    match parser.next()? {
        Some(Arg::Short(option)) => answers.bytes(b'S', &u32::from(option).to_be_bytes()),
        Some(Arg::Long(name)) => answers.bytes(b'L', name.as_bytes()),
        Some(Arg::Value(word)) => answers.bytes(b'P', word.as_bytes()),
        None => answers.letter(b'-'),
    }
}

fn unexpected(alloc: Global, parser: &mut Parser, answers: &mut Answers) -> Result<(), Error> {
    match parser.next()? {
        Some(argument) => Err(argument.unexpected(alloc)),
        None => answers.letter(b'-'),
    }
}

fn number(number: Result<i32, Error>, answers: &mut Answers) -> Result<(), Error> {
    match number {
        Ok(number) => answers.bytes(b'I', &number.to_be_bytes()),
        Err(error) => answers.error(&error),
    }
}

// A value as a number, by `parse` and by `parse_with`, and then as a text, from which a custom
// error is made.
fn converted(parser: &mut Parser, answers: &mut Answers) -> Result<(), Error> {
    let value = parser.value()?;
    number(value.parse(), answers)?;
    number(
        value.parse_with(|text| i32::from_str_radix(text, 16)),
        answers,
    )?;
    Err(Error::from(value.string()?))
}

fn values(parser: &mut Parser, count: usize, answers: &mut Answers) -> Result<(), Error> {
    let mut view = parser.values()?;
    for _ in 0..count {
        answers.word(view.next())?;
    }
    Ok(())
}

// Takes words from a view.
fn take(view: &mut RawArgs<'_>, count: usize, answers: &mut Answers) -> Result<(), Error> {
    for _ in 0..count {
        answers.word(view.next())?;
    }
    Ok(())
}

fn raw(parser: &mut Parser, count: usize, answers: &mut Answers) -> Result<(), Error> {
    let mut view = parser.raw_args()?;
    take(&mut view, count, answers)
}

fn try_raw(parser: &mut Parser, count: usize, answers: &mut Answers) -> Result<(), Error> {
    match parser.try_raw_args() {
        Some(mut view) => take(&mut view, count, answers),
        None => answers.letter(b'B'),
    }
}

// Looks at the unread words.
fn look(parser: &mut Parser, answers: &mut Answers) -> Result<(), Error> {
    let view = parser.raw_args()?;
    match view.peek() {
        Some(word) => answers.bytes(b'V', word.as_bytes())?,
        None => answers.letter(b'-')?,
    }
    answers.words(view.as_slice())
}

// Takes the next word if it is the wanted one.
fn take_if(parser: &mut Parser, number: usize, answers: &mut Answers) -> Result<(), Error> {
    let wanted = *WANTED.get(number).unwrap_or(&WANTED[0]);
    let mut view = parser.raw_args()?;
    answers.word(view.next_if(|word| word.as_bytes() == wanted))
}

fn bin_name(parser: &Parser, answers: &mut Answers) -> Result<(), Error> {
    match parser.bin_name() {
        Some(name) => answers.bytes(b'V', name.as_bytes()),
        None => answers.letter(b'-'),
    }
}

// The unread line: the pending value, and the words.
fn unread_line(parser: &mut Parser, answers: &mut Answers) -> Result<(), Error> {
    answers.word(parser.optional_value())?;
    match parser.try_raw_args() {
        Some(view) => answers.words(view.as_slice()),
        None => answers.letter(b'B'),
    }
}

fn value(parser: &mut Parser, answers: &mut Answers) -> Result<(), Error> {
    answers.bytes(b'V', parser.value()?.as_bytes())
}

fn use_a_copy(parser: &mut Parser) -> Result<(), Error> {
    *parser = parser.clone()?;
    Ok(())
}

// Makes a call.
fn make_call(
    alloc: Global,
    parser: &mut Parser,
    call: u8,
    number: usize,
    answers: &mut Answers,
) -> Result<(), Error> {
    match call {
        b'n' => next(parser, answers),
        b'u' => unexpected(alloc, parser, answers),
        b'v' => value(parser, answers),
        b'p' => converted(parser, answers),
        b'o' => answers.word(parser.optional_value()),
        b's' => values(parser, number, answers),
        b'r' => raw(parser, number, answers),
        b't' => try_raw(parser, number, answers),
        b'l' => look(parser, answers),
        b'i' => take_if(parser, number, answers),
        b'e' => {
            parser.set_short_equals(number > 0);
            Ok(())
        }
        b'c' => use_a_copy(parser),
        b'b' => bin_name(parser, answers),
        _ => Err(Error::from("no call has this letter")),
    }
}

// The value of a hexadecimal digit.
fn digit(byte: u8) -> u8 {
    match byte {
        b'0'..=b'9' => byte - b'0',
        b'a'..=b'f' => byte - b'a' + 10,
        _ => 0,
    }
}

// A word written in hexadecimal digits.
fn word(alloc: Global, text: &str) -> Result<OsString, AllocError> {
    let mut bytes = Vec::with_capacity(alloc, text.len() / 2)?;
    for pair in text.as_bytes().chunks(2) {
        if let [high, low] = pair {
            bytes.push(digit(*high) << 4 | digit(*low))?;
        }
    }
    Ok(OsString::from_vec(bytes))
}

fn words(alloc: Global, text: &str) -> Result<Vec<OsString>, AllocError> {
    let mut words = Vec::new(alloc);
    for text in text.split('.').skip(1) {
        words.push(word(alloc, text)?)?;
    }
    Ok(words)
}

fn parser_of(alloc: Global, constructor: &str, words: Vec<OsString>) -> Result<Parser, Error> {
    match constructor {
        "a" => Parser::from_args(alloc, words),
        "i" => Parser::from_iter(alloc, words),
        _ => Err(Error::from("no constructor has this letter")),
    }
}

// Makes the call of a letter and a digit, and writes its result.
fn write_call(
    alloc: Global,
    parser: &mut Parser,
    call: &[u8],
    answers: &mut Answers,
) -> Result<(), Error> {
    let [call, number] = call else {
        return Err(Error::from("a call is a letter and a digit"));
    };
    let number = usize::from(digit(*number));
    if let Err(error) = make_call(alloc, parser, *call, number, answers) {
        answers.error(&error)?;
    }
    answers.letter(b' ')
}

// Makes these calls, and writes the unread line.
fn make_calls(
    alloc: Global,
    parser: &mut Parser,
    calls: &str,
    answers: &mut Answers,
) -> Result<(), Error> {
    for call in calls.as_bytes().chunks(2) {
        write_call(alloc, parser, call, answers)?;
    }
    unread_line(parser, answers)?;
    answers.letter(b'\n')
}

fn write_case(alloc: Global, case: &str, answers: &mut Answers) -> Result<(), Error> {
    let mut parts = case.split(' ');
    let (Some(constructor), Some(text), Some(calls)) = (parts.next(), parts.next(), parts.next())
    else {
        return Err(Error::from("a case has three parts"));
    };
    let mut parser = parser_of(alloc, constructor, words(alloc, text)?)?;
    make_calls(alloc, &mut parser, calls, answers)
}

fn main(rt: HostRuntime) -> Result<()> {
    let alloc = rt.alloc();
    let mut input = String::new(alloc);
    rt.reader().read_to_string(&mut input)?;
    let mut answers = Answers::new(alloc);
    for case in input.lines() {
        write_case(alloc, case, &mut answers)?;
    }
    io::writer(&rt).write_all(answers.text())?;
    Ok(())
}

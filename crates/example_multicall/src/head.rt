//! `head [-NUM] [-n|--lines=NUM] [--number]` prints the first lines of standard input.
//!
//! `-NUM` is a number after one dash, such as `-10`, which `next` would read as the options `1` and
//! `0`.

use crate::Request;
use lexopt_base::prelude::{Long, Short, ValueExt};
use lexopt_base::{Error, OsStr, Parser};
use std::alloc::Global;
use std::io;

// How many lines to print, and whether to print each with its number.
#[derive(Clone, Copy)]
pub struct Options {
    lines: usize,
    is_numbered: bool,
}

// The number that a word has after one dash, if it is a dash and digits.
fn number_of(word: OsStr<'_>) -> Option<usize> {
    let digits = word.to_str()?.strip_prefix('-')?;
    if digits.starts_with('+') {
        return None;
    }
    digits.parse().ok()
}

// Takes the next word if it is a number after one dash. In the middle of a word, as after `-q` of
// `-q10`, this takes nothing.
fn take_dash_number(parser: &mut Parser) -> Option<usize> {
    let mut words = parser.try_raw_args()?;
    let number = number_of(words.peek()?)?;
    let _word = words.next();
    Some(number)
}

// This tool has no positionals. A tool that has some stops looking for `-NUM` at the first of them:
// it may come after `--`, where `-10` is a positional too.
pub fn read_request(alloc: Global, parser: &mut Parser) -> Result<Request, Error> {
    let mut options = Options {
        lines: 10,
        is_numbered: false,
    };
    for _ in 0..u64::MAX {
        if let Some(lines) = take_dash_number(parser) {
            options.lines = lines;
            continue;
        }
        match parser.next()? {
            Some(Short('n') | Long("lines")) => options.lines = parser.value()?.parse()?,
            Some(Long("number")) => options.is_numbered = true,
            Some(Short('h') | Long("help")) => return Ok(Request::Help),
            Some(argument) => return Err(argument.unexpected(alloc)),
            None => break,
        }
    }
    Ok(Request::Head(options))
}

pub fn print_lines(rt: &(impl Input + Print + AllocGlobal), options: Options) -> io::Result<()> {
    let mut number = 0usize;
    for line in rt.lines(rt.alloc()).take(options.lines) {
        let line = line?;
        number = number.saturating_add(1);
        if options.is_numbered {
            println!(rt; "{number} {line}")?;
        } else {
            println!(rt; "{line}")?;
        }
    }
    Ok(())
}

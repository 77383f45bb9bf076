//! The tool `timeout` reads its own options, and passes the rest of the line on unchanged.
//!
//! ```text
//! timeout [-s|--signal=NAME] [-k|--kill-after=SECONDS] SECONDS COMMAND [ARG]..
//! ```
//!
//! It starts no command. It prints what it has read, and then each word that it would start the
//! command with, quoted. A word may have any bytes.

use crate::Request;
use lexopt_base::prelude::{Long, Short, Value, ValueExt};
use lexopt_base::{Error, OsString, Parser, Quoted};
use std::alloc::Global;
use std::io;

// The limits, which come before the command.
#[derive(Drop)]
struct Limits {
    signal: Option<OsString>,
    kill_after: Option<u32>,
    seconds: u32,
}

// A command, and its limits.
#[derive(Drop)]
pub struct Plan {
    limits: Limits,
    command: Vec<OsString>,
}

// Reads up to the first positional, which is the number of seconds; `None` if an option asks for
// the help.
fn read_limits(alloc: Global, parser: &mut Parser) -> Result<Option<Limits>, Error> {
    let mut signal = None;
    let mut kill_after = None;
    for _ in 0..u64::MAX {
        match parser.next()? {
            Some(Short('s') | Long("signal")) => signal = Some(parser.value()?),
            Some(Short('k') | Long("kill-after")) => kill_after = Some(parser.value()?.parse()?),
            Some(Short('h') | Long("help")) => return Ok(None),
            Some(Value(word)) => {
                return Ok(Some(Limits {
                    signal,
                    kill_after,
                    seconds: word.parse()?,
                }));
            }
            Some(argument) => return Err(argument.unexpected(alloc)),
            None => break,
        }
    }
    Err(Error::from("missing argument SECONDS"))
}

// After the number of seconds no word is read as an option: each is for the command.
pub fn read_request(alloc: Global, parser: &mut Parser) -> Result<Request, Error> {
    let Some(limits) = read_limits(alloc, parser)? else {
        return Ok(Request::Help);
    };
    let command: Vec<OsString> = parser.raw_args()?.collect(alloc)?;
    if command.is_empty() {
        return Err(Error::from("missing argument COMMAND"));
    }
    Ok(Request::Timeout(Plan { limits, command }))
}

fn print_word(rt: &impl Print, name: &str, word: &OsString) -> io::Result<()> {
    let word = Quoted::new(word.as_bytes());
    println!(rt; "{name}: {word}")
}

pub fn print_plan(rt: &impl Print, plan: &Plan) -> io::Result<()> {
    let limits = &plan.limits;
    let seconds = limits.seconds;
    println!(rt; "seconds: {seconds}")?;
    if let Some(signal) = &limits.signal {
        print_word(rt, "signal", signal)?;
    }
    if let Some(kill_after) = limits.kill_after {
        println!(rt; "kill after: {kill_after}")?;
    }
    for word in &plan.command {
        print_word(rt, "word", word)?;
    }
    Ok(())
}

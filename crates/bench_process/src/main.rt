//! Does one thing with its own words, to measure the cost of a whole process.
//! `bench/src/bin/process` does the same with the Rust crate.
//!
//! The variable `PROCESS` says what it does:
//!
//! - `nothing`: nothing;
//! - `ask`: asks the environment for each word, and keeps none;
//! - `read`, or if the variable is not set: reads the words as a line in which `-n` and `--name` take
//!   a value, by a parser that `from_env_os` makes;
//! - `parsed`: reads the words by ten declared options.
//!
//! Then it prints counts of what it saw.
#![tactic(auto)]

mod declared;

use anyhow::{Result, bail};
use declared::{DECLARATION, Flag, Maybe, Value, Values, Word};
use lexopt_base::{Arg, Error, Parser};
use lexopt_options::{Answer, Options, Parsed};
use std::alloc::AllocError;
use std::env::{Env, VarError};
use std::{env, fmt};

// Room for the longest word that Linux allows.
const LONGEST_WORD: usize = 131_071;

#[derive(Drop)]
struct Seen {
    options: u64,
    values: u64,
    positionals: u64,
    bytes: u64,
}

impl Seen {
    fn new() -> Seen {
        Seen {
            options: 0,
            values: 0,
            positionals: 0,
            bytes: 0,
        }
    }

    fn option(&mut self) {
        self.options = self.options.wrapping_add(1);
    }

    fn name(&mut self, name: &str) {
        self.option();
        self.bytes = self.bytes.wrapping_add(name.len() as u64);
    }

    fn value(&mut self, value: &[u8]) {
        self.values = self.values.wrapping_add(1);
        self.bytes = self.bytes.wrapping_add(value.len() as u64);
    }

    fn positional(&mut self, word: &[u8]) {
        self.positionals = self.positionals.wrapping_add(1);
        self.bytes = self.bytes.wrapping_add(word.len() as u64);
    }

    fn parsed(&mut self, parsed: &Parsed<Flag, Value, Word, Maybe, Values>) {
        match parsed {
            Parsed::Flag(_) => self.option(),
            Parsed::Value(_, value) => {
                self.option();
                self.value(value.as_bytes());
            }
            Parsed::Maybe(_, value) => {
                self.option();
                if let Some(value) = value {
                    self.value(value.as_bytes());
                }
            }
            Parsed::Values(_, values) => {
                self.option();
                for value in values {
                    self.value(value.as_bytes());
                }
            }
            Parsed::Positional(_, word) => self.positional(word.as_bytes()),
        }
    }
}

impl fmt::Display for Seen {
    fn fmt<W: fmt::Write>(&self, f: &mut fmt::Formatter<W>) -> fmt::Result {
        writeln!(f, "options {}", self.options)?;
        writeln!(f, "values {}", self.values)?;
        writeln!(f, "positionals {}", self.positionals)?;
        writeln!(f, "bytes {}", self.bytes)
    }
}

// Asks the environment for each word, and keeps none.
fn ask(rt: &HostRuntime, seen: &mut Seen) -> Result<(), AllocError> {
    let mut room = vec![in rt.alloc(); 0u8; LONGEST_WORD]?;
    for place in 0..usize::MAX {
        match rt.arg(place, &mut room) {
            Ok(count) => seen.positional(&room[..count]),
            Err(_) => break,
        }
    }
    Ok(())
}

// Reads the words by calls of the parser.
fn read(rt: &HostRuntime, seen: &mut Seen) -> Result<(), Error> {
    let mut parser = Parser::from_env_os(rt, rt.alloc())?;
    for _ in 0..u64::MAX {
        match parser.next()? {
            Some(Arg::Short(option)) => {
                seen.option();
                if option == 'n' {
                    let value = parser.value()?;
                    seen.value(value.as_bytes());
                }
            }
            Some(Arg::Long(name)) => {
                seen.name(name);
                if name == "name" {
                    let value = parser.value()?;
                    seen.value(value.as_bytes());
                }
            }
            Some(Arg::Value(word)) => seen.positional(word.as_bytes()),
            None => break,
        }
    }
    Ok(())
}

// Reads the words by declared options. Returns whether they were read.
fn read_parsed(rt: &HostRuntime, seen: &mut Seen) -> Result<bool, AllocError> {
    match Options::new(&DECLARATION).from_env(rt)? {
        Answer::Parsed(line) => {
            for parsed in &line {
                seen.parsed(parsed);
            }
            Ok(true)
        }
        Answer::Text(_) | Answer::Refused(_) => Ok(false),
    }
}

fn main(rt: HostRuntime) -> Result<()> {
    let mut seen = Seen::new();
    match env::var(&rt, "PROCESS").as_deref() {
        Ok("nothing") => {}
        Ok("ask") => ask(&rt, &mut seen)?,
        Ok("read") | Err(VarError::NotPresent) => read(&rt, &mut seen)?,
        Ok("parsed") => {
            if !read_parsed(&rt, &mut seen)? {
                bail!("the words are not those of the declared options");
            }
        }
        _ => bail!("PROCESS is nothing, ask, read or parsed"),
    }
    print!(rt; "{seen}")?;
    Ok(())
}

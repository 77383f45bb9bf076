//! Passes its line on to another program, with one option changed:
//! `example_forward OPTION.. [FILE]..`, with the options `-v|--verbose`, `-j|--jobs=N`,
//! `--color[=WHEN]` and `-x|--exclude PATTERN..`.
//!
//! It prints the words to call the other program with, each quoted for a POSIX shell. They mean
//! what its own line means, except for `--color`, which is `always`, since the output of the other
//! program goes to a pipe. A word may have any bytes except 00, which no argument of a program can
//! have.
//!
//! The exit status is 0; 2 if the command line is refused, or memory runs out while it is read; or
//! that of `finish` if the line cannot be printed. Standard error then has the reason, unless
//! nobody reads the line.
#![tactic(auto)]

mod shell;

use anyhow::{Error, Result};
use lexopt::os_string::arguments;
use lexopt::replay::{Item, Table, read_items};
use lexopt::spell::spell;
use lexopt::{Arg, OsString, finish};
use shell::quoted;
use std::alloc::{AllocError, Global};
use std::env::Env;
use std::io::{self, Write};
use std::process::ExitCode;

const HELP: &str = "Usage: example_forward [OPTION].. [FILE]..

  -v, --verbose       passed on
  -j, --jobs=N        passed on
      --color[=WHEN]  passed on as --color=always
  -x, --exclude PATTERN..
                      passed on: all words up to the next option
  -h, --help          print this and end";

// Adds the options with values of the other program, which this program has too.
fn add_options(alloc: Global, table: &mut Table) -> Result<(), AllocError> {
    table.shorts.push('j')?;
    table.longs.push(String::from_str(alloc, "jobs")?)?;
    table
        .optional_longs
        .push(String::from_str(alloc, "color")?)?;
    table.several_shorts.push('x')?;
    table
        .several_longs
        .push(String::from_str(alloc, "exclude")?)?;
    Ok(())
}

fn forwarded_long(
    alloc: Global,
    name: String,
    value: Option<OsString>,
) -> Result<Item, lexopt::Error> {
    let value = match name.as_str() {
        "verbose" | "jobs" => value,
        "color" => Some(OsString::from_text(alloc, "always")?),
        unknown => return Err(Arg::Long(unknown).unexpected(alloc)),
    };
    Ok(Item::Long(name, value))
}

// The item for the other program. An option that it does not have is refused, and so is one with a
// damaged name.
fn forwarded(alloc: Global, item: Item) -> Result<Item, lexopt::Error> {
    match item {
        Item::Short('v', value) => Ok(Item::Short('v', value)),
        Item::Short('j', value) => Ok(Item::Short('j', value)),
        Item::Short(unknown, _value) => Err(Arg::Short(unknown).unexpected(alloc)),
        Item::Long(name, value) => forwarded_long(alloc, name, value),
        // The table has one option of several values.
        other => Ok(other),
    }
}

fn is_help(item: &Item) -> bool {
    match item {
        Item::Short('h', _) => true,
        Item::Long(name, _) => name.as_str() == "help",
        _ => false,
    }
}

// The items for the other program; `None` if the line asks for the help.
fn forwarded_items(
    rt: &(impl Env + AllocGlobal),
    table: &Table,
) -> Result<Option<Vec<Item>>, lexopt::Error> {
    let alloc = rt.alloc();
    let mut items = Vec::new(alloc);
    // The first word is the name that the program was called by.
    let words: Vec<OsString> = arguments(rt, alloc)?.into_iter().skip(1).collect(alloc)?;
    for item in read_items(alloc, words, true, table)? {
        if is_help(&item) {
            return Ok(None);
        }
        items.push(forwarded(alloc, item)?)?;
    }
    Ok(Some(items))
}

// The words that spell these items, quoted, on one line.
fn quoted_line(alloc: Global, items: &[Item], table: &Table) -> Result<Vec<u8>> {
    let mut line = Vec::new(alloc);
    for word in spell(alloc, items, true, table)? {
        if !line.is_empty() {
            line.push(b' ')?;
        }
        line.extend(quoted(alloc, word.as_bytes())?)?;
    }
    line.push(b'\n')?;
    Ok(line)
}

// The line for the other program; `None` if the line of this one asks for the help.
fn forwarded_line(rt: &(impl Env + AllocGlobal)) -> Result<Option<Vec<u8>>> {
    let alloc = rt.alloc();
    let mut table = Table::new(alloc);
    add_options(alloc, &mut table)?;
    match forwarded_items(rt, &table)? {
        Some(items) => Ok(Some(quoted_line(alloc, &items, &table)?)),
        None => Ok(None),
    }
}

// Says what is wrong with the command line, and where help is.
fn refuse(rt: &impl Eprint, error: &Error) -> ExitCode {
    let _ = eprintln!(rt; "example_forward: {error}");
    let _ = eprintln!(rt; "Try 'example_forward --help' for more information.");
    ExitCode::from(2)
}

fn main(rt: HostRuntime) -> ExitCode {
    let printed = match forwarded_line(&rt) {
        Ok(Some(line)) => io::writer(&rt).write_all(&line),
        Ok(None) => rt.println(HELP),
        Err(error) => return refuse(&rt, &error),
    };
    finish(&rt, "example_forward", printed.map(|()| ExitCode::SUCCESS))
}

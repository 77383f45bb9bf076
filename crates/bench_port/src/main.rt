//! Reads words many times, to measure the cost of a read. `bench/src/main.rs` does the same with
//! the Rust crate.
//!
//! The first word is the work, and the second is how many times it is done. Standard input has the
//! words that are read, each followed by a NUL. Each time the words are copied, and
//!
//! - `copy` does nothing else;
//! - `next` reads the copies as a line in which `-n` and `--name` take a value, by a parser that
//!   `from_vec` makes;
//! - `collected` reads the same line by a parser that `from_args` makes;
//! - `fallible` reads the same line up to the first error, and takes values by a function that can
//!   fail;
//! - `values` reads a line in which `-n` takes several values;
//! - `raw` takes the words unread;
//! - `parse` parses each copy as a number, and reads no line;
//! - `items` reads the line by a table of options, `spell` also spells these items, and `spelled`
//!   also copies the words that spell them.
//!
//! Then it prints counts and a hash of what was read.
#![tactic(auto)]

mod seen;

use anyhow::{Context, Result, bail};
use lexopt::replay::{Item, Table, read_items};
use lexopt::spell::spell;
use lexopt::{Arg, Error, OsString, Parser, ValueExt};
use seen::Seen;
use std::alloc::{AllocError, Global};
use std::env;
use std::io::Read;

// The lossy text of the damaged name in the workloads. The option has a value there.
const DAMAGED_NAME: &str = "\u{fffd}\u{fffd}\u{fffd}size";

// The work that is done with the copies of the words.
#[derive(Clone, Copy)]
enum Work {
    Copy,
    Next,
    Collected,
    Fallible,
    Values,
    Raw,
    Parse,
    Items,
    Spell,
    Spelled,
}

impl Work {
    fn of_name(name: &str) -> Option<Work> {
        match name {
            "copy" => Some(Work::Copy),
            "next" => Some(Work::Next),
            "collected" => Some(Work::Collected),
            "fallible" => Some(Work::Fallible),
            "values" => Some(Work::Values),
            "raw" => Some(Work::Raw),
            "parse" => Some(Work::Parse),
            "items" => Some(Work::Items),
            "spell" => Some(Work::Spell),
            "spelled" => Some(Work::Spelled),
            _ => None,
        }
    }
}

// A copy of these words.
fn copies(alloc: Global, words: &[&[u8]]) -> Result<Vec<OsString>, AllocError> {
    let mut copied = Vec::with_capacity(alloc, words.len())?;
    for word in words {
        copied.push(OsString::from_bytes(alloc, word)?)?;
    }
    Ok(copied)
}

// Takes the words unread.
fn read_raw(words: Vec<OsString>, seen: &mut Seen) -> bool {
    let mut parser = Parser::from_vec(words);
    match parser.raw_args() {
        Ok(view) => {
            for word in view {
                seen.positional(word.as_bytes());
            }
            true
        }
        Err(error) => seen.error(error),
    }
}

// Parses the words as numbers.
fn read_numbers(words: &[OsString], seen: &mut Seen) -> bool {
    for word in words {
        match word.parse::<u64>() {
            Ok(number) => seen.number(number),
            Err(error) => return seen.error(error),
        }
    }
    true
}

// Reads the whole line. Only `-n` and `--name` take a value.
#[inline(always)]
fn read_all(parser: &mut Parser, seen: &mut Seen) -> bool {
    for _ in 0..u64::MAX {
        match parser.next() {
            Ok(Some(Arg::Short(option))) => {
                seen.short(option);
                if option == 'n' {
                    match parser.value() {
                        Ok(value) => seen.value(value.as_bytes()),
                        Err(error) => {
                            if !seen.error(error) {
                                return false;
                            }
                        }
                    }
                }
            }
            Ok(Some(Arg::Long(name))) => {
                seen.long(name);
                if name == "name" {
                    match parser.value() {
                        Ok(value) => seen.value(value.as_bytes()),
                        Err(error) => {
                            if !seen.error(error) {
                                return false;
                            }
                        }
                    }
                }
            }
            Ok(Some(Arg::Value(word))) => seen.positional(word.as_bytes()),
            Ok(None) => break,
            Err(error) => {
                if !seen.error(error) {
                    return false;
                }
            }
        }
    }
    true
}

// Reads a whole line from a `Vec` of words.
fn read_line(words: Vec<OsString>, seen: &mut Seen) -> bool {
    let mut parser = Parser::from_vec(words);
    read_all(&mut parser, seen)
}

// Reads a whole line from an iterator over words.
fn read_collected(alloc: Global, words: Vec<OsString>, seen: &mut Seen) -> bool {
    match Parser::from_args(alloc, words) {
        Ok(mut parser) => read_all(&mut parser, seen),
        Err(error) => seen.error(error),
    }
}

// Reads the whole line. Only `-n` takes values, as many as there are.
fn read_several(words: Vec<OsString>, seen: &mut Seen) -> bool {
    let mut parser = Parser::from_vec(words);
    for _ in 0..u64::MAX {
        match parser.next() {
            Ok(Some(Arg::Short(option))) => {
                seen.short(option);
                if option == 'n' {
                    match parser.values() {
                        Ok(view) => {
                            for value in view {
                                seen.value(value.as_bytes());
                            }
                        }
                        Err(error) => {
                            if !seen.error(error) {
                                return false;
                            }
                        }
                    }
                }
            }
            Ok(Some(Arg::Long(name))) => seen.long(name),
            Ok(Some(Arg::Value(word))) => seen.positional(word.as_bytes()),
            Ok(None) => break,
            Err(error) => {
                if !seen.error(error) {
                    return false;
                }
            }
        }
    }
    true
}

// Takes a value for the last option.
fn read_value(parser: &mut Parser, seen: &mut Seen) -> Result<(), Error> {
    let value = parser.value()?;
    seen.value(value.as_bytes());
    Ok(())
}

// Reads the line up to its first error. Only `-n` and `--name` take a value.
fn read_or_fail(words: Vec<OsString>, seen: &mut Seen) -> Result<(), Error> {
    let mut parser = Parser::from_vec(words);
    for _ in 0..u64::MAX {
        match parser.next()? {
            Some(Arg::Short(option)) => {
                seen.short(option);
                if option == 'n' {
                    read_value(&mut parser, seen)?;
                }
            }
            Some(Arg::Long(name)) => {
                seen.long(name);
                if name == "name" {
                    read_value(&mut parser, seen)?;
                }
            }
            Some(Arg::Value(word)) => seen.positional(word.as_bytes()),
            None => break,
        }
    }
    Ok(())
}

// The table by which `read_items` reads: a short and a long option of each kind that has values.
fn options(alloc: Global) -> Result<Table, AllocError> {
    Ok(Table {
        shorts: vec![in alloc; 'n']?,
        longs: vec![in alloc; String::from_str(alloc, "name")?]?,
        optional_shorts: vec![in alloc; 'o']?,
        optional_longs: vec![in alloc; String::from_str(alloc, DAMAGED_NAME)?]?,
        several_shorts: vec![in alloc; 'x']?,
        several_longs: vec![in alloc; String::from_str(alloc, "exec")?]?,
    })
}

// Spells the items, and copies the words that spell them if the work is `spelled`. `items` does not
// call it.
#[cold]
fn spell_items(
    alloc: Global,
    items: &[Item],
    work: Work,
    table: &Table,
    seen: &mut Seen,
) -> Result<()> {
    let words = spell(alloc, items, true, table)?;
    seen.words(&words);
    if let Work::Spelled = work {
        let mut copied = Vec::with_capacity(alloc, words.len())?;
        for word in &words {
            copied.push(OsString::from_bytes(alloc, word.as_bytes())?)?;
        }
        seen.copies(&copied);
    }
    Ok(())
}

fn main(rt: HostRuntime) -> Result<()> {
    let alloc = rt.alloc();
    let mut args = env::args(&rt)?;
    let (Some(_program), Some(work), Some(times)) = (args.next(), args.next(), args.next()) else {
        bail!("usage: bench_port WORK TIMES");
    };
    let work = Work::of_name(&work).context(
        "the work is copy, next, collected, fallible, values, raw, parse, items, spell or spelled",
    )?;
    let times = times.parse::<u64>().context("how many times")?;

    let mut input = Vec::new(alloc);
    rt.reader().read_to_end(&mut input)?;
    let mut words: Vec<&[u8]> = input.split(|byte| *byte == 0).collect(alloc)?;
    let _after_the_last = words.pop();

    let table = options(alloc)?;
    let mut seen = Seen::new();
    for _ in 0..times {
        let copied = copies(alloc, &words)?;
        let continues = match work {
            Work::Copy => {
                seen.copies(&copied);
                true
            }
            Work::Next => read_line(copied, &mut seen),
            Work::Collected => read_collected(alloc, copied, &mut seen),
            Work::Fallible => match read_or_fail(copied, &mut seen) {
                Ok(()) => true,
                Err(error) => seen.error(error),
            },
            Work::Values => read_several(copied, &mut seen),
            Work::Raw => read_raw(copied, &mut seen),
            Work::Parse => read_numbers(&copied, &mut seen),
            Work::Items | Work::Spell | Work::Spelled => {
                match read_items(alloc, copied, true, &table) {
                    Ok(items) => {
                        seen.items(&items);
                        if !matches!(work, Work::Items) {
                            spell_items(alloc, &items, work, &table, &mut seen)?;
                        }
                        true
                    }
                    Err(error) => seen.error(error),
                }
            }
        };
        if !continues {
            bail!("an error that no workload should lead to");
        }
        seen.stop_hashing();
    }
    print!(rt; "{seen}")?;
    Ok(())
}

//! Reads words by declared options many times, to measure the cost of a read.
//! `bench/src/bin/options` does the same with the Rust crate, by a `match` over the names.
//!
//! The first word is the work, and the second is how many times it is done. Standard input has the
//! words that are read, each followed by a NUL. Each time
//!
//! - `copy` copies the words;
//! - `parsed` copies the words, and reads the copies by ten declared options;
//! - `completed` copies the words, and asks what can come after the copies where `f` is typed;
//! - `commands10` and `commands50` do the same by a program of 10 or 50 commands, after the name of
//!   the last of them, and `lines10` and `lines50` read the copies after that name;
//! - `declare` declares these options, and copies nothing.
//!
//! Then it prints counts and a hash of what was read.
#![tactic(auto)]

mod commands;
mod declared;
mod seen;

use anyhow::{Context, Result, bail};
use commands::{GENERAL, answer_command, commands_of};
use declared::{DECLARATION, Flag, Maybe, Value, Values, Word};
use lexopt_commands::Commands;
use lexopt_options::{Declaration, Line, Options, OsString, Role};
use lexopt_runtime_options::try_options;
use seen::Seen;
use std::alloc::{AllocError, Global};
use std::convert::Infallible;
use std::env;
use std::io::Read;

// The work that is done each time.
#[derive(Clone, Copy)]
enum Work {
    Copy,
    Parsed,
    Completed,
    // A program with this many commands completes a word, or reads a line.
    Commands(usize, bool),
    Declare,
}

impl Work {
    fn of_name(name: &str) -> Option<Work> {
        match name {
            "copy" => Some(Work::Copy),
            "parsed" => Some(Work::Parsed),
            "completed" => Some(Work::Completed),
            "commands10" => Some(Work::Commands(10, true)),
            "commands50" => Some(Work::Commands(50, true)),
            "lines10" => Some(Work::Commands(10, false)),
            "lines50" => Some(Work::Commands(50, false)),
            "declare" => Some(Work::Declare),
            _ => None,
        }
    }
}

// A copy of these words.
fn copies(alloc: Global, words: &[&[u8]]) -> Result<Vec<OsString>, AllocError> {
    let mut copied = Vec::with_capacity(alloc, words.len())?;
    for word in words {
        copied.push(OsString::from_bytes(alloc, word)?)?;
    }
    Ok(copied)
}

// Declares the options, and counts them. It is not inlined, so that each call does the work.
#[inline(never)]
fn declare<'a>(
    declaration: &'a Declaration<'a, Flag, Value, Word, Maybe, Values>,
    seen: &mut Seen,
) -> Option<Options<'a, Flag, Value, Word, Maybe, Values>> {
    match try_options(declaration) {
        Ok(options) => {
            seen.options(options.options().len());
            Some(options)
        }
        Err(_) => None,
    }
}

// Reads a line to its end. Returns whether it was read.
fn read_line(
    alloc: Global,
    words: Vec<OsString>,
    options: &Options<'_, Flag, Value, Word, Maybe, Values>,
    seen: &mut Seen,
) -> bool {
    match options.read(alloc, words) {
        Ok(Line::Parsed(line)) => {
            seen.line(&line);
            true
        }
        Ok(_) | Err(_) => false,
    }
}

// Asks what can come after these words where this is typed. Returns whether a positional can.
fn complete(
    alloc: Global,
    words: Vec<OsString>,
    options: &Options<'_, Flag, Value, Word, Maybe, Values>,
    typed: &OsString,
) -> Result<bool, AllocError> {
    let completion = options.complete(alloc, words, typed)?;
    Ok(matches!(completion.word, Some(Role::Argument)))
}

// Does the work once.
fn do_once(
    alloc: Global,
    work: Work,
    words: &[&[u8]],
    declaration: &Declaration<'_, Flag, Value, Word, Maybe, Values>,
    options: &Options<'_, Flag, Value, Word, Maybe, Values>,
    commands: &Commands<'_, (), Infallible>,
    typed: &OsString,
    seen: &mut Seen,
) -> Result<bool, AllocError> {
    match work {
        Work::Copy => {
            seen.copies(&copies(alloc, words)?);
            Ok(true)
        }
        Work::Parsed => Ok(read_line(alloc, copies(alloc, words)?, options, seen)),
        Work::Completed => complete(alloc, copies(alloc, words)?, options, typed),
        Work::Commands(_, is_completed) => {
            answer_command(alloc, commands, words, is_completed, seen)
        }
        Work::Declare => Ok(declare(declaration, seen).is_some()),
    }
}

// Repeats the work. Returns whether no line was refused.
fn repeat(
    alloc: Global,
    work: Work,
    times: u64,
    input: &[u8],
    seen: &mut Seen,
) -> Result<bool, AllocError> {
    let mut words: Vec<&[u8]> = input.split(|byte| *byte == 0).collect(alloc)?;
    let _after_the_last = words.pop();
    let declaration = DECLARATION;
    let Some(options) = declare(&declaration, &mut Seen::new()) else {
        return Ok(false);
    };
    let list = commands_of(
        alloc,
        if let Work::Commands(count, _) = work {
            count
        } else {
            0
        },
    )?;
    let Ok(commands) = Commands::try_new(Options::new(&GENERAL), &list) else {
        return Ok(false);
    };
    let typed = OsString::from_text(alloc, "f")?;
    for _ in 0..times {
        if !do_once(
            alloc,
            work,
            &words,
            &declaration,
            &options,
            &commands,
            &typed,
            seen,
        )? {
            return Ok(false);
        }
        seen.stop_hashing();
    }
    Ok(true)
}

fn main(rt: HostRuntime) -> Result<()> {
    let alloc = rt.alloc();
    let mut args = env::args(&rt)?;
    let (Some(_program), Some(work), Some(times)) = (args.next(), args.next(), args.next()) else {
        bail!("usage: bench_options WORK TIMES");
    };
    let work = Work::of_name(&work).context("there is no such work")?;
    let times = times.parse::<u64>().context("how many times")?;

    let mut input = Vec::new(alloc);
    rt.reader().read_to_end(&mut input)?;
    let mut seen = Seen::new();
    if !repeat(alloc, work, times, &input, &mut seen)? {
        bail!("an error that no workload should lead to");
    }
    print!(rt; "{seen}")?;
    Ok(())
}

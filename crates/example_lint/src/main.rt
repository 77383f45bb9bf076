//! Checks a command line, and reads on after each error.
//!
//! ```text
//! example_lint [-v|--verbose] [-j|--jobs=NUM] [-o|--output=FILE] [FILE]..
//! ```
//!
//! It prints the message of each error on a line of its own. A word may have any bytes.
//!
//! The exit status is 0 if there is no error; 2 if there is one, or memory runs out; or that of
//! `finish` if a line cannot be printed. In the last case, unless nobody reads the lines, and if
//! there is no memory for a parser, standard error has the reason.
#![tactic(auto)]

use lexopt_base::prelude::{Long, Short, Value, ValueExt};
use lexopt_base::{Error, Parser, finish};
use std::alloc::Global;
use std::io;
use std::process::ExitCode;

const HELP: &str = "Usage: example_lint [-v|--verbose] [-j|--jobs=NUM] [-o|--output=FILE] [FILE]..

Print what is wrong with these words.

  -h, --help  print this and end";

// What one step of the reading finds.
#[derive(Clone, Copy)]
enum Found {
    Argument,
    Help,
    End,
}

// Reads one option with its value, or one positional.
fn read_argument(alloc: Global, parser: &mut Parser) -> Result<Found, Error> {
    match parser.next()? {
        Some(Short('v') | Long("verbose")) => {}
        Some(Short('j') | Long("jobs")) => {
            let _jobs = parser.value()?.parse::<u32>()?;
        }
        Some(Short('o') | Long("output")) => {
            let _output = parser.value()?;
        }
        Some(Short('h') | Long("help")) => return Ok(Found::Help),
        Some(Value(_file)) => {}
        Some(argument) => {
            let error = argument.unexpected(alloc);
            // A value that `=` joins to an unknown option is not an error of its own. What else
            // comes after a short option may be more options, which are read next.
            if parser.has_joined_value() {
                let _value = parser.optional_value();
            }
            return Err(error);
        }
        None => return Ok(Found::End),
    }
    Ok(Found::Argument)
}

// Prints each error of the line, and returns how many there are.
fn print_errors(rt: &(impl Print + AllocGlobal), parser: &mut Parser) -> io::Result<u32> {
    let mut errors = 0u32;
    for _ in 0..u64::MAX {
        match read_argument(rt.alloc(), parser) {
            Ok(Found::Argument) => {}
            Ok(Found::Help) => {
                rt.println(HELP)?;
                break;
            }
            Ok(Found::End) => break,
            Err(error) => {
                println!(rt; "example_lint: {error}")?;
                errors = errors.saturating_add(1);
                // The line may be as it was, so the same call might fail again.
                if matches!(error, Error::OutOfMemory) {
                    break;
                }
            }
        }
    }
    Ok(errors)
}

fn main(rt: HostRuntime) -> ExitCode {
    let errors = match Parser::from_env_os(&rt, rt.alloc()) {
        Ok(mut parser) => print_errors(&rt, &mut parser),
        Err(error) => {
            let _ = eprintln!(rt; "example_lint: {error}");
            return ExitCode::from(2);
        }
    };
    if let Ok(1..) = errors {
        let _ = eprintln!(rt; "Try 'example_lint --help' for more information.");
        return ExitCode::from(2);
    }
    finish(&rt, "example_lint", errors.map(|_| ExitCode::SUCCESS))
}

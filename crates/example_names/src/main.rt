//! Prints the options and files that it is called with.
#![tactic(auto)]

use lexopt_base::prelude::{Long, Short, Value};
use lexopt_base::{Error, OsString, Parser, finish};
use std::alloc::Global;
use std::env::Env;
use std::process::ExitCode;

const HELP: &str = "Usage: example_names [-v|--verbose] [-o|--output=FILE] [FILE]..";

#[derive(Debug, Drop)]
struct Options {
    verbose: bool,
    output: Option<OsString>,
    files: Vec<OsString>,
}

// Reads the words into the options; false if they ask for the help.
fn read_options(alloc: Global, parser: &mut Parser, options: &mut Options) -> Result<bool, Error> {
    for _ in 0..u64::MAX {
        match parser.next()? {
            Some(Short('v') | Long("verbose")) => options.verbose = true,
            Some(Short('o') | Long("output")) => options.output = Some(parser.value()?),
            Some(Short('h') | Long("help")) => return Ok(false),
            Some(Value(file)) => options.files.push(file)?,
            Some(argument) => return Err(argument.unexpected(alloc)),
            None => break,
        }
    }
    Ok(true)
}

fn read_own_words(rt: &(impl Env + AllocGlobal), options: &mut Options) -> Result<bool, Error> {
    let mut parser = Parser::from_env_os(rt, rt.alloc())?;
    read_options(rt.alloc(), &mut parser, options)
}

fn main(rt: HostRuntime) -> ExitCode {
    let mut options = Options {
        verbose: false,
        output: None,
        files: Vec::new(rt.alloc()),
    };
    let printed = match read_own_words(&rt, &mut options) {
        Ok(true) => println!(rt; "{options:?}"),
        Ok(false) => rt.println(HELP),
        Err(error) => {
            let _ = eprintln!(rt; "example_names: {error}");
            let _ = eprintln!(rt; "Try 'example_names --help' for more information.");
            return ExitCode::from(2);
        }
    };
    finish(&rt, "example_names", printed.map(|()| ExitCode::SUCCESS))
}

//! Commands by `next`, and options in the shapes that programs often have.
//!
//! ```text
//! example_build [-v].. [--color|--no-color] COMMAND [ARGUMENT]..
//!     build [-j N|--jobs=N] [-f NAME|--feature=NAME].. [TARGET]..
//!     touch [--by=SECONDS] FILE..
//! ```
//!
//! It prints what it would do. If no option has the number of jobs, the environment variable
//! `BUILD_JOBS` has it. A word may have any bytes.
//!
//! The exit status is 0; 2 if the command line is refused, or memory runs out while it is read; or
//! that of `finish` if a line cannot be printed. Standard error then has the reason, unless nobody
//! reads the lines.
#![tactic(auto)]

use anyhow::bail;
use lexopt_base::prelude::{Long, Short, Value, ValueExt};
use lexopt_base::{Arg, Error, OsString, Parser, finish};
use std::alloc::Global;
use std::env;
use std::env::{Env, VarError};
use std::process::ExitCode;

const HELP: &str = "Usage: example_build [OPTION].. COMMAND [ARGUMENT]..

  -v, --verbose     say more; repeat it for even more
      --color       colour what is printed (default)
      --no-color    do not colour it
  -h, --help        print this help and exit

build [OPTION].. [TARGET]..
  -j, --jobs=N      run N jobs at a time, 1 to 256 (default: BUILD_JOBS, or 1)
  -f, --feature=NAME
                    with this feature; there may be several

touch [OPTION].. FILE..
      --by=SECONDS  move the time of the files, back if this is less than 0";

// The options that may come before the name of a command and after it.
#[derive(Clone, Copy, Debug)]
struct General {
    verbosity: u32,
    color: bool,
}

impl General {
    // Takes an option that is one of these, and refuses every other argument.
    fn take(&mut self, alloc: Global, argument: Arg<'_>) -> Result<(), Error> {
        match argument {
            Short('v') | Long("verbose") => self.verbosity = self.verbosity.saturating_add(1),
            Long("color") => self.color = true,
            Long("no-color") => self.color = false,
            argument => return Err(argument.unexpected(alloc)),
        }
        Ok(())
    }
}

// What a command line asks for.
#[derive(Debug, Drop)]
enum Request {
    Help,
    Build {
        jobs: u32,
        features: Vec<OsString>,
        targets: Vec<OsString>,
    },
    Touch {
        by: i64,
        files: Vec<OsString>,
    },
}

// A number with a range, and a message of its own.
fn jobs_of(text: &str) -> anyhow::Result<u32> {
    match text.parse() {
        Ok(jobs @ 1..=256) => Ok(jobs),
        _ => bail!("expected a number from 1 to 256"),
    }
}

// The number of jobs if no option gives it.
fn default_jobs(rt: &(impl Env + AllocGlobal)) -> Result<u32, Error> {
    let text = match env::var(rt, "BUILD_JOBS") {
        Ok(text) => text,
        Err(VarError::NotPresent) => return Ok(1),
        Err(VarError::NotUnicode) => return Err(Error::from("BUILD_JOBS is not UTF-8")),
        Err(VarError::OutOfMemory) => return Err(Error::OutOfMemory),
    };
    match jobs_of(&text) {
        Ok(jobs) => Ok(jobs),
        Err(_) => Err(Error::from("BUILD_JOBS: expected a number from 1 to 256")),
    }
}

fn read_build(
    rt: &(impl Env + AllocGlobal),
    parser: &mut Parser,
    general: &mut General,
) -> Result<Request, Error> {
    let alloc = rt.alloc();
    let mut jobs = None;
    let mut features = Vec::new(alloc);
    let mut targets = Vec::new(alloc);
    for _ in 0..u64::MAX {
        match parser.next()? {
            Some(Short('j') | Long("jobs")) => jobs = Some(parser.value()?.parse_with(jobs_of)?),
            Some(Short('f') | Long("feature")) => features.push(parser.value()?)?,
            Some(Short('h') | Long("help")) => return Ok(Request::Help),
            Some(Value(target)) => targets.push(target)?,
            Some(argument) => general.take(alloc, argument)?,
            None => break,
        }
    }
    let jobs = match jobs {
        Some(jobs) => jobs,
        None => default_jobs(rt)?,
    };
    Ok(Request::Build {
        jobs,
        features,
        targets,
    })
}

fn read_touch(alloc: Global, parser: &mut Parser, general: &mut General) -> Result<Request, Error> {
    let mut by = 0;
    let mut files = Vec::new(alloc);
    for _ in 0..u64::MAX {
        match parser.next()? {
            // `--by -10` has the value -10: a value may begin with a dash.
            Some(Long("by")) => by = parser.value()?.parse()?,
            Some(Short('h') | Long("help")) => return Ok(Request::Help),
            Some(Value(file)) => files.push(file)?,
            Some(argument) => general.take(alloc, argument)?,
            None => break,
        }
    }
    if files.is_empty() {
        return Err(Error::from("missing argument FILE"));
    }
    Ok(Request::Touch { by, files })
}

// The first positional argument is the command, which reads the rest of the line.
fn read_request(
    rt: &(impl Env + AllocGlobal),
    parser: &mut Parser,
    general: &mut General,
) -> Result<Request, Error> {
    let alloc = rt.alloc();
    for _ in 0..u64::MAX {
        match parser.next()? {
            Some(Short('h') | Long("help")) => return Ok(Request::Help),
            Some(Value(command)) => {
                return match command.as_bytes() {
                    b"build" => read_build(rt, parser, general),
                    b"touch" => read_touch(alloc, parser, general),
                    _ => Err(Value(command).unexpected(alloc)),
                };
            }
            Some(argument) => general.take(alloc, argument)?,
            None => break,
        }
    }
    Err(Error::from("missing argument COMMAND"))
}

fn own_request(rt: &(impl Env + AllocGlobal), general: &mut General) -> Result<Request, Error> {
    let mut parser = Parser::from_env_os(rt, rt.alloc())?;
    read_request(rt, &mut parser, general)
}

fn main(rt: HostRuntime) -> ExitCode {
    let mut general = General {
        verbosity: 0,
        color: true,
    };
    let printed = match own_request(&rt, &mut general) {
        Ok(Request::Help) => rt.println(HELP),
        Ok(request) => println!(rt; "{general:?}\n{request:?}"),
        Err(error) => {
            let _ = eprintln!(rt; "example_build: {error}");
            let _ = eprintln!(rt; "Try 'example_build --help' for more information.");
            return ExitCode::from(2);
        }
    };
    finish(&rt, "example_build", printed.map(|()| ExitCode::SUCCESS))
}

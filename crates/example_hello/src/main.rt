//! Greets a thing: `example_hello [-n|--number=NUM] [--shout] THING`. The thing is a text; a word
//! that is not UTF-8 is refused with a message that shows it.
//!
//! The exit status is 0; 2 if the command line is refused, or memory runs out while it is read; or
//! that of `finish` if a line cannot be made or printed. Standard error then has the reason, unless
//! nobody reads the lines.
#![tactic(auto)]

use lexopt_base::prelude::{Long, Short, Value, ValueExt};
use lexopt_base::{Error, Parser, finish};
use std::alloc::Global;
use std::env::Env;
use std::io;
use std::process::ExitCode;

const HELP: &str = "Usage: example_hello [-n|--number=NUM] [--shout] THING

  -n, --number=NUM  greet NUM times
      --shout       greet in capital letters
  -h, --help        print this and end";

// What to print, and how many times.
#[derive(Drop)]
struct Greeting {
    thing: String,
    number: u32,
    shout: bool,
}

// What a command line asks for.
#[derive(Drop)]
enum Request {
    Help,
    Greet(Greeting),
}

// Reads what the words of the parser ask for.
fn read_request(alloc: Global, parser: &mut Parser) -> Result<Request, Error> {
    let mut thing = None;
    let mut number = 1;
    let mut shout = false;
    for _ in 0..u64::MAX {
        match parser.next()? {
            Some(Short('n') | Long("number")) => number = parser.value()?.parse()?,
            Some(Long("shout")) => shout = true,
            Some(Short('h') | Long("help")) => return Ok(Request::Help),
            Some(Value(word)) if thing.is_none() => thing = Some(word.string()?),
            Some(argument) => return Err(argument.unexpected(alloc)),
            None => break,
        }
    }
    let Some(thing) = thing else {
        return Err(Error::from("missing argument THING"));
    };
    Ok(Request::Greet(Greeting {
        thing,
        number,
        shout,
    }))
}

// What the program was asked for.
fn own_request(rt: &(impl Env + AllocGlobal)) -> Result<Request, Error> {
    let mut parser = Parser::from_env_os(rt, rt.alloc())?;
    read_request(rt.alloc(), &mut parser)
}

fn greet(rt: &(impl Print + AllocGlobal), greeting: Greeting) -> io::Result<()> {
    let Greeting {
        mut thing,
        number,
        shout,
    } = greeting;
    if shout {
        thing = thing.to_uppercase(rt.alloc())?;
    }
    for _ in 0..number {
        println!(rt; "Hello {thing}")?;
    }
    Ok(())
}

// Says what is wrong with the command line, and where help is.
fn refuse(rt: &impl Eprint, error: &Error) -> ExitCode {
    let _ = eprintln!(rt; "example_hello: {error}");
    let _ = eprintln!(rt; "Try 'example_hello --help' for more information.");
    ExitCode::from(2)
}

fn main(rt: HostRuntime) -> ExitCode {
    let printed = match own_request(&rt) {
        Ok(Request::Greet(greeting)) => greet(&rt, greeting),
        Ok(Request::Help) => rt.println(HELP),
        Err(error) => return refuse(&rt, &error),
    };
    finish(&rt, "example_hello", printed.map(|()| ExitCode::SUCCESS))
}

//! Two tools in one program, as in busybox: `head`, which prints the first lines of standard input,
//! and `timeout`, which reads its own options and passes the rest of its line on.
//!
//! The program is the tool by whose name it is called. If no tool has that name, the first argument
//! names the tool: `example_multicall head -3`.
//!
//! The exit status is 0; 2 if the command line is refused, or memory runs out while it is read; or
//! that of `finish` if a line cannot be read or printed. Standard error then has the reason, after
//! the name that the program is called by, unless nobody reads the lines.
#![tactic(auto)]

mod head;
mod timeout;

use lexopt_base::prelude::{Long, Short, Value};
use lexopt_base::{Error, Parser, finish};
use std::alloc::Global;
use std::env::Env;
use std::io;
use std::process::ExitCode;

// The name of the program if its command line has none.
const NAME: &str = "example_multicall";

const HELP: &str = "Usage: example_multicall TOOL [ARGUMENT]..
       head [-NUM] [-n|--lines=NUM] [--number]
       timeout [-s|--signal=NAME] [-k|--kill-after=SECONDS] SECONDS COMMAND [ARG]..

  -NUM, -n, --lines=NUM     print NUM lines; 10 by default
        --number            print its number before each line
  -s, --signal=NAME         the signal that ends the command
  -k, --kill-after=SECONDS  kill it SECONDS seconds later
  -h, --help                print this and end";

#[derive(Clone, Copy)]
enum Tool {
    Head,
    Timeout,
}

// What a command line asks for.
#[derive(Drop)]
enum Request {
    Help,
    Head(head::Options),
    Timeout(timeout::Plan),
}

impl Tool {
    // The tool of this name, which may have a path before it.
    fn of_name(name: &[u8]) -> Option<Tool> {
        match name.rsplit(|byte| *byte == b'/').next()? {
            b"head" => Some(Tool::Head),
            b"timeout" => Some(Tool::Timeout),
            _ => None,
        }
    }
}

// The tool by whose name the program is called, or that the first argument names; `None` if that
// asks for the help.
fn read_tool(alloc: Global, parser: &mut Parser) -> Result<Option<Tool>, Error> {
    if let Some(tool) = parser
        .bin_name()
        .and_then(|name| Tool::of_name(name.as_bytes()))
    {
        return Ok(Some(tool));
    }
    match parser.next()? {
        Some(Short('h') | Long("help")) => Ok(None),
        Some(Value(word)) => match Tool::of_name(word.as_bytes()) {
            Some(tool) => Ok(Some(tool)),
            None => Err(Error::from("the tool is head or timeout")),
        },
        Some(argument) => Err(argument.unexpected(alloc)),
        None => Err(Error::from("missing argument TOOL")),
    }
}

fn read_request(alloc: Global, parser: &mut Parser) -> Result<Request, Error> {
    match read_tool(alloc, parser)? {
        Some(Tool::Head) => head::read_request(alloc, parser),
        Some(Tool::Timeout) => timeout::read_request(alloc, parser),
        None => Ok(Request::Help),
    }
}

fn answer(rt: &(impl Input + Print + AllocGlobal), request: &Request) -> io::Result<()> {
    match request {
        Request::Help => rt.println(HELP),
        Request::Head(options) => head::print_lines(rt, *options),
        Request::Timeout(plan) => timeout::print_plan(rt, plan),
    }
}

// Says what is wrong with the command line, and where help is.
fn refuse(rt: &impl Eprint, name: &str, error: &Error) -> ExitCode {
    let _ = eprintln!(rt; "{name}: {error}");
    let _ = eprintln!(rt; "Try '{name} --help' for more information.");
    ExitCode::from(2)
}

fn main(rt: HostRuntime) -> ExitCode {
    let mut parser = match Parser::from_env_os(&rt, rt.alloc()) {
        Ok(parser) => parser,
        Err(error) => return refuse(&rt, NAME, &error),
    };
    let request = read_request(rt.alloc(), &mut parser);
    let name = match parser.bin_name() {
        None | Some("") => NAME,
        Some(name) => name,
    };
    let answered = match request {
        Ok(request) => answer(&rt, &request),
        Err(error) => return refuse(&rt, name, &error),
    };
    finish(&rt, name, answered.map(|()| ExitCode::SUCCESS))
}

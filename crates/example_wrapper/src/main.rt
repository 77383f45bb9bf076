//! Prints the command line that it is called with, as a program would read it that runs another one
//! and ends it after some time.
#![tactic(auto)]

use lexopt_commands::{Rest, RestStart, Wrapper, WrapperAnswer, finish};
use lexopt_options::{
    Declaration, Names, Options, OsString, Parsed, UsageError, ValueExt, declare,
};
use std::io;
use std::process::ExitCode;

#[derive(Clone, Copy)]
enum Flag {
    Verbose,
}

#[derive(Clone, Copy)]
enum Value {
    Signal,
}

#[derive(Clone, Copy)]
enum Word {
    Duration,
}

static DECLARATION: Declaration<'static, Flag, Value, Word> = declare! {
    program: "example_wrapper",
    about: "Prints what it would run, and for how long.",
    options: [
        value(Value::Signal, Names::Both('s', "signal"), "NAME", "what it would end it with")
            .text(),
        flag(Flag::Verbose, Names::Both('v', "verbose"), "tell more"),
        help(Names::Both('h', "help")),
    ],
    positionals: [once(Word::Duration, "DURATION", "after how many seconds it would end").text()],
};

const COMMAND: Rest<'static> = Rest {
    start: RestStart::Surplus,
    placeholder: "COMMAND",
    help: "what it would run",
    required: true,
};

#[derive(Debug, Drop)]
struct Settings {
    verbose: bool,
    signal: Option<OsString>,
    seconds: u64,
}

fn settings_of(line: Vec<Parsed<Flag, Value, Word>>) -> Result<Settings, UsageError<'static>> {
    let mut settings = Settings {
        verbose: false,
        signal: None,
        seconds: 0,
    };
    for parsed in line {
        match parsed {
            Parsed::Flag(Flag::Verbose) => settings.verbose = true,
            Parsed::Value(Value::Signal, name) => settings.signal = Some(name),
            Parsed::Positional(Word::Duration, word) => settings.seconds = word.parse()?,
        }
    }
    Ok(settings)
}

fn run(rt: &HostRuntime) -> io::Result<ExitCode> {
    let options = Options::new(&DECLARATION);
    let (line, command) = match Wrapper::new(options, COMMAND).from_env(rt)? {
        WrapperAnswer::Parsed(line, command) => (line, command),
        WrapperAnswer::Text(text) => return rt.print(text).map(|()| ExitCode::SUCCESS),
        WrapperAnswer::Refused(why) => return Ok(why.print(rt)),
    };
    match settings_of(line) {
        Ok(settings) => println!(rt; "{settings:?} {command:?}").map(|()| ExitCode::SUCCESS),
        Err(error) => Ok(options.report(error).print(rt)),
    }
}

fn main(rt: HostRuntime) -> ExitCode {
    finish(&rt, "example_wrapper", run(&rt))
}

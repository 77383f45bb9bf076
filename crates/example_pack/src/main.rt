//! Prints the options and files that it is called with.
#![tactic(auto)]

use lexopt_options::{Answer, Declaration, Names, Options, OsString, Parsed, declare, finish};
use std::io;
use std::process::ExitCode;

#[derive(Clone, Copy)]
enum Flag {
    Verbose,
}

#[derive(Clone, Copy)]
enum Value {
    Output,
}

#[derive(Clone, Copy)]
enum Word {
    File,
}

static DECLARATION: Declaration<'static, Flag, Value, Word> = declare! {
    program: "example_pack",
    options: [
        flag(Flag::Verbose, Names::Both('v', "verbose"), "tell more"),
        value(Value::Output, Names::Both('o', "output"), "FILE", "the archive"),
        help(Names::Both('h', "help")),
    ],
    positionals: [any_number(Word::File, "FILE")],
};

#[derive(Debug, Drop)]
struct Settings {
    verbose: bool,
    output: Option<OsString>,
    files: Vec<OsString>,
}

fn run(rt: &HostRuntime) -> io::Result<ExitCode> {
    let line = match Options::new(&DECLARATION).from_env(rt)? {
        Answer::Parsed(line) => line,
        Answer::Text(text) => return rt.print(text).map(|()| ExitCode::SUCCESS),
        Answer::Refused(why) => return Ok(why.print(rt)),
    };
    let mut settings = Settings {
        verbose: false,
        output: None,
        files: Vec::new(rt.alloc()),
    };
    for parsed in line {
        match parsed {
            Parsed::Flag(Flag::Verbose) => settings.verbose = true,
            Parsed::Value(Value::Output, file) => settings.output = Some(file),
            Parsed::Positional(Word::File, file) => settings.files.push(file)?,
        }
    }
    println!(rt; "{settings:?}").map(|()| ExitCode::SUCCESS)
}

fn main(rt: HostRuntime) -> ExitCode {
    finish(&rt, "example_pack", run(&rt))
}

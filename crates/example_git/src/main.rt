//! Prints what it has read of a line that looks like one of git: a general option; a command with
//! paths after the separator, or one that shares options with it; or words for another program.
#![tactic(auto)]

use lexopt_commands::{
    Call, Command, Commands, Rest, RestStart, Step, Wrapper, WrapperAnswer, columns,
    declare_commands, finish,
};
use lexopt_options::{Answer, Declaration, Group, Mistake, Names, Options, declare, declare_group};
use lexopt_runtime_options::{Combined, split_shared};
use std::convert::Infallible;
use std::io;
use std::process::ExitCode;

#[derive(Clone, Copy)]
enum Task {
    Log,
    Show,
}

#[derive(Debug, Clone, Copy)]
enum Format {
    Patch,
    Oneline,
}

static GENERAL: Declaration<'static, Infallible, ()> = declare! {
    program: "example_git",
    options: [
        value((), Names::Short('C'), "DIR", "where the repository is").directories(),
        help(Names::Both('h', "help")),
    ],
    epilogue: ["For any other COMMAND it prints the words that a program of that name would get."],
};

static COMMANDS: &[Command<'static, Task>] = declare_commands![
    command(Task::Log, "log", "show commits"),
    command(Task::Show, "show", "show anything by its name"),
    help("help"),
];

static LOG: Declaration<'static, Infallible, (), ()> = declare! {
    program: "log",
    options: [
        value((), Names::Both('n', "max-count"), "NUMBER", "at most this many").text(),
        help(Names::Both('h', "help")),
    ],
    positionals: [any_number((), "REVISION", "the commits that are reachable from this").text()],
};

static SHOW: Declaration<'static, Infallible, Infallible, ()> = declare! {
    program: "show",
    options: [help(Names::Both('h', "help"))],
    positionals: [at_least_once((), "OBJECT").text()],
};

static FORMAT: Group<'static, Format> = declare_group! {
    options: [
        flag(Format::Patch, Names::Both('p', "patch"), "what each has changed")
            .alias(Names::Short('u'))
            .heading("What is shown of commits"),
        flag(Format::Oneline, Names::Long("oneline"), "each on a line of its own"),
    ],
};

fn log(rt: &HostRuntime, path: &str, call: Call<Infallible, ()>) -> io::Result<ExitCode> {
    let combined = Combined::with_shared(rt.alloc(), &LOG, FORMAT)?;
    let declaration = combined.declaration();
    let paths = Rest {
        start: RestStart::Separated,
        placeholder: "PATH",
        help: "only commits that have changed one of these",
        required: false,
    };
    let wrapper = Wrapper::new(Options::new(&declaration).with_program(path), paths);
    let (general, answer) = call.answer_wrapped(rt.alloc(), &wrapper, columns(rt))?;
    match answer {
        WrapperAnswer::Parsed(line, paths) => {
            let (line, format) = split_shared(rt.alloc(), line)?;
            println!(rt; "{path}: {general:?} {line:?} {format:?} {paths:?}")?;
        }
        WrapperAnswer::Text(text) => rt.print(text)?,
        WrapperAnswer::Refused(why) => return Ok(why.print(rt)),
    }
    Ok(ExitCode::SUCCESS)
}

fn show(rt: &HostRuntime, path: &str, call: Call<Infallible, ()>) -> io::Result<ExitCode> {
    let combined = Combined::with_shared(rt.alloc(), &SHOW, FORMAT)?;
    let declaration = combined.declaration();
    let options = Options::new(&declaration).with_program(path);
    let (general, answer) = call.answer(rt.alloc(), &options, columns(rt))?;
    match answer {
        Answer::Parsed(line) => {
            let (line, format) = split_shared(rt.alloc(), line)?;
            println!(rt; "{path}: {general:?} {line:?} {format:?}")?;
        }
        Answer::Text(text) => rt.print(text)?,
        Answer::Refused(why) => return Ok(why.print(rt)),
    }
    Ok(ExitCode::SUCCESS)
}

fn run(rt: &HostRuntime) -> io::Result<ExitCode> {
    match Commands::new(Options::new(&GENERAL), COMMANDS).from_env(rt)? {
        Step::Command(Task::Log, path, call) => return log(rt, &path, call),
        Step::Command(Task::Show, path, call) => return show(rt, &path, call),
        Step::Text(text) => rt.print(text)?,
        Step::Refused(why) => match &why.mistake {
            Mistake::UnknownCommand { word, rest, .. } => println!(rt; "other: {word:?} {rest:?}")?,
            _ => return Ok(why.print(rt)),
        },
    }
    Ok(ExitCode::SUCCESS)
}

fn main(rt: HostRuntime) -> ExitCode {
    finish(&rt, "example_git", run(&rt))
}

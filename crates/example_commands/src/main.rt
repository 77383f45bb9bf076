//! Declared commands, one of which has a command of its own. Prints what it has read, quoted.
#![tactic(auto)]

use lexopt_commands::{Call, Command, Commands, Step, columns, declare_commands, finish};
use lexopt_options::{Answer, Declaration, Names, Options, Parsed, Quoted, declare};
use std::convert::Infallible;
use std::io;
use std::process::ExitCode;

#[derive(Clone, Copy)]
enum Task {
    Add,
    List,
    Remote,
}

static GENERAL: Declaration<'static, Infallible, ()> = declare! {
    program: "example_commands",
    about: "Prints what it has read.",
    options: [
        value((), Names::Both('C', "directory"), "DIR", "where the files are").directories(),
        help(Names::Both('h', "help")),
    ],
};

static COMMANDS: &[Command<'static, Task>] = declare_commands![
    command(Task::Add, "add", "add files"),
    command(Task::List, "list", "list what was added"),
    command(Task::Remote, "remote", "add a remote"),
    help("help"),
];

static ADD: Declaration<'static, Infallible, Infallible, ()> = declare! {
    program: "add",
    options: [help(Names::Both('h', "help"))],
    positionals: [at_least_once((), "FILE")],
};

static LIST: Declaration<'static, Infallible> = declare! {
    program: "list",
    options: [help(Names::Both('h', "help"))],
};

static REMOTE: Declaration<'static, Infallible, ()> = declare! {
    program: "remote",
    options: [help(Names::Both('h', "help"))],
};

static REMOTES: &[Command<'static, ()>] = declare_commands![command((), "add", "add a remote")];

static REMOTE_ADD: Declaration<'static, Infallible, Infallible, ()> = declare! {
    program: "add",
    options: [help(Names::Both('h', "help"))],
    positionals: [once((), "NAME"), once((), "URL")],
};

fn work<P: Copy>(
    rt: &HostRuntime,
    options: Options<'_, Infallible, Infallible, P>,
    path: &str,
    call: Call<Infallible, ()>,
) -> io::Result<ExitCode> {
    let (general, answer) = call.answer(rt.alloc(), &options.with_program(path), columns(rt))?;
    let line = match answer {
        Answer::Parsed(line) => line,
        Answer::Text(text) => return rt.print(text).map(|()| ExitCode::SUCCESS),
        Answer::Refused(why) => return Ok(why.print(rt)),
    };
    if let Some(Parsed::Value((), dir)) = general.last() {
        println!(rt; "in {}", Quoted::new(dir.as_bytes()))?;
    }
    rt.println(path)?;
    for Parsed::Positional(_, word) in line {
        println!(rt; "{}", Quoted::new(word.as_bytes()))?;
    }
    Ok(ExitCode::SUCCESS)
}

fn remote(rt: &HostRuntime, path: &str, call: Call<Infallible, ()>) -> io::Result<ExitCode> {
    let commands = Commands::new(Options::new(&REMOTE).with_program(path), REMOTES);
    match commands.answer_call(rt.alloc(), call, columns(rt))? {
        Step::Command((), path, call) => work(rt, Options::new(&REMOTE_ADD), &path, call),
        Step::Text(text) => rt.print(text).map(|()| ExitCode::SUCCESS),
        Step::Refused(why) => Ok(why.print(rt)),
    }
}

fn run(rt: &HostRuntime) -> io::Result<ExitCode> {
    match Commands::new(Options::new(&GENERAL), COMMANDS).from_env(rt)? {
        Step::Command(Task::Add, path, call) => work(rt, Options::new(&ADD), &path, call),
        Step::Command(Task::List, path, call) => work(rt, Options::new(&LIST), &path, call),
        Step::Command(Task::Remote, path, call) => remote(rt, &path, call),
        Step::Text(text) => rt.print(text).map(|()| ExitCode::SUCCESS),
        Step::Refused(why) => Ok(why.print(rt)),
    }
}

fn main(rt: HostRuntime) -> ExitCode {
    finish(&rt, "example_commands", run(&rt))
}

//! The declaration that the tests share.
use lexopt_commands::{Command, Commands, declare_commands};
use lexopt_options::{Declaration, Names, Options, declare};

#[derive(Debug, Clone, Copy)]
pub enum Flag {
    Verbose,
}

#[derive(Debug, Clone, Copy)]
pub enum Value {
    Directory,
}

#[derive(Debug, Clone, Copy)]
pub enum Task {
    Add,
    Remove,
    Remote,
}

pub type Git<'a> = Commands<'a, Task, Flag, Value>;

static GENERAL: Declaration<'static, Flag, Value> = declare! {
    program: "git",
    about: "Tracks files.",
    options: [
        flag(Flag::Verbose, Names::Both('v', "verbose"), "tell more"),
        value(Value::Directory, Names::Short('C'), "DIR", "work there"),
        help(Names::Both('h', "help")),
        version(Names::Long("version"), "git 1.0"),
    ],
    epilogue: ["It has no index."],
};

static COMMANDS: &[Command<'static, Task>] = declare_commands![
    command(Task::Add, "add", "add files"),
    command(Task::Remove, "remove", "remove files"),
    command(Task::Remote, "remote", "manage remotes"),
    help("help"),
];

/// A program with general options and commands.
pub fn git() -> Git<'static> {
    Commands::new(Options::new(&GENERAL), COMMANDS)
}

//! A command that has commands of its own: what is read at each level, and the path in what is
//! printed.
use crate::calls::text_of_step;
use crate::git::{Flag, Task, Value, git};
use lexopt_commands::{Call, Command, Commands, Step, declare_commands};
use lexopt_options::{Answer, Declaration, Names, Options, Parsed, Request, declare};
use std::alloc::{AllocError, Global};
use std::convert::Infallible;
use test_helpers::parsers::words_of;

static REMOTE: Declaration<'static, Flag, Value> = declare! {
    program: "remote",
    options: [
        flag(Flag::Verbose, Names::Both('v', "verbose"), "tell more"),
        help(Names::Both('h', "help")),
    ],
};

static REMOTE_COMMANDS: &[Command<'static, ()>] = declare_commands![
    command((), "add", "add a remote"),
    help("help")
];

static ADD: Declaration<'static, Infallible, Infallible, ()> = declare! {
    program: "add",
    options: [help(Names::Both('h', "help"))],
    positionals: [once((), "NAME").text()],
};

const ASKED: Option<&[u8]> = Some(b"zsh_complete");

// Values of the variable by which a shell asks, lines, and what is read or printed.
static ROWS: [(Option<&[u8]>, &[u8], &str); 6] = [
    (
        None,
        b"-C dir remote -v add x",
        "[Value(Directory, \"dir\"), Flag(Verbose)] [Positional((), \"x\")]",
    ),
    (
        None,
        b"remote add",
        "git remote add: missing argument NAME\n\
        Try 'git remote add --help' for more information.",
    ),
    (
        None,
        b"remote ad",
        "git remote: unknown command \"ad\"; did you mean 'add'?\n\
        Try 'git remote --help' for more information.",
    ),
    (
        None,
        b"help remote help",
        "Usage: git remote [OPTION]... COMMAND [ARGUMENT]...\n\n  \
        add                   add a remote\n  \
        help                  print the help of a command\n\n  \
        -v, --verbose         tell more\n  \
        -h, --help            print this help and exit\n",
    ),
    (ASKED, b"-v remote a", "+add\tadd a remote\n"),
    (
        ASKED,
        b"-v remote add -",
        "-h\tprint this help and exit\n--help\tprint this help and exit\n",
    ),
];

// What is read, after these general options, or printed.
fn text_of_answer(
    alloc: Global,
    general: &[Parsed<Flag, Value>],
    answer: &Answer<'_, Infallible, Infallible, ()>,
) -> Result<String, AllocError> {
    match answer {
        Answer::Parsed(line) => format!(in alloc; "{general:?} {line:?}"),
        Answer::Text(text) => text.to_string(alloc),
        Answer::Refused(refused) => refused.to_string(alloc),
    }
}

// The same of the words of `remote add`.
fn text_of_add(alloc: Global, path: &str, call: Call<Flag, Value>) -> Result<String, AllocError> {
    let options = Options::new(&ADD).with_program(path);
    let (general, answer) = call.answer(alloc, &options, 80)?;
    text_of_answer(alloc, &general, &answer)
}

// What is read of the words of `remote`, or printed.
fn remote_text(alloc: Global, path: &str, call: Call<Flag, Value>) -> Result<String, AllocError> {
    let commands = Commands::new(Options::new(&REMOTE).with_program(path), REMOTE_COMMANDS);
    match commands.answer_call(alloc, call, 80) {
        Ok(Step::Command((), path, call)) => text_of_add(alloc, path.as_str(), call),
        other => text_of_step(alloc, &other),
    }
}

// What is read of these words, or printed.
fn text_of(alloc: Global, value: Option<&[u8]>, line: &[u8]) -> Result<String, AllocError> {
    let words = words_of(alloc, line)?;
    match git().answer_request(alloc, Request::new(alloc, value, words), 80) {
        Ok(Step::Command(Task::Remote, path, call)) => remote_text(alloc, path.as_str(), call),
        other => text_of_step(alloc, &other),
    }
}

#[test]
fn rows(rt: HostRuntime) {
    for (value, line, wanted) in ROWS.iter() {
        let text = text_of(rt.alloc(), *value, line).expect(&rt, "memory");
        assert_eq!(rt; text.as_str(), *wanted, "{line:?}");
    }
}

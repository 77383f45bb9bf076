//! A program with commands, whose options are those of the declaration.
use crate::declared::{DECLARATION, Flag, Maybe, Value, Values, Word};
use crate::seen::Seen;
use lexopt_commands::{Call, Command, Commands, Runs, Step};
use lexopt_options::{Answer, Declaration, Names, Options, OsString, Request, declare};
use std::alloc::{AllocError, Global};
use std::convert::Infallible;

pub static GENERAL: Declaration<'static, Infallible> = declare! {
    program: "bench_options",
    options: [help(Names::Both('h', "help"))],
};

static OWN: Declaration<'static, Flag, Value, Word, Maybe, Values> = DECLARATION;

static NAMES: [&str; 50] = [
    "add",
    "am",
    "apply",
    "archive",
    "bisect",
    "blame",
    "branch",
    "bundle",
    "checkout",
    "cherry",
    "clean",
    "clone",
    "commit",
    "config",
    "describe",
    "diff",
    "fetch",
    "format",
    "gc",
    "grep",
    "gui",
    "init",
    "log",
    "maintenance",
    "merge",
    "mv",
    "notes",
    "pull",
    "push",
    "range",
    "rebase",
    "remote",
    "repack",
    "replace",
    "reset",
    "restore",
    "revert",
    "rm",
    "shortlog",
    "show",
    "sparse",
    "stash",
    "status",
    "submodule",
    "switch",
    "tag",
    "worktree",
    "whatchanged",
    "verify",
    "var",
];

/// The first commands, this many.
pub fn commands_of(alloc: Global, count: usize) -> Result<Vec<Command<'static, ()>>, AllocError> {
    let mut commands = Vec::new(alloc);
    for name in NAMES.iter().take(count) {
        commands.push(Command {
            name,
            help: "",
            runs: Runs::Command(()),
        })?;
    }
    Ok(commands)
}

// Whether the options of the declaration answer the call with a line, which is counted, or with the
// line for names of files.
fn is_answered(
    alloc: Global,
    path: &str,
    call: Call<Infallible>,
    seen: &mut Seen,
) -> Result<bool, AllocError> {
    let options = Options::new(&OWN).with_program(path);
    let (_general, answer) = call.answer(alloc, &options, 80)?;
    match answer {
        Answer::Parsed(line) => {
            seen.line(&line);
            Ok(true)
        }
        Answer::Text(text) => Ok(text.as_str() == "files\n"),
        Answer::Refused(_) => Ok(false),
    }
}

/// Reads a line of the last of these commands: its name and these words. Or asks what can come where
/// `f` is typed after them. Returns whether the line was read, or the name of a file can come.
pub fn answer_command(
    alloc: Global,
    commands: &Commands<'_, (), Infallible>,
    words: &[&[u8]],
    is_completed: bool,
    seen: &mut Seen,
) -> Result<bool, AllocError> {
    let Some(last) = commands.commands().last() else {
        return Ok(false);
    };
    let mut copies = Vec::with_capacity(alloc, words.len().saturating_add(1))?;
    copies.push(OsString::from_text(alloc, last.name)?)?;
    for word in words {
        copies.push(OsString::from_bytes(alloc, word)?)?;
    }
    let request = if is_completed {
        Request::Completion(copies, OsString::from_text(alloc, "f")?)
    } else {
        Request::Line(copies)
    };
    match commands.answer_request(alloc, request, 80)? {
        Step::Command((), path, call) => is_answered(alloc, &path, call, seen),
        Step::Text(_) | Step::Refused(_) => Ok(false),
    }
}

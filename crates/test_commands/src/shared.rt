//! General options that may come after the command too: a group that the general declaration shares
//! with that of the command.
use lexopt_commands::{Call, Command, Commands, Step, declare_commands};
use lexopt_options::{
    Answer, Declaration, Group, Names, Options, Parsed, WIDTH, declare, declare_group,
};
use lexopt_runtime_options::{Combined, Key, split_shared};
use std::alloc::{AllocError, Global};
use std::convert::Infallible;
use test_helpers::parsers::words_of;

#[derive(Debug, Clone, Copy)]
enum Telling {
    Verbose,
    Quiet,
}

#[derive(Clone, Copy)]
struct Add;

static TELLING: Group<'static, Telling> = declare_group! {
    options: [
        flag(Telling::Verbose, Names::Short('v'), ""),
        flag(Telling::Quiet, Names::Short('q'), ""),
    ],
};

static GENERAL: Declaration<'static, char, char> = declare! {
    program: "tool",
    options: [value('C', Names::Short('C'), "DIR", "")],
};

static COMMANDS: &[Command<'static, Add>] = declare_commands![command(Add, "add", "")];

static ADD: Declaration<'static, bool, char, ()> = declare! {
    program: "add",
    options: [flag(true, Names::Short('f'), "")],
    positionals: [at_least_once((), "FILE")],
};

// The options of a declaration and those of the group.
type Shared<F, V, P> = Vec<
    Parsed<
        Key<F, Telling>,
        Key<V, Infallible>,
        P,
        Key<Infallible, Infallible>,
        Key<Infallible, Infallible>,
    >,
>;

// What was read: the general options that are not of the group, those of the group, and the same of
// the line of the command.
fn shown(
    alloc: Global,
    general: Shared<char, char, Infallible>,
    line: Shared<bool, char, ()>,
) -> Result<String, AllocError> {
    let (own, before) = split_shared(alloc, general)?;
    let (line, after) = split_shared(alloc, line)?;
    format!(in alloc; "{own:?} {before:?}, {line:?} {after:?}")
}

type General = Call<
    Key<char, Telling>,
    Key<char, Infallible>,
    Key<Infallible, Infallible>,
    Key<Infallible, Infallible>,
>;

fn added(alloc: Global, call: General) -> Result<String, AllocError> {
    let shared = Combined::with_shared(alloc, &ADD, TELLING)?;
    let declaration = shared.declaration();
    let options = Options::new(&declaration);
    let (general, answer) = call.answer(alloc, &options, WIDTH)?;
    match answer {
        Answer::Parsed(line) => shown(alloc, general, line),
        Answer::Text(_) | Answer::Refused(_) => format!(in alloc; "refused"),
    }
}

fn printed(alloc: Global, line: &[u8]) -> Result<String, AllocError> {
    let shared = Combined::with_shared(alloc, &GENERAL, TELLING)?;
    let declaration = shared.declaration();
    let commands = Commands::new(Options::new(&declaration), COMMANDS);
    match commands.answer(alloc, words_of(alloc, line)?, WIDTH)? {
        Step::Command(Add, _path, call) => added(alloc, call),
        _ => format!(in alloc; "no command"),
    }
}

#[test]
fn general_options_after_the_command(rt: HostRuntime) {
    let text = printed(rt.alloc(), b"-v -C d add -q x -fv").expect(&rt, "memory");
    assert_eq!(rt;
        text.as_str(),
        "[Value('C', \"d\")] [Flag(Verbose)], [Positional((), \"x\"), Flag(true)] \
         [Flag(Quiet), Flag(Verbose)]"
    );
}

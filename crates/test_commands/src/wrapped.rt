//! Lines with a rest: of a program that runs another one, and of one that takes words after the
//! separator.
use lexopt_commands::{Rest, RestStart, Wrapper, WrapperAnswer};
use lexopt_options::{Declaration, Names, Options, Request, Shell, declare};
use std::alloc::{AllocError, Global};
use test_helpers::environments::{Arguments, Variable};
use test_helpers::parsers::words_of;

#[derive(Debug, Clone, Copy)]
enum Flag {
    Verbose,
}

#[derive(Debug, Clone, Copy)]
enum Value {
    Signal,
}

#[derive(Debug, Clone, Copy)]
enum Word {
    Duration,
    Revision,
}

static TIMEOUT: Declaration<'static, Flag, Value, Word> = declare! {
    program: "timeout",
    options: [
        flag(Flag::Verbose, Names::Both('v', "verbose"), "tell more"),
        value(Value::Signal, Names::Both('s', "signal"), "NAME", "what to send").text(),
        help(Names::Both('h', "help")),
        version(Names::Long("version"), "timeout 1.0"),
    ],
    positionals: [once(Word::Duration, "DURATION", "when")],
};

static LOG: Declaration<'static, Flag, Value, Word> = declare! {
    program: "log",
    options: [
        flag(Flag::Verbose, Names::Both('v', "verbose"), "tell more"),
        value(Value::Signal, Names::Both('s', "since"), "WHEN", "from when on").text(),
        help(Names::Both('h', "help")),
    ],
    positionals: [any_number(Word::Revision, "REVISION", "which commits").text()],
};

const COMMAND: Rest<'static> = Rest {
    start: RestStart::Surplus,
    placeholder: "COMMAND",
    help: "what to run",
    required: true,
};

const PATHS: Rest<'static> = Rest {
    start: RestStart::Separated,
    placeholder: "PATH",
    help: "only what changed these",
    required: false,
};

// What a program of these options does with these words of an environment in which this is the
// variable by which shells ask, or `COLUMNS`.
fn text_of<'a>(
    alloc: Global,
    options: Options<'static, Flag, Value, Word>,
    rest: Rest<'static>,
    line: &[u8],
    name: &'a str,
    value: &'a [u8],
) -> Result<String, AllocError> {
    let words = words_of(alloc, line)?;
    let environment = Variable {
        arguments: Arguments { words: &words },
        name,
        value: Some(value),
    };
    match Wrapper::new(options, rest).from_env(&(environment, alloc))? {
        WrapperAnswer::Parsed(parsed, command) => format!(in alloc; "{parsed:?}, then {command:?}"),
        WrapperAnswer::Text(text) => Ok(text),
        WrapperAnswer::Refused(refused) => format!(in alloc; "{refused}"),
    }
}

const HELP: &str = "\
Usage: timeout [OPTION]... DURATION COMMAND [ARGUMENT]...

  DURATION              when
  COMMAND               what to run

  -v, --verbose         tell more
  -s, --signal=NAME     what to send
  -h, --help            print this help and exit
      --version         print the version and exit
";

// Lines, with the name that the program is called by, and what is read, printed or refused.
static ROWS: &[(&[u8], &str)] = &[
    (
        b"timeout -v 5 ls -l --help",
        "[Flag(Verbose), Positional(Duration, \"5\")], then [\"ls\", \"-l\", \"--help\"]",
    ),
    (
        b"timeout 5 -s KILL -- -x --",
        "[Positional(Duration, \"5\"), Value(Signal, \"KILL\")], then [\"-x\", \"--\"]",
    ),
    (b"timeout --version 5 ls", "timeout 1.0\n"),
    (b"timeout --help", HELP),
    (
        b"timeout 5",
        "timeout: missing argument COMMAND\nTry 'timeout --help' for more information.",
    ),
    (
        b"timeout",
        "timeout: missing argument DURATION\nTry 'timeout --help' for more information.",
    ),
    (
        b"timeout --bogus 5 ls",
        "timeout: invalid option '--bogus'\nTry 'timeout --help' for more information.",
    ),
];

// What is typed last, after the words before it, and what a shell is told.
static TYPED: &[(&[u8], &str)] = &[
    (b"timeout -v 5 ls -", "command\t1\n"),
    (b"timeout -v 5 l", "command\t0\n"),
    (b"timeout -v 5 --s", "--signal\twhat to send\n"),
    (b"timeout -v 5", "files\n"),
    (b"timeout -s", "-s\twhat to send\n"),
    (b"timeout 5 -- -x -y", "command\t1\n"),
];

const LOG_HELP: &str = "\
Usage: log [OPTION]... [REVISION]... [-- PATH...]

  REVISION              which commits
  -- PATH...            only what changed these

  -v, --verbose         tell more
  -s, --since=WHEN      from when on
  -h, --help            print this help and exit
";

// The same of a program whose rest comes after the separator.
static LOG_ROWS: &[(&[u8], &str)] = &[
    (
        b"log a -v b -- -v --help",
        "[Positional(Revision, \"a\"), Flag(Verbose), Positional(Revision, \"b\")], then [\"-v\", \"--help\"]",
    ),
    (b"log a", "[Positional(Revision, \"a\")], then []"),
    (b"log --", "[], then []"),
    (
        b"log -s -- a",
        "[Value(Signal, \"--\"), Positional(Revision, \"a\")], then []",
    ),
    (b"log -- -- x", "[], then [\"--\", \"x\"]"),
    (b"log --help -- x", LOG_HELP),
    (
        b"log --bogus -- x",
        "log: invalid option '--bogus'\nTry 'log --help' for more information.",
    ),
];

static LOG_TYPED: &[(&[u8], &str)] = &[
    (b"log a -- b -", "files\n"),
    (b"log a -- b", "files\n"),
    (b"log a --s", "--since\tfrom when on\n"),
    (b"log a b", ""),
    (b"log -s -- b", ""),
];

#[test]
fn lines(rt: HostRuntime) {
    let timeout = Options::new(&TIMEOUT);
    let log = Options::new(&LOG);
    for (line, wanted) in ROWS.iter() {
        let text = text_of(rt.alloc(), timeout, COMMAND, line, "COLUMNS", b"80").expect(
            &rt, "memory",
        );
        assert_eq!(rt; text.as_str(), *wanted, "{line:?}");
    }
    for (line, wanted) in LOG_ROWS.iter() {
        let text = text_of(rt.alloc(), log, PATHS, line, "COLUMNS", b"80").expect(&rt, "memory");
        assert_eq!(rt; text.as_str(), *wanted, "{line:?}");
    }
}

#[test]
fn completions(rt: HostRuntime) {
    let timeout = Options::new(&TIMEOUT);
    let log = Options::new(&LOG);
    for (line, wanted) in TYPED.iter() {
        let text = text_of(
            rt.alloc(),
            timeout,
            COMMAND,
            line,
            "_TIMEOUT_COMPLETE",
            b"bash_complete",
        )
        .expect(&rt, "memory");
        assert_eq!(rt; text.as_str(), *wanted, "{line:?}");
    }
    for (line, wanted) in LOG_TYPED.iter() {
        let text = text_of(
            rt.alloc(),
            log,
            PATHS,
            line,
            "_LOG_COMPLETE",
            b"bash_complete",
        )
        .expect(&rt, "memory");
        assert_eq!(rt; text.as_str(), *wanted, "{line:?}");
    }
}

// Whether the calls that `from_env` does not show are right.
fn are_right(alloc: Global) -> Result<bool, AllocError> {
    let voluntary = Rest {
        required: false,
        ..COMMAND
    };
    let timeout = Options::new(&TIMEOUT);
    let wrapper = Wrapper::new(timeout, voluntary);
    let usage = wrapper.usage(alloc, 80)?;
    let own = wrapper.options().script(alloc, Shell::Zsh)?;
    let text = text_of(alloc, timeout, voluntary, b"timeout 5", "COLUMNS", b"80")?;
    match wrapper.answer_request(alloc, Request::Script(Shell::Zsh), 80)? {
        WrapperAnswer::Text(script) => Ok(
            usage.as_str() == "Usage: timeout [OPTION]... DURATION [COMMAND] [ARGUMENT]...\n"
                && script == own
                && text.as_str() == "[Positional(Duration, \"5\")], then []",
        ),
        _other => Ok(false),
    }
}

#[test]
fn rests_that_may_be_left_out(rt: HostRuntime) {
    assert!(rt; are_right(rt.alloc()).expect(&rt, "memory"));
}

//! Options that have a default: what is read of a line, and defaults at fault.
use lexopt_options::{
    Declaration, Declared, Line, Names, Options, RestStart, declare, declare_option, read_rest,
};
use lexopt_runtime_options::{DeclarationError, Reason, try_options};
use std::alloc::{AllocError, Global};
use test_helpers::parsers::words_of;

#[derive(Debug, Clone, Copy)]
enum Flag {
    Verbose,
}

#[derive(Debug, Clone, Copy)]
enum Value {
    Jobs,
    Output,
    Mode,
}

#[derive(Debug, Clone, Copy)]
enum Word {
    File,
}

static BUILD: Declaration<'static, Flag, Value, Word> = declare! {
    program: "build",
    options: [
        value(Value::Jobs, Names::Both('j', "jobs"), "COUNT", "how many at once").text().default("4"),
        flag(Flag::Verbose, Names::Both('v', "verbose"), "tell more"),
        value(Value::Output, Names::Both('o', "output"), "FILE", "write to this file"),
        value(Value::Mode, Names::Long("mode"), "MODE", "how")
            .default("slow").one_of(&["fast", "slow"]),
    ],
    positionals: [any_number(Word::File, "FILE")],
};

// How a line is read.
#[derive(Clone, Copy)]
enum Call {
    Read,
    // Up to the separator.
    ReadRest,
}

use Call::{Read, ReadRest};

// Calls, lines, and what is read, and the rest; or what was read before the mistake, and the
// refusal.
static ROWS: [(Call, &[u8], &str); 10] = [
    (Read, b"", "[Value(Jobs, \"4\"), Value(Mode, \"slow\")]"),
    (
        Read,
        b"a -v",
        "[Value(Jobs, \"4\"), Value(Mode, \"slow\"), Positional(File, \"a\"), Flag(Verbose)]",
    ),
    (
        Read,
        b"-o x --mode=fast",
        "[Value(Jobs, \"4\"), Value(Output, \"x\"), Value(Mode, \"fast\")]",
    ),
    (
        Read,
        b"-j 2 a --jobs=3",
        "[Value(Mode, \"slow\"), Value(Jobs, \"2\"), Positional(File, \"a\"), Value(Jobs, \"3\")]",
    ),
    (
        Read,
        b"--mode slow -j4",
        "[Value(Mode, \"slow\"), Value(Jobs, \"4\")]",
    ),
    (
        Read,
        b"-v --bogus",
        "[Flag(Verbose)], then build: invalid option '--bogus'",
    ),
    (
        Read,
        b"-v -j",
        "[Flag(Verbose)], then build: missing argument COUNT for option '-j'",
    ),
    (
        ReadRest,
        b"-v a -- -j 2",
        "[Value(Jobs, \"4\"), Value(Mode, \"slow\"), Flag(Verbose), Positional(File, \"a\")] and \
        [\"-j\", \"2\"]",
    ),
    (
        ReadRest,
        b"-j2",
        "[Value(Mode, \"slow\"), Value(Jobs, \"2\")] and []",
    ),
    (
        ReadRest,
        b"",
        "[Value(Jobs, \"4\"), Value(Mode, \"slow\")] and []",
    ),
];

fn text_of_line(alloc: Global, line: &Line<'_, Flag, Value, Word>) -> Result<String, AllocError> {
    match line {
        Line::Parsed(parsed) => format!(in alloc; "{parsed:?}"),
        Line::Asked(asked) => format!(in alloc; "{asked:?}"),
        Line::Refused(refused) => format!(in alloc; "{:?}, then {refused}", refused.before),
    }
}

// What the call returns for these words, as a text.
fn text_of(alloc: Global, call: Call, line: &[u8]) -> Result<String, AllocError> {
    let options = Options::new(&BUILD);
    let words = words_of(alloc, line)?;
    match call {
        Read => text_of_line(alloc, &options.read(alloc, words)?),
        ReadRest => {
            let (line, rest) = read_rest(alloc, &options, RestStart::Separated, words)?;
            let text = text_of_line(alloc, &line)?;
            format!(in alloc; "{text} and {rest:?}")
        }
    }
}

#[test]
fn rows(rt: HostRuntime) {
    for (call, line, wanted) in ROWS.iter() {
        let text = text_of(rt.alloc(), *call, line).expect(&rt, "memory");
        assert_eq!(rt; text.as_str(), *wanted, "{line:?}");
    }
}

// Whether the default is the fault of this option, and is printed so.
fn is_fault(alloc: Global, option: Declared<'_, Flag, Value>) -> Result<bool, AllocError> {
    let names = option.names;
    let options = [option];
    let declaration: Declaration<'_, Flag, Value, Word> = Declaration {
        program: "build",
        about: "",
        usage: &[],
        options: &options,
        positionals: &[],
        epilogue: &[],
        short_equals: true,
    };
    match try_options(&declaration) {
        Ok(_) => Ok(false),
        Err(error) => Ok(
            error
                == DeclarationError::Option {
                    option: names,
                    reason: Reason::BadDefault,
                }
                && error.to_string(alloc)?.as_str()
                    == "option '--mode': it has a default, but is required, does not always have one \
                        value, or does not accept it",
        ),
    }
}

#[test]
fn faults(rt: HostRuntime) {
    let names = Names::Long("mode");
    let required = declare_option!(
        value(Value::Mode, names, "MODE", "")
            .required()
            .default("a")
    );
    assert!(rt; is_fault(rt.alloc(), required).expect(&rt, "memory"));
    let flag = declare_option!(flag(Flag::Verbose, names, "").default("a"));
    assert!(rt; is_fault(rt.alloc(), flag).expect(&rt, "memory"));
    let other = declare_option!(
        value(Value::Mode, names, "MODE", "")
            .one_of(&["ab"])
            .default("a")
    );
    assert!(rt; is_fault(rt.alloc(), other).expect(&rt, "memory"));
}

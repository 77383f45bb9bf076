//! Options that exclude each other: what is read of a line, an option at fault, and the usage line.
use lexopt_options::{
    Declaration, Line, Mistake, Names, Options, OsString, RestStart, declare, declare_option,
    read_rest,
};
use lexopt_runtime_options::{DeclarationError, Reason, try_options};
use std::alloc::{AllocError, Global};
use test_helpers::parsers::words_of;

#[derive(Debug, Clone, Copy)]
enum Flag {
    Json,
    Verbose,
    Xml,
}

#[derive(Debug, Clone, Copy)]
enum Value {
    Columns,
    Jobs,
}

#[derive(Debug, Clone, Copy)]
enum Word {
    File,
}

static SHOW: Declaration<'static, Flag, Value, Word> = declare! {
    program: "show",
    options: [
        flag(Flag::Json, Names::Both('j', "json"), "as JSON").exclusive("format"),
        flag(Flag::Verbose, Names::Short('v'), "tell more").exclusive("how much"),
        value(Value::Columns, Names::Long("columns"), "LIST", "as columns").exclusive("format"),
        flag(Flag::Xml, Names::Long("xml"), "as XML").text().exclusive("format").hidden(),
        value(Value::Jobs, Names::Long("jobs"), "COUNT", "how many at once").default("4"),
        help(Names::Long("help")),
    ],
    positionals: [once(Word::File, "FILE")],
};

// Lines up to the separator, and what is read; or what was read before the mistake, and the refusal.
static ROWS: [(&[u8], &str); 10] = [
    (
        b"-vj a",
        "[Value(Jobs, \"4\"), Flag(Verbose), Flag(Json), Positional(File, \"a\")]",
    ),
    (
        b"a -jj --jobs=2",
        "[Positional(File, \"a\"), Flag(Json), Flag(Json), Value(Jobs, \"2\")]",
    ),
    (
        b"a --xml -j",
        "[Positional(File, \"a\"), Flag(Xml), Flag(Json)], then show: options '--json' and '--xml' \
        cannot be used together\nTry 'show --help' for more information.",
    ),
    (
        b"--xml --columns=b a -j",
        "[Flag(Xml), Value(Columns, \"b\"), Positional(File, \"a\"), Flag(Json)], then show: options \
        '--json' and '--columns' cannot be used together\nTry 'show --help' for more information.",
    ),
    (
        b"--columns -j a --xml",
        "[Value(Columns, \"-j\"), Positional(File, \"a\"), Flag(Xml)], then show: options \
        '--columns' and '--xml' cannot be used together\nTry 'show --help' for more information.",
    ),
    (
        b"-j --xml",
        "[Flag(Json), Flag(Xml)], then show: missing argument FILE\nTry 'show --help' for more \
        information.",
    ),
    (
        b"-j --xml a --bogus",
        "[Flag(Json), Flag(Xml), Positional(File, \"a\")], then show: invalid option \
        '--bogus'\nTry 'show --help' for more information.",
    ),
    (b"-j --xml --help", "Help"),
    (
        b"-j a -- --xml",
        "[Value(Jobs, \"4\"), Flag(Json), Positional(File, \"a\")]",
    ),
    (
        b"-j --xml a -- b",
        "[Flag(Json), Flag(Xml), Positional(File, \"a\")], then show: options '--json' and '--xml' \
        cannot be used together\nTry 'show --help' for more information.",
    ),
];

// What is read of these words up to the separator, as a text.
fn text_of(alloc: Global, line: &[u8]) -> Result<String, AllocError> {
    let options = Options::new(&SHOW);
    let words = words_of(alloc, line)?;
    let (line, _rest) = read_rest(alloc, &options, RestStart::Separated, words)?;
    match line {
        Line::Parsed(parsed) => format!(in alloc; "{parsed:?}"),
        Line::Asked(asked) => format!(in alloc; "{asked:?}"),
        Line::Refused(refused) => format!(in alloc; "{:?}, then {refused}", refused.before),
    }
}

#[test]
fn rows(rt: HostRuntime) {
    for (line, wanted) in ROWS.iter() {
        let text = text_of(rt.alloc(), line).expect(&rt, "memory");
        assert_eq!(rt; text.as_str(), *wanted, "{line:?}");
    }
}

// Whether the mistake names these options.
fn names_both(alloc: Global) -> Result<bool, AllocError> {
    let words = words_of(alloc, b"a -j --xml")?;
    match Options::new(&SHOW).read(alloc, words)? {
        Line::Refused(refused) => Ok(matches!(
            refused.mistake,
            Mistake::Exclusive(Names::Both('j', "json"), Names::Long("xml"))
        )),
        _ => Ok(false),
    }
}

#[test]
fn mistake(rt: HostRuntime) {
    assert!(rt; names_both(rt.alloc()).expect(&rt, "memory"));
}

// Whether it is a fault that an option which excludes others is required.
fn is_fault(alloc: Global) -> Result<bool, AllocError> {
    let names = Names::Long("json");
    let options = [declare_option!(flag(Flag::Json, names, "").required().exclusive("format"))];
    let declaration: Declaration<'_, Flag, Value, Word> = Declaration {
        program: "show",
        about: "",
        usage: &[],
        options: &options,
        positionals: &[],
        epilogue: &[],
        short_equals: true,
    };
    match try_options(&declaration) {
        Ok(_) => Ok(false),
        Err(error) => Ok(
            error
                == DeclarationError::Option {
                    option: names,
                    reason: Reason::BadExclusive,
                }
                && error.to_string(alloc)?.as_str()
                    == "option '--json': it excludes other options, but is required",
        ),
    }
}

#[test]
fn fault(rt: HostRuntime) {
    assert!(rt; is_fault(rt.alloc()).expect(&rt, "memory"));
}

#[test]
fn usage(rt: HostRuntime) {
    let usage = Options::new(&SHOW)
        .usage(rt.alloc(), 80)
        .expect(&rt, "memory");
    let wanted = "Usage: show [OPTION]... [--json | --columns=LIST] [-v] FILE\n";
    assert_eq!(rt; usage.as_str(), wanted);
}

// Lines, what is typed after them, and the spellings that are offered.
static OFFERED: [(&[u8], &str, &str); 6] = [
    (b"-v", "--", "--json --columns --jobs --help "),
    (b"-j", "--", "--json --jobs --help "),
    (b"a --xml", "--", "--jobs --help "),
    (b"--xml", "--xml", "--xml "),
    (b"--columns -j", "--xml", ""),
    (b"-j --xml a", "-", "-v --jobs --help "),
];

// The spellings that are offered where this is typed after this line.
fn offered(alloc: Global, line: &[u8], typed: &str) -> Result<String, AllocError> {
    let typed = OsString::from_text(alloc, typed)?;
    let found = Options::new(&SHOW).complete(alloc, words_of(alloc, line)?, &typed)?;
    let mut text = String::new(alloc);
    for spelling in &found.spellings {
        text.push_str(spelling.text.as_str())?;
        text.push(' ')?;
    }
    Ok(text)
}

#[test]
fn completion(rt: HostRuntime) {
    for (line, typed, wanted) in OFFERED.iter() {
        let text = offered(rt.alloc(), line, typed).expect(&rt, "memory");
        assert_eq!(rt; text.as_str(), *wanted, "{line:?} {typed:?}");
    }
}

//! A line of a declaration that shares a group of options, taken apart.
use lexopt_options::{Declaration, Group, Line, Names, Options, Parsed, declare, declare_group};
use lexopt_runtime_options::{Combined, split_shared};
use std::alloc::{AllocError, Global};
use std::convert::Infallible;
use test_helpers::parsers::words_of;

static OWN: Declaration<'static, char, u8, bool, char, u8> = declare! {
    program: "own",
    options: [
        flag('a', Names::Short('a'), ""),
        value(1, Names::Short('b'), "B", ""),
        maybe('c', Names::Short('c'), "C", ""),
        values(2, Names::Short('d'), "D", ""),
    ],
    positionals: [any_number(true, "WORD")],
};

static SHARED: Group<'static, u8, char, u8, char> = declare_group! {
    options: [
        flag(3, Names::Short('e'), ""),
        value('f', Names::Short('f'), "F", ""),
        maybe(4, Names::Short('g'), "G", ""),
        values('h', Names::Short('h'), "H", ""),
    ],
};

// What is read of a line, as its own part and its shared part are printed.
fn printed(alloc: Global, line: &[u8]) -> Result<String, AllocError> {
    let combined = Combined::with_shared(alloc, &OWN, SHARED)?;
    let declaration = combined.declaration();
    let words = words_of(alloc, line)?;
    match Options::new(&declaration).read(alloc, words)? {
        Line::Parsed(parsed) => {
            let (own, shared) = split_shared(alloc, parsed)?;
            format!(in alloc; "{own:?} {shared:?}")
        }
        _ => format!(in alloc; "refused"),
    }
}

#[test]
fn options_of_each_kind(rt: HostRuntime) {
    let text = printed(rt.alloc(), b"-e x -f1 -a -g -b2 -h3 -c4 -d5").expect(&rt, "memory");
    assert_eq!(rt;
        text.as_str(),
        "[Positional(true, \"x\"), Flag('a'), Value(1, \"2\"), Maybe('c', Some(\"4\")), \
         Values(2, [\"5\"])] [Flag(3), Value('f', \"1\"), Maybe(4, None), Values('h', [\"3\"])]"
    );
}

static ANOTHER: Group<'static, bool> = declare_group! {
    options: [flag(true, Names::Short('z'), "")],
};

// The same for a declaration that shares two groups, the second of which has one flag: what is of
// neither group, of the first and of the second.
fn printed_of_three(alloc: Global, line: &[u8]) -> Result<String, AllocError> {
    let one = Combined::with_shared(alloc, &OWN, SHARED)?;
    let declaration = one.declaration();
    let both = Combined::with_shared(alloc, &declaration, ANOTHER)?;
    let declaration = both.declaration();
    let words = words_of(alloc, line)?;
    match Options::new(&declaration).read(alloc, words)? {
        Line::Parsed(parsed) => {
            let (parsed, second) = split_shared(alloc, parsed)?;
            let (own, first) = split_shared(alloc, parsed)?;
            format!(in alloc; "{own:?} {first:?} {second:?}")
        }
        _ => format!(in alloc; "refused"),
    }
}

#[test]
fn options_of_two_groups(rt: HostRuntime) {
    let text = printed_of_three(rt.alloc(), b"-z -e x -a -z").expect(&rt, "memory");
    assert_eq!(rt;
        text.as_str(),
        "[Positional(true, \"x\"), Flag('a')] [Flag(3)] [Flag(true), Flag(true)]"
    );
}

//! What is read from an environment: the words, the variable by which a shell asks, and `COLUMNS`.
use crate::archive::{archive_of_files, text_of_answer};
use lexopt_options::columns;
use std::alloc::{AllocError, Global};
use test_helpers::environments::{Arguments, Variable};
use test_helpers::parsers::words_of;

// Lines, a variable and its value, and the beginning of what is read or printed. The last value has
// more bytes than the program reads.
static ROWS: [(&[u8], &str, Option<&[u8]>, &str); 6] = [
    (V, SHELL, None, "[Flag(Verbose)]"),
    (V, SHELL, Some(b""), "[Flag(Verbose)]"),
    (V, SHELL, Some(b"zsh_source"), "#compdef archive\n"),
    (V, SHELL, Some(b"fish_complete"), "-v\ttell more\n"),
    (V, SHELL, Some(b"bash_completely_of_course"), NOT_KNOWN),
    (
        b"archive -h",
        "COLUMNS",
        Some(b"30"),
        "Usage: archive [OPTION]...\n       [FILE]...\n",
    ),
];

const V: &[u8] = b"archive -v";

const SHELL: &str = "_ARCHIVE_COMPLETE";

const NOT_KNOWN: &str = "archive: invalid value of _ARCHIVE_COMPLETE: one of bash_source, \
    bash_complete, zsh_source, zsh_complete, fish_source, fish_complete\n\
    Try 'archive --help' for more information.";

// What the program does with these words if the variable has this value.
fn text_of<'v>(
    alloc: Global,
    line: &[u8],
    name: &'v str,
    value: Option<&'v [u8]>,
) -> Result<String, AllocError> {
    let words = words_of(alloc, line)?;
    let environment = Variable {
        arguments: Arguments { words: &words },
        name,
        value,
    };
    text_of_answer(alloc, &archive_of_files().from_env(&(environment, alloc)))
}

#[test]
fn environments(rt: HostRuntime) {
    for (line, name, value, front) in ROWS.iter() {
        let text = text_of(rt.alloc(), line, name, *value).expect(&rt, "memory");
        assert!(rt; text.as_str().starts_with(front), "{line:?} {value:?}");
    }
}

// Values of `COLUMNS`, and the width. It is 80 if the value is not a number, is 0, or does not fit
// in 64 bits.
static WIDTHS: [(Option<&[u8]>, usize); 10] = [
    (Some(b"40"), 40),
    (Some(b"+40"), 40),
    (Some(b"00000000000000000040"), 40),
    (None, 80),
    (Some(b""), 80),
    (Some(b"0"), 80),
    (Some(b"40 "), 80),
    (Some(b"-40"), 80),
    (Some(b"4\xff"), 80),
    (Some(b"18446744073709551616"), 80),
];

#[test]
fn widths(rt: HostRuntime) {
    for (value, width) in WIDTHS.iter() {
        let environment = Variable {
            arguments: Arguments { words: &[] },
            name: "COLUMNS",
            value: *value,
        };
        assert_eq!(rt; columns(&environment), *width);
    }
}

//! Each public call of `Options` on a line or a declaration.
use crate::archive::{
    ARCHIVE, ArchiveLine, ArchiveOptions, Flag, archive, archive_of_files, text_of_answer,
};
use lexopt_option_table::table_of;
use lexopt_options::{Detail, Line, Names, OsString, Request, Shell, declare_option};
use lexopt_runtime_options::{DeclarationError, Reason, try_options};
use std::alloc::{AllocError, Global};
use test_helpers::parsers::words_of;

// A call that is given the words of a line, or, for a request, the words before the last and what
// is typed.
#[derive(Clone, Copy)]
enum Call {
    Read,
    Answer,
    Complete,
}

use Call::{Answer, Complete, Read};

const HELP_AT_40: &str = "Usage: archive [OPTION]... [FILE]...
Packs files.

  -v, --verbose
             tell more
  -o, --output=FILE
             write to this file
  -b[SUFFIX], --backup[=SUFFIX]
             keep an archive that is
             there, with this suffix
  -x, --exclude PATTERN...
             leave out the files whose
             names match one of these
             patterns of a shell
  -h, --help
             print this help and exit
";

// Calls, lines, and what is read, printed or refused.
static ROWS: [(Call, &[u8], &str); 8] = [
    (
        Read,
        b"-vo=x --output y -bz --exclude a b -- -f\xFF",
        "[Flag(Verbose), Value(Output, \"x\"), Value(Output, \"y\"), Maybe(Backup, Some(\"z\")), \
        Values(Exclude, [\"a\", \"b\"]), Positional(File, \"-f\\xFF\")]",
    ),
    (Read, b"-h --bogus", "Help"),
    (
        Read,
        b"-v --verbsoe",
        "[Flag(Verbose)], then archive: invalid option '--verbsoe'; did you mean '--verbose'?\n\
        Try 'archive --help' for more information.",
    ),
    (Answer, b"-v a", "[Flag(Verbose), Positional(File, \"a\")]"),
    (Answer, b"a --help --bogus", HELP_AT_40),
    (
        Answer,
        b"--bogus",
        "archive: invalid option '--bogus'\nTry 'archive --help' for more information.",
    ),
    (Complete, b"-v --verb", "--verbose\ttell more\n"),
    (Complete, b"-o ", "files\n"),
];

// What was read, as `Debug` writes it; the request; or what was read before the mistake, and the
// refusal.
fn text_of_line(alloc: Global, line: &ArchiveLine<'_>) -> Result<String, AllocError> {
    match line {
        Ok(Line::Parsed(parsed)) => format!(in alloc; "{parsed:?}"),
        Ok(Line::Asked(asked)) => format!(in alloc; "{asked:?}"),
        Ok(Line::Refused(refused)) => format!(in alloc; "{:?}, then {refused}", refused.before),
        Err(_) => Err(AllocError),
    }
}

// What the call returns for these words, as a text.
fn text_of(alloc: Global, call: Call, line: &[u8]) -> Result<String, AllocError> {
    let options = archive_of_files();
    let words = words_of(alloc, line)?;
    match call {
        Read => text_of_line(alloc, &options.read(alloc, words)),
        Answer => text_of_answer(alloc, &options.answer(alloc, words, 40)),
        Complete => {
            let request = Request::new(alloc, Some(b"bash_complete"), words);
            text_of_answer(alloc, &options.answer_request(alloc, request, 40))
        }
    }
}

#[test]
fn rows(rt: HostRuntime) {
    for (call, line, wanted) in ROWS.iter() {
        let text = text_of(rt.alloc(), *call, line).expect(&rt, "memory");
        assert_eq!(rt; text.as_str(), *wanted, "{line:?}");
    }
}

// Whether one spelling completes a typed word after a positional.
fn is_completed(alloc: Global, typed: &OsString) -> Result<bool, AllocError> {
    let found = archive_of_files().complete(alloc, words_of(alloc, b"a")?, typed)?;
    Ok(matches!(found.spellings.as_slice(), [own] if own.text.as_str() == "--verbose"))
}

// Whether it is printed with its help.
fn is_printed(alloc: Global, typed: &OsString) -> Result<bool, AllocError> {
    let text = archive_of_files().completion_text(alloc, words_of(alloc, b"a")?, typed)?;
    Ok(text.as_str() == "--verbose\ttell more\n")
}

#[test]
fn completions(rt: HostRuntime) {
    let typed = OsString::from_text(rt.alloc(), "--verb").expect(&rt, "memory");
    assert!(rt; is_completed(rt.alloc(), &typed).expect(&rt, "memory"));
    assert!(rt; is_printed(rt.alloc(), &typed).expect(&rt, "memory"));
}

// Whether the texts of the declaration begin so.
fn are_texts(alloc: Global) -> Result<bool, AllocError> {
    let options = archive_of_files();
    let usage = options.usage(alloc, 30)?;
    let help = options.help(alloc, Detail::Full, 40)?;
    let script = options.script(alloc, Shell::Zsh)?;
    Ok(
        usage.as_str() == "Usage: archive [OPTION]...\n       [FILE]...\n"
            && help.as_str() == HELP_AT_40
            && script.as_str().starts_with("#compdef archive\n"),
    )
}

// Whether each part of the declaration is returned.
fn returns_parts(options: &ArchiveOptions<'static>) -> bool {
    options.program() == ARCHIVE.program
        && options.about() == ARCHIVE.about
        && options.epilogue().is_empty()
        && options.has_short_equals()
        && options.options().len() == 5
        && options.positionals().len() == 1
}

// Whether the table has each option that takes values in the list of its kind.
fn has_each_kind(alloc: Global) -> Result<bool, AllocError> {
    let table = table_of(alloc, &archive_of_files())?;
    Ok(
        table.shorts.as_slice() == ['o'].as_slice()
            && table.optional_shorts.as_slice() == ['b'].as_slice()
            && table.several_shorts.as_slice() == ['x'].as_slice(),
    )
}

#[test]
fn parts_texts_and_table(rt: HostRuntime) {
    assert!(rt; returns_parts(&archive_of_files()));
    assert!(rt; are_texts(rt.alloc()).expect(&rt, "memory"));
    assert!(rt; has_each_kind(rt.alloc()).expect(&rt, "memory"));
}

// Whether an option named by a dash is the fault of a declaration, and is printed so.
fn is_fault(alloc: Global) -> Result<bool, AllocError> {
    let dash = [declare_option!(flag(Flag::Verbose, Names::Short('-'), ""))];
    let (option, reason) = (Names::Short('-'), Reason::DashName);
    match try_options(&archive(&dash, &[])) {
        Ok(_) => Ok(false),
        Err(error) => Ok(
            error == DeclarationError::Option { option, reason }
                && error.to_string(alloc)?.as_str() == "option '--': its character is '-'",
        ),
    }
}

#[test]
fn faults(rt: HostRuntime) {
    assert!(rt; is_fault(rt.alloc()).expect(&rt, "memory"));
}

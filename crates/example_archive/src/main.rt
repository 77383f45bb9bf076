//! Declared options of each kind: `example_archive OPTION.. [FILE]..`.
//!
//! It packs nothing: it prints what it has read, quoted. A word may have any bytes. In bash,
//! `_EXAMPLE_ARCHIVE_COMPLETE=bash_source example_archive` prints a script that completes its
//! lines; `zsh_source` and `fish_source` do so for zsh and fish.
//!
//! The exit status is 0; 2 if the command line is refused; or that of `finish` if memory runs out
//! or a line cannot be printed. Standard error then has the reason, unless nobody reads the lines.
#![tactic(auto)]

use lexopt_options::{
    Answer, Declaration, Names, Options, OsString, Parsed, Quoted, declare, finish,
};
use std::io;
use std::process::ExitCode;

#[derive(Clone, Copy)]
enum Flag {
    Verbose,
}

#[derive(Clone, Copy)]
enum Value {
    Output,
    Directory,
    Format,
}

#[derive(Clone, Copy)]
enum Word {
    File,
}

#[derive(Clone, Copy)]
enum Maybe {
    Backup,
}

#[derive(Clone, Copy)]
enum Values {
    Exclude,
}

static DECLARATION: Declaration<'static, Flag, Value, Word, Maybe, Values> = declare! {
    program: "example_archive",
    about: "Prints what it has read.",
    options: [
        flag(Flag::Verbose, Names::Both('v', "verbose"), "tell more"),
        value(Value::Output, Names::Both('o', "output"), "FILE", "the archive"),
        value(Value::Directory, Names::Both('C', "directory"), "DIR", "where the files are")
            .directories(),
        value(Value::Format, Names::Both('f', "format"), "FORMAT", "what the archive is to be")
            .one_of(&["tar", "tar:gz", "zip"]),
        maybe(
            Maybe::Backup,
            Names::Both('b', "backup"),
            "SUFFIX",
            "keep an archive that is there, with this suffix",
        )
        .text(),
        values(
            Values::Exclude,
            Names::Both('x', "exclude"),
            "PATTERN",
            "leave these out: all words up to the next option",
        ),
        help(Names::Both('h', "help")),
    ],
    positionals: [any_number(Word::File, "FILE")],
};

fn print_word(rt: &impl Print, name: &str, word: &OsString) -> io::Result<()> {
    let word = Quoted::new(word.as_bytes());
    println!(rt; "{name}: {word}")
}

fn print_parsed(
    rt: &impl Print,
    parsed: &Parsed<Flag, Value, Word, Maybe, Values>,
) -> io::Result<()> {
    match parsed {
        Parsed::Flag(Flag::Verbose) => rt.println("verbose"),
        Parsed::Value(Value::Output, file) => print_word(rt, "output", file),
        Parsed::Value(Value::Directory, folder) => print_word(rt, "directory", folder),
        Parsed::Value(Value::Format, format) => print_word(rt, "format", format),
        Parsed::Maybe(Maybe::Backup, Some(suffix)) => print_word(rt, "backup", suffix),
        Parsed::Maybe(Maybe::Backup, None) => rt.println("backup"),
        Parsed::Values(Values::Exclude, patterns) => {
            for pattern in patterns {
                print_word(rt, "exclude", pattern)?;
            }
            Ok(())
        }
        Parsed::Positional(Word::File, file) => print_word(rt, "file", file),
    }
}

fn run(rt: &HostRuntime) -> io::Result<ExitCode> {
    match Options::new(&DECLARATION).from_env(rt)? {
        Answer::Parsed(line) => {
            for parsed in &line {
                print_parsed(rt, parsed)?;
            }
        }
        Answer::Text(text) => rt.print(text)?,
        Answer::Refused(refused) => return Ok(refused.print(rt)),
    }
    Ok(ExitCode::SUCCESS)
}

fn main(rt: HostRuntime) -> ExitCode {
    finish(&rt, "example_archive", run(&rt))
}

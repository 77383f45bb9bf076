//! The declaration that the tests share, and the text of what is read.
use lexopt_options::{Answer, Declaration, Declared, Line, Names, Options, Positional, declare};
use std::alloc::{AllocError, Global};

#[derive(Debug, Clone, Copy)]
pub enum Flag {
    Verbose,
}

#[derive(Debug, Clone, Copy, PartialEq)]
pub enum Value {
    Output,
    User,
}

#[derive(Debug, Clone, Copy)]
pub enum Word {
    File,
    Source,
    Target,
}

#[derive(Debug, Clone, Copy, PartialEq)]
pub enum Maybe {
    Backup,
}

#[derive(Debug, Clone, Copy, PartialEq)]
pub enum Values {
    Exclude,
}

pub type ArchiveOption<'a> = Declared<'a, Flag, Value, Maybe, Values>;

pub type ArchivePositional<'a> = Positional<'a, Word>;

pub type Archive<'a> = Declaration<'a, Flag, Value, Word, Maybe, Values>;

pub type ArchiveOptions<'a> = Options<'a, Flag, Value, Word, Maybe, Values>;

pub type ArchiveAnswer<'a> = Result<Answer<'a, Flag, Value, Word, Maybe, Values>, AllocError>;

pub type ArchiveLine<'a> = Result<Line<'a, Flag, Value, Word, Maybe, Values>, AllocError>;

/// A program with one option of each kind, the option for the help, and any number of files.
pub static ARCHIVE: Archive<'static> = declare! {
    program: "archive",
    about: "Packs files.",
    options: [
        flag(Flag::Verbose, Names::Both('v', "verbose"), "tell more"),
        value(Value::Output, Names::Both('o', "output"), "FILE", "write to this file"),
        maybe(
            Maybe::Backup,
            Names::Both('b', "backup"),
            "SUFFIX",
            "keep an archive that is there, with this suffix",
        ),
        values(
            Values::Exclude,
            Names::Both('x', "exclude"),
            "PATTERN",
            "leave out the files whose names match one of these patterns of a shell",
        ),
        help(Names::Both('h', "help")),
    ],
    positionals: [any_number(Word::File, "FILE")],
};

/// The options of `ARCHIVE`.
pub fn archive_of_files() -> ArchiveOptions<'static> {
    Options::new(&ARCHIVE)
}

/// A program with these options and positionals.
pub fn archive<'a>(
    options: &'a [ArchiveOption<'a>],
    positionals: &'a [ArchivePositional<'a>],
) -> Archive<'a> {
    Declaration {
        program: "archive",
        about: "Packs files.",
        usage: &[],
        options,
        positionals,
        epilogue: &[],
        short_equals: true,
    }
}

/// What was read, as `Debug` writes it; a text that is printed; or a refusal.
pub fn text_of_answer(alloc: Global, answer: &ArchiveAnswer<'_>) -> Result<String, AllocError> {
    match answer {
        Ok(Answer::Parsed(parsed)) => format!(in alloc; "{parsed:?}"),
        Ok(Answer::Text(text)) => text.to_string(alloc),
        Ok(Answer::Refused(refused)) => refused.to_string(alloc),
        Err(_) => Err(AllocError),
    }
}

//! Declared options as a struct of the program's own, which it prints.
//!
//! ```text
//! example_copy OPTION.. --owner=USER SOURCE.. DEST
//! ```
//!
//! The exit status is 0; 2 if the command line is refused; or that of `finish` if memory runs out
//! or the line cannot be printed. Standard error then has the reason, unless nobody reads the line.
#![tactic(auto)]

use anyhow::bail;
use lexopt_options::{
    Answer, Declaration, Names, Options, OsString, Parsed, UsageError, declare, finish,
};
use std::alloc::Global;
use std::io;
use std::process::ExitCode;
use std::str::FromStr;

#[derive(Clone, Copy)]
enum Flag {
    Verbose,
    Force,
}

#[derive(Clone, Copy, PartialEq)]
enum Value {
    Jobs,
    Owner,
    Backup,
    Suffix,
}

#[derive(Clone, Copy)]
enum Word {
    Source,
    Dest,
}

static DECLARATION: Declaration<'static, Flag, Value, Word> = declare! {
    program: "example_copy",
    about: "Prints what it would copy.",
    options: [
        flag(Flag::Verbose, Names::Both('v', "verbose"), "tell more; twice, still more"),
        flag(Flag::Force, Names::Both('f', "force"), "replace a file that is there"),
        value(Value::Jobs, Names::Both('j', "jobs"), "COUNT", "how many at a time, from 1 to 64"),
        value(Value::Jobs, Names::Long("parallel"), "COUNT", "the old name of --jobs").hidden(),
        value(Value::Owner, Names::Both('o', "owner"), "USER", "who owns the copies").text().required(),
        value(Value::Backup, Names::Long("backup"), "WHEN", "").one_of(&["always", "never"]),
        value(Value::Suffix, Names::Long("suffix"), "SUFFIX", "what a backup ends with").text(),
        help(Names::Both('h', "help")),
        version(Names::Long("version"), "example_copy 1.0"),
    ],
    positionals: [
        at_least_once(Word::Source, "SOURCE", "what to copy"),
        once(Word::Dest, "DEST", "where to").directories(),
    ],
    epilogue: ["A file is never copied onto itself."],
};

// How many files are copied at a time.
#[derive(Clone, Copy)]
struct Jobs(u32);

impl FromStr for Jobs {
    type Err = anyhow::Error;

    fn from_str(text: &str) -> anyhow::Result<Jobs> {
        match text.parse() {
            Ok(count @ 1..=64) => Ok(Jobs(count)),
            _ => bail!("expected a number from 1 to 64"),
        }
    }
}

#[derive(Debug, Drop)]
struct Settings {
    verbosity: u32,
    force: bool,
    jobs: u32,
    owner: OsString,
    backup: Option<OsString>,
    suffix: Option<OsString>,
    sources: Vec<OsString>,
    dest: OsString,
}

// Makes settings of what was read. If an option occurs more than once, the last one counts.
fn settings_of(
    alloc: Global,
    options: &Options<'static, Flag, Value, Word>,
    line: Vec<Parsed<Flag, Value, Word>>,
) -> Result<Settings, UsageError<'static>> {
    let mut set = Settings {
        verbosity: 0,
        force: false,
        jobs: 4,
        owner: OsString::new(alloc),
        backup: None,
        suffix: None,
        sources: Vec::new(alloc),
        dest: OsString::new(alloc),
    };
    for parsed in line {
        match parsed {
            Parsed::Flag(Flag::Verbose) => set.verbosity = set.verbosity.saturating_add(1),
            Parsed::Flag(Flag::Force) => set.force = true,
            Parsed::Value(Value::Jobs, word) => {
                let Jobs(jobs) = options.parse_value(Value::Jobs, &word)?;
                set.jobs = jobs;
            }
            Parsed::Value(Value::Owner, word) => set.owner = word,
            Parsed::Value(Value::Backup, word) => set.backup = Some(word),
            Parsed::Value(Value::Suffix, word) => set.suffix = Some(word),
            Parsed::Positional(Word::Source, word) => set.sources.push(word)?,
            Parsed::Positional(Word::Dest, word) => set.dest = word,
        }
    }
    if set.sources.contains(&set.dest) {
        return Err(UsageError::from("DEST is one of the files to copy"));
    }
    Ok(set)
}

fn run(rt: &HostRuntime) -> io::Result<ExitCode> {
    let options = Options::new(&DECLARATION);
    match options.from_env(rt)? {
        Answer::Parsed(line) => match settings_of(rt.alloc(), &options, line) {
            Ok(settings) => println!(rt; "{settings:?}")?,
            Err(error) => return Ok(options.report(error).print(rt)),
        },
        Answer::Text(text) => rt.print(text)?,
        Answer::Refused(refused) => return Ok(refused.print(rt)),
    }
    Ok(ExitCode::SUCCESS)
}

fn main(rt: HostRuntime) -> ExitCode {
    finish(&rt, "example_copy", run(&rt))
}

//! Declared options: one declaration reads a line, refuses it with a hint, prints the help, and
//! completes words in a shell.
//!
//! A program declares its options with [`declare!`](crate::declare), makes [`Options`] of the
//! declaration and calls [`Options::from_env`]. The result has the program's own keys.
//!
//! # A whole program
//!
//! The program `pack` is the file `crates/pack/src/main.rt`, and its line in `crates.txt` is
//! `pack: lexopt_options`.
//!
//! ```rust
//! #![tactic(auto)]
//!
//! use lexopt_options::{
//!     Answer, Declaration, Names, Options, OsString, Parsed, UsageError, declare,
//!     finish,
//! };
//! use std::alloc::Global;
//! use std::io;
//! use std::process::ExitCode;
//!
//! #[derive(Clone, Copy)]
//! enum Flag {
//!     Verbose,
//! }
//!
//! // `parse_value` compares the keys of options with values.
//! #[derive(Clone, Copy, PartialEq)]
//! enum Value {
//!     Output,
//!     Jobs,
//! }
//!
//! #[derive(Clone, Copy)]
//! enum Word {
//!     File,
//! }
//!
//! static DECLARATION: Declaration<'static, Flag, Value, Word> = declare! {
//!     program: "pack",
//!     about: "Prints what it would pack.",
//!     options: [
//!         flag(Flag::Verbose, Names::Both('v', "verbose"), "tell more"),
//!         value(Value::Output, Names::Both('o', "output"), "FILE", "the archive").required(),
//!         value(Value::Jobs, Names::Both('j', "jobs"), "COUNT", "how many at a time").text(),
//!         help(Names::Both('h', "help")),
//!         version(Names::Long("version"), "pack 1.0"),
//!     ],
//!     positionals: [at_least_once(Word::File, "FILE", "what to pack")],
//! };
//!
//! #[derive(Debug, Drop)]
//! struct Settings {
//!     verbose: bool,
//!     output: OsString,
//!     jobs: u32,
//!     files: Vec<OsString>,
//! }
//!
//! fn settings_of(
//!     alloc: Global,
//!     options: &Options<'static, Flag, Value, Word>,
//!     line: Vec<Parsed<Flag, Value, Word>>,
//! ) -> Result<Settings, UsageError<'static>> {
//!     let mut settings = Settings {
//!         verbose: false,
//!         output: OsString::new(alloc),
//!         jobs: 1,
//!         files: Vec::new(alloc),
//!     };
//!     for parsed in line {
//!         match parsed {
//!             Parsed::Flag(Flag::Verbose) => settings.verbose = true,
//!             Parsed::Value(Value::Output, word) => settings.output = word,
//!             Parsed::Value(Value::Jobs, word) => {
//!                 settings.jobs = options.parse_value(Value::Jobs, &word)?;
//!             }
//!             Parsed::Positional(Word::File, word) => settings.files.push(word)?,
//!         }
//!     }
//!     if settings.jobs == 0 {
//!         return Err(UsageError::from("at least one job is needed"));
//!     }
//!     Ok(settings)
//! }
//!
//! fn run(rt: &HostRuntime) -> io::Result<ExitCode> {
//!     let options = Options::new(&DECLARATION);
//!     let line = match options.from_env(rt)? {
//!         Answer::Parsed(line) => line,
//!         Answer::Text(text) => return rt.print(text).map(|()| ExitCode::SUCCESS),
//!         Answer::Refused(why) => return Ok(why.print(rt)),
//!     };
//!     match settings_of(rt.alloc(), &options, line) {
//!         Ok(settings) => println!(rt; "{settings:?}").map(|()| ExitCode::SUCCESS),
//!         Err(error) => Ok(options.report(error).print(rt)),
//!     }
//! }
//!
//! fn main(rt: HostRuntime) -> ExitCode {
//!     finish(&rt, "pack", run(&rt))
//! }
//! ```
//!
//! In the folder `crates/pack`, `rt try -- -vo out.zip --jobs=4 a b` prints
//!
//! ```text
//! Settings { verbose: true, output: "out.zip", jobs: 4, files: ["a", "b"] }
//! ```
//!
//! `rt try -- --verbsoe a` and `rt try -- -o x --jobs=many a` exit with the status 2, after they
//! have printed on standard error
//!
//! ```text
//! pack: invalid option '--verbsoe'; did you mean '--verbose'?
//! Try 'pack --help' for more information.
//! ```
//!
//! and
//!
//! ```text
//! pack: invalid value "many" for '--jobs': invalid digit found in string
//! Try 'pack --help' for more information.
//! ```
//!
//! `rt try -- --help` prints
//!
//! ```text
//! Usage: pack [OPTION]... --output=FILE FILE...
//! Prints what it would pack.
//!
//!   FILE                  what to pack
//!
//!   -v, --verbose         tell more
//!   -o, --output=FILE     the archive
//!   -j, --jobs=COUNT      how many at a time
//!   -h, --help            print this help and exit
//!       --version         print the version and exit
//! ```
//!
//! # What to declare
//!
//! - `program` is the name under which the program is installed. Messages, the help and completion
//!   use this name, whatever the name by which the program is called ([`Declaration`] has the
//!   rules).
//! - [`Names`] are the names of an option, without their dashes: `Names::Short('v')`,
//!   `Names::Long("verbose")`, or `Names::Both('v', "verbose")`.
//! - Keys are values of the program's own types, such as `Flag::Verbose`, which tell it what was
//!   read. [`Declaration`], [`Options`] and [`Parsed`] have a type of keys for each kind, in this
//!   order: flags, options of one value, positionals, options whose value may be left out, and
//!   options of several values. Write `Infallible` of `std::convert` for a kind that the program
//!   does not have, or leave it out at the end. Keys are `Clone` and `Copy`; those that are given
//!   to [`Options::parse_value`] are also `PartialEq`.
//! - [`declare!`](crate::declare) lists what a line of the declaration can be. `.required()` is for
//!   an option that each line must have, `.default("4")` for the value of one that a line does not
//!   have, `.exclusive("format")` for options of which a line has at most one,
//!   `.one_of(&["fast", "slow"])` for values in a list, `.hidden()` for an option that the help
//!   leaves out and whose names hints do not have, and `.alias(Names::Long("colour"))` for a further
//!   name, which only lines have. Shells offer both only where they are typed whole. For values and
//!   positionals shells offer the names of files; after `.directories()` those of directories, and
//!   after `.text()` nothing.
//!
//! # What to call
//!
//! - [`Options::new`] takes a declaration in a `static`. `rt check` and `rt run` refuse a program
//!   whose declaration is faulty; `rt try` does not notice it. `try_options` of
//!   `lexopt_runtime_options` takes a declaration that is made when the program runs, and may
//!   return a `DeclarationError`.
//! - [`Options::from_env`] reads the program's own line, or the request of a shell. It returns an
//!   [`Answer`]. `Answer::Parsed` has what the line means, in the order in which it was typed, after
//!   the defaults of the options that it does not have. `Answer::Text` has the help, the version or
//!   what a shell asked for, to be printed. `Answer::Refused` has the mistake; [`Refused::print`]
//!   prints it on standard error, and returns the status to exit with, [`USAGE_ERROR`]. A shell
//!   reads what the program prints, so print nothing before.
//! - [`Parsed`] is an option or a positional that was read: its key, with its values as
//!   [`OsString`]s, which may be any bytes. An option that was typed twice is there twice. Print a
//!   word by [`Visible`], which escapes damage and each character that a terminal may act on, as
//!   [`Mistake`] does, or by `{word:?}` or [`Quoted`], which escape damage and the control
//!   characters of ASCII. Compare it with a text: `word.is("high")`.
//! - [`Options::parse_value`] converts a value by the type's `FromStr`, and its error names the
//!   option. [`Options::parse_maybe`] and [`Options::parse_values`] do so for the other kinds of
//!   options, and [`ValueExt::parse`] and [`ValueExt::string`] for positionals. A value from a list
//!   of `.one_of(..)` is converted so too, if the program has an enum with `FromStr` for it. The
//!   error of that `FromStr` is an `anyhow::Error`, or any type that is a `std::error::Error`.
//! - [`UsageError`] is the error of a function that finds mistakes itself. `?` and
//!   `UsageError::from` make it. `options.report(error).print(rt)` prints it as a refused line is
//!   printed, and returns the status to exit with ([`Options::report`]).
//! - [`Options::answer`] reads words of the program's own, as a test does, and [`Options::read`]
//!   returns the request for the help, and the mistake, as values. [`Options::help`] and
//!   [`Options::usage`] return texts; [`columns`] is the width for them.
//! - A program with commands names `lexopt_commands` too. So does one whose line goes on with the
//!   words of another program, as that of `timeout` does: `Wrapper` of that crate reads it.
//!
//! # Completion in a shell
//!
//! A shell completes the lines of `pack` after one of these lines in its start-up file:
//!
//! ```text
//! source <(_PACK_COMPLETE=bash_source pack)   # bash
//! source <(_PACK_COMPLETE=zsh_source pack)    # zsh, after compinit
//! _PACK_COMPLETE=fish_source pack | source    # fish
//! ```
//!
//! To see what a shell gets, prove the program by `rt run` and call what that leaves in `out`,
//! since `rt try` passes on no environment variable: `_PACK_COMPLETE=bash_complete out/pack --ou`
//! prints `--output`, a tab and its help text.
//!
//! [`variable`] returns the name of that variable. The program needs no more code for completion:
//! [`Options::from_env`] responds to the shell. [`Request`], [`Options::complete`] and [`Script`]
//! are for a program that answers it by itself.
//!
//! In the other examples `rt` is a reference to the runtime that `main` gets, `alloc` is
//! `rt.alloc()`, and `options` is an [`Options`] of the declaration that
//! [`declare!`](crate::declare) shows, with its keys. They belong in a function that returns a
//! `std::io::Result`.
#![tactic(auto)]

pub mod answer;
pub mod complete;
mod declare;
mod front;
mod listed;
pub mod mistake;
pub mod options;
pub mod parsed;
mod places;
mod read;
pub mod refused;
pub mod request;
pub mod rest;
mod taken;
pub mod usage;

pub use answer::{Answer, columns};
pub use complete::{Completion, Joined, Role};
pub use declare::NO_ALIASES;
pub use mistake::{Mistake, OptionName};
pub use options::Options;
pub use parsed::{Asked, Parsed};
pub use refused::{Line, Refused, USAGE_ERROR};
pub use request::Request;
pub use rest::{RestCompletion, RestStart, complete_rest, read_rest};
pub use usage::{Report, UsageError};

// The parts of a declaration, and the scripts for shells.
pub use lexopt_declaration::declaration::{
    Arity, Beside, Count, Declaration, Declared, Group, Kind, Names, Positional, Words,
};
pub use lexopt_declaration::help::{Detail, WIDTH};
pub use lexopt_declaration::shell::{Script, Shell, ShellRequest, variable};
pub use lexopt_declaration::spellings::Spelling;

// What else a program that declares its options needs.
pub use lexopt_words::error::Error;
pub use lexopt_words::finish::{BROKEN_PIPE, finish};
pub use lexopt_words::os_string::{OsString, Quoted, Visible, arguments};
pub use lexopt_words::value_ext::ValueExt;

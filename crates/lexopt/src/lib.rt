//! A parser for command lines, whose words may be any bytes: a port of the Rust crate lexopt 0.3.2.
//!
//! [`Parser::next`] returns the next option or positional, and [`Parser::value`] takes a value for
//! the option just read. There is no table of options: the program matches on each argument and
//! decides whether it has a value. `lexopt_base` is this parser alone. The first page of its
//! documentation has a program that calls the parser, and says when to use which call; a program
//! that calls nothing else should name `lexopt_base` in its line instead, since that needs fewer
//! crates.
//!
//! This crate also has whole lines, which are read by a table of options and turned back into
//! words, and lists of calls.
//!
//! # A whole program
//!
//! The program `forward` prints the words by which to call another program, with each option of its
//! own line in one form. It is the file `crates/forward/src/main.rt`, and its line in `crates.txt`
//! is `forward: lexopt anyhow`. `crates/example_forward` quotes the words for a shell.
//!
//! ```rust
//! #![tactic(auto)]
//!
//! use lexopt::os_string::arguments;
//! use lexopt::replay::{Item, Table, read_items};
//! use lexopt::spell::spell;
//! use lexopt::{Arg, OsString, finish};
//! use std::alloc::Global;
//! use std::env::Env;
//! use std::io;
//! use std::process::ExitCode;
//!
//! const HELP: &str = "Usage: forward [-v|--verbose] [-j|--jobs=COUNT] [FILE]...";
//!
//! // Whether an item asks for the help. An option that the other program lacks is an error.
//! fn asks_for_help(alloc: Global, item: &Item) -> Result<bool, lexopt::Error> {
//!     match item {
//!         Item::Short('h', _) => Ok(true),
//!         Item::Short('v' | 'j', _) => Ok(false),
//!         Item::Short(unknown, _) => Err(Arg::Short(*unknown).unexpected(alloc)),
//!         Item::Long(name, _) => match name.as_str() {
//!             "help" => Ok(true),
//!             "verbose" | "jobs" => Ok(false),
//!             unknown => Err(Arg::Long(unknown).unexpected(alloc)),
//!         },
//!         _ => Ok(false),
//!     }
//! }
//!
//! // The words for the other program; `None` if the line asks for the help.
//! fn words_to_forward(rt: &(impl Env + AllocGlobal)) -> anyhow::Result<Option<Vec<OsString>>> {
//!     let alloc = rt.alloc();
//!     let mut table = Table::new(alloc);
//!     table.shorts.push('j')?;
//!     table.longs.push(String::from_str(alloc, "jobs")?)?;
//!     // The first word is the name that the program was called by.
//!     let words: Vec<OsString> = arguments(rt, alloc)?.into_iter().skip(1).collect(alloc)?;
//!     let items = read_items(alloc, words, true, &table)?;
//!     for item in &items {
//!         if asks_for_help(alloc, item)? {
//!             return Ok(None);
//!         }
//!     }
//!     Ok(Some(spell(alloc, &items, true, &table)?))
//! }
//!
//! fn run(rt: &HostRuntime) -> io::Result<ExitCode> {
//!     match words_to_forward(rt) {
//!         Ok(Some(words)) => println!(rt; "{words:?}").map(|()| ExitCode::SUCCESS),
//!         Ok(None) => rt.println(HELP).map(|()| ExitCode::SUCCESS),
//!         Err(error) => {
//!             let _ = eprintln!(rt; "forward: {error}");
//!             let _ = eprintln!(rt; "Try 'forward --help' for more information.");
//!             Ok(ExitCode::from(2))
//!         }
//!     }
//! }
//!
//! fn main(rt: HostRuntime) -> ExitCode {
//!     finish(&rt, "forward", run(&rt))
//! }
//! ```
//!
//! In the folder `crates/forward`, `rt try -- -vj4 file` prints
//!
//! ```text
//! ["-v", "-j", "4", "file"]
//! ```
//!
//! `rt try -- --bogus` exits with the status 2, after it has printed on standard error
//!
//! ```text
//! forward: invalid option '--bogus'
//! Try 'forward --help' for more information.
//! ```
//!
//! # What a program calls
//!
//! - [`os_string::arguments`] returns the words that the program was called with. The first is the
//!   name that it was called by.
//! - [`replay::Table`] lists the options that have values. An option that it does not list has
//!   none.
//! - [`replay::read_items`] reads a whole line by a table. It returns a list of [`replay::Item`]s,
//!   which are options with their values, and positionals. It does not refuse options that the
//!   program does not know, so the program does, by [`Arg::unexpected`].
//! - [`spell::spell`] turns items into words that mean the same by the same table. Its error,
//!   [`spell::SpellError`], names the first item that cannot be spelled and a [`spell::Reason`].
//! - [`replay::replay`] makes a list of [`replay::Call`]s on a [`Parser`], and returns a
//!   [`replay::Reply`] for each; [`replay::run`] reads such a list from a script, and writes the
//!   replies. Both are for tests and comparisons. The error of `run` is a [`replay::RunError`].
//! - [`os_string::Quoted`] prints a word in double quotes, as messages do, and
//!   [`os_string::Visible`] also escapes every other character that a terminal may act on.
//! - [`OsString`], [`OsStr`], [`Error`], [`RawArgs`], [`ValueExt`], [`ValuesIter`] and [`prelude`]
//!   are those of `lexopt_base`. Its module `refusal` is not here.
//!
//! In the other examples `rt` is a reference to the runtime that `main` gets, `alloc` is
//! `rt.alloc()`, and `parser` is a [`Parser`].
#![tactic(auto)]

pub use lexopt_base::{
    Arg, BROKEN_PIPE, Error, OsStr, OsString, Parser, RawArgs, ValueExt, ValuesIter, finish,
    parser, prelude, raw, values,
};
pub use lexopt_spell::spell;
pub use lexopt_words::{error, os_string, value_ext};

pub mod replay;

//! A parser for command lines, whose words may be any bytes: a port of the Rust crate lexopt 0.3.2.
//!
//! [`Parser::next`] returns the next option or positional, and [`Parser::value`] takes a value for
//! the option just read. There is no table of options: the program matches on each argument and
//! decides whether it has a value. The crate `lexopt` re-exports this crate, except the module
//! `refusal` and, at its root, `Quoted` and `Visible`; it also has whole lines, lists of calls and
//! scripts.
//!
//! # A whole program
//!
//! The program `hello` is the file `crates/hello/src/main.rt`, and its line in `crates.txt` is
//! `hello: lexopt_base`. `crates/example_hello` is a longer version of it.
//!
//! ```rust
//! #![tactic(auto)]
//!
//! use lexopt_base::prelude::{Long, Short, Value, ValueExt};
//! use lexopt_base::{Error, Parser, finish};
//! use std::env::Env;
//! use std::io;
//! use std::process::ExitCode;
//!
//! const HELP: &str = "Usage: hello [-n|--number=NUM] THING";
//!
//! #[derive(Drop)]
//! enum Request {
//!     Help,
//!     Greet(String, u32),
//! }
//!
//! fn read_request(rt: &(impl Env + AllocGlobal)) -> Result<Request, Error> {
//!     let mut parser = Parser::from_env_os(rt, rt.alloc())?;
//!     let mut thing = None;
//!     let mut number = 1;
//!     for _ in 0..u64::MAX {
//!         match parser.next()? {
//!             Some(Short('n') | Long("number")) => number = parser.value()?.parse()?,
//!             Some(Short('h') | Long("help")) => return Ok(Request::Help),
//!             Some(Value(word)) if thing.is_none() => thing = Some(word.string()?),
//!             Some(argument) => return Err(argument.unexpected(rt.alloc())),
//!             None => break,
//!         }
//!     }
//!     match thing {
//!         Some(thing) => Ok(Request::Greet(thing, number)),
//!         None => Err(Error::from("missing argument THING")),
//!     }
//! }
//!
//! fn run(rt: &HostRuntime) -> io::Result<ExitCode> {
//!     match read_request(rt) {
//!         Ok(Request::Greet(thing, number)) => {
//!             for _ in 0..number {
//!                 println!(rt; "Hello {thing}")?;
//!             }
//!             Ok(ExitCode::SUCCESS)
//!         }
//!         Ok(Request::Help) => rt.println(HELP).map(|()| ExitCode::SUCCESS),
//!         Err(error) => {
//!             let _ = eprintln!(rt; "hello: {error}");
//!             let _ = eprintln!(rt; "Try 'hello --help' for more information.");
//!             Ok(ExitCode::from(2))
//!         }
//!     }
//! }
//!
//! fn main(rt: HostRuntime) -> ExitCode {
//!     finish(&rt, "hello", run(&rt))
//! }
//! ```
//!
//! In the folder `crates/hello`, `rt try -- -n2 world` prints
//!
//! ```text
//! Hello world
//! Hello world
//! ```
//!
//! `rt try -- -n x world` exits with the status 2, after it has printed on standard error
//!
//! ```text
//! hello: cannot parse argument "x": invalid digit found in string
//! Try 'hello --help' for more information.
//! ```
//!
//! # What a program calls
//!
//! - [`Parser::from_env_os`] reads the words that the program was called with, whatever their bytes
//!   are. [`Parser::from_vec`], [`Parser::from_args`] and [`Parser::from_iter`] make a parser of
//!   words of the program's own, as a test does. [`Parser::from_env`] refuses words that are not
//!   UTF-8.
//! - [`Parser::next`] is called until it returns `None`. Rattle proves that each loop ends, so a
//!   counted loop takes the place of Rust's `while let`.
//! - `Short` and `Long` of [`prelude`] are options, such as `-n` and `--number`. A long option's
//!   name is without its dashes. The parser lends it, and can be called again once it is no longer
//!   used.
//! - `Value` is a positional, which is an [`OsString`]. With the guard `if thing.is_none()` a
//!   second positional falls through to the arm for unexpected arguments.
//! - [`Parser::value`] takes the value of an option, such as `10` of `-n 10`. This call is how the
//!   parser learns that `-n` has a value. [`Parser::optional_value`] takes a value that may be left
//!   out, as in `--color=auto`. [`Parser::values`] takes several values, as a [`ValuesIter`].
//! - [`OsString`] is a list of bytes, and [`OsStr`] a view of one. [`ValueExt::parse`] converts a
//!   word by the type's `FromStr`, [`ValueExt::parse_with`] by a function, and [`ValueExt::string`]
//!   turns it into a `String`. A word that is not UTF-8 is an error for each of them.
//! - [`Arg::unexpected`] makes the error for an argument that the program does not know.
//! - [`Error`] prints as a message for the user. `Error::from` makes one of a text, of which it
//!   keeps at most 120 bytes. [`Quoted`] prints a word in double quotes, as the messages do, and
//!   [`Visible`] also escapes every other character that a terminal may act on.
//! - [`Parser::raw_args`] takes words as they are, as a [`RawArgs`]: for example the words of
//!   another program. [`Parser::try_raw_args`] does so where no value of an option is left over.
//! - [`finish`] gives the status that `main` returns, and ends quietly if nobody reads what the
//!   program prints.
//! - `parser.set_short_equals(false)` makes `-d=` mean that `-d` has the value `=`.
//!   [`Parser::bin_name`] is the name that the program was called by.
//! - [`Parser::advance`], [`Parser::take`], [`Parser::begin_values`], [`values::read_several`],
//!   [`Parser::is_past_separator`] and [`Parser::has_joined_value`] are for libraries that build on
//!   the parser. The first four return the errors of [`refusal`].
//!
//! A call that allocates returns an error if memory runs out; no call aborts.
//!
//! In the other examples `rt` is a reference to the runtime that `main` gets, `alloc` is
//! `rt.alloc()`, and `parser` is a [`Parser`]. An example that is not a whole function belongs in a
//! function that returns a `Result` with an [`Error`].
#![tactic(auto)]

pub use crate::parser::Parser;
pub use crate::raw::RawArgs;
pub use crate::values::ValuesIter;
pub use lexopt_words::error::{Arg, Error};
pub use lexopt_words::finish::{BROKEN_PIPE, finish};
pub use lexopt_words::os_string::{OsStr, OsString, Quoted, Visible};
pub use lexopt_words::value_ext::ValueExt;

mod kept_words;
pub mod parser;
pub mod prelude;
pub mod raw;
pub mod refusal;
pub mod values;

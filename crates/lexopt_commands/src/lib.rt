//! Declared commands: reads lines such as `git -C dir add -f x`, which have general options, the
//! name of a command, and the words of that command.
//!
//! A program declares its general options and the options of each command with `declare!` of
//! `lexopt_options`, and its commands with [`declare_commands!`](crate::declare_commands). It makes
//! [`Commands`] of the general declaration and the commands, and calls [`Commands::from_env`]. If
//! the line has a command, that returns its key, its path and a [`Call`], which the program hands
//! on to the options of the command.
//!
//! # A whole program
//!
//! The program `notes` is the file `crates/notes/src/main.rt`, and its line in `crates.txt` is
//! `notes: lexopt_commands lexopt_options`. `lexopt_options` explains `declare!` and keys.
//!
//! ```rust
//! #![tactic(auto)]
//!
//! use lexopt_commands::{Call, Command, Commands, Step, columns, declare_commands, finish};
//! use lexopt_options::{Answer, Declaration, Names, Options, Parsed, declare};
//! use std::convert::Infallible;
//! use std::io;
//! use std::process::ExitCode;
//!
//! #[derive(Clone, Copy)]
//! enum GeneralFlag {
//!     Quiet,
//! }
//!
//! #[derive(Clone, Copy)]
//! enum Task {
//!     Add,
//!     List,
//! }
//!
//! static GENERAL: Declaration<'static, GeneralFlag> = declare! {
//!     program: "notes",
//!     about: "Keeps notes.",
//!     options: [
//!         flag(GeneralFlag::Quiet, Names::Both('q', "quiet"), "tell less"),
//!         help(Names::Both('h', "help")),
//!     ],
//! };
//!
//! static COMMANDS: &[Command<'static, Task>] = declare_commands![
//!     command(Task::Add, "add", "add notes"),
//!     command(Task::List, "list", "list the notes"),
//!     help("help"),
//! ];
//!
//! #[derive(Clone, Copy)]
//! enum AddWord {
//!     Note,
//! }
//!
//! static ADD: Declaration<'static, Infallible, Infallible, AddWord> = declare! {
//!     program: "add",
//!     options: [help(Names::Both('h', "help"))],
//!     positionals: [at_least_once(AddWord::Note, "NOTE", "what to note").text()],
//! };
//!
//! static LIST: Declaration<'static, Infallible> = declare! {
//!     program: "list",
//!     options: [help(Names::Both('h', "help"))],
//! };
//!
//! fn add(rt: &HostRuntime, path: &str, call: Call<GeneralFlag>) -> io::Result<ExitCode> {
//!     let options = Options::new(&ADD).with_program(path);
//!     let (general, answer) = call.answer(rt.alloc(), &options, columns(rt))?;
//!     match answer {
//!         Answer::Parsed(line) => {
//!             // `quiet` is the only general option.
//!             let is_quiet = !general.is_empty();
//!             for parsed in line {
//!                 let Parsed::Positional(AddWord::Note, note) = parsed;
//!                 if !is_quiet {
//!                     println!(rt; "add {note:?}")?;
//!                 }
//!             }
//!             Ok(ExitCode::SUCCESS)
//!         }
//!         Answer::Text(text) => rt.print(text).map(|()| ExitCode::SUCCESS),
//!         Answer::Refused(why) => Ok(why.print(rt)),
//!     }
//! }
//!
//! fn list(rt: &HostRuntime, path: &str, call: Call<GeneralFlag>) -> io::Result<ExitCode> {
//!     let options = Options::new(&LIST).with_program(path);
//!     let (_general, answer) = call.answer(rt.alloc(), &options, columns(rt))?;
//!     match answer {
//!         Answer::Parsed(_) => rt.println("list").map(|()| ExitCode::SUCCESS),
//!         Answer::Text(text) => rt.print(text).map(|()| ExitCode::SUCCESS),
//!         Answer::Refused(why) => Ok(why.print(rt)),
//!     }
//! }
//!
//! fn run(rt: &HostRuntime) -> io::Result<ExitCode> {
//!     match Commands::new(Options::new(&GENERAL), COMMANDS).from_env(rt)? {
//!         Step::Command(Task::Add, path, call) => add(rt, &path, call),
//!         Step::Command(Task::List, path, call) => list(rt, &path, call),
//!         Step::Text(text) => rt.print(text).map(|()| ExitCode::SUCCESS),
//!         Step::Refused(why) => Ok(why.print(rt)),
//!     }
//! }
//!
//! fn main(rt: HostRuntime) -> ExitCode {
//!     finish(&rt, "notes", run(&rt))
//! }
//! ```
//!
//! In the folder `crates/notes`, `rt try -- add milk tea` prints
//!
//! ```text
//! add "milk"
//! add "tea"
//! ```
//!
//! `rt try -- ad milk` and `rt try -- add` exit with the status 2, after they have printed on
//! standard error
//!
//! ```text
//! notes: unknown command "ad"; did you mean 'add'?
//! Try 'notes --help' for more information.
//! ```
//!
//! and
//!
//! ```text
//! notes add: missing argument NOTE
//! Try 'notes add --help' for more information.
//! ```
//!
//! `rt try -- --help` prints
//!
//! ```text
//! Usage: notes [OPTION]... COMMAND [ARGUMENT]...
//! Keeps notes.
//!
//!   add                   add notes
//!   list                  list the notes
//!   help                  print the help of a command
//!
//!   -q, --quiet           tell less
//!   -h, --help            print this help and exit
//! ```
//!
//! # What to declare
//!
//! - The general declaration has the name under which the program is installed, and the options
//!   that come before the name of a command. To accept such an option after the name too, declare
//!   it for the command as well. The general declaration has no positionals. The usage line ends
//!   with `COMMAND` and `[ARGUMENT]...`.
//! - [`declare_commands!`](crate::declare_commands) has a line for each [`Command`]: `command` with
//!   the key, the name and the help text, or `help` with the name that asks for the help.
//! - The declaration of a command should have an option with the long name `help`, since
//!   `notes help add` means `notes add --help`. Its `program` is the name of the command, which
//!   nothing shows: `Options::with_program` puts the path in its place, such as `notes add`.
//!
//! # What to call
//!
//! - [`Commands::new`] takes general options and commands in a `static`, which the prover checks.
//!   [`Commands::try_new`] takes commands that are made when the program runs, and may return a
//!   [`CommandError`].
//! - [`Commands::from_env`] reads the program's own line up to the name of a command, or the
//!   request of a shell. It returns a [`Step`]. `Step::Command` has the key of the command, its
//!   path, and its [`Call`]. `Step::Text` has a text to print. `Step::Refused` has a mistake, which
//!   its `print` prints on standard error; that returns the status to exit with, which is 2.
//! - `Options::with_program` makes the path the name of the program in the options of the command.
//!   [`Call::answer`] returns what the general options mean, and the answer of the command's
//!   options, with [`columns`] as the width of the help. So the same code runs the command, prints
//!   its help and completes its words. A mistake that the command finds itself is printed by
//!   `report` of the same `Options`.
//! - A command that has commands of its own, such as `remote add`, makes [`Commands`] of them, with
//!   general options that have its path as the name of their program, and hands the call on to
//!   [`Commands::answer_call`].
//! - Print nothing before [`Call::answer`] or [`Commands::answer_call`] has returned: a shell may
//!   be asking, and reads what the program prints.
//! - [`Commands::answer`] reads words of the program's own, as a test does; [`Commands::read`]
//!   returns the request for the help, and the mistake, as values; and [`Commands::help`] and
//!   [`Commands::usage`] return the help and its usage line.
//! - [`Wrapper`] is for a program that runs another one, such as `timeout`: its line goes on with the
//!   command line of that program, which shells complete as such. It is also for words that come
//!   after the separator alone, as the paths of `git log`.
//!
//! A shell completes the lines of `notes` after `source <(_NOTES_COMPLETE=bash_source notes)` in
//! the start-up file of bash; `lexopt_options` has the lines for zsh and fish.
//!
//! In the other examples `rt` is a reference to the runtime that `main` gets, `alloc` is
//! `rt.alloc()`, and `commands` is a [`Commands`] of the declarations that
//! [`declare_commands!`](crate::declare_commands) shows, with their keys. They belong in a function
//! that returns a `std::io::Result`.
#![tactic(auto)]

pub mod answer;
pub mod call;
pub mod command;
pub mod commands;
mod complete;
mod declare;
mod examples;
pub mod help;
pub mod read;
pub mod wrapper;

pub use answer::Step;
pub use call::Call;
pub use command::{Command, CommandError, Reason, Runs};
pub use commands::Commands;
pub use read::CommandLine;
pub use wrapper::{Rest, Wrapper, WrapperAnswer};

// What else a program that declares commands needs.
pub use lexopt_options::{BROKEN_PIPE, RestStart, columns, finish};

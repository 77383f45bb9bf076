//! Options whose value may be left out, and an option of several values.
//!
//! ```text
//! example_values [--color[=WHEN]] [-i[SUFFIX]|--in-place[=SUFFIX]] [--files FILE..]
//! ```
//!
//! It prints what it has read, quoted. A word may have any bytes.
//!
//! The exit status is 0; 2 if the command line is refused, or memory runs out while it is read; or
//! that of `finish` if a line cannot be printed. Standard error then has the reason, unless nobody
//! reads the lines.
#![tactic(auto)]

use anyhow::bail;
use lexopt_base::prelude::{Long, Short, ValueExt};
use lexopt_base::{Error, OsString, Parser, Quoted, finish};
use std::alloc::Global;
use std::env::Env;
use std::io;
use std::process::ExitCode;

const HELP: &str = "Usage: example_values [OPTION]..

      --color[=WHEN]  when to colour: always, auto or never
  -i[SUFFIX], --in-place[=SUFFIX]
                      change files in place, and keep each with this suffix
      --files FILE..  the files, up to the next option
  -h, --help          print this and end";

#[derive(Clone, Copy)]
enum Color {
    Always,
    Auto,
    Never,
}

// How to change files in place: with a copy of each beside it, or without.
#[derive(Drop)]
enum InPlace {
    Kept(OsString),
    Plain,
}

#[derive(Drop)]
struct Options {
    color: Color,
    in_place: Option<InPlace>,
    files: Vec<OsString>,
}

// What a command line asks for.
#[derive(Drop)]
enum Request {
    Help,
    Print(Options),
}

impl Color {
    fn of_name(name: &str) -> anyhow::Result<Color> {
        match name {
            "always" => Ok(Color::Always),
            "auto" => Ok(Color::Auto),
            "never" => Ok(Color::Never),
            _ => bail!("expected always, auto or never"),
        }
    }

    fn name(self) -> &'static str {
        match self {
            Color::Always => "always",
            Color::Auto => "auto",
            Color::Never => "never",
        }
    }
}

// `--color=auto` has a value, `--color` has none, and `--color auto` is the option and a
// positional.
fn read_color(parser: &mut Parser) -> Result<Color, Error> {
    match parser.optional_value() {
        Some(value) => value.parse_with(Color::of_name),
        None => Ok(Color::Always),
    }
}

fn read_in_place(parser: &mut Parser) -> InPlace {
    match parser.optional_value() {
        Some(suffix) => InPlace::Kept(suffix),
        None => InPlace::Plain,
    }
}

// Takes the words up to the next option.
fn read_files(parser: &mut Parser, files: &mut Vec<OsString>) -> Result<(), Error> {
    for file in parser.values()? {
        files.push(file)?;
    }
    Ok(())
}

fn read_request(alloc: Global, parser: &mut Parser) -> Result<Request, Error> {
    let mut options = Options {
        color: Color::Auto,
        in_place: None,
        files: Vec::new(alloc),
    };
    for _ in 0..u64::MAX {
        match parser.next()? {
            Some(Long("color")) => options.color = read_color(parser)?,
            Some(Short('i') | Long("in-place")) => options.in_place = Some(read_in_place(parser)),
            Some(Long("files")) => read_files(parser, &mut options.files)?,
            Some(Short('h') | Long("help")) => return Ok(Request::Help),
            Some(argument) => return Err(argument.unexpected(alloc)),
            None => break,
        }
    }
    Ok(Request::Print(options))
}

fn own_request(rt: &(impl Env + AllocGlobal)) -> Result<Request, Error> {
    let mut parser = Parser::from_env_os(rt, rt.alloc())?;
    read_request(rt.alloc(), &mut parser)
}

fn print_options(rt: &impl Print, options: &Options) -> io::Result<()> {
    let color = options.color.name();
    println!(rt; "color: {color}")?;
    match &options.in_place {
        Some(InPlace::Kept(suffix)) => {
            let suffix = Quoted::new(suffix.as_bytes());
            println!(rt; "in place, kept with {suffix}")?;
        }
        Some(InPlace::Plain) => println!(rt; "in place")?,
        None => {}
    }
    for file in &options.files {
        let file = Quoted::new(file.as_bytes());
        println!(rt; "file: {file}")?;
    }
    Ok(())
}

// Says what is wrong with the command line, and where help is.
fn refuse(rt: &impl Eprint, error: &Error) -> ExitCode {
    let _ = eprintln!(rt; "example_values: {error}");
    let _ = eprintln!(rt; "Try 'example_values --help' for more information.");
    ExitCode::from(2)
}

fn main(rt: HostRuntime) -> ExitCode {
    let printed = match own_request(&rt) {
        Ok(Request::Print(options)) => print_options(&rt, &options),
        Ok(Request::Help) => rt.println(HELP),
        Err(error) => return refuse(&rt, &error),
    };
    finish(&rt, "example_values", printed.map(|()| ExitCode::SUCCESS))
}

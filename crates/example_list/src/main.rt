//! Prints what it has read of a line that looks like one of `ls`: options that the help shows
//! together, a value that only a long name has, a default, and formats of which a line has one.
#![tactic(auto)]

use lexopt_options::{Answer, Declaration, Names, Options, declare, finish};
use std::io;
use std::process::ExitCode;

#[derive(Debug, Clone, Copy)]
enum Flag {
    All,
    Classify,
    NoColor,
    Color,
    Long,
    Json,
}

#[derive(Debug, Clone, Copy)]
enum Value {
    Sort,
    Format,
}

#[derive(Debug, Clone, Copy)]
enum Maybe {
    Classify,
}

static DECLARATION: Declaration<'static, Flag, Value, (), Maybe> = declare! {
    program: "example_list",
    about: "Prints what it has read.",
    options: [
        flag(Flag::All, Names::Both('a', "all"), "names that begin with a dot too")
            .heading("What is listed"),
        value(Value::Sort, Names::Both('s', "sort"), "KEY", "what the names are sorted by")
            .one_of(&["name", "size", "time"])
            .default("name"),
        flag(Flag::Classify, Names::Short('F'), "what each file is"),
        maybe(Maybe::Classify, Names::Long("classify"), "WHEN", "what each file is, after its name")
            .one_of(&["always", "auto", "never"])
            .details("After its name, what each file is: a slash for a folder, a star for a program.")
            .with_flag('F')
            .heading("How it is listed"),
        flag(Flag::NoColor, Names::Long("no-color"), "without colors"),
        flag(Flag::Color, Names::Long("color"), "in colors").with_negation(),
        flag(Flag::Long, Names::Short('l'), "with owners, sizes and times").exclusive("format"),
        flag(Flag::Json, Names::Long("json"), "as JSON").exclusive("format"),
        value(Value::Format, Names::Long("format"), "FORMAT", "in this format")
            .text()
            .exclusive("format"),
        brief_help(Names::Short('h')).heading("Help"),
        help(Names::Long("help")),
    ],
    positionals: [any_number((), "FILE")],
    epilogue: ["Without a FILE it lists the current folder."],
};

fn run(rt: &HostRuntime) -> io::Result<ExitCode> {
    match Options::new(&DECLARATION).from_env(rt)? {
        Answer::Parsed(line) => println!(rt; "{line:?}")?,
        Answer::Text(text) => rt.print(text)?,
        Answer::Refused(why) => return Ok(why.print(rt)),
    }
    Ok(ExitCode::SUCCESS)
}

fn main(rt: HostRuntime) -> ExitCode {
    finish(&rt, "example_list", run(&rt))
}

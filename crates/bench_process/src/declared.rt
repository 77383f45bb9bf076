//! The declaration: options of every kind, with a short name, a long name or both, and any number
//! of positionals.
use lexopt_options::{Declaration, Names, declare};

// A number is the place of the option in the declaration.

#[derive(Clone, Copy)]
pub enum Flag {
    Verbose = 0,
    All = 1,
    Brief = 2,
    Count = 3,
    Shout = 4,
}

#[derive(Clone, Copy)]
pub enum Value {
    Number = 5,
    Name = 6,
    Output = 7,
}

#[derive(Clone, Copy)]
pub enum Word {
    File,
}

#[derive(Clone, Copy)]
pub enum Maybe {
    Color = 8,
}

#[derive(Clone, Copy)]
pub enum Values {
    Exclude = 9,
}

pub const DECLARATION: Declaration<'static, Flag, Value, Word, Maybe, Values> = declare! {
    program: "bench_process",
    about: "Reads words.",
    options: [
        flag(Flag::Verbose, Names::Both('v', "verbose"), "tell more"),
        flag(Flag::All, Names::Short('a'), "all"),
        flag(Flag::Brief, Names::Short('b'), "brief"),
        flag(Flag::Count, Names::Short('c'), "count"),
        flag(Flag::Shout, Names::Long("shout"), "in capitals"),
        value(Value::Number, Names::Short('n'), "NUMBER", "how many"),
        value(Value::Name, Names::Long("name"), "NAME", "whose"),
        value(Value::Output, Names::Both('o', "output"), "FILE", "where to"),
        maybe(Maybe::Color, Names::Long("color"), "WHEN", "in color"),
        values(Values::Exclude, Names::Both('x', "exclude"), "PATTERN", "leave these out"),
    ],
    positionals: [any_number(Word::File, "FILE")],
};

//! The declaration that `declare!` makes.
use crate::archive::{Archive, ArchiveOption, Flag, Maybe, Value, Values, Word};
use lexopt_options::{
    Beside, Count, Declaration, Declared, Kind, Names, Positional, Words, declare, declare_option,
};
use std::alloc::{AllocError, Global};

// Each mark of an option and each count of a positional, by the macro.
static MARKED: Archive<'static> = declare! {
    program: "archive",
    about: "Packs files.",
    usage: ["SOURCE TARGET", "SOURCE... LAST"],
    options: [
        flag(Flag::Verbose, Names::Both('v', "verbose"), "tell more")
            .heading("Output options").with_negation().details("Tells more."),
        value(Value::User, Names::Both('u', "user"), "NAME", "whose it is")
            .text().required().default("me"),
        maybe(Maybe::Backup, Names::Long("backup"), "DIR", "keep a copy")
            .alias(Names::Short('b')).hidden().directories().alias(Names::Both('B', "back-up"))
            .with_flag('k'),
        values(Values::Exclude, Names::Short('x'), "KIND", "not these")
            .hidden().one_of(&["link", "pipe"]).heading("Input options").hide_list()
            .alias(Names::Long("exclude")).required(),
        help(Names::Long("help")).hidden(),
        brief_help(Names::Short('h')),
        version(Names::Long("version"), "archive 1.0").required(),
    ],
    positionals: [
        once(Word::Source, "SOURCE", "what to pack").one_of(&["a", "b"]).hide_list(),
        at_most_once(Word::Target, "TARGET").directories(),
        any_number(Word::File, "FILE", "more of them").text(),
        at_least_once(Word::File, "LAST", "the last ones"),
    ],
};

// The same declaration, field by field.
static WRITTEN: Archive<'static> = Declaration {
    program: "archive",
    about: "Packs files.",
    usage: &["SOURCE TARGET", "SOURCE... LAST"],
    options: &[
        Declared {
            names: Names::Both('v', "verbose"),
            kind: Kind::Flag(Flag::Verbose),
            help: "tell more",
            details: Some("Tells more."),
            heading: Some("Output options"),
            hidden: false,
            required: false,
            default: None,
            exclusive: None,
            words: Words::Files,
            hides_list: false,
            aliases: &[],
            beside: Beside::Negation,
        },
        Declared {
            names: Names::Both('u', "user"),
            kind: Kind::Value(Value::User, "NAME"),
            help: "whose it is",
            details: None,
            heading: None,
            hidden: false,
            required: true,
            default: Some("me"),
            exclusive: None,
            words: Words::Text,
            hides_list: false,
            aliases: &[],
            beside: Beside::Nothing,
        },
        Declared {
            names: Names::Long("backup"),
            kind: Kind::Maybe(Maybe::Backup, "DIR"),
            help: "keep a copy",
            details: None,
            heading: None,
            hidden: true,
            required: false,
            default: None,
            exclusive: None,
            words: Words::Directories,
            hides_list: false,
            aliases: &[Names::Short('b'), Names::Both('B', "back-up")],
            beside: Beside::Flag('k'),
        },
        Declared {
            names: Names::Short('x'),
            kind: Kind::Values(Values::Exclude, "KIND"),
            help: "not these",
            details: None,
            heading: Some("Input options"),
            hidden: true,
            required: true,
            default: None,
            exclusive: None,
            words: Words::Listed(&["link", "pipe"]),
            hides_list: true,
            aliases: &[Names::Long("exclude")],
            beside: Beside::Nothing,
        },
        Declared {
            names: Names::Long("help"),
            kind: Kind::Help,
            help: "print this help and exit",
            details: None,
            heading: None,
            hidden: true,
            required: false,
            default: None,
            exclusive: None,
            words: Words::Files,
            hides_list: false,
            aliases: &[],
            beside: Beside::Nothing,
        },
        Declared {
            names: Names::Short('h'),
            kind: Kind::BriefHelp,
            help: "print a brief help and exit",
            details: None,
            heading: None,
            hidden: false,
            required: false,
            default: None,
            exclusive: None,
            words: Words::Files,
            hides_list: false,
            aliases: &[],
            beside: Beside::Nothing,
        },
        Declared {
            names: Names::Long("version"),
            kind: Kind::Version("archive 1.0"),
            help: "print the version and exit",
            details: None,
            heading: None,
            hidden: false,
            required: true,
            default: None,
            exclusive: None,
            words: Words::Files,
            hides_list: false,
            aliases: &[],
            beside: Beside::Nothing,
        },
    ],
    positionals: &[
        Positional {
            key: Word::Source,
            placeholder: "SOURCE",
            count: Count::Once,
            help: "what to pack",
            words: Words::Listed(&["a", "b"]),
            hides_list: true,
        },
        Positional {
            key: Word::Target,
            placeholder: "TARGET",
            count: Count::AtMostOnce,
            help: "",
            words: Words::Directories,
            hides_list: false,
        },
        Positional {
            key: Word::File,
            placeholder: "FILE",
            count: Count::AnyNumber,
            help: "more of them",
            words: Words::Text,
            hides_list: false,
        },
        Positional {
            key: Word::File,
            placeholder: "LAST",
            count: Count::AtLeastOnce,
            help: "the last ones",
            words: Words::Files,
            hides_list: false,
        },
    ],
    epilogue: &[],
    short_equals: true,
};

// Whether the macros make what is written.
fn is_as_written(alloc: Global) -> Result<bool, AllocError> {
    let exclude: ArchiveOption<'_> = declare_option!(
        values(Values::Exclude, Names::Short('x'), "KIND", "not these")
            .hidden()
            .heading("Input options")
            .one_of(&["link", "pipe"])
            .hide_list()
            .alias(Names::Long("exclude"))
            .required()
    );
    let written = &WRITTEN.options[3];
    Ok(
        format!(in alloc; "{MARKED:?}")? == format!(in alloc; "{WRITTEN:?}")?
            && format!(in alloc; "{exclude:?}")? == format!(in alloc; "{written:?}")?,
    )
}

#[test]
fn marks(rt: HostRuntime) {
    assert!(rt; is_as_written(rt.alloc()).expect(&rt, "memory"));
}

//! The declarations by which lines are read.
use lexopt_options::{Declaration, Names, Options, declare};

/// The key of an option.
#[derive(Debug, Clone, Copy)]
pub enum Key {
    Verbose,
    Extra,
    User,
}

/// The key of a positional.
#[derive(Debug, Clone, Copy)]
pub enum Place {
    First,
    Second,
    Third,
}

type Plan = Declaration<'static, Key, Key, Place, Key, Key>;

pub type PlanOptions = Options<'static, Key, Key, Place, Key, Key>;

// A required option with a list of values and a heading, and two positionals. The first may occur
// more than once, and the second has a list of words.
static SOURCES: Plan = declare! {
    program: "sources",
    options: [
        flag(Key::Verbose, Names::Both('v', "verbose"), "tell more about what is done"),
        value(Key::User, Names::Both('u', "user"), "NAME", "")
            .heading("Who does it")
            .one_of(&["u", "a"])
            .required(),
        help(Names::Both('h', "help")),
    ],
    positionals: [at_least_once(Place::First, "SOURCE"), once(Place::Second, "DEST").one_of(&["a", "u"])],
};

// Two required options, one with a short name only, and an option with two aliases. No help is
// declared. The first positional, which may be left out, has a list of words.
static RENAME: Plan = declare! {
    program: "rename",
    options: [
        flag(Key::Extra, Names::Short('x'), "").required(),
        flag(Key::Verbose, Names::Short('v'), "").alias(Names::Both('e', "verbose")),
        value(Key::User, Names::Both('u', "user"), "NAME", "").hidden().required(),
    ],
    positionals: [
        at_most_once(Place::First, "OLD").one_of(&["a"]),
        once(Place::Second, "NEW"),
    ],
};

// No required option, one with several values, and one with a short alias. Two of three positionals
// have lists of words, one of which is hidden.
static OPEN: Plan = declare! {
    program: "open",
    options: [
        values(Key::User, Names::Both('u', "user"), "NAME", ""),
        flag(Key::Verbose, Names::Both('v', "verbose"), ""),
        maybe(Key::Extra, Names::Short('x'), "MORE", ""),
        help(Names::Long("help")).alias(Names::Short('h')),
    ],
    positionals: [
        once(Place::First, "FILE", "what to open").one_of(&["u", "a"]).hide_list(),
        at_most_once(Place::Second, "SECOND").one_of(&["a"]),
        any_number(Place::Third, "REST"),
    ],
};

// The help, the version, an option with a long alias, and any number of positionals.
static ASKED: Plan = declare! {
    program: "asked",
    options: [
        version(Names::Both('v', "verbose"), "asked 1.0"),
        help(Names::Both('h', "help")),
        maybe(Key::User, Names::Short('u'), "NAME", "").alias(Names::Long("user")),
    ],
    positionals: [any_number(Place::First, "FILE")],
};

// A required option with several values and one with an optional value, each with a list of values.
// The first has a hidden list, and begins with a heading.
static STRICT: Plan = declare! {
    program: "strict",
    options: [
        maybe(Key::Verbose, Names::Both('v', "verbose"), "HOW", "Tell more.")
            .heading("How")
            .one_of(&["1"])
            .hide_list()
            .required(),
        values(Key::User, Names::Both('u', "user"), "NAME", "Who does it.")
            .one_of(&["a", "u"])
            .required(),
        help(Names::Both('h', "help")),
    ],
};

// Two options with a default, one of which has a list of values, and three and two that exclude each
// other. The full help has longer texts. Labels show two flags and a negation beside the names of
// other options.
static FILLED: Plan = declare! {
    program: "filled",
    options: [
        flag(Key::Extra, Names::Long("no-user"), "nobody does it").exclusive("user"),
        value(Key::User, Names::Both('u', "user"), "NAME", "who does it")
            .default("\x1B u")
            .with_negation()
            .exclusive("user"),
        flag(Key::Verbose, Names::Short('v'), "tell more").exclusive("more"),
        maybe(Key::Verbose, Names::Long("verbose"), "HOW", "how much")
            .details("Tell more or less.")
            .with_flag('v')
            .exclusive("user"),
        value(Key::Extra, Names::Short('x'), "MORE", "")
            .details("What else there is.")
            .one_of(&["a", "1"])
            .default("1")
            .exclusive("more"),
        brief_help(Names::Short('h')),
        help(Names::Long("help")).with_flag('h'),
    ],
    positionals: [any_number(Place::First, "FILE")],
};

/// The options of the declaration with this digit.
pub fn options_of(digit: u8) -> Option<PlanOptions> {
    match digit {
        b'0' => Some(Options::new(&SOURCES)),
        b'1' => Some(Options::new(&RENAME)),
        b'2' => Some(Options::new(&OPEN)),
        b'3' => Some(Options::new(&ASKED)),
        b'4' => Some(Options::new(&STRICT)),
        b'5' => Some(Options::new(&FILLED)),
        _ => None,
    }
}

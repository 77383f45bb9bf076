//! Callers of declared options, for one tool. The clauses of the public functions cite definitions
//! over the types of Rust. The clauses here state the same by the grammar and by plain data. If
//! such a definition becomes weaker, they can no longer be proved.
ghost use Rattle.std.specs.Prelude.{◌≡◌, ℕ, Contains, IfOk, List, Option, codes, map, option_map};
ghost use Rattle.std.specs.Prelude.{string_bytes};
ghost use Rattle.lexopt_options_spec.specs.Completion as completion;
ghost use Rattle.lexopt_options_spec.specs.Completion.{AreOwnersIn, Completes, HasRole, IsJoined};
ghost use Rattle.lexopt_options_spec.specs.Completion.{offered_values};
ghost use Rattle.lexopt_options_spec.specs.Declaration as spec;
ghost use Rattle.lexopt_options_spec.specs.Declaration.{full};
ghost use Rattle.lexopt_options_spec.specs.Help.{IsHelp};
ghost use Rattle.lexopt_options_spec.specs.Rest.{MeansBefore};
ghost use Rattle.lexopt_options.specs.RestStarts.{start_view};
ghost use Rattle.lexopt_options_spec.specs.Legal as legal;
ghost use Rattle.lexopt_options_spec.specs.Legal.{Means};
ghost use Rattle.lexopt_items.specs.Items.{table_view};
ghost use Rattle.test_option_callers.specs.Tool.{AreInOrder, IsAsked, IsSameJoined, IsSameRole};
ghost use Rattle.test_option_callers.specs.Tool.{LineTells, RestTells, ToolRequest, both_of};
ghost use Rattle.test_option_callers.specs.Tool.{words_of};
ghost use Rattle.test_option_callers.specs.Tool.{IsToolUsage, ToolAnswer, ToolLine, tool};
ghost use Rattle.test_option_callers.specs.Tool.{tool_options};

use lexopt_items::items::Table;
use lexopt_option_table::table_of;
use lexopt_options::{
    Answer, Beside, Completion, Count, Declaration, Declared, Detail, Kind, Line, Names, Options,
    OsString, Positional, Request, RestStart, Words, variable,
};
use std::alloc::{AllocError, Global};

/// The flags of the tool.
#[derive(Clone, Copy)]
pub enum Flag {
    /// `-v`, `--verbose`.
    Verbose,
    /// `-f`.
    Force,
}

/// Its options with one value.
#[derive(Clone, Copy)]
pub enum Value {
    /// `-o`, `--output`.
    Output,
    /// `-u`, `--user`.
    User,
}

/// Its positionals.
#[derive(Clone, Copy)]
pub enum Word {
    /// `FROM`.
    From,
    /// `TO`.
    To,
    /// `MORE`.
    More,
}

/// Its options with an optional value.
#[derive(Clone, Copy)]
pub enum Maybe {
    /// `--color`.
    Color,
}

/// Its options with several values.
#[derive(Clone, Copy)]
pub enum Values {
    /// `-x`.
    Exclude,
}

// The declaration of the tool.
static TOOL: Declaration<'static, Flag, Value, Word, Maybe, Values> = Declaration {
    program: "tool",
    about: "Works.",
    usage: &[],
    options: &[
        Declared {
            names: Names::Both('v', "verbose"),
            kind: Kind::Flag(Flag::Verbose),
            help: "tell more",
            details: None,
            heading: None,
            hidden: false,
            required: false,
            default: None,
            exclusive: None,
            words: Words::Files,
            hides_list: false,
            aliases: &[],
            beside: Beside::Nothing,
        },
        Declared {
            names: Names::Short('f'),
            kind: Kind::Flag(Flag::Force),
            help: "by force",
            details: None,
            heading: Some("Danger"),
            hidden: true,
            required: false,
            default: None,
            exclusive: None,
            words: Words::Files,
            hides_list: false,
            aliases: &[],
            beside: Beside::Nothing,
        },
        Declared {
            names: Names::Both('o', "output"),
            kind: Kind::Value(Value::Output, "FILE"),
            help: "write there",
            details: None,
            heading: None,
            hidden: false,
            required: false,
            default: None,
            exclusive: None,
            words: Words::Files,
            hides_list: false,
            aliases: &[],
            beside: Beside::Nothing,
        },
        Declared {
            names: Names::Long("color"),
            kind: Kind::Maybe(Maybe::Color, "WHEN"),
            help: "paint",
            details: None,
            heading: None,
            hidden: false,
            required: false,
            default: None,
            exclusive: None,
            words: Words::Listed(&["always", "never"]),
            hides_list: true,
            aliases: &[Names::Long("colour")],
            beside: Beside::Nothing,
        },
        Declared {
            names: Names::Short('x'),
            kind: Kind::Values(Values::Exclude, "GLOB"),
            help: "leave out",
            details: None,
            heading: None,
            hidden: false,
            required: false,
            default: None,
            exclusive: None,
            words: Words::Files,
            hides_list: false,
            aliases: &[],
            beside: Beside::Nothing,
        },
        Declared {
            names: Names::Both('h', "help"),
            kind: Kind::Help,
            help: "help",
            details: None,
            heading: None,
            hidden: false,
            required: false,
            default: None,
            exclusive: None,
            words: Words::Files,
            hides_list: false,
            aliases: &[],
            beside: Beside::Nothing,
        },
        Declared {
            names: Names::Long("version"),
            kind: Kind::Version("tool 1"),
            help: "version",
            details: None,
            heading: None,
            hidden: false,
            required: false,
            default: None,
            exclusive: None,
            words: Words::Files,
            hides_list: false,
            aliases: &[],
            beside: Beside::Nothing,
        },
        Declared {
            names: Names::Both('u', "user"),
            kind: Kind::Value(Value::User, "NAME"),
            help: "for whom",
            details: None,
            heading: Some("Owners"),
            hidden: false,
            required: true,
            default: None,
            exclusive: None,
            words: Words::Files,
            hides_list: false,
            aliases: &[],
            beside: Beside::Nothing,
        },
    ],
    positionals: &[
        Positional {
            key: Word::From,
            placeholder: "FROM",
            count: Count::Once,
            help: "one",
            words: Words::Directories,
            hides_list: false,
        },
        Positional {
            key: Word::To,
            placeholder: "TO",
            count: Count::AtMostOnce,
            help: "two",
            words: Words::Listed(&["here", "there"]),
            hides_list: true,
        },
        Positional {
            key: Word::More,
            placeholder: "MORE",
            count: Count::AnyNumber,
            help: "",
            words: Words::Files,
            hides_list: false,
        },
    ],
    epilogue: &["End."],
    short_equals: true,
};

/// Reads a line of the tool.
pub fn read_line(
    alloc: Global,
    words: Vec<OsString>,
) -> Result<Line<'static, Flag, Value, Word, Maybe, Values>, AllocError>
    ensures line { IfOk result (λ line. ToolLine words.items line) }
    ensures answered { (l : List legal.Parsed) → Means tool words.items l
        → IfOk result (λ line. LineTells l line) }
{
    Options::new(&TOOL).read(alloc, words)
}

/// Reads a line of the tool that may have a rest, which begins so.
pub fn read_rest(
    alloc: Global,
    begins: RestStart,
    words: Vec<OsString>,
) -> Result<
    (
        Line<'static, Flag, Value, Word, Maybe, Values>,
        Vec<OsString>,
    ),
    AllocError,
>
    ensures { (l : List legal.Parsed) (rest : List (List ℕ))
        → MeansBefore (start_view begins) tool words.items l rest
        → IfOk result (λ found. RestTells l rest found.1.items found.0) }
{
    lexopt_options::read_rest(alloc, &Options::new(&TOOL), begins, words)
}

/// What can complete a typed word after these words of a line of the tool.
pub fn complete(
    alloc: Global,
    words: Vec<OsString>,
    typed: &OsString,
) -> Result<Completion<'static, Flag, Value, Maybe, Values>, AllocError>
    ensures sound { IfOk result (λ c. (s : List ℕ)
        → Contains (words_of (map both_of c.spellings.items)) s
        → Completes tool words.items typed.now s) }
    ensures complete { IfOk result (λ c. (s : List ℕ)
        → Completes tool words.items typed.now s
        → Contains (words_of (map both_of c.spellings.items)) s) }
    ensures in_order { IfOk result (λ c.
        AreInOrder typed.now (map both_of c.spellings.items)) }
    ensures word { IfOk result (λ c. (role : Option completion.Role)
        × HasRole tool words.items typed.now role × IsSameRole role c.word) }
    ensures joined { IfOk result (λ c. (with_value : Option completion.Joined)
        × IsJoined tool words.items typed.now with_value × IsSameJoined with_value c.joined) }
    ensures arguments { IfOk result (λ c. (role : Option completion.Role)
        × HasRole tool words.items typed.now role
        × AreOwnersIn tool.positionals role c.arguments.items) }
    ensures values { IfOk result (λ c. (role : Option completion.Role) × (owners : List ℕ)
        × (with_value : Option completion.Joined) × HasRole tool words.items typed.now role
        × AreOwnersIn tool.positionals role owners × IsJoined tool words.items typed.now with_value
        × (map string_bytes c.values.items
        ≡ offered_values tool typed.now role owners with_value)) }
{
    Options::new(&TOOL).complete(alloc, words, typed)
}

/// What the tool does with these words.
pub fn answer(
    alloc: Global,
    words: Vec<OsString>,
    width: usize,
) -> Result<Answer<'static, Flag, Value, Word, Maybe, Values>, AllocError>
    ensures { IfOk result (λ answer. ToolAnswer words.items width answer) }
{
    Options::new(&TOOL).answer(alloc, words, width)
}

/// What the tool does with a request.
pub fn answer_request(
    alloc: Global,
    request: Request,
    width: usize,
) -> Result<Answer<'static, Flag, Value, Word, Maybe, Values>, AllocError>
    ensures { IfOk result (λ answer. ToolRequest request width answer) }
{
    Options::new(&TOOL).answer_request(alloc, request, width)
}

/// The request that this value of the variable and these words make.
pub fn asked(alloc: Global, value: Option<&[u8]>, words: Vec<OsString>) -> Request
    ensures { IsAsked (option_map (λ v. v.now) value.entry) words.items result }
{
    Request::new(alloc, value, words)
}

/// The variable of a program whose name has letters, a digit, other characters of ASCII, and a
/// character of two bytes.
pub fn odd_variable(alloc: Global) -> Result<String, AllocError>
    ensures { IfOk result (λ name. string_bytes name ≡ codes "_AZ9_____COMPLETE") }
{
    variable(alloc, "aZ9-.é")
}

/// The usage line of the tool, and its help.
pub fn usage_and_help(alloc: Global, width: usize) -> Result<(String, String), AllocError>
    ensures usage { IfOk result (λ texts. IsToolUsage width (string_bytes texts.0)) }
    ensures help { IfOk result (λ texts. IsHelp full tool width (string_bytes texts.1)) }
{
    let options = Options::new(&TOOL);
    Ok((
        options.usage(alloc, width)?,
        options.help(alloc, Detail::Full, width)?,
    ))
}

/// The table of the options of the tool that have values.
pub fn table(alloc: Global) -> Result<Table, AllocError>
    ensures { IfOk result (λ made. table_view made ≡ spec.table tool_options) }
{
    table_of(alloc, &Options::new(&TOOL))
}

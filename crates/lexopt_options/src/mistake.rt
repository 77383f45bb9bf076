//! What can be wrong with a line, the messages about it, and the hint of an unknown short option.
ghost use Rattle.std.specs.Prelude.{IfOk, map};
ghost use Rattle.lexopt_spec.specs.UnreadLine as unread;
ghost use Rattle.lexopt_line_spec.specs.Table.{short};
ghost use Rattle.lexopt_options_spec.specs.Nearest.{IsHint};
ghost use Rattle.lexopt_declaration.specs.Models.{option_view};

use lexopt_declaration::declaration::{Declared, Names};
use lexopt_declaration::hints::write_hints;
use lexopt_declaration::listed::Listed;
use lexopt_declaration::message::Escaped;
use lexopt_declaration::nearest::{ending, long_names};
use lexopt_words::message::write_escaped;
use lexopt_words::os_string::{OsString, Visible};
use std::alloc::{AllocError, Global};
use std::fmt;

/// The name of an option as it was typed, without its dashes. Each damaged piece of it is U+FFFD.
#[derive(Debug, PartialEq, Eq, Drop)]
pub enum OptionName {
    /// A short option: its character.
    Short(char),
    /// A long option: its name.
    Long(String),
}

impl fmt::Display for OptionName {
    ghost use Rattle.std.specs.Prelude.{Some};
    ghost use Rattle.lexopt_options.specs.Messages.{name_text};

    ghost output = { λ name. Some (name_text name) };

    /// Writes the name with its dashes. Characters that a terminal may act on are escaped.
    fn fmt<W: fmt::Write>(&self, f: &mut fmt::Formatter<W>) -> fmt::Result {
        match self {
            OptionName::Short(character) => {
                f.write_str("-")?;
                write_escaped(*character, f)
            }
            OptionName::Long(name) => {
                let name = Escaped(name.as_str());
                write!(f, "--{name}")
            }
        }
    }
}

/// What is wrong with a line. `Display` and `Debug` write it on one line, without the name of the
/// program:
///
/// ```text
/// invalid option '--verbsoe'; did you mean '--verbose'?
/// missing argument FILE for option '-o'
/// invalid value "medium" for '--mode': one of fast, slow
/// ```
///
/// Each character that a terminal may act on is escaped, as [`Visible`](crate::Visible) does it.
#[derive(Drop)]
pub enum Mistake<'a> {
    /// An option that is not declared. Nothing after its name was read.
    UnknownOption {
        /// The name.
        name: OptionName,
        /// The declared long names that may have been meant, without those of hidden options.
        ///
        /// For a long option it is the nearest name alone, if its distance is at most a third of
        /// the number of characters typed; otherwise the names that begin with what was typed, in
        /// the order of the declaration, and at most the first five. None is meant by the empty
        /// name. For a short option whose cluster goes on it is the name that ends with the option
        /// and the rest of the cluster, if exactly one does: `--verbose` if `-verbose` was typed.
        hints: Vec<&'a str>,
    },
    /// An option without values has a value joined to it: `--verbose=1`.
    UnexpectedValue {
        /// The option as it was typed, with its dashes.
        option: String,
        /// The value.
        value: OsString,
    },
    /// An option has no value, and needs one: `-o` as the last word.
    MissingValue {
        /// The option as it was typed, with its dashes.
        option: String,
        /// The placeholder of the value, by the declaration.
        placeholder: &'a str,
    },
    /// An option has a value that is not in its list.
    InvalidValue {
        /// The names of the option.
        option: Names<'a>,
        /// The first value that is not in the list.
        value: OsString,
        /// The list.
        values: &'a [&'a str],
    },
    /// The first positional that the declaration does not allow.
    UnexpectedArgument(OsString),
    /// A required positional is missing: the placeholder of the first that is.
    MissingArgument(&'a str),
    /// A word is not in the list of the positional that it belongs to. No positional is missing.
    InvalidArgument {
        /// The placeholder of that positional.
        placeholder: &'a str,
        /// The first word that is not in the list of its positional.
        word: OsString,
        /// The list.
        values: &'a [&'a str],
    },
    /// A required option is missing: the names of the first that is, in the order of the
    /// declaration. In a whole line, no positional is missing then, and each accepts its words;
    /// `read_leading` of `lexopt_commands` ignores the positionals.
    MissingOption(Names<'a>),
    /// Two options exclude each other: the names of the first option of the line, in the order of the
    /// declaration, that another of the line excludes, and those of the first such other. No option
    /// is missing then.
    Exclusive(Names<'a>, Names<'a>),
    /// No word comes after the general options, where the name of a command has to be. These are
    /// all declared names, those that ask for the help among them. Only a line of a program with
    /// commands (`Commands` of `lexopt_commands`) has this mistake.
    MissingCommand(Vec<&'a str>),
    /// The first word after the general options, or after a name that asks for the help, is not the
    /// name of a command. Only a line of a program with commands has this mistake.
    UnknownCommand {
        /// The word.
        word: OsString,
        /// The words that a command of this name would get: those after it. If a name that asks for
        /// the help came before it, `--help` is among them, before the first that begins with a
        /// dash, or after all.
        rest: Vec<OsString>,
        /// The names of commands that may have been meant: the nearest alone; or, if none is near,
        /// those that begin with the word, in the order of the declaration, and at most the first
        /// five. None is meant by the empty word.
        hints: Vec<&'a str>,
    },
    /// The environment variable of this name, by which shells ask, has a value that is not known.
    /// No line has this mistake; only the request of a shell does
    /// ([`Options::answer_request`](crate::Options::answer_request)).
    InvalidVariable(String),
}

impl fmt::Display for Mistake<'_> {
    ghost use Rattle.std.specs.Prelude.{Some};
    ghost use Rattle.lexopt_options.specs.Messages.{message};

    ghost output = { λ mistake. Some (message mistake) };

    fn fmt<W: fmt::Write>(&self, f: &mut fmt::Formatter<W>) -> fmt::Result {
        match self {
            Mistake::UnknownOption { name, hints } => {
                write!(f, "invalid option '{name}'")?;
                write_hints("--", hints, f)
            }
            Mistake::UnexpectedValue { option, value } => {
                let option = Escaped(option.as_str());
                let value = Visible::new(value.as_bytes());
                write!(f, "unexpected argument for option '{option}': {value}")
            }
            Mistake::MissingValue {
                option,
                placeholder,
            } => {
                let placeholder = Escaped(placeholder);
                let option = Escaped(option.as_str());
                write!(f, "missing argument {placeholder} for option '{option}'")
            }
            Mistake::InvalidValue {
                option,
                value,
                values,
            } => {
                let value = Visible::new(value.as_bytes());
                let values = Listed(values);
                write!(f, "invalid value {value} for '{option}': one of {values}")
            }
            Mistake::UnexpectedArgument(word) => {
                let word = Visible::new(word.as_bytes());
                write!(f, "unexpected argument {word}")
            }
            Mistake::MissingArgument(placeholder) => {
                let placeholder = Escaped(placeholder);
                write!(f, "missing argument {placeholder}")
            }
            Mistake::InvalidArgument {
                placeholder,
                word,
                values,
            } => {
                let word = Visible::new(word.as_bytes());
                let placeholder = Escaped(placeholder);
                let values = Listed(values);
                write!(
                    f,
                    "invalid argument {word} for {placeholder}: one of {values}"
                )
            }
            Mistake::MissingOption(names) => write!(f, "missing option '{names}'"),
            Mistake::Exclusive(names, others) => {
                write!(
                    f,
                    "options '{names}' and '{others}' cannot be used together"
                )
            }
            Mistake::MissingCommand(names) => {
                let names = Listed(names);
                write!(f, "missing command: one of {names}")
            }
            Mistake::UnknownCommand { word, hints, .. } => {
                let command = Visible::new(word.as_bytes());
                write!(f, "unknown command {command}")?;
                write_hints("", hints, f)
            }
            Mistake::InvalidVariable(name) => {
                let name = Escaped(name.as_str());
                write!(
                    f,
                    "invalid value of {name}: one of bash_source, bash_complete, zsh_source, \
                    zsh_complete, fish_source, fish_complete"
                )
            }
        }
    }
}

impl fmt::Debug for Mistake<'_> {
    ghost use Rattle.std.specs.Prelude.{Some};
    ghost use Rattle.lexopt_options.specs.Messages.{message};

    ghost debug_output = { λ mistake. Some (message mistake) };

    fn fmt<W: fmt::Write>(&self, f: &mut fmt::Formatter<W>) -> fmt::Result {
        fmt::Display::fmt(self, f)
    }
}

impl std::error::Error for Mistake<'_> {}

/// Returns the long name that may have been meant by a cluster with a dash too few: the one that
/// ends with this undeclared option of the cluster and the `rest` after it, if exactly one does.
/// Hidden options are passed over.
///
/// # Errors
///
/// Returns `AllocError` if an allocation fails.
pub(crate) fn short_hints<'a, F, V, M, S>(
    alloc: Global,
    options: &[Declared<'a, F, V, M, S>],
    option: char,
    rest: &[u8],
) -> Result<Vec<&'a str>, AllocError>
    ensures { IfOk result (λ hints. IsHint (map option_view options.now) (short option)
        (unread.rest rest.now) (map (λ text. text.now) hints.items)) }
{
    let names = long_names(alloc, options)?;
    let mut back = format!(in alloc; "{option}")?.into_bytes();
    back.extend_from_slice(rest)?;
    ending(alloc, &names, &back)
}

//! `Arg`, which the parser returns, and `Error`, the errors of a command line.
ghost use Rattle.std.specs.Prelude.{◌≡◌, Some, option_map};

use crate::message::{write_missing_value, write_no_memory, write_unexpected_value};
use crate::os_string::{OsString, Quoted};
use std::alloc::{AllocError, AllocFailed, Global};
use std::fmt;

/// An argument that `Parser::next` returns: an option or a positional.
///
/// # Examples
///
/// ```rust
/// let mut quiet = false;
/// let mut files = Vec::new(alloc);
/// match parser.next()? {
///     Some(Short('q') | Long("quiet")) => quiet = true,
///     Some(Value(file)) => files.push(file)?,
///     Some(argument) => return Err(argument.unexpected(alloc)),
///     None => {}
/// }
/// ```
#[derive(PartialEq, Eq, Debug, Drop)]
pub enum Arg<'a> {
    /// A short option: `Short('q')` for `-q`.
    Short(char),
    /// A long option, without its dashes: `Long("quiet")` for `--quiet`. The parser lends the name.
    Long(&'a str),
    /// A positional: a word that is not an option, or that comes after the separator.
    Value(OsString),
}

impl Arg<'_> {
    ghost use Rattle.std.specs.Prelude.{◌↔◌, IsTrue};
    ghost use Rattle.lexopt_words.specs.Arguments.{IsNamed, Refuses};

    /// Returns whether this is the option with one of these names: `-v` or `--verbose` for
    /// `argument.is_named('v', "verbose")`.
    ///
    /// For an option without a short name give `'\0'`, which no word of a command line has.
    ///
    /// # Examples
    ///
    /// ```rust
    /// let mut verbose = false;
    /// if let Some(argument) = parser.next()? {
    ///     verbose = argument.is_named('v', "verbose");
    /// }
    /// ```
    pub fn is_named(&self, short: char, long: &str) -> bool
        ensures { IsTrue result ↔ IsNamed short long.now self.now }
    {
        match self {
            Arg::Short(option) => *option == short,
            Arg::Long(name) => *name == long,
            Arg::Value(_) => false,
        }
    }

    /// Returns the error for an argument that the program does not know.
    ///
    /// It is `UnexpectedOption` with `-o` for `Short('o')` and with `--out` for `Long("out")`, and
    /// `UnexpectedArgument` with the word for a `Value`. If memory for the option's text runs out,
    /// it is `OutOfMemory`. The argument is spent.
    ///
    /// # Examples
    ///
    /// ```rust
    /// let mut verbose = false;
    /// match parser.next()? {
    ///     Some(Short('v')) => verbose = true,
    ///     // `-x` is refused with the message `invalid option '-x'`.
    ///     Some(argument) => return Err(argument.unexpected(alloc)),
    ///     None => {}
    /// }
    /// ```
    pub fn unexpected(self, alloc: Global) -> Error
        ensures { Refuses self.entry result }
    {
        let option = match self {
            Arg::Short(option) => format!(in alloc; "-{option}"),
            Arg::Long(name) => format!(in alloc; "--{name}"),
            Arg::Value(value) => return Error::UnexpectedArgument(value),
        };
        match option {
            Ok(option) => Error::UnexpectedOption(option),
            Err(_) => Error::OutOfMemory,
        }
    }
}

impl<'a> Clone for Arg<'a> {
    ghost use Rattle.std.specs.Prelude.{◌≡◌};
    ghost use Rattle.lexopt_words.specs.Arguments.{IsOption};

    ghost is_clone = { λ argument copy. copy ≡ argument };

    ghost is_infallible = { IsOption };

    /// Returns an equal argument. Only the copy of a `Value` allocates.
    ///
    /// # Errors
    ///
    /// `AllocError` if memory for the copy of a `Value` runs out.
    fn clone(&self) -> Result<Arg<'a>, AllocError> {
        match self {
            Arg::Short(option) => Ok(Arg::Short(*option)),
            Arg::Long(name) => Ok(Arg::Long(*name)),
            Arg::Value(value) => Ok(Arg::Value(value.clone()?)),
        }
    }
}

/// An error of a command line.
///
/// It prints as a message for the user, by both `{error}` and `{error:?}`. Values in messages are
/// in double quotes, escaped as [`Quoted`] does. `Error::from`, and so `?`, makes `Custom` from a
/// text, `NonUnicodeValue` from an `OsString`, and `OutOfMemory` from an `AllocError` or an
/// `AllocFailed`.
///
/// `Custom` and `ParsingFailed` have an `anyhow::Error`, which keeps at most 120 bytes of the text
/// that it is made from: a longer text is cut, and then ends in three dots.
///
/// # Examples
///
/// ```rust
/// if let Err(error) = parser.value() {
///     let _ = eprintln!(rt; "hello: {error}");
/// }
/// ```
#[derive(Drop)]
pub enum Error {
    /// A value was asked for, and there is none. `option` is the last option with its dashes, or
    /// `None` if no option was read.
    MissingValue { option: Option<String> },
    /// The program does not know this option, given with its dashes.
    UnexpectedOption(String),
    /// The program did not expect this positional.
    UnexpectedArgument(OsString),
    /// The value of this option, which is given with its dashes, was not taken: `x` of `--flag=x`
    /// if the program does not take a value for `--flag`.
    UnexpectedValue { option: String, value: OsString },
    /// A value could not be converted to its type, for the reason `error`, whose message has at
    /// most 120 bytes. `value` is the whole text of the value.
    ParsingFailed { value: String, error: anyhow::Error },
    /// A value has to be a text, and is not UTF-8.
    NonUnicodeValue(OsString),
    /// An error of the program's own. `Error::from` makes it from a text, of which it keeps at most
    /// 120 bytes.
    Custom(anyhow::Error),
    /// An allocation failed. If `next`, `value`, `values` or `raw_args` of a parser returns it, the
    /// line is unchanged, and the call can be made again. If a constructor of a parser returns it,
    /// the items that it was given are gone; so is the argument of `Arg::unexpected`. If `?` made
    /// it from the error of `push`, the word to push is gone; if from that of `take_values`, or of
    /// `collect` over a view, the words that were taken from the line are.
    OutOfMemory,
}

impl Error {
    ghost use Rattle.lexopt_words.specs.Message.{cause_of};

    /// Returns the cause of `ParsingFailed` or `Custom`. Other errors have none.
    ///
    /// The cause keeps at most 120 bytes of the text that it is made from: a longer text is cut,
    /// and then ends in three dots.
    ///
    /// # Examples
    ///
    /// ```rust
    /// if let Err(error) = parser.value()?.parse::<u32>() {
    ///     let _ = eprintln!(rt; "hello: {error}");
    ///     if let Some(cause) = error.cause() {
    ///         let _ = eprintln!(rt; "caused by: {cause}");
    ///     }
    /// }
    /// ```
    pub fn cause(&self) -> Option<&anyhow::Error>
        ensures { option_map (λ cause. cause.now) result ≡ cause_of self.now }
    {
        match self {
            Error::ParsingFailed { error, .. } | Error::Custom(error) => Some(error),
            Error::MissingValue { .. }
            | Error::UnexpectedOption(_)
            | Error::UnexpectedArgument(_)
            | Error::UnexpectedValue { .. }
            | Error::NonUnicodeValue(_)
            | Error::OutOfMemory => None,
        }
    }
}

impl fmt::Display for Error {
    ghost use Rattle.std.specs.Prelude.{Some};
    ghost use Rattle.lexopt_words.specs.Message.{message};

    ghost output = { λ e. Some (message e) };

    fn fmt<W: fmt::Write>(&self, f: &mut fmt::Formatter<W>) -> fmt::Result {
        match self {
            Error::MissingValue { option } => { write_missing_value(option.as_deref(), f) }
            Error::UnexpectedOption(option) => write!(f, "invalid option '{option}'"),
            Error::UnexpectedArgument(value) => {
                let value = Quoted::new(value.as_bytes());
                write!(f, "unexpected argument {value}")
            }
            Error::UnexpectedValue { option, value } => write_unexpected_value(option, value, f),
            Error::ParsingFailed { value, error } => {
                let value = Quoted::new(value.as_bytes());
                write!(f, "cannot parse argument {value}: {error}")
            }
            Error::NonUnicodeValue(value) => {
                let value = Quoted::new(value.as_bytes());
                write!(f, "argument is invalid unicode: {value}")
            }
            Error::Custom(error) => write!(f, "{error}"),
            Error::OutOfMemory => write_no_memory(f),
        }
    }
}

impl fmt::Debug for Error {
    ghost use Rattle.std.specs.Prelude.{Some};
    ghost use Rattle.lexopt_words.specs.Message.{message};

    ghost debug_output = { λ e. Some (message e) };

    fn fmt<W: fmt::Write>(&self, f: &mut fmt::Formatter<W>) -> fmt::Result {
        fmt::Display::fmt(self, f)
    }
}

impl std::error::Error for Error {}

impl From<String> for Error {
    ghost use Rattle.std.specs.Prelude.{string_bytes};
    ghost use Rattle.lexopt_words.specs.Message.{IsCustom};

    ghost from_gives = { λ text e. IsCustom (string_bytes text) e };

    /// Makes `Custom` from a text. Its message has at most 120 bytes: a longer text is cut, and
    /// then ends in three dots.
    fn from(text: String) -> Error {
        Error::Custom(anyhow::Error::msg(text))
    }
}

impl From<&str> for Error {
    ghost use Rattle.lexopt_words.specs.Message.{IsCustom};

    ghost from_gives = { λ text e. IsCustom text.now e };

    /// Makes `Custom` from a text. Its message has at most 120 bytes: a longer text is cut, and
    /// then ends in three dots.
    fn from(text: &str) -> Error {
        Error::Custom(anyhow::Error::msg(text))
    }
}

impl From<OsString> for Error {
    ghost use Rattle.std.specs.Prelude.{◌≡◌};
    ghost use Rattle.lexopt_words.specs.declared.error.Error.TheVariants.{NonUnicodeValue};

    ghost from_gives = { λ word e. e ≡ NonUnicodeValue word };

    /// Makes `NonUnicodeValue` of the word, whatever its bytes are.
    fn from(word: OsString) -> Error {
        Error::NonUnicodeValue(word)
    }
}

impl From<AllocError> for Error {
    ghost use Rattle.std.specs.Prelude.{◌≡◌};
    ghost use Rattle.lexopt_words.specs.declared.error.Error.TheVariants.{OutOfMemory};

    ghost from_gives = { λ _ e. e ≡ OutOfMemory };

    fn from(_error: AllocError) -> Error {
        Error::OutOfMemory
    }
}

impl<T: Drop> From<AllocFailed<T>> for Error {
    ghost use Rattle.std.specs.Prelude.{◌≡◌};
    ghost use Rattle.lexopt_words.specs.declared.error.Error.TheVariants.{OutOfMemory};

    ghost from_gives = { λ _ e. e ≡ OutOfMemory };

    fn from(_error: AllocFailed<T>) -> Error {
        Error::OutOfMemory
    }
}

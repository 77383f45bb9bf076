//! Mistakes that a program itself finds in what was read, and what is printed about them.
ghost use Rattle.std.specs.Prelude.{◌≡◌};
ghost use Rattle.std.specs.Fmt.{WritesOnOk};
ghost use Rattle.std.specs.Process.{exit_status};
ghost use Rattle.lexopt_declaration.specs.Lookups.{names_at};
ghost use Rattle.lexopt_options.specs.Declarations.{options_of};
ghost use Rattle.lexopt_options.specs.Usage as usage;
ghost use Rattle.lexopt_options.specs.Usage.{ConvertsFor, for_option, invalid_message};
ghost use Rattle.lexopt_options.specs.Usage.{value_message, what_message, why_message};

use crate::options::Options;
use crate::refused::USAGE_ERROR;
use lexopt_declaration::declaration::{Kind, Names};
use lexopt_declaration::lookup::names_of;
use lexopt_declaration::message::write_help;
use lexopt_words::error::Error;
use lexopt_words::message::write_no_memory;
use lexopt_words::os_string::{OsString, Visible};
use lexopt_words::value_ext::ValueExt;
use std::alloc::{AllocError, AllocFailed};
use std::fmt;
use std::process::ExitCode;
use std::str::FromStr;

/// A mistake that a program itself finds in what was read, such as a number out of range.
///
/// It is the error of functions that turn what was read into values of the program's own. `?`
/// converts the errors of `ValueExt::parse`, `push`, `collect` and `format!` to it, and
/// `UsageError::from` makes it of a text, such as a literal or what `format!` returns. A text is
/// kept whole.
///
/// `Display` and `Debug` write what is wrong, without a line feed at the end. What
/// [`Options::report`] returns also has the name of the program, and where the help is. A value that
/// could not be converted is shown as [`Visible`] does it, and the names of its option are escaped.
/// Texts, causes and the messages of other errors are written as they are.
///
/// # Examples
///
/// ```rust
/// #[derive(Clone, Copy, PartialEq)]
/// enum Value {
///     Jobs,
/// }
///
/// fn jobs_of<'a>(
///     options: &Options<'a, Flag, Value, Word>,
///     word: &OsString,
/// ) -> Result<u32, UsageError<'a>> {
///     let jobs: u32 = options.parse_value(Value::Jobs, word)?;
///     if jobs < 1 {
///         return Err(UsageError::from("at least one job is needed"));
///     }
///     Ok(jobs)
/// }
/// ```
#[derive(Drop)]
pub enum UsageError<'a> {
    /// A value could not be converted.
    Invalid {
        /// The names of the option that has the value; `None` if no option is named, as for a
        /// positional.
        option: Option<Names<'a>>,
        /// The reason. For a word that is not UTF-8 it is [`Error::NonUnicodeValue`]. If `FromStr`
        /// failed, it is [`Error::ParsingFailed`], whose cause has a message of at most 120 bytes:
        /// a longer text is cut, and then ends in three dots.
        error: Error,
    },
    /// A message. It is kept whole.
    Text(&'a str),
    /// A message that the program made, as by `format!`. It is kept whole.
    Formatted(String),
    /// An allocation failed.
    OutOfMemory,
}

impl fmt::Display for UsageError<'_> {
    ghost use Rattle.std.specs.Prelude.{Some};
    ghost use Rattle.lexopt_options.specs.Usage.{usage_message};

    ghost output = { λ error. Some (usage_message error) };

    fn fmt<W: fmt::Write>(&self, f: &mut fmt::Formatter<W>) -> fmt::Result {
        match self {
            UsageError::Invalid { option, error } => write_message(*option, error, f),
            UsageError::Text(text) => f.write_str(text),
            UsageError::Formatted(text) => f.write_str(text),
            UsageError::OutOfMemory => write_no_memory(f),
        }
    }
}

impl fmt::Debug for UsageError<'_> {
    ghost use Rattle.std.specs.Prelude.{Some};
    ghost use Rattle.lexopt_options.specs.Usage.{usage_message};

    ghost debug_output = { λ error. Some (usage_message error) };

    fn fmt<W: fmt::Write>(&self, f: &mut fmt::Formatter<W>) -> fmt::Result {
        fmt::Display::fmt(self, f)
    }
}

impl std::error::Error for UsageError<'_> {}

impl From<AllocError> for UsageError<'_> {
    ghost use Rattle.std.specs.Prelude.{◌≡◌};
    ghost use Rattle.lexopt_options.specs.declared.usage.UsageError.TheVariants.{OutOfMemory};

    ghost from_gives = { λ _ error. error ≡ OutOfMemory };

    fn from(_error: AllocError) -> Self {
        UsageError::OutOfMemory
    }
}

impl<T: Drop> From<AllocFailed<T>> for UsageError<'_> {
    ghost use Rattle.std.specs.Prelude.{◌≡◌};
    ghost use Rattle.lexopt_options.specs.declared.usage.UsageError.TheVariants.{OutOfMemory};

    ghost from_gives = { λ _ error. error ≡ OutOfMemory };

    fn from(_error: AllocFailed<T>) -> Self {
        UsageError::OutOfMemory
    }
}

impl From<Error> for UsageError<'_> {
    ghost use Rattle.std.specs.Prelude.{◌≡◌, None};
    ghost use Rattle.lexopt_options.specs.Usage.{invalid};

    ghost from_gives = { λ error usage. usage ≡ invalid None error };

    /// Makes [`UsageError::Invalid`] of the error, which names no option; and
    /// [`UsageError::OutOfMemory`] of [`Error::OutOfMemory`]. An error that was made of a text has
    /// at most 120 bytes of that text, so make a `UsageError` of a longer text directly.
    fn from(error: Error) -> Self {
        invalid(None, error)
    }
}

impl From<String> for UsageError<'_> {
    ghost use Rattle.std.specs.Prelude.{◌≡◌};
    ghost use Rattle.lexopt_options.specs.declared.usage.UsageError.TheVariants.{Formatted};

    ghost from_gives = { λ text error. error ≡ Formatted text };

    /// Makes [`UsageError::Formatted`] of a text, which is kept whole.
    fn from(text: String) -> Self {
        UsageError::Formatted(text)
    }
}

impl<'a> From<&'a str> for UsageError<'a> {
    ghost use Rattle.std.specs.Prelude.{◌≡◌};
    ghost use Rattle.lexopt_options.specs.declared.usage.UsageError.TheVariants.{Text};

    ghost from_gives = { λ text error. error ≡ Text text };

    /// Makes [`UsageError::Text`] of a text, which is kept whole.
    fn from(text: &'a str) -> Self {
        UsageError::Text(text)
    }
}

/// What to print about a mistake that the program found. [`Report::print`] prints it. `Display`
/// and `Debug` write the same, without a line feed at the end.
#[derive(Drop)]
pub struct Report<'a> {
    /// The name of the program.
    pub program: &'a str,
    /// The names of the first option that asks for the help, if one is declared.
    pub help: Option<Names<'a>>,
    /// The mistake.
    pub error: UsageError<'a>,
}

impl Report<'_> {
    ghost use Rattle.std.specs.Prelude.{◌≡◌};
    ghost use Rattle.lexopt_options.specs.Usage.{report_status};

    /// Returns the status to exit with: 1 after [`UsageError::OutOfMemory`], otherwise
    /// [`USAGE_ERROR`](crate::USAGE_ERROR).
    pub fn status(&self) -> u8
        ensures { result ≡ report_status self.now.error }
    {
        match self.error {
            UsageError::OutOfMemory => 1,
            _ => USAGE_ERROR,
        }
    }

    /// Prints this and a line feed to standard error, and returns [`Report::status`] to exit with.
    /// The status is the same if it can't be printed. This call consumes the report.
    pub fn print<R: Eprint>(self, rt: &R) -> ExitCode
        ensures { exit_status result ≡ report_status self.entry.error }
    {
        let _ = eprintln!(rt; "{self}");
        ExitCode::from(self.status())
    }
}

impl fmt::Display for Report<'_> {
    ghost use Rattle.std.specs.Prelude.{Some};
    ghost use Rattle.lexopt_options.specs.Usage.{report_text};

    ghost output = { λ report. Some (report_text report) };

    /// Writes the name of the program and the mistake; and on a second line where the help is, if
    /// an option for it is declared and the mistake is not [`UsageError::OutOfMemory`].
    fn fmt<W: fmt::Write>(&self, f: &mut fmt::Formatter<W>) -> fmt::Result {
        let program = self.program;
        let error = &self.error;
        write!(f, "{program}: {error}")?;
        match error {
            UsageError::OutOfMemory => Ok(()),
            _ => write_help(program, self.help, f),
        }
    }
}

impl fmt::Debug for Report<'_> {
    ghost use Rattle.std.specs.Prelude.{Some};
    ghost use Rattle.lexopt_options.specs.Usage.{report_text};

    ghost debug_output = { λ report. Some (report_text report) };

    fn fmt<W: fmt::Write>(&self, f: &mut fmt::Formatter<W>) -> fmt::Result {
        fmt::Display::fmt(self, f)
    }
}

// The mistake for this error: a value of this option could not be converted, or memory ran out.
fn invalid<'a>(option: Option<Names<'a>>, error: Error) -> UsageError<'a>
    ensures { result ≡ usage.invalid option.entry error }
{
    match error {
        Error::OutOfMemory => UsageError::OutOfMemory,
        error => UsageError::Invalid { option, error },
    }
}

// Writes that a value is invalid, and the value if the error has it.
fn write_what<W: fmt::Write>(error: &Error, f: &mut fmt::Formatter<W>) -> fmt::Result
    ensures { WritesOnOk W.write_str_gives f.old result (what_message error.now) f.new }
{
    match error {
        Error::ParsingFailed { value, .. } => write_value(value.as_bytes(), f),
        Error::NonUnicodeValue(value) => write_value(value.as_bytes(), f),
        _ => f.write_str("invalid value"),
    }
}

// Writes that this value is invalid.
fn write_value<W: fmt::Write>(value: &[u8], f: &mut fmt::Formatter<W>) -> fmt::Result
    ensures { WritesOnOk W.write_str_gives f.old result (value_message value.now) f.new }
{
    let value = Visible::new(value);
    write!(f, "invalid value {value}")
}

// Writes which option the value is for, if one is named.
fn write_option<W: fmt::Write>(option: Option<Names<'_>>, f: &mut fmt::Formatter<W>) -> fmt::Result
    ensures { WritesOnOk W.write_str_gives f.old result (for_option option.entry) f.new }
{
    match option {
        Some(names) => write!(f, " for '{names}'"),
        None => Ok(()),
    }
}

// Writes why a value is invalid.
fn write_why<W: fmt::Write>(error: &Error, f: &mut fmt::Formatter<W>) -> fmt::Result
    ensures { WritesOnOk W.write_str_gives f.old result (why_message error.now) f.new }
{
    match error {
        Error::ParsingFailed { error, .. } => write!(f, ": {error}"),
        Error::NonUnicodeValue(_) => f.write_str(": not UTF-8"),
        other => write!(f, ": {other}"),
    }
}

// Writes that a value is invalid, for this option if there is one, and why; or that memory ran out.
fn write_message<W: fmt::Write>(
    option: Option<Names<'_>>,
    error: &Error,
    f: &mut fmt::Formatter<W>,
) -> fmt::Result
    ensures { WritesOnOk W.write_str_gives f.old result (invalid_message option.entry error.now)
        f.new }
{
    if matches!(error, Error::OutOfMemory) {
        return write_no_memory(f);
    }
    write_what(error, f)?;
    write_option(option, f)?;
    write_why(error, f)
}

// ---- the option of a key

// Whether this is an option of one value with this key.
fn is_value<F, V: PartialEq, M, S>(kind: &Kind<'_, F, V, M, S>, key: &V) -> bool
    ensures { result ≡ usage.is_value V.eq key.now kind.now }
{
    match kind {
        Kind::Value(own, _) => own == key,
        _ => false,
    }
}

// Whether this is an option with this key whose value may be left out.
fn is_maybe<F, V, M: PartialEq, S>(kind: &Kind<'_, F, V, M, S>, key: &M) -> bool
    ensures { result ≡ usage.is_maybe M.eq key.now kind.now }
{
    match kind {
        Kind::Maybe(own, _) => own == key,
        _ => false,
    }
}

// Whether this is an option of several values with this key.
fn is_values<F, V, M, S: PartialEq>(kind: &Kind<'_, F, V, M, S>, key: &S) -> bool
    ensures { result ≡ usage.is_values S.eq key.now kind.now }
{
    match kind {
        Kind::Values(own, _) => own == key,
        _ => false,
    }
}

// Converts a value of the option at this index, if there is one.
fn parse_for<'a, F, V, P, M, S, T: FromStr>(
    options: &Options<'a, F, V, P, M, S>,
    place: Option<usize>,
    word: &OsString,
) -> Result<T, UsageError<'a>>
where
    T::Err: Into<anyhow::Error>,
    ensures { ConvertsFor (names_at (options_of options.now) place) T.from_str_gives
        T.Err.converts word.now result }
{
    match word.parse() {
        Ok(value) => Ok(value),
        Err(error) => Err(invalid(names_of(options.options(), place), error)),
    }
}

impl<'a, F, V: Copy + PartialEq, P, M, S> Options<'a, F, V, P, M, S> {
    ghost use Rattle.lexopt_options.specs.Declarations.{options_of};
    ghost use Rattle.lexopt_options.specs.Usage.{ConvertsFor, value_names};

    /// Converts a value of the option with this key, by the type's `FromStr`.
    ///
    /// # Errors
    ///
    /// - [`UsageError::Invalid`] if the word is not UTF-8 or `FromStr` fails. It has the names of
    ///   the first declared option of one value with this key, if there is one. The message about
    ///   an error of `FromStr` has at most 120 bytes of what that error prints.
    /// - [`UsageError::OutOfMemory`] if an allocation fails.
    ///
    /// # Examples
    ///
    /// ```rust
    /// #[derive(Clone, Copy, PartialEq)]
    /// enum Value {
    ///     Jobs,
    /// }
    ///
    /// fn jobs_of<'a>(
    ///     options: &Options<'a, Flag, Value>,
    ///     line: &[Parsed<Flag, Value>],
    /// ) -> Result<u32, UsageError<'a>> {
    ///     let mut jobs = 1;
    ///     for parsed in line {
    ///         if let Parsed::Value(Value::Jobs, word) = parsed {
    ///             jobs = options.parse_value(Value::Jobs, word)?;
    ///         }
    ///     }
    ///     Ok(jobs)
    /// }
    /// ```
    ///
    /// If `jobs` is a `u32`, the message for the words `--jobs x` is
    ///
    /// ```text
    /// invalid value "x" for '--jobs': invalid digit found in string
    /// ```
    pub fn parse_value<T: FromStr>(&self, key: V, word: &OsString) -> Result<T, UsageError<'a>>
    where
        T::Err: Into<anyhow::Error>,
        ensures { ConvertsFor (value_names V.eq key (options_of self.now)) T.from_str_gives
            T.Err.converts word.now result }
    {
        let place = self
            .options()
            .iter()
            .position(|option| is_value(&option.kind, &key));
        parse_for(self, place, word)
    }
}

impl<'a, F, V, P, M: Copy + PartialEq, S> Options<'a, F, V, P, M, S> {
    ghost use Rattle.lexopt_options.specs.Declarations.{options_of};
    ghost use Rattle.lexopt_options.specs.Usage.{ConvertsFor, maybe_names};

    /// Converts the value of an option whose value may be left out, as [`Options::parse_value`]
    /// does. It returns the errors of that call, for the first such option with this key.
    pub fn parse_maybe<T: FromStr>(&self, key: M, word: &OsString) -> Result<T, UsageError<'a>>
    where
        T::Err: Into<anyhow::Error>,
        ensures { ConvertsFor (maybe_names M.eq key (options_of self.now)) T.from_str_gives
            T.Err.converts word.now result }
    {
        let place = self
            .options()
            .iter()
            .position(|option| is_maybe(&option.kind, &key));
        parse_for(self, place, word)
    }
}

impl<'a, F, V, P, M, S: Copy + PartialEq> Options<'a, F, V, P, M, S> {
    ghost use Rattle.lexopt_options.specs.Declarations.{options_of};
    ghost use Rattle.lexopt_options.specs.Usage.{ConvertsFor, values_names};

    /// Converts one of the values of an option of several values, as [`Options::parse_value`] does.
    /// It returns the errors of that call, for the first such option with this key.
    pub fn parse_values<T: FromStr>(&self, key: S, word: &OsString) -> Result<T, UsageError<'a>>
    where
        T::Err: Into<anyhow::Error>,
        ensures { ConvertsFor (values_names S.eq key (options_of self.now)) T.from_str_gives
            T.Err.converts word.now result }
    {
        let place = self
            .options()
            .iter()
            .position(|option| is_values(&option.kind, &key));
        parse_for(self, place, word)
    }
}

impl<'a, F, V, P, M, S> Options<'a, F, V, P, M, S> {
    ghost use Rattle.std.specs.Prelude.{◌≡◌};
    ghost use Rattle.lexopt_declaration.specs.Lookups.{help_names};
    ghost use Rattle.lexopt_options.specs.Declarations.{declaration_of, options_of};

    /// Returns what to print about a mistake that the program found. [`Report::print`] prints it.
    ///
    /// # Examples
    ///
    /// ```rust
    /// use std::process::ExitCode;
    ///
    /// fn refuse<'a>(
    ///     rt: &HostRuntime,
    ///     options: &Options<'a, Flag, Value, Word>,
    ///     error: UsageError<'a>,
    /// ) -> ExitCode {
    ///     options.report(error).print(rt)
    /// }
    /// ```
    ///
    /// It prints, for example,
    ///
    /// ```text
    /// example_copy: invalid value "x" for '--jobs': invalid digit found in string
    /// Try 'example_copy --help' for more information.
    /// ```
    pub fn report(&self, error: UsageError<'a>) -> Report<'a>
        ensures program { result.program.now ≡ (declaration_of self.now).program }
        ensures help { result.help ≡ help_names (options_of self.now) }
        ensures error { result.error ≡ error.entry }
    {
        Report {
            program: self.program(),
            help: self.help_names(),
            error,
        }
    }
}

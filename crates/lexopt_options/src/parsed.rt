//! What is read from a line, by the keys of a declaration.
use lexopt_words::os_string::OsString;
use std::convert::Infallible;

/// An option or a positional that was read from a line.
///
/// An option has the program's key for it, whichever of its names was typed. A positional has the
/// key of the declared positional that the word belongs to. The types of keys are those of
/// [`Declaration`](crate::Declaration). Values and words have the bytes that were typed, whether or
/// not they are UTF-8.
///
/// # Examples
///
/// With the declaration of [`declare!`](crate::declare):
///
/// ```rust
/// let mut verbose = false;
/// let mut output = None;
/// let mut mode = None;
/// let mut files = Vec::new(alloc);
/// if let Answer::Parsed(line) = options.from_env(rt)? {
///     for parsed in line {
///         match parsed {
///             Parsed::Flag(Flag::Verbose) => verbose = true,
///             Parsed::Value(Value::Output, word) => output = Some(word),
///             Parsed::Value(Value::Mode, word) => mode = Some(word),
///             Parsed::Positional(Word::File, word) => files.push(word)?,
///         }
///     }
/// }
/// ```
#[derive(Debug, PartialEq, Eq, Drop)]
pub enum Parsed<F, V = Infallible, P = Infallible, M = Infallible, S = Infallible> {
    /// A flag: its key.
    Flag(F),
    /// An option of one value: its key, and the value.
    Value(V, OsString),
    /// An option whose value may be left out: its key, and the value if there is one.
    Maybe(M, Option<OsString>),
    /// An option of several values: its key, and all of its values, at least one.
    Values(S, Vec<OsString>),
    /// A positional: the key of the declared positional that it belongs to, and the word.
    Positional(P, OsString),
}

/// What a line asks for instead of the program's work.
#[derive(Debug, Clone, Copy, PartialEq, Eq)]
pub enum Asked<'a> {
    /// The full help.
    Help,
    /// The brief help.
    BriefHelp,
    /// The version: the text in the declaration.
    Version(&'a str),
}

// What an option means: something for the program, or a request for the help or the version.
#[derive(Drop)]
pub(crate) enum ByKey<'a, F, V, P, M, S> {
    // Something for the program.
    Parsed(Parsed<F, V, P, M, S>),
    // A request for the help or the version.
    Asked(Asked<'a>),
}

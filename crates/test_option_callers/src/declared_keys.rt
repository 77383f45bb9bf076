//! Callers of declared options with any keys. Their clauses state, by plain data, to which option a
//! key, a role or the names in an error belong.
ghost use Rattle.std.specs.Prelude.{◌≡◌, IfOk};
ghost use Rattle.test_option_callers.specs.Keyed.{HaveKeys, IsConverted, IsKnown, IsKnownRole};
ghost use Rattle.test_option_callers.specs.Keyed.{asks_for_help, first_names, has_maybe, has_value};
ghost use Rattle.test_option_callers.specs.Keyed.{has_values};

use lexopt_options::{Completion, Line, Options, OsString, Report, UsageError};
use std::alloc::{AllocError, Global};
use std::str::FromStr;

/// Reads a line.
pub fn read_line<'a, F: Copy, V: Copy, P: Copy, M: Copy, S: Copy>(
    alloc: Global,
    options: &Options<'a, F, V, P, M, S>,
    words: Vec<OsString>,
) -> Result<Line<'a, F, V, P, M, S>, AllocError>
    ensures { IfOk result (λ line. HaveKeys options.now.declaration.now.options.now line) }
{
    options.read(alloc, words)
}

/// What can complete a typed word.
pub fn complete<'a, F, V, P, M, S>(
    alloc: Global,
    options: &Options<'a, F, V, P, M, S>,
    words: Vec<OsString>,
    typed: &OsString,
) -> Result<Completion<'a, F, V, M, S>, AllocError>
    ensures word { IfOk result (λ c.
        IsKnownRole options.now.declaration.now.options.now c.word) }
    ensures joined { IfOk result (λ c.
        IsKnown options.now.declaration.now.options.now c.joined) }
{
    options.complete(alloc, words, typed)
}

/// Converts the value of an option.
pub fn parse_value<'a, F, V: Copy + PartialEq, P, M, S, T: FromStr>(
    options: &Options<'a, F, V, P, M, S>,
    key: V,
    word: &OsString,
) -> Result<T, UsageError<'a>>
where
    T::Err: Into<anyhow::Error>,
    ensures { IsConverted
        (first_names (has_value V.eq key) options.now.declaration.now.options.now)
        T.from_str_gives T.Err.converts word.now result }
{
    options.parse_value(key, word)
}

/// Converts an optional value.
pub fn parse_maybe<'a, F, V, P, M: Copy + PartialEq, S, T: FromStr>(
    options: &Options<'a, F, V, P, M, S>,
    key: M,
    word: &OsString,
) -> Result<T, UsageError<'a>>
where
    T::Err: Into<anyhow::Error>,
    ensures { IsConverted
        (first_names (has_maybe M.eq key) options.now.declaration.now.options.now)
        T.from_str_gives T.Err.converts word.now result }
{
    options.parse_maybe(key, word)
}

/// Converts one of several values.
pub fn parse_values<'a, F, V, P, M, S: Copy + PartialEq, T: FromStr>(
    options: &Options<'a, F, V, P, M, S>,
    key: S,
    word: &OsString,
) -> Result<T, UsageError<'a>>
where
    T::Err: Into<anyhow::Error>,
    ensures { IsConverted
        (first_names (has_values S.eq key) options.now.declaration.now.options.now)
        T.from_str_gives T.Err.converts word.now result }
{
    options.parse_values(key, word)
}

/// A mistake that the program found, with the text around it.
pub fn report<'a, F, V, P, M, S>(
    options: &Options<'a, F, V, P, M, S>,
    error: UsageError<'a>,
) -> Report<'a>
    ensures program { result.program.now ≡ options.now.program.now }
    ensures help { result.help
        ≡ first_names asks_for_help options.now.declaration.now.options.now }
    ensures error { result.error ≡ error.entry }
{
    options.report(error)
}

//! Callers of pieces, of errors, of conversions and of `finish`. Their clauses are proved from the
//! clauses of the public calls alone, which exclude every result that is `unreachable!` here.
ghost use Rattle.std.specs.Prelude.{◌≡◌, [], ◌∷◌, Some, Ok, IfSome, IfOk, IfErr, IsUtf8};
ghost use Rattle.std.specs.Prelude.{◌↔◌, IsTrue, MatchOption, codes, false, slice_get, string_bytes};
ghost use Rattle.std.specs.Process.{exit_status};
ghost use Rattle.anyhow.specs.Error.{IsMadeOf};
ghost use Rattle.lexopt_spec.specs.Pieces.{IsFirstPiece};
ghost use Rattle.lexopt_spec.specs.UnreadLine.{long_option, short_option, spelling};
ghost use Rattle.lexopt_words.specs.Answered.{AreAnswered};

use lexopt_base::prelude::ValueExt;
use lexopt_base::{Arg, Error, OsString, finish};
use lexopt_words::codepoint::{FirstCodepoint, first_codepoint};
use std::alloc::Global;
use std::io;
use std::process::ExitCode;
use std::str::FromStr;

/// The first piece of some bytes, a character or damage, and its size; `None` if there is no byte.
pub fn first_piece(bytes: &[u8]) -> Option<(Option<char>, usize)>
    ensures { MatchOption result (bytes.now ≡ []) (λ piece.
        IsFirstPiece bytes.now piece.1 piece.0) }
{
    match first_codepoint(bytes) {
        FirstCodepoint::Empty => None,
        FirstCodepoint::Character(character, size) => Some((Some(character), size)),
        FirstCodepoint::Damage(size) => Some((None, size)),
    }
}

/// The spelling of an unknown short option; `None` if memory runs out.
pub fn unknown_short(alloc: Global, option: char) -> Option<String>
    ensures { IfSome result (λ text. spelling (short_option option) ≡ Some (string_bytes text)) }
{
    match Arg::Short(option).unexpected(alloc) {
        Error::UnexpectedOption(text) => Some(text),
        Error::OutOfMemory => None,
        Error::MissingValue { .. }
        | Error::UnexpectedArgument(_)
        | Error::UnexpectedValue { .. }
        | Error::ParsingFailed { .. }
        | Error::NonUnicodeValue(_)
        | Error::Custom(_) => unreachable!(),
    }
}

/// The spelling of an unknown long option; `None` if memory runs out.
pub fn unknown_long(alloc: Global, name: &str) -> Option<String>
    ensures { IfSome result (λ text. spelling (long_option name.now) ≡ Some (string_bytes text)) }
{
    match Arg::Long(name).unexpected(alloc) {
        Error::UnexpectedOption(text) => Some(text),
        Error::OutOfMemory => None,
        _ => unreachable!(),
    }
}

/// The word that an error reports as unexpected.
pub fn unknown_word(alloc: Global, word: OsString) -> OsString
    ensures { result ≡ word }
{
    match Arg::Value(word).unexpected(alloc) {
        Error::UnexpectedArgument(word) => word,
        _ => unreachable!(),
    }
}

/// The cause of an error that is made from a text.
pub fn cause_of_text(text: &str) -> anyhow::Error
    ensures { IsMadeOf (Some text.now) result }
{
    match Error::from(text) {
        Error::Custom(cause) => cause,
        Error::MissingValue { .. }
        | Error::UnexpectedOption(_)
        | Error::UnexpectedArgument(_)
        | Error::UnexpectedValue { .. }
        | Error::ParsingFailed { .. }
        | Error::NonUnicodeValue(_)
        | Error::OutOfMemory => unreachable!(),
    }
}

/// The value that the text of a word parses to, or that text if it does not parse; `None` if memory
/// runs out.
pub fn parsed<T: FromStr>(word: &OsString) -> Option<Result<T, String>>
where
    T::Err: Into<anyhow::Error>,
    requires { IsUtf8 word.now }
    ensures value { IfSome result (λ answer. IfOk answer (λ value.
        T.from_str_gives word.now (Ok value))) }
    ensures text { IfSome result (λ answer. IfErr answer (λ text.
        string_bytes text ≡ word.now)) }
{
    match word.parse::<T>() {
        Ok(value) => Some(Ok(value)),
        Err(Error::ParsingFailed { value, .. }) => Some(Err(value)),
        Err(Error::OutOfMemory) => None,
        Err(Error::MissingValue { .. })
        | Err(Error::UnexpectedOption(_))
        | Err(Error::UnexpectedArgument(_))
        | Err(Error::UnexpectedValue { .. })
        | Err(Error::NonUnicodeValue(_))
        | Err(Error::Custom(_)) => unreachable!(),
    }
}

/// The word that an error reports as not UTF-8; `None` if memory runs out.
pub fn damaged(word: &OsString) -> Option<OsString>
    requires { IsUtf8 word.now → ⊥ }
    ensures { IfSome result (λ found. found ≡ word.now) }
{
    match word.parse::<u32>() {
        Err(Error::NonUnicodeValue(found)) => Some(found),
        Err(Error::OutOfMemory) => None,
        _ => unreachable!(),
    }
}

/// A copy of a short option, which does not allocate.
pub fn copied_short(option: char) -> Arg<'static>
    ensures { result ≡ Arg.Short option }
{
    match Arg::Short(option).clone() {
        Ok(copy) => copy,
        Err(_) => unreachable!(),
    }
}

/// Whether a short option is `-v`, which is also `--verbose`.
pub fn is_verbose_short(option: char) -> bool
    ensures { IsTrue result ↔ (option ≡ 0x76) }
{
    Arg::Short(option).is_named('v', "verbose")
}

/// Whether a long option is `--verbose`, which is also `-v`.
pub fn is_verbose_long(name: &str) -> bool
    ensures { IsTrue result ↔ (name.now ≡ codes "verbose") }
{
    Arg::Long(name).is_named('v', "verbose")
}

/// A positional is no option, whatever it looks like.
pub fn is_verbose_word(word: OsString) -> bool
    ensures { result ≡ false }
{
    Arg::Value(word).is_named('v', "verbose")
}

/// The status of a program whose output nobody reads.
pub fn unread_status(rt: &impl Eprint) -> ExitCode
    ensures { exit_status result ≡ 141 }
{
    finish(rt, "hello", Err(io::Error::from(io::ErrorKind::BrokenPipe)))
}

/// The status of a program that cannot print, since the disk is full.
pub fn full_status(rt: &impl Eprint) -> ExitCode
    ensures { exit_status result ≡ 1 }
{
    finish(
        rt,
        "hello",
        Err(io::Error::from(io::ErrorKind::StorageFull)),
    )
}

/// The status of a program that did its work.
pub fn own_status(rt: &impl Eprint, status: u8) -> ExitCode
    ensures { exit_status result ≡ status }
{
    finish(rt, "hello", Ok(ExitCode::from(status)))
}

/// For the prover alone: `AreAnswered` holds of the words in order, up to the first place without a
/// word, and of no other list.
pub fn two_words_are_answered()
    ensures both { AreAnswered (λ place word. word ≡ slice_get ((1 ∷ []) ∷ (2 ∷ []) ∷ []) place) 0
        ((1 ∷ []) ∷ (2 ∷ []) ∷ []) }
    ensures no_less { AreAnswered
        (λ place word. word ≡ slice_get ((1 ∷ []) ∷ (2 ∷ []) ∷ []) place) 0
        ((1 ∷ []) ∷ []) → ⊥ }
    ensures no_more { AreAnswered
        (λ place word. word ≡ slice_get ((1 ∷ []) ∷ (2 ∷ []) ∷ []) place) 0
        ((1 ∷ []) ∷ (2 ∷ []) ∷ (3 ∷ []) ∷ []) → ⊥ }
    ensures no_other { AreAnswered
        (λ place word. word ≡ slice_get ((1 ∷ []) ∷ (2 ∷ []) ∷ []) place) 0
        ((3 ∷ []) ∷ (2 ∷ []) ∷ []) → ⊥ }
{}

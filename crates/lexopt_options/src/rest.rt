//! Reads a line whose first words are read by a declaration, and whose rest is left to another
//! program or to a command, and what can come where a word of such a line is typed.
ghost use Rattle.std.specs.Prelude.{◌≡◌, ◌++◌, ◌∷◌, ℕ, IfOk, List, None, OnOk};
ghost use Rattle.lexopt_spec.specs.UnreadLine.{pending};
ghost use Rattle.lexopt_line_spec.specs.Readings.{start};
ghost use Rattle.lexopt_options_spec.specs.Legal as legal;
ghost use Rattle.lexopt_options_spec.specs.Rest.{MeansBefore};
ghost use Rattle.lexopt_options.specs.Declarations.{declaration_of};
ghost use Rattle.lexopt_options.specs.RestLines.{IsRestCompletion, IsRestOf, IsRestRead};
ghost use Rattle.lexopt_options.specs.RestStarts.{begins_here, is_separated, start_view};

use crate::front::{Begun, read_front};
use crate::options::Options;
use crate::read::{Ended, FIRST_ROOM, line_of, nothing_read, read_keys, refused_for};
use crate::refused::Line;
use lexopt_base::parser::Parser;
use lexopt_base::raw::RawArgs;
use lexopt_words::os_string::OsString;
use std::alloc::{AllocError, Global};

/// Where the rest of a line begins.
#[derive(Debug, Clone, Copy, PartialEq, Eq)]
pub enum RestStart {
    /// With the first positional that the declaration does not allow, such as `ls` in `nice ls -l`.
    Surplus,
    /// With the first word after the separator `--`, such as `-x` in `run a -- -x`.
    Separated,
}

// Whether a rest begins with a positional that was just read because the separator is before it.
#[inline(always)]
pub(crate) fn is_separated(begins: RestStart, parser: &Parser) -> bool
    ensures { result ≡ is_separated begins parser.now.ended }
{
    matches!(begins, RestStart::Separated) && parser.is_past_separator()
}

// Whether a rest begins with a positional that is one too many or has the separator before it.
fn begins_here(begins: RestStart, parser: &Parser) -> bool
    ensures { result ≡ begins_here begins parser.now.ended }
{
    match begins {
        RestStart::Surplus => true,
        RestStart::Separated => parser.is_past_separator(),
    }
}

// Adds the unread words to `words`.
fn add_left(words: &mut Vec<OsString>, left: &mut RawArgs<'_>) -> Result<(), AllocError>
    ensures { OnOk result (words.new.items ≡ words.old.items ++ left.old.parser.now.words) }
{
    let count = left.as_slice().len();
    for _asked in 0..count {
        match left.next() {
            Some(word) => words.push(word)?,
            None => break,
        }
    }
    Ok(())
}

// A word that was read, and the words after it, in a list that has room for `room` words from the
// start.
fn words_from(
    alloc: Global,
    parser: &mut Parser,
    word: OsString,
    room: usize,
) -> Result<Vec<OsString>, AllocError>
    requires { pending parser.old ≡ None }
    ensures { IfOk result (λ words. words.items ≡ word ∷ parser.old.words) }
{
    let mut words = Vec::with_capacity(alloc, room)?;
    words.push(word)?;
    if let Some(mut left) = parser.try_raw_args() {
        add_left(&mut words, &mut left)?;
    }
    Ok(words)
}

// Reads the line of this parser, of which nothing is read. `room` is the room of the list of the
// rest. It is separate from `read_rest`, which drops the parser, so that both proofs stay cheap.
fn read_parsed<'a, F: Copy, V: Copy, P: Copy, M: Copy, S: Copy>(
    alloc: Global,
    parser: &mut Parser,
    options: &Options<'a, F, V, P, M, S>,
    begins: RestStart,
    room: usize,
) -> Result<(Line<'a, F, V, P, M, S>, Vec<OsString>), AllocError>
    requires { (words : List (List ℕ))
        × (parser.old ≡ start (declaration_of options.now).short_equals words) }
    ensures { (words : List (List ℕ))
        → parser.old ≡ start (declaration_of options.now).short_equals words
        → IfOk result (λ found.
        IsRestRead (start_view begins) options.now words found.1.items found.0) }
{
    let mut read = nothing_read(alloc, room.min(FIRST_ROOM))?;
    let ended = read_keys(alloc, parser, options, begins, &mut read)?;
    match ended {
        Ended::End => {
            let line = line_of(alloc, options, read, Ended::End)?;
            Ok((line, Vec::new(alloc)))
        }
        Ended::Positional(word) => {
            if begins_here(begins, parser) {
                let rest = words_from(alloc, parser, word, room)?;
                let line = line_of(alloc, options, read, Ended::End)?;
                Ok((line, rest))
            } else {
                let line = line_of(alloc, options, read, Ended::Positional(word))?;
                Ok((line, Vec::new(alloc)))
            }
        }
        Ended::Asked(asked) => Ok((Line::Asked(asked), Vec::new(alloc))),
        Ended::Mistake(mistake) => {
            let refused = refused_for(options, read.parsed, mistake);
            Ok((Line::Refused(refused), Vec::new(alloc)))
        }
    }
}

/// Reads a line as [`Options::read`] does, up to where its rest starts. Returns the result, and the
/// rest, which is not read.
///
/// It is for libraries. A program that runs another one calls `Wrapper` of `lexopt_commands`, and a
/// program with commands calls `Commands`. The words are without the name of the program. This call
/// consumes them. A separator `--` before the rest is not part of it. If the line asks for the help
/// or the version, or has a mistake before the rest starts, no rest is returned.
///
/// # Errors
///
/// Returns `AllocError` if an allocation fails. A mistake is [`Line::Refused`].
///
/// # Examples
///
/// With a declaration of one option of one value, `-C`, and no positional:
///
/// ```rust
/// let mut words = Vec::new(alloc);
/// for word in ["-C", "dir", "add", "-v", "file"] {
///     words.push(OsString::from_text(alloc, word)?)?;
/// }
/// if let (Line::Parsed(parsed), rest) = read_rest(alloc, &options, RestStart::Surplus, words)? {
///     // `parsed` is Value((), "dir"); `rest` is `add`, `-v`, `file`.
/// }
/// ```
///
/// After `-Cdir -- -x` the rest is `-x`, and so it is with `RestStart::Separated`.
pub fn read_rest<'a, F: Copy, V: Copy, P: Copy, M: Copy, S: Copy>(
    alloc: Global,
    options: &Options<'a, F, V, P, M, S>,
    begins: RestStart,
    words: Vec<OsString>,
) -> Result<(Line<'a, F, V, P, M, S>, Vec<OsString>), AllocError>
    // If the words have a rest, this is it, and the result is that of the words before it. If they
    // have none, or an option asks for the help or the version or has a mistake, it is that of all
    // words.
    ensures read { IfOk result (λ found.
        IsRestRead (start_view begins) options.now words.items found.1.items found.0) }

    // If the words legally spell a list before a rest, these are what is read, after the defaults.
    ensures answered { (l : List legal.Parsed) (rest : List (List ℕ))
        → MeansBefore (start_view begins) (declaration_of options.now) words.items l rest
        → IfOk result (λ found. IsRestOf options.now l rest found.1.items found.0) }
{
    let room = words.len();
    let mut parser = options.parser_of(words);
    read_parsed(alloc, &mut parser, options, begins, room)
}

/// What can come where a word is typed, if the words before it may have a rest.
#[derive(Debug, Drop)]
pub enum RestCompletion {
    /// The words before it have this rest, of at least one word.
    Rest(Vec<OsString>),
    /// They have none. This is what can come where the word is typed.
    Text {
        /// The text of [`Options::completion_text`].
        text: String,
        /// Whether a word such as `add`, which is plain even without a separator before it, would
        /// begin the rest.
        begins_rest: bool,
    },
}

// The result of `complete_rest` for the line of this parser, of which nothing is read. `room` is the
// room of the list of the rest. It is separate from `complete_rest`, which drops the parser, so that
// both proofs stay cheap.
fn complete_parsed<F, V, P, M, S>(
    alloc: Global,
    parser: &mut Parser,
    options: &Options<'_, F, V, P, M, S>,
    begins: RestStart,
    room: usize,
    typed: &OsString,
) -> Result<RestCompletion, AllocError>
    requires { (words : List (List ℕ))
        × (parser.old ≡ start (declaration_of options.now).short_equals words) }
    ensures { (words : List (List ℕ))
        → parser.old ≡ start (declaration_of options.now).short_equals words
        → IfOk result (λ found.
        IsRestCompletion (start_view begins) options.now words typed.now found) }
{
    match read_front(alloc, parser, options, begins)? {
        Begun::Rest(word) => {
            let rest = words_from(alloc, parser, word, room)?;
            Ok(RestCompletion::Rest(rest))
        }
        Begun::Front(front) => {
            let begins_rest = options.begins_rest(begins, &front);
            let text = options.completion_text_after(alloc, &front, typed)?;
            Ok(RestCompletion::Text { text, begins_rest })
        }
    }
}

/// Returns the rest of the words, as [`read_rest`] finds it, if they have one. Otherwise it returns
/// what can come where `typed` is typed after them.
///
/// It is for libraries. The words are without the name of the program. This call consumes them.
/// Whether the words before the rest are a legal line makes no difference.
///
/// # Errors
///
/// Returns `AllocError` if an allocation fails.
///
/// # Examples
///
/// With a declaration of one option of one value, `-C`, and no positional, after `-Cdir`:
///
/// ```rust
/// let words = vec![in alloc; OsString::from_text(alloc, "-Cdir")?]?;
/// let typed = OsString::from_text(alloc, "a")?;
/// match complete_rest(alloc, &options, RestStart::Surplus, words, &typed)? {
///     // There were words after the options, such as `add`.
///     RestCompletion::Rest(rest) => println!(rt; "{} words", rest.len())?,
///     RestCompletion::Text { text, begins_rest } => {
///         if begins_rest {
///             rt.println("+add\tadd files")?;
///         }
///         rt.print(text)?;
///     }
/// }
/// ```
pub fn complete_rest<F, V, P, M, S>(
    alloc: Global,
    options: &Options<'_, F, V, P, M, S>,
    begins: RestStart,
    words: Vec<OsString>,
    typed: &OsString,
) -> Result<RestCompletion, AllocError>
    ensures { IfOk result (λ found.
        IsRestCompletion (start_view begins) options.now words.items typed.now found) }
{
    let room = words.len();
    let mut parser = options.parser_of(words);
    complete_parsed(alloc, &mut parser, options, begins, room, typed)
}

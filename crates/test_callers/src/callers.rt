//! Callers of `next`, of `value` and of views. Their clauses are proved from the clauses of the
//! public calls alone.
ghost use Rattle.std.specs.Prelude.{◌≡◌, ◌≢◌, ◌↔◌, ℕ, List, [], ◌∷◌, Contains, None, Some, IfErr};
ghost use Rattle.std.specs.Prelude.{IfNone, IfOk, IfSome, IsTrue};
ghost use Rattle.std.specs.List.{cons_option};
ghost use Rattle.lexopt_spec.specs.Runs.{Run, Step, next, raw, value, values};
ghost use Rattle.lexopt_spec.specs.Steps as steps;
ghost use Rattle.lexopt_spec.specs.Steps.{items, positional, short, taken};
ghost use Rattle.lexopt_spec.specs.UnreadLine.{pending};
ghost use Rattle.lexopt_base.specs.Replies.{IsReplyOfNext, RepliesWith, error_reply};
ghost use Rattle.test_callers.specs.Callers.{IsNegative, TakesNegative};

use lexopt::replay::{Call, Reply, replay};
use lexopt::{Arg, Error, OsString, Parser};
use std::alloc::Global;

/// Reads a short option and takes its value, as in `-n 10`. Returns `None` if the line has
/// something else there, or no value.
pub fn option_and_value(
    alloc: Global,
    parser: &mut Parser,
) -> Result<Option<(char, OsString)>, Error>
    ensures { IfOk result (λ found. IfSome found (λ pair.
        Run parser.old (next ∷ value ∷ []) (short pair.0 ∷ taken pair.1 ∷ []) parser.new)) }
{
    let mut replies = replay(alloc, parser, &[Call::Next, Call::Value])?;
    let last = replies.pop();
    let first = replies.pop();
    match (first, last) {
        (Some(Reply::Short(option)), Some(Reply::Taken(value))) => Ok(Some((option, value))),
        _ => Ok(None),
    }
}

/// Reads the next argument, and returns it if it is a positional: a word of the line, byte for
/// byte. An option is dropped.
#[tactic(auto, using(crate::proofs::Words::positional_is_a_word))]
pub fn next_file(parser: &mut Parser) -> Result<Option<OsString>, Error>
    ensures file { IfOk result (λ found. IfSome found (λ word. Contains parser.old.words word)) }
    ensures other { IfOk result (λ found. IfNone found ((reply : steps.Reply)
        × IsReplyOfNext parser.old (Some reply)
        × ((word : List ℕ) → reply ≢ positional word))) }
    ensures err { IfErr result (λ e. IsReplyOfNext parser.old (error_reply e)) }
{
    match parser.next()? {
        Some(Arg::Value(word)) => Ok(Some(word)),
        Some(Arg::Short(_) | Arg::Long(_)) | None => Ok(None),
    }
}

/// Takes the first two values of the last option, or its only value. The words after them stay
/// unread.
pub fn two_values(parser: &mut Parser) -> Result<(Option<OsString>, Option<OsString>), Error>
    ensures ok { IfOk result (λ found.
        Step (values 2) parser.old (items (cons_option found.0 (cons_option found.1 [])))
        parser.new) }
    ensures err { IfErr result (λ e.
        RepliesWith (Step (values 2)) parser.old (error_reply e) parser.new) }
{
    let mut view = parser.values()?;
    let first = view.next();
    let second = view.next();
    Ok((first, second))
}

/// Takes the next word if it begins with a dash and a digit, as `-10`, which `next` would read as
/// options.
pub fn negative_number(parser: &mut Parser) -> Result<Option<OsString>, Error>
    ensures ok { IfOk result (λ found. (pending parser.old ≡ None)
        × TakesNegative parser.old found parser.new) }
    ensures err { IfErr result (λ e.
        RepliesWith (Step (raw 1)) parser.old (error_reply e) parser.new) }
{
    let mut view = parser.raw_args()?;
    let is_wanted = match view.peek() {
        Some(word) => is_negative(word.as_bytes()),
        None => false,
    };
    if is_wanted { Ok(view.next()) } else { Ok(None) }
}

// Whether a word begins with a dash and a digit.
fn is_negative(word: &[u8]) -> bool
    ensures { IsTrue result ↔ IsNegative word.now }
{
    matches!(word, [b'-', b'0'..=b'9', ..])
}

//! `replay`: makes the calls of a list on a parser, and returns a reply for each.
ghost use Rattle.std.specs.Prelude.{◌≡◌, ◌++◌, ◌≤◌, ◌↔◌, ℕ, List, Some, IsSome, IsTrue, IfOk};
ghost use Rattle.std.specs.Prelude.{IfErr, OnErr};
ghost use Rattle.lexopt_spec.specs.Steps as steps;
ghost use Rattle.lexopt_spec.specs.Steps.{Next, Value};
ghost use Rattle.lexopt_spec.specs.Runs.{Step, values, raw, raw_if, try_raw, up_to};
ghost use Rattle.lexopt_spec.specs.Views.{WordItems};
ghost use Rattle.lexopt_base.specs.Replies.{error_reply, next_reply};
ghost use Rattle.lexopt_calls.specs.Replies.{TakesThis, call_view, reply_view};
ghost use Rattle.lexopt_calls.specs.Lists.{AccountsForBytes, KeepsBound, Replays, ReplaysPart};
ghost use Rattle.lexopt_calls.specs.Lists.{ReplaysPieces};

use crate::reply::{Call, Reply};
use lexopt_base::parser::Parser;
use lexopt_base::raw::RawArgs;
use lexopt_base::values::take_values;
use lexopt_words::error::{Arg, Error};
use lexopt_words::os_string::{OsStr, OsString};
use std::alloc::{AllocError, Global};

// Turns a result of `next` into a reply, which borrows nothing. The name of a long option is
// copied.
#[inline(always)]
fn copy_reply(alloc: Global, reply: Result<Option<Arg<'_>>, Error>) -> Result<Reply, AllocError>
    requires { IsSome (next_reply reply) }
    ensures { IfOk result (λ copy. next_reply reply.entry ≡ Some (reply_view copy)) }
{
    match reply {
        Ok(None) => Ok(Reply::End),
        Ok(Some(Arg::Short(option))) => Ok(Reply::Short(option)),
        Ok(Some(Arg::Long(name))) => Ok(Reply::LongName(String::from_str(alloc, name)?)),
        Ok(Some(Arg::Value(word))) => Ok(Reply::Positional(word)),
        Err(error) => Ok(reply_of(error)),
    }
}

// Returns the reply for an error of the parser.
fn reply_of(error: Error) -> Reply
    requires { IsSome (error_reply error) }
    ensures { error_reply error ≡ Some (reply_view result) }
{
    match error {
        Error::MissingValue { option } => Reply::Missing(option),
        Error::UnexpectedValue { option, value } => Reply::Unexpected(option, value),
        Error::OutOfMemory => Reply::NoMemory,
        Error::UnexpectedOption(_)
        | Error::UnexpectedArgument(_)
        | Error::ParsingFailed { .. }
        | Error::NonUnicodeValue(_)
        | Error::Custom(_) => unreachable!(),
    }
}

// Makes one call of `next`.
#[inline(always)]
fn call_next(alloc: Global, parser: &mut Parser) -> Result<Reply, AllocError>
    ensures { (reply : steps.Reply) × Next parser.old reply parser.new
        × IfOk result (λ copy. reply_view copy ≡ reply) }
{
    let reply = parser.next();
    copy_reply(alloc, reply)
}

// Makes one call of `value`.
fn call_value(parser: &mut Parser) -> Reply
    ensures { Value parser.old (reply_view result) parser.new }
{
    match parser.value() {
        Ok(word) => Reply::Taken(word),
        Err(error) => reply_of(error),
    }
}

// Makes one call of `values`, and takes up to `count` items from its view. If memory for the list
// runs out, some items were taken.
fn call_values(alloc: Global, parser: &mut Parser, count: usize) -> Result<Reply, AllocError>
    ensures { (m : ℕ) × (reply : steps.Reply) × (m ≤ count)
        × Step (values m) parser.old reply parser.new
        × IfOk result (λ copy. (m ≡ count) × (reply_view copy ≡ reply)) }
{
    match parser.values() {
        Ok(mut view) => Ok(Reply::Items(take_values(alloc, &mut view, count)?)),
        Err(error) => Ok(reply_of(error)),
    }
}

// Makes one call of `raw_args`, and takes up to `count` words.
fn call_raw(alloc: Global, parser: &mut Parser, count: usize) -> Result<Reply, AllocError>
    ensures { (m : ℕ) × (reply : steps.Reply) × (m ≤ count)
        × Step (raw m) parser.old reply parser.new
        × IfOk result (λ copy. (m ≡ count) × (reply_view copy ≡ reply)) }
{
    match parser.raw_args() {
        Ok(mut view) => Ok(Reply::Items(take_words(alloc, &mut view, count)?)),
        Err(error) => Ok(reply_of(error)),
    }
}

// Makes one call of `try_raw_args`, and takes up to `count` words.
fn call_try_raw(alloc: Global, parser: &mut Parser, count: usize) -> Result<Reply, AllocError>
    ensures { (m : ℕ) × (reply : steps.Reply) × (m ≤ count)
        × Step (try_raw m) parser.old reply parser.new
        × IfOk result (λ copy. (m ≡ count) × (reply_view copy ≡ reply)) }
{
    match parser.try_raw_args() {
        Some(mut view) => Ok(Reply::Items(take_words(alloc, &mut view, count)?)),
        None => Ok(Reply::Busy),
    }
}

// Makes one call of `raw_args`, and takes the next word if it is this one.
fn call_raw_if(parser: &mut Parser, wanted: &OsString) -> Reply
    ensures { Step (raw_if wanted.now) parser.old (reply_view result) parser.new }
{
    match parser.raw_args() {
        Ok(mut view) => Reply::Maybe(take_if(&mut view, wanted, |word| {
            word.as_bytes() == wanted.as_bytes()
        })),
        Err(error) => reply_of(error),
    }
}

// Takes the next word of a view if `is_wanted` returns true for it. It is a function of its own for
// the prover's sake: its clauses name the closure.
fn take_if<F: FnOnce(OsStr<'_>) -> bool + Drop>(
    view: &mut RawArgs<'_>,
    wanted: &OsString,
    is_wanted: F,
) -> Option<OsString>
    requires callable { F.IsAlwaysCallable is_wanted }
    requires exact { (word : _) (answer : _) → F.post is_wanted word answer
        → (IsTrue answer ↔ (word.bytes.now ≡ wanted.now)) }
    ensures same_parser { view.new.parser.ghost_name ≡ view.old.parser.ghost_name }
    ensures taken { TakesThis wanted.now view.old.parser.now result view.new.parser.now }
{
    view.next_if(is_wanted)
}

// Takes up to `count` words from a view: fewer only if the view ends.
fn take_words(
    alloc: Global,
    view: &mut RawArgs<'_>,
    count: usize,
) -> Result<Vec<OsString>, AllocError>
    ensures same_parser { view.new.parser.ghost_name ≡ view.old.parser.ghost_name }
    ensures items { (m : ℕ) × (came : List (List ℕ)) × (m ≤ count)
        × WordItems m view.old.parser.now came view.new.parser.now
        × IfOk result (λ items. (m ≡ count) × (items.items ≡ came)) }
{
    let mut items = Vec::new(alloc);
    for _asked in 0..count {
        match view.next() {
            Some(word) => items.push(word)?,
            None => break,
        }
    }
    Ok(items)
}

// Makes one call, and returns its reply. If memory for a list of items runs out, some items were
// taken.
fn reply_to(alloc: Global, parser: &mut Parser, call: &Call) -> Result<Reply, AllocError>
    ensures { (m : ℕ) × (reply : steps.Reply)
        × Step (up_to m (call_view call.now)) parser.old reply parser.new
        × IfOk result (λ copy. (up_to m (call_view call.now) ≡ call_view call.now)
        × (reply_view copy ≡ reply)) }
{
    match call {
        Call::Next => call_next(alloc, parser),
        Call::Value => Ok(call_value(parser)),
        Call::Optional => Ok(Reply::Maybe(parser.optional_value())),
        Call::Values(count) => call_values(alloc, parser, *count),
        Call::Raw(count) => call_raw(alloc, parser, *count),
        Call::TryRaw(count) => call_try_raw(alloc, parser, *count),
        Call::RawIf(word) => Ok(call_raw_if(parser, word)),
        Call::Switch(on) => {
            parser.set_short_equals(*on);
            Ok(Reply::Done)
        }
    }
}

/// Makes these calls on a parser, in order, and returns a reply for each.
///
/// An error of the parser is a reply like any other, even `NoMemory`, and the next calls are still
/// made. This allocates the list of replies, and copies the names of long options.
///
/// # Errors
///
/// `OutOfMemory` if memory runs out for the list of replies or for what is copied into it. Then
/// some prefix of the calls was made, and perhaps part of the next call, which may have taken some
/// of its items. The replies are gone, with the words that these calls had taken from the line.
///
/// # Examples
///
/// ```rust
/// let calls = &[Call::Next, Call::Value, Call::Next, Call::Next];
/// let replies = replay(alloc, &mut parser, calls)?;
/// ```
///
/// On the words `-a=b --n=x`, the replies are `Short('a')`, `Taken` of `b`, `LongName` of `n`, and
/// `Unexpected` of `--n` and `x`.
pub fn replay(alloc: Global, parser: &mut Parser, calls: &[Call]) -> Result<Vec<Reply>, Error>
    // The replies, and the line that is left, are those of the grammar.
    ensures run { IfOk result (λ replies. Replays parser.old calls.now replies.items parser.new) }

    // Each byte of the line is in one segment that the calls read, or is unread, in order. The
    // replies have the bytes that the segments show. The words left are a suffix of the words at
    // the start.
    ensures account { IfOk result (λ replies.
        AccountsForBytes parser.old calls.now replies.items parser.new) }
    ensures words_left { (gone : List (List ℕ)) × (parser.old.words ≡ gone ++ parser.new.words) }

    // If the line begins with a cluster in which no `=` can join a value, and the calls are one
    // `next` for each piece, the replies are its lossy characters. The replies have no more options,
    // positionals, values and words than the bound of the line allows.
    ensures pieces { IfOk result (λ replies.
        ReplaysPieces parser.old calls.now replies.items parser.new) }
    ensures bounded { IfOk result (λ replies. KeepsBound parser.old replies.items parser.new) }

    // The error, and the line that it leaves.
    ensures err { IfErr result (λ e. e ≡ Error.OutOfMemory) }
    ensures part { OnErr result (ReplaysPart parser.old calls.now parser.new) }
{
    let mut replies = Vec::new(alloc);
    for call in calls {
        let reply = reply_to(alloc, parser, call)?;
        replies.push(reply)?;
    }
    Ok(replies)
}

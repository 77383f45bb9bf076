//! A list of calls, of every kind.
use crate::refused_memory::{Outcome, check_outcome, out_of_memory_in};
use lexopt::replay::{Call, Reply, replay};
use lexopt::{Error, OsString, Parser};
use std::alloc::{AllocError, Global};
use std::test::Fail;
use test_helpers::parsers::parser_of;

// The words on which the calls are made.
fn line(alloc: Global) -> Result<Parser, Error> {
    parser_of(
        alloc,
        &[b"-a=b", b"--n=x", b"-cd", b"e", b"f", b"--", b"-g"],
    )
}

// Calls of every kind. Five of them can allocate a reply or a list of items.
fn every_call(alloc: Global) -> Result<[Call; 13], AllocError> {
    let word = OsString::from_bytes(alloc, b"f")?;
    Ok([
        Call::Next,
        Call::Value,
        Call::Next,
        Call::Optional,
        Call::Next,
        Call::TryRaw(1),
        Call::Values(2),
        Call::Switch(false),
        Call::RawIf(word),
        Call::Next,
        Call::Raw(1),
        Call::TryRaw(1),
        Call::Value,
    ])
}

// The unread line: the pending value, the words, and the last option.
fn left(alloc: Global, parser: &mut Parser) -> Result<Vec<Reply>, Error> {
    replay(alloc, parser, &[Call::Optional, Call::Raw(9), Call::Value])
}

// What a list has before a place and after it, if the list has that place.
fn around<T>(list: &[T], place: usize) -> Option<(&[T], &[T])> {
    Some((list.get(..place)?, list.get(place..)?.get(1..)?))
}

// Whether all calls except the one at this place have the same replies when they are made without
// it, on a new parser. Then that call changed nothing.
fn changed_nothing(
    alloc: Global,
    calls: &[Call],
    replies: &[Reply],
    place: usize,
) -> Result<bool, Error> {
    let mut parser = line(alloc)?;
    let (Some((before, after)), Some((replies_before, replies_after))) = (
        around(calls, place),
        around(replies, place),
    ) else {
        return Ok(false);
    };
    Ok(
        replay(alloc, &mut parser, before)?.as_slice() == replies_before
            && replay(alloc, &mut parser, after)?.as_slice() == replies_after,
    )
}

// The call with this many items if it gives items, and otherwise a call that changes nothing.
fn with_items(call: Option<&Call>, items: usize) -> Call {
    match call {
        Some(Call::Values(_)) => Call::Values(items),
        Some(Call::Raw(_)) => Call::Raw(items),
        Some(Call::TryRaw(_)) => Call::TryRaw(items),
        _ => Call::TryRaw(0),
    }
}

// Whether the unread line is `found` after these calls and then this one, on a new parser.
fn leave(alloc: Global, front: &[Call], last: Call, found: &[Reply]) -> Result<bool, Error> {
    let mut parser = line(alloc)?;
    let _replies = replay(alloc, &mut parser, front)?;
    let _reply = replay(alloc, &mut parser, &[last])?;
    Ok(left(alloc, &mut parser)?.as_slice() == found)
}

// Whether the unread line is `found` after the first of the calls, however many, and then the next
// call with at most two of its items.
fn is_part(alloc: Global, calls: &[Call], found: &[Reply]) -> Result<bool, Error> {
    for count in 0..=calls.len() {
        let Some(front) = calls.get(..count) else {
            return Ok(false);
        };
        for items in 0..3 {
            if leave(alloc, front, with_items(calls.get(count), items), found)? {
                return Ok(true);
            }
        }
    }
    Ok(false)
}

// How a list of calls went that has these replies: each was made, or one ran out of memory, and
// changed nothing.
fn outcome_of(alloc: Global, calls: &[Call], replies: &[Reply]) -> Result<Outcome, Error> {
    match replies.iter().position(|reply| *reply == Reply::NoMemory) {
        Some(place) => {
            Ok(Outcome::OutOfMemory.only_if(changed_nothing(alloc, calls, replies, place)?))
        }
        None => Ok(Outcome::of(replies.len() == calls.len())),
    }
}

// If one allocation fails, a list of calls has one reply `NoMemory`, of a call that changed
// nothing; or `replay` returns an error, and only the first calls were made.
fn check_calls(alloc: Global, calls: &[Call], parser: &mut Parser) -> Result<(), Fail> {
    let Ok(replies) = replay(alloc, parser, calls) else {
        let is_left = is_part(alloc, calls, &left(alloc, parser)?)?;
        return check_outcome(Outcome::OutOfMemory.only_if(is_left), "replay");
    };
    check_outcome(outcome_of(alloc, calls, &replies)?, "a call")
}

#[test]
fn calls_of_every_kind(rt: HostRuntime) -> Result<(), Fail> {
    let alloc = rt.alloc();
    let Ok(calls) = every_call(alloc) else {
        return out_of_memory_in("the list");
    };
    let Ok(mut parser) = line(alloc) else {
        return out_of_memory_in("from_args");
    };
    check_calls(alloc, &calls, &mut parser)
}

//! Lists of calls, and their replies as values. The cases of `test_lists` have the text of replies.
use lexopt::replay::{Call, Reply, replay};
use lexopt::{Error, OsString};
use std::alloc::{AllocError, Global};
use test_helpers::parsers::parser_of;

// Whether `Debug` writes these replies so.
fn are_shown(alloc: Global, found: &[Reply], replies: &str) -> Result<bool, Error> {
    Ok(format!(in alloc; "{found:?}")?.as_str() == replies)
}

// Whether these calls on a line of these words have these replies, as `Debug` writes them.
fn has_replies(
    alloc: Global,
    words: &[&[u8]],
    calls: &[Call],
    replies: &str,
) -> Result<bool, Error> {
    are_shown(
        alloc,
        &replay(alloc, &mut parser_of(alloc, words)?, calls)?,
        replies,
    )
}

// The call `RawIf`, which scripts do not have: it takes the next word if it is this one.
fn raw_if(alloc: Global, word: &str) -> Result<Call, AllocError> {
    Ok(Call::RawIf(OsString::from_text(alloc, word)?))
}

#[test]
fn words_of_which_one_is_wanted(rt: HostRuntime) {
    let alloc = rt.alloc();
    let other = raw_if(alloc, "x").expect(&rt, "memory");
    let wanted = raw_if(alloc, "a").expect(&rt, "memory");
    let last = raw_if(alloc, "-b").expect(&rt, "memory");
    let calls = [other, wanted, Call::Raw(0), Call::Next, last, Call::Next];
    let replies =
        "[Maybe(None), Maybe(Some(\"a\")), Items([]), Positional(\"-b\"), Maybe(None), End]";
    assert!(rt; has_replies(alloc, &[b"a", b"--", b"-b"], &calls, replies).expect(&rt, "success"));
}

#[test]
fn values_asked_and_not_asked(rt: HostRuntime) {
    let calls = [Call::Next, Call::Value, Call::Next, Call::Next];
    let replies = "[Short('a'), Taken(\"b\"), LongName(\"n\"), Unexpected(\"--n\", \"x\")]";
    assert!(rt;
        has_replies(rt.alloc(), &[b"-a=b", b"--n=x"], &calls, replies).expect(&rt, "success")
    );
}

#[test]
fn damage_and_a_value(rt: HostRuntime) {
    let calls = [Call::Next, Call::Optional];
    let replies = "[Short('\u{FFFD}'), Maybe(Some(\"a\"))]";
    assert!(rt; has_replies(rt.alloc(), &[b"-\xf0\x9da"], &calls, replies).expect(&rt, "success"));
}

#[test]
fn views_and_the_switch(rt: HostRuntime) {
    let calls = [
        Call::Next,
        Call::TryRaw(1),
        Call::Switch(false),
        Call::Values(1),
        Call::TryRaw(1),
        Call::Value,
        Call::Value,
    ];
    let replies =
        "[Short('a'), Busy, Done, Items([\"=b\"]), Items([\"c\"]), Taken(\"d\"), Missing(Some(\"-a\"))]";
    assert!(rt;
        has_replies(rt.alloc(), &[b"-a=b", b"c", b"d"], &calls, replies).expect(&rt, "success")
    );
}

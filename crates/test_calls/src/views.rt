//! Views of several values and of the unread words, used in ways that a script cannot use them.
use crate::items::are_words;
use lexopt::{Error, OsStr, OsString, Parser, RawArgs};
use std::alloc::Global;
use test_helpers::calls::{gives, is_at_end, reads_short, reads_word};
use test_helpers::parsers::parser_of;

// Whether `-a` has the values `b` and `c`, by `next` or by `collect`, and then `-d` comes.
fn takes_values(alloc: Global, parser: &mut Parser, collect: bool) -> Result<bool, Error> {
    let is_read = reads_short(parser, 'a')?;
    let mut view = parser.values()?;
    let are_given = if collect {
        let values: Vec<OsString> = view.collect(alloc)?;
        are_words(&values, &[b"b", b"c"])
    } else {
        gives(view.next(), b"b")
            && gives(view.next(), b"c")
            && view.next().is_none()
            && view.next().is_none()
    };
    Ok(is_read && are_given && reads_short(parser, 'd')?)
}

#[test]
fn several_values(rt: HostRuntime) {
    for collect in [false, true] {
        let mut parser = parser_of(rt.alloc(), &[b"-ab", b"c", b"-d"]).expect(&rt, "success");
        assert!(rt; takes_values(rt.alloc(), &mut parser, collect).expect(&rt, "success"));
    }
}

fn is_word(word: Option<OsStr<'_>>, wanted: &[u8]) -> bool {
    match word {
        Some(word) => word.as_bytes() == wanted,
        None => false,
    }
}

fn peeks_and_takes(view: &mut RawArgs<'_>) -> bool {
    is_word(view.peek(), b"a")
        && view.next_if(|_| false).is_none()
        && gives(
            view.next_if(|word| word.as_bytes() == b"a".as_slice()),
            b"a",
        )
        && view.peek().is_none()
        && view.next_if(|_| true).is_none()
}

#[test]
fn words_looked_at(rt: HostRuntime) {
    let mut parser = parser_of(rt.alloc(), &[b"a"]).expect(&rt, "success");
    assert!(rt;
        peeks_and_takes(&mut parser.raw_args().expect(&rt, "success"))
            && is_at_end(&mut parser).expect(&rt, "success")
    );
}

// Whether a view gives `-a`, lends the two words after it, and then gives `--`.
fn lends_words(mut view: RawArgs<'_>) -> bool {
    gives(view.next(), b"-a")
        && are_words(view.as_slice(), &[b"--", b"b"])
        && gives(view.next(), b"--")
}

// Whether `try_raw_args` returns such a view.
fn lends_if_free(parser: &mut Parser) -> bool {
    match parser.try_raw_args() {
        Some(view) => lends_words(view),
        None => false,
    }
}

#[test]
fn words_lent(rt: HostRuntime) {
    let mut parser = parser_of(rt.alloc(), &[b"-a", b"--", b"b"]).expect(&rt, "success");
    assert!(rt; lends_if_free(&mut parser) && reads_word(&mut parser, b"b").expect(&rt, "success"));
}

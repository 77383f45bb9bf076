//! Items that `spell` turns into words, and what its errors print. The forms of all kinds of items
//! are worked examples of `lexopt_laws`.
use crate::items::{are_words, table_of_each_kind};
use lexopt::Error;
use lexopt::replay::{Item, Table, read_items};
use lexopt::spell::{Reason, SpellError, spell};
use std::alloc::Global;
use test_helpers::parsers::words_from;

// The words that `spell` chooses for an item of each kind.
const WORDS: [&[u8]; 12] = [
    b"f",
    b"-v-",
    b"--name",
    b"-o",
    b"-x",
    b"--out=",
    b"-c==\xFF",
    b"-d-1",
    b"2",
    b"--cmd=a",
    b"--",
    b"-f",
];

// The items of these words by this table.
fn items_of(alloc: Global, words: &[&[u8]], table: &Table) -> Result<Vec<Item>, Error> {
    read_items(alloc, words_from(alloc, words)?, true, table)
}

// The items of the words are spelled by the same words.
#[test]
fn spelled(rt: HostRuntime) {
    let table = table_of_each_kind(rt.alloc()).expect(&rt, "memory");
    let items = items_of(rt.alloc(), &WORDS, &table).expect(&rt, "success");
    let words = spell(rt.alloc(), &items, true, &table).expect(&rt, "success");
    assert!(rt; are_words(&words, &WORDS));
}

// An option after a positional that needs the separator.
#[test]
fn at_fault(rt: HostRuntime) {
    let table = table_of_each_kind(rt.alloc()).expect(&rt, "memory");
    let mut items = items_of(rt.alloc(), &[b"-v", b"--", b"-x"], &table).expect(&rt, "success");
    items.reverse();
    let fault = SpellError::AtFault {
        index: 1,
        reason: Reason::PastSeparator,
    };
    assert!(rt; spell(rt.alloc(), &items, true, &table).err() == Some(fault));
}

static MESSAGES: [(Reason, &str); 10] = [
    (
        Reason::EqualsInName,
        "a long option cannot have `=` in its name",
    ),
    (
        Reason::UnexpectedValue,
        "by the table the option has no value, and is given one",
    ),
    (
        Reason::MissingValue,
        "by the table the option wants a value, and is given none",
    ),
    (
        Reason::WantsMany,
        "by the table the option has several values: give them as a list",
    ),
    (
        Reason::NotMany,
        "by the table the option does not have several values",
    ),
    (
        Reason::EmptyValue,
        "an empty value cannot come right after a character where `short_equals` is off",
    ),
    (
        Reason::OptionAmongValues,
        "one of several values would be read as an option",
    ),
    (
        Reason::EmptyName,
        "a long option with an empty name needs one value after `=`",
    ),
    (
        Reason::PastSeparator,
        "an option cannot come after a positional that needs `--` before it",
    ),
    (
        Reason::DashWithoutFlag,
        "the option `-` can only come right after a flag of one character",
    ),
];

#[test]
fn messages(rt: HostRuntime) {
    for (reason, message) in MESSAGES.iter() {
        let printed = reason.to_string(rt.alloc()).expect(&rt, "success");
        assert_eq!(rt; printed.as_str(), *message);
    }
    let fault = SpellError::AtFault {
        index: 7,
        reason: Reason::NotMany,
    };
    let printed = fault.to_string(rt.alloc()).expect(&rt, "success");
    assert_eq!(rt;
        printed.as_str(),
        "items[7]: by the table the option does not have several values"
    );
}

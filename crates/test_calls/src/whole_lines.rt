//! Whole lines: a table of options of one value, with the option `-`, which a script cannot put
//! into a table. Other lines are cases of `test_lists`.
use lexopt::replay::{Item, Table, read_items};
use std::alloc::AllocError;
use std::process::Abort;
use test_helpers::parsers::words_of;

// A table with the short option `-` and the long option `a=b`, of one value each.
fn table_with_a_dash(rt: &(impl Abort + AllocGlobal)) -> Table {
    let alloc = rt.alloc();
    let name = String::from_str(alloc, "a=b").expect(rt, "memory");
    let shorts = Vec::from_array(alloc, ['-']).expect(rt, "memory");
    let longs = Vec::from_array(alloc, [name]).expect(rt, "memory");
    Table::one_value(alloc, shorts, longs)
}

// Adds the text of each item, on a line of its own.
fn push_items(text: &mut String, items: &[Item]) -> Result<(), AllocError> {
    for item in items {
        writeln!(text, "{item}")?;
    }
    Ok(())
}

// What these words are read as by that table: each item on a line of its own, or the message of the
// error.
fn text_of(rt: &(impl Abort + AllocGlobal), words: &[u8]) -> String {
    let words = words_of(rt.alloc(), words).expect(rt, "memory");
    match read_items(rt.alloc(), words, true, &table_with_a_dash(rt)) {
        Ok(items) => {
            let mut text = String::new(rt.alloc());
            push_items(&mut text, &items).expect(rt, "memory");
            text
        }
        Err(error) => error.to_string(rt.alloc()).expect(rt, "memory"),
    }
}

static LINES: [(&[u8], &str); 3] = [
    (b"-a- v", "Short \"a\"\nShort \"-\" = \"v\"\n"),
    (b"-a-", "missing argument for option '--'"),
    (b"--a=b", "unexpected argument for option '--a': \"b\""),
];

#[test]
fn one_value_each(rt: HostRuntime) {
    for (words, text) in LINES.iter() {
        assert_eq!(rt; text_of(&rt, words).as_str(), *text);
    }
}

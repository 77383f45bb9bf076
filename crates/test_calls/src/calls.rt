//! Calls that a script cannot make in this way: copies of a parser, and `optional_value` itself.
//! The other modules make the other calls that read a line, and so do the cases of `test_lists`.
use lexopt::{Error, Parser};
use test_helpers::calls::{gives, reads_short, reads_word, takes};
use test_helpers::parsers::parser_of;

// Whether all bytes after `-c` are its value when `short_equals` is false, and the next word is not
// a value.
fn takes_with_equals(parser: &mut Parser) -> Result<bool, Error> {
    let is_read = reads_short(parser, 'c')?;
    parser.set_short_equals(false);
    Ok(
        is_read
            && gives(parser.optional_value(), b"=d")
            && parser.optional_value().is_none()
            && reads_word(parser, b"e")?,
    )
}

#[test]
fn optional_values(rt: HostRuntime) {
    let mut parser = parser_of(rt.alloc(), &[b"-c=d", b"e"]).expect(&rt, "success");
    assert!(rt; takes_with_equals(&mut parser).expect(&rt, "success"));
}

// A copy of a parser has the same pending value.
fn both_take(parser: &mut Parser) -> Result<bool, Error> {
    let is_read = reads_short(parser, 'a')?;
    let is_taken = takes(&mut parser.clone()?, b"b")?;
    Ok(is_read && is_taken && takes(parser, b"b")?)
}

#[test]
fn copies_of_parsers(rt: HostRuntime) {
    let mut parser = parser_of(rt.alloc(), &[b"-ab"]).expect(&rt, "success");
    assert!(rt; both_take(&mut parser).expect(&rt, "success"));
}

//! Binary names.
use lexopt_base::Error;
use std::alloc::Global;
use test_helpers::parsers::named;

// Whether a parser of these words has this name.
fn has_name(alloc: Global, words: &[&[u8]], name: Option<&str>) -> Result<bool, Error> {
    Ok(named(alloc, words)?.bin_name() == name)
}

// Words, and the name of their parser.
static NAMES: [(&[&[u8]], Option<&str>); 16] = [
    (&[], None),
    (&[b""], Some("")),
    (&[b"foo", b"-x"], Some("foo")),
    (&[b"foo\xffbar"], Some("foo\u{FFFD}bar")),
    (&[b"a\xffc"], Some("a\u{FFFD}c")),
    (&[b"\xc2"], Some("\u{FFFD}")),
    (&[b"\xc2a"], Some("\u{FFFD}a")),
    (&[b"\xc2\xb5"], Some("µ")),
    (&[b"\xf0"], Some("\u{FFFD}")),
    (&[b"\xf0\x9d"], Some("\u{FFFD}")),
    (&[b"\xf0\x9d\x84"], Some("\u{FFFD}")),
    (&[b"\xf0\x9da"], Some("\u{FFFD}a")),
    (&[b"\xf0\x9d\x84a"], Some("\u{FFFD}a")),
    (&[b"\xf0\x9d\x84\x9e"], Some("\u{1D11E}")),
    (&[b"\xed\xa0\x80"], Some("\u{FFFD}\u{FFFD}\u{FFFD}")),
    (&[b"\xef\xbf\xbd"], Some("\u{FFFD}")),
];

#[test]
fn names(rt: HostRuntime) {
    for (words, name) in NAMES.iter() {
        assert!(rt;
            has_name(rt.alloc(), words, *name).expect(&rt, "success"),
            "{name:?}"
        );
    }
}

//! Words: their bytes, texts, copies, order and hashes, and what they print. Copies of arguments.
use lexopt_base::{Arg, Error, OsStr, OsString, Quoted, Visible};
use std::alloc::{AllocError, Global};
use std::hash::{DefaultHasher, Hash, Hasher};

// Whether a word has these bytes, and so do its copy, its view, its list of bytes and the word of
// that list.
fn has_bytes(alloc: Global, bytes: &[u8]) -> Result<bool, AllocError> {
    let view = OsStr::from_bytes(bytes);
    let word = OsString::from_bytes(alloc, bytes)?;
    let copy = word.clone()?;
    let of_view = view.to_os_string(alloc)?;
    let are_same = copy == word && of_view == word && word.as_os_str() == view;
    let have_bytes = view.as_bytes() == bytes && word.as_bytes() == bytes;
    let is_long = word.len() == bytes.len() && word.is_empty() == bytes.is_empty();
    let is_again = OsString::from_vec(word.into_vec()) == copy;
    Ok(are_same && have_bytes && is_long && is_again)
}

#[test]
fn bytes_of_words(rt: HostRuntime) {
    for bytes in [b"".as_slice(), b"foo\xff", b"\xff\xfe\0-"] {
        assert!(rt;
            has_bytes(rt.alloc(), bytes).expect(&rt, "memory"),
            "{bytes:?}"
        );
    }
}

// Whether `text` is the word of the text "foo", and `word` is another.
fn is_foo(text: &OsString, word: &OsString) -> bool {
    text.as_bytes() == b"foo".as_slice()
        && text.is("foo")
        && !word.is("foo")
        && word.as_os_str() != text.as_os_str()
}

// Whether an empty word comes before the word "foo", which comes before `other`, and these two have
// different hashes.
fn are_ordered(empty: &OsString, foo: &OsString, other: &OsString) -> bool {
    empty.as_os_str().is("")
        && empty < foo
        && foo < other
        && foo != empty
        && hash_of(foo) == hash_of(&b"foo".as_slice())
        && hash_of(foo) != hash_of(other)
}

fn hash_of<T: Hash>(value: &T) -> u64 {
    let mut state = DefaultHasher::new();
    value.hash(&mut state);
    state.finish()
}

#[test]
fn other_words(rt: HostRuntime) {
    let alloc = rt.alloc();
    let empty = OsString::new(alloc);
    let text = OsString::from_text(alloc, "foo").expect(&rt, "memory");
    let word = OsString::from_bytes(alloc, b"foo\xff").expect(&rt, "memory");
    let other = OsString::from_bytes(alloc, b"fop").expect(&rt, "memory");
    let are_other = is_foo(&text, &word) && are_ordered(&empty, &text, &other);
    assert!(rt; are_other && word.without_front(3).as_bytes() == b"\xff".as_slice());
}

// Whether a word of these bytes becomes this text, or stays a word if the text is `None`.
fn becomes(word: OsString, bytes: &[u8], text: Option<&str>) -> bool {
    match word.into_string() {
        Ok(found) => {
            let is_text = Some(found.as_str()) == text;
            OsString::from_string(found).as_bytes() == bytes && is_text
        }
        Err(word) => word.as_bytes() == bytes && text.is_none(),
    }
}

// The same, and whether a view and the word have this text, or no text if it is `None`.
fn has_text(alloc: Global, bytes: &[u8], text: Option<&str>) -> Result<bool, AllocError> {
    let word = OsString::from_bytes(alloc, bytes)?;
    let is_text = OsStr::from_bytes(bytes).to_str() == text && word.to_str() == text;
    Ok(becomes(word, bytes, text) && is_text)
}

static TEXTS: [(&[u8], Option<&str>); 5] = [
    (b"", Some("")),
    (b"\xf0\x9d\x84\x9e", Some("\u{1d11e}")),
    (b"\xef\xbf\xbd", Some("\u{fffd}")),
    (b"foo\xff", None),
    (b"\xed\xa0\x80", None),
];

#[test]
fn texts_of_words(rt: HostRuntime) {
    for (bytes, text) in TEXTS.iter() {
        assert!(rt;
            has_text(rt.alloc(), bytes, *text).expect(&rt, "memory"),
            "{bytes:?}"
        );
    }
}

// Whether these bytes have this quoted form, which `Debug` of words and of views writes too, and
// this visible form.
fn is_printed(
    alloc: Global,
    bytes: &[u8],
    quoted: &str,
    visible: &str,
) -> Result<bool, AllocError> {
    let word = OsString::from_bytes(alloc, bytes)?;
    let view = OsStr::from_bytes(bytes);
    let printed = format!(in alloc;
        "{} {word:?} {view:?} {}",
        Quoted::new(bytes),
        Visible::new(bytes)
    )?;
    Ok(printed == format!(in alloc; "{quoted} {quoted} {quoted} {visible}")?)
}

// The worked examples of `lexopt_laws` have each escape.
static PRINTED: [(&[u8], &str, &str); 3] = [
    (b"", "\"\"", "\"\""),
    (
        b"a\"\\\t\n\r\0\x1b\x01\x7f'\xc2\xb5\xf0\x9d",
        "\"a\\\"\\\\\\t\\n\\r\\0\\u{1b}\\u{1}\\u{7f}'µ\\xF0\\x9D\"",
        "\"a\\\"\\\\\\t\\n\\r\\0\\u{1b}\\u{1}\\u{7f}'µ\\xF0\\x9D\"",
    ),
    (
        b"\xc2\x9b\xe2\x80\xae ",
        "\"\u{9b}\u{202e} \"",
        "\"\\u{9b}\\u{202e} \"",
    ),
];

#[test]
fn printed_bytes(rt: HostRuntime) {
    for (bytes, quoted, visible) in PRINTED.iter() {
        assert!(rt;
            is_printed(rt.alloc(), bytes, quoted, visible).expect(&rt, "memory"),
            "{quoted}"
        );
    }
}

// Whether the copy of an argument is equal to it, and `Debug` writes this text for the copy.
fn is_copied(alloc: Global, argument: &Arg<'_>, text: &str) -> Result<bool, Error> {
    let copy = argument.clone()?;
    Ok(copy == *argument && format!(in alloc; "{copy:?}")?.as_str() == text)
}

#[test]
fn copies_of_arguments(rt: HostRuntime) {
    let alloc = rt.alloc();
    let word = Arg::Value(OsString::from_text(alloc, "foo").expect(&rt, "success"));
    assert!(rt;
        is_copied(alloc, &Arg::Short('a'), "Short('a')").expect(&rt, "success")
            && is_copied(alloc, &Arg::Long("n"), "Long(\"n\")").expect(&rt, "success")
            && is_copied(alloc, &word, "Value(\"foo\")").expect(&rt, "success")
    );
}

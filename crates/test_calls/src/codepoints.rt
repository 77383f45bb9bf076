//! Code points: the first character or damage of some bytes, and the lossy text of bytes.
use lexopt_base::OsString;
use lexopt_words::codepoint::{FirstCodepoint, first_codepoint, lossy_text};
use std::alloc::{AllocError, Global};

// The first character of some bytes, or `None` for damage, and its length in bytes. The length is 0
// if there are no bytes.
fn first(bytes: &[u8]) -> (Option<char>, usize) {
    match first_codepoint(bytes) {
        FirstCodepoint::Empty => (None, 0),
        FirstCodepoint::Character(character, length) => (Some(character), length),
        FirstCodepoint::Damage(length) => (None, length),
    }
}

// Bytes, and what comes first in them.
static PIECES: [(&[u8], Option<char>, usize); 16] = [
    (b"", None, 0),
    (b"a\xffc", Some('a'), 1),
    (b"\xc2\xb5", Some('µ'), 2),
    (b"\xef\xbf\xbd", Some('\u{FFFD}'), 3),
    (b"\xf0\x9d\x84\x9e", Some('\u{1D11E}'), 4),
    (b"\xffc", None, 1),
    (b"\xc2", None, 1),
    (b"\xc2a", None, 1),
    (b"\xf0", None, 1),
    (b"\xf0\x9d", None, 2),
    (b"\xf0\x9d\x84", None, 3),
    (b"\xf0\x9da", None, 2),
    (b"\xf0\x9d\x84a", None, 3),
    (b"\xed\xa0\x80", None, 1),
    (b"\xa0\x80", None, 1),
    (b"\x80", None, 1),
];

#[test]
fn first_pieces(rt: HostRuntime) {
    for (bytes, character, length) in PIECES.iter() {
        assert!(rt; first(bytes) == (*character, *length), "{bytes:?}");
    }
}

// Whether each call that makes a lossy text replaces each damaged piece.
fn is_lossy(alloc: Global) -> Result<bool, AllocError> {
    let word = OsString::from_bytes(alloc, b"\xf0\x9d\x84a\xffc")?;
    let text = "\u{FFFD}a\u{FFFD}c";
    Ok(
        lossy_text(alloc, word.as_bytes())?.as_str() == text
            && word.to_string_lossy(alloc)?.as_str() == text
            && word.as_os_str().to_string_lossy(alloc)?.as_str() == text,
    )
}

#[test]
fn lossy_texts(rt: HostRuntime) {
    assert!(rt; is_lossy(rt.alloc()).expect(&rt, "success"));
}

//! The pieces of bytes, by table 3-7 of the Unicode Standard, and bytes in quotes.
use std::alloc::{AllocError, Global};

// The rows of the table: the least and the greatest value of each byte of a character.
static ROWS: [&[(u8, u8)]; 9] = [
    &[(0x00, 0x7F)],
    &[(0xC2, 0xDF), (0x80, 0xBF)],
    &[(0xE0, 0xE0), (0xA0, 0xBF), (0x80, 0xBF)],
    &[(0xE1, 0xEC), (0x80, 0xBF), (0x80, 0xBF)],
    &[(0xED, 0xED), (0x80, 0x9F), (0x80, 0xBF)],
    &[(0xEE, 0xEF), (0x80, 0xBF), (0x80, 0xBF)],
    &[(0xF0, 0xF0), (0x90, 0xBF), (0x80, 0xBF), (0x80, 0xBF)],
    &[(0xF1, 0xF3), (0x80, 0xBF), (0x80, 0xBF), (0x80, 0xBF)],
    &[(0xF4, 0xF4), (0x80, 0x8F), (0x80, 0xBF), (0x80, 0xBF)],
];

/// The first piece of some bytes: its character, or `None` if it is damage; its bytes; and the
/// bytes after it.
#[derive(Clone, Copy)]
pub struct Piece<'a> {
    pub character: Option<char>,
    pub bytes: &'a [u8],
    pub rest: &'a [u8],
}

impl Piece<'_> {
    /// The character, or U+FFFD for damage.
    pub fn shown(self) -> char {
        self.character.unwrap_or('\u{FFFD}')
    }
}

// How many of the first bytes are in the ranges of this row.
fn fitting(row: &[(u8, u8)], bytes: &[u8]) -> usize {
    let mut count = 0usize;
    for (range, byte) in row.iter().zip(bytes) {
        if *byte < range.0 || range.1 < *byte {
            break;
        }
        count = count.saturating_add(1);
    }
    count
}

// The number of the character with these bytes: 7, 5, 4 or 3 bits of the first byte, and 6 bits of
// each other byte.
fn code(sequence: &[u8]) -> u32 {
    let mut code = 0u32;
    for byte in sequence {
        let bits = match byte {
            0x00..=0x7F => *byte,
            0x80..=0xBF => *byte & 0x3F,
            0xC0..=0xDF => *byte & 0x1F,
            0xE0..=0xEF => *byte & 0x0F,
            0xF0..=0xFF => *byte & 0x07,
        };
        code = code << 6 | u32::from(bits);
    }
    code
}

// A piece of the first `count` bytes, a character or damage.
fn piece_of(bytes: &[u8], count: usize, is_character: bool) -> Piece<'_> {
    let (front, rest) = bytes.split_at(count.min(bytes.len()));
    let character = if is_character {
        char::from_u32(code(front))
    } else {
        None
    };
    Piece {
        character,
        bytes: front,
        rest,
    }
}

/// The first piece, if there is a byte: a character of the table, or otherwise the longest prefix
/// of one, or otherwise one byte.
pub fn first_piece(bytes: &[u8]) -> Option<Piece<'_>> {
    if bytes.is_empty() {
        return None;
    }
    let mut longest = 1;
    for row in ROWS.iter() {
        let count = fitting(row, bytes);
        if count == row.len() {
            return Some(piece_of(bytes, count, true));
        }
        longest = longest.max(count);
    }
    Some(piece_of(bytes, longest, false))
}

/// The lossy text of bytes: each damaged piece is one U+FFFD.
pub fn lossy(alloc: Global, bytes: &[u8]) -> Result<String, AllocError> {
    let mut text = String::new(alloc);
    let mut rest = bytes;
    for _ in 0..bytes.len() {
        let Some(piece) = first_piece(rest) else {
            break;
        };
        text.push(piece.shown())?;
        rest = piece.rest;
    }
    Ok(text)
}

/// Adds the bytes in quotes.
pub fn push_quoted(text: &mut String, bytes: &[u8]) -> Result<(), AllocError> {
    text.push('"')?;
    let mut rest = bytes;
    for _ in 0..bytes.len() {
        let Some(piece) = first_piece(rest) else {
            break;
        };
        match piece.character {
            Some(character) => push_escaped(text, character)?,
            None => push_damage(text, piece.bytes)?,
        }
        rest = piece.rest;
    }
    text.push('"')
}

// Adds a character inside quotes.
fn push_escaped(text: &mut String, character: char) -> Result<(), AllocError> {
    let escaped = match character {
        '"' => "\\\"",
        '\\' => "\\\\",
        '\t' => "\\t",
        '\n' => "\\n",
        '\r' => "\\r",
        '\0' => "\\0",
        '\x01'..='\x1F' | '\x7F' => {
            let code = u32::from(character);
            return write!(text, "\\u{{{code:x}}}");
        }
        _ => return text.push(character),
    };
    text.push_str(escaped)
}

// Adds the bytes of a damaged piece inside quotes.
fn push_damage(text: &mut String, bytes: &[u8]) -> Result<(), AllocError> {
    for byte in bytes {
        write!(text, "\\x{byte:02X}")?;
    }
    Ok(())
}

//! Bytes in double quotes, as messages show them.
ghost use Rattle.std.specs.Prelude.{◌≡◌, ℕ, List, Some, IfSome, encode_utf8};
ghost use Rattle.std.specs.List.{flat_map};
ghost use Rattle.std.specs.Fmt.{WritesOnOk};
ghost use Rattle.lexopt_spec.specs.Pieces.{pieces};
ghost use Rattle.lexopt_spec.specs.Text as spec;
ghost use Rattle.lexopt_spec.specs.Text.{byte_escape, escape, in_quotes, piece_as};
ghost use Rattle.lexopt_spec.specs.Text.{quoted_character, visible_character};
ghost use Rattle.lexopt_words.specs.Codepoint.{character_of};
ghost use Rattle.lexopt_words.specs.Forms.{form_of};

use crate::codepoint::{FirstCodepoint, first_codepoint};
use std::fmt;
use std::marker::Model;

/// Prints bytes in double quotes, as the messages of the parser show words.
///
/// A double quote, a backslash, each ASCII control character and each byte of damage are escaped.
/// Every other character is printed as it is, even one that a terminal may act on, such as U+0085,
/// U+009B and U+2028. [`Visible`] escapes these too.
///
/// # Examples
///
/// ```rust
/// // The bytes `66 6F 6F FF` print as `"foo\xFF"`.
/// let word = parser.value()?;
/// let file = Quoted::new(word.as_bytes());
/// let _ = eprintln!(rt; "file: {file}");
/// ```
#[derive(Drop)]
pub struct Quoted<'a> {
    bytes: &'a [u8],
}

impl<'a> Model for Quoted<'a> {
    ghost Value = { List ℕ };

    ghost view = { λ q. q.bytes.now };
}

impl<'a> Quoted<'a> {
    /// Borrows bytes to print.
    pub fn new(bytes: &'a [u8]) -> Quoted<'a>
        ensures { result ≡ bytes.entry.now }
    {
        Quoted { bytes }
    }
}

impl fmt::Display for Quoted<'_> {
    ghost use Rattle.lexopt_spec.specs.Text.{quoted};

    ghost output = { λ q. Some (quoted q) };

    fn fmt<W: fmt::Write>(&self, f: &mut fmt::Formatter<W>) -> fmt::Result {
        write_in_quotes(Form::Quoted, self.bytes, f)
    }
}

/// Prints bytes in double quotes, as [`Quoted`] does, and also escapes every other character that a
/// terminal may act on.
///
/// These are the controls past ASCII, U+0080 to U+009F; the bidirectional controls, such as U+202E,
/// which change the order in which a line is shown; and the separators of lines and paragraphs,
/// U+2028 and U+2029. Messages of declared options and commands show words so.
///
/// # Examples
///
/// ```rust
/// // The bytes `61 C2 9B E2 80 AE` print as `"a\u{9b}\u{202e}"`.
/// let word = parser.value()?;
/// let file = Visible::new(word.as_bytes());
/// let _ = eprintln!(rt; "file: {file}");
/// ```
#[derive(Drop)]
pub struct Visible<'a> {
    bytes: &'a [u8],
}

impl<'a> Model for Visible<'a> {
    ghost Value = { List ℕ };

    ghost view = { λ v. v.bytes.now };
}

impl<'a> Visible<'a> {
    /// Borrows bytes to print.
    pub fn new(bytes: &'a [u8]) -> Visible<'a>
        ensures { result ≡ bytes.entry.now }
    {
        Visible { bytes }
    }
}

impl fmt::Display for Visible<'_> {
    ghost use Rattle.lexopt_spec.specs.Text.{visible};

    ghost output = { λ v. Some (visible v) };

    fn fmt<W: fmt::Write>(&self, f: &mut fmt::Formatter<W>) -> fmt::Result {
        write_in_quotes(Form::Visible, self.bytes, f)
    }
}

// How a character is shown.
#[derive(Clone, Copy)]
enum Form {
    // In its quoted form.
    Quoted,
    // In its visible form.
    Visible,
}

// Writes bytes between double quotes.
fn write_in_quotes<W: fmt::Write>(
    form: Form,
    bytes: &[u8],
    f: &mut fmt::Formatter<W>,
) -> fmt::Result
    ensures { WritesOnOk W.write_str_gives f.old result (in_quotes (form_of form) bytes.now)
        f.new }
{
    f.write_str("\"")?;
    write_pieces(form, bytes, f)?;
    f.write_str("\"")
}

// Writes each piece of the bytes, escaped.
fn write_pieces<W: fmt::Write>(form: Form, bytes: &[u8], f: &mut fmt::Formatter<W>) -> fmt::Result
    ensures { WritesOnOk W.write_str_gives f.old result
        (flat_map (λ p. piece_as (form_of form) p.bytes p.char) (pieces bytes.now)) f.new }
{
    let mut rest = bytes;
    while !rest.is_empty() {
        let piece = first_codepoint(rest);
        let (front, others) = rest.split_at(piece.size());
        write_piece(form, piece, front, f)?;
        rest = others;
    }
    Ok(())
}

// Writes a piece, which has these bytes, escaped.
fn write_piece<W: fmt::Write>(
    form: Form,
    piece: FirstCodepoint,
    bytes: &[u8],
    f: &mut fmt::Formatter<W>,
) -> fmt::Result
    requires { IfSome (character_of piece) (λ c. bytes.now ≡ encode_utf8 c) }
    ensures { WritesOnOk W.write_str_gives f.old result
        (piece_as (form_of form) bytes.now (character_of piece)) f.new }
{
    match piece {
        FirstCodepoint::Character(character, _) => write_character(form, character, f),
        FirstCodepoint::Empty | FirstCodepoint::Damage(_) => write_damage(bytes, f),
    }
}

// Writes a character in this form.
fn write_character<W: fmt::Write>(
    form: Form,
    character: char,
    f: &mut fmt::Formatter<W>,
) -> fmt::Result
    ensures { WritesOnOk W.write_str_gives f.old result
        (form_of form character (encode_utf8 character)) f.new }
{
    match form {
        Form::Quoted => write_quoted(character, f),
        Form::Visible => write_visible(character, f),
    }
}

// Writes a character, escaped if it is a double quote, a backslash or an ASCII control character.
fn write_quoted<W: fmt::Write>(character: char, f: &mut fmt::Formatter<W>) -> fmt::Result
    ensures { WritesOnOk W.write_str_gives f.old result
        (quoted_character character (encode_utf8 character)) f.new }
{
    match character {
        '"' => f.write_str("\\\""),
        '\\' => f.write_str("\\\\"),
        '\0'..='\x1f' | '\x7f' => write_escape(character, f),
        _ => f.write_char(character),
    }
}

// Writes a character, escaped if a terminal may act on it, or if it is a double quote or a
// backslash.
fn write_visible<W: fmt::Write>(character: char, f: &mut fmt::Formatter<W>) -> fmt::Result
    ensures { WritesOnOk W.write_str_gives f.old result
        (visible_character character (encode_utf8 character)) f.new }
{
    if may_act(character) {
        write_escape(character, f)
    } else {
        write_quoted(character, f)
    }
}

// Whether a terminal may act on this character: a control, a bidirectional control, or a separator
// of lines or paragraphs.
pub(crate) fn may_act(character: char) -> bool
    ensures { result ≡ spec.may_act character }
{
    matches!(
        character,
        '\0'..='\x1f'
            | '\x7f'..='\u{9f}'
            | '\u{61c}'
            | '\u{200e}'..='\u{200f}'
            | '\u{2028}'..='\u{202e}'
            | '\u{2066}'..='\u{2069}'
    )
}

// Writes the escape of a character that a terminal may act on.
pub(crate) fn write_escape<W: fmt::Write>(character: char, f: &mut fmt::Formatter<W>) -> fmt::Result
    ensures { WritesOnOk W.write_str_gives f.old result (escape character) f.new }
{
    match character {
        '\t' => f.write_str("\\t"),
        '\n' => f.write_str("\\n"),
        '\r' => f.write_str("\\r"),
        '\0' => f.write_str("\\0"),
        _ => {
            let code = u32::from(character);
            write!(f, "\\u{{{code:x}}}")
        }
    }
}

// Writes each byte of damage as `\xHH`.
fn write_damage<W: fmt::Write>(piece: &[u8], f: &mut fmt::Formatter<W>) -> fmt::Result
    ensures { WritesOnOk W.write_str_gives f.old result (flat_map byte_escape piece.now) f.new }
{
    for byte in piece {
        write!(f, "\\x{byte:02X}")?;
    }
    Ok(())
}

//! What messages and completions show of a declaration: names and placeholders with nothing in them
//! that a terminal may act on, where the help is, and help texts on one line.
ghost use Rattle.std.specs.Prelude.{◌≡◌, ◌++◌, OnOk, string_bytes};
ghost use Rattle.std.specs.Fmt.{WritesOnOk};
ghost use Rattle.std.specs.List.{flat_map};
ghost use Rattle.std.specs.Str.{chars};
ghost use Rattle.lexopt_options_spec.specs.Help.{escaped_text};
ghost use Rattle.lexopt_declaration.specs.Texts.{help_line, on_one_line};

use crate::declaration::Names;
use lexopt_words::message::write_escaped;
use std::alloc::AllocError;
use std::fmt;

// Writes each character of a text.
fn write_characters<W: fmt::Write>(text: &str, f: &mut fmt::Formatter<W>) -> fmt::Result
    ensures { WritesOnOk W.write_str_gives f.old result (escaped_text text.now) f.new }
{
    for character in text.chars() {
        write_escaped(character, f)?;
    }
    Ok(())
}

/// A name or a placeholder, as messages show it. `Display` escapes each character that a terminal
/// may act on, as `Visible` of `lexopt_words` does, and writes any other as it is.
#[derive(Clone, Copy)]
pub struct Escaped<'a>(pub &'a str);

impl fmt::Display for Escaped<'_> {
    ghost use Rattle.std.specs.Prelude.{Some};
    ghost use Rattle.lexopt_options_spec.specs.Help.{escaped_text};

    ghost output = { λ text. Some (escaped_text text.0.now) };

    fn fmt<W: fmt::Write>(&self, f: &mut fmt::Formatter<W>) -> fmt::Result {
        write_characters(self.0, f)
    }
}

/// Writes a line feed, and where the help is, if an option for it is declared.
pub fn write_help<W: fmt::Write>(
    program: &str,
    help: Option<Names<'_>>,
    f: &mut fmt::Formatter<W>,
) -> fmt::Result
    ensures { WritesOnOk W.write_str_gives f.old result (help_line program.now help.entry) f.new }
{
    match help {
        Some(names) => write!(f, "\nTry '{program} {names}' for more information."),
        None => Ok(()),
    }
}

// Adds a character of a help text; a blank for a control character of ASCII, so that the text stays
// on one line.
fn push_on_one_line(text: &mut String, character: char) -> Result<(), AllocError>
    ensures { OnOk result
        (string_bytes text.new ≡ string_bytes text.old ++ on_one_line character) }
{
    match character {
        '\0'..='\x1f' | '\x7f' => text.push(' '),
        _ => text.push(character),
    }
}

/// Adds a help text to `text`, on one line: with a blank for each control character of ASCII.
///
/// # Errors
///
/// Returns `AllocError` if an allocation fails.
pub fn push_help(text: &mut String, help: &str) -> Result<(), AllocError>
    ensures { OnOk result (string_bytes text.new
        ≡ string_bytes text.old ++ flat_map on_one_line (chars help.now)) }
{
    for character in help.chars() {
        push_on_one_line(text, character)?;
    }
    Ok(())
}

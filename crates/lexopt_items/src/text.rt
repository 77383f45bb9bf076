//! Writes items as text. The crate `lexopt` does not re-export this.
ghost use Rattle.std.specs.Prelude.{codes, string_bytes};
ghost use Rattle.std.specs.Fmt.{WritesOnOk};
ghost use Rattle.std.specs.List.{join_by};
ghost use Rattle.lexopt_spec.specs.Text.{quoted};
ghost use Rattle.lexopt_line_spec.specs.Table.{long, positional, short};
ghost use Rattle.lexopt_line_spec.specs.ItemText.{bracketed, item_text, name_text};

use lexopt_words::os_string::{OsString, Quoted};
use std::fmt;

/// Writes a short option: `Short "o"`.
pub fn write_short<W: fmt::Write>(option: char, f: &mut fmt::Formatter<W>) -> fmt::Result
    ensures { WritesOnOk W.write_str_gives f.old result (name_text (short option)) f.new }
{
    let mut buffer = [0u8; 4];
    let option = Quoted::new(option.encode_utf8(&mut buffer).as_bytes());
    write!(f, "Short {option}")
}

/// Writes a long option: `Long "out"`.
pub fn write_long<W: fmt::Write>(name: &String, f: &mut fmt::Formatter<W>) -> fmt::Result
    ensures { WritesOnOk W.write_str_gives f.old result (name_text (long (string_bytes name.now)))
        f.new }
{
    let name = Quoted::new(name.as_bytes());
    write!(f, "Long {name}")
}

/// Writes a positional: `Value "file"`.
pub fn write_positional<W: fmt::Write>(word: &OsString, f: &mut fmt::Formatter<W>) -> fmt::Result
    ensures { WritesOnOk W.write_str_gives f.old result (item_text (positional word.now)) f.new }
{
    let word = Quoted::new(word.as_bytes());
    write!(f, "Value {word}")
}

/// Writes words in brackets: `["a", "b"]`.
pub fn write_list<W: fmt::Write>(words: &[OsString], f: &mut fmt::Formatter<W>) -> fmt::Result
    ensures { WritesOnOk W.write_str_gives f.old result (bracketed quoted words.now) f.new }
{
    f.write_str("[")?;
    write_words(words, f)?;
    f.write_str("]")
}

// Writes the quoted forms of these words, with a comma and a space between them.
fn write_words<W: fmt::Write>(words: &[OsString], f: &mut fmt::Formatter<W>) -> fmt::Result
    ensures { WritesOnOk W.write_str_gives f.old result (join_by quoted (codes ", ") words.now)
        f.new }
{
    let Some((first, others)) = words.split_first() else {
        return Ok(());
    };
    write_word(first, f)?;
    for word in others {
        f.write_str(", ")?;
        write_word(word, f)?;
    }
    Ok(())
}

/// Writes the quoted form of a word.
pub fn write_word<W: fmt::Write>(word: &OsString, f: &mut fmt::Formatter<W>) -> fmt::Result
    ensures { WritesOnOk W.write_str_gives f.old result (quoted word.now) f.new }
{
    let word = Quoted::new(word.as_bytes());
    write!(f, "{word}")
}

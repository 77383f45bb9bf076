//! The messages that more than one type prints. The crate `lexopt` does not re-export them.
ghost use Rattle.std.specs.Prelude.{None, Some, option_map};
ghost use Rattle.std.specs.Fmt.{WritesOnOk};
ghost use Rattle.lexopt_spec.specs.Text.{escaped, missing_message, no_memory_message};
ghost use Rattle.lexopt_spec.specs.Text.{unexpected_value_message};

use crate::os_string::{OsString, Quoted};
use crate::quoted::{may_act, write_escape};
use std::fmt;

/// Writes the message for a missing value, of this option if there is one.
pub fn write_missing_value<W: fmt::Write>(
    option: Option<&str>,
    f: &mut fmt::Formatter<W>,
) -> fmt::Result
    ensures { WritesOnOk W.write_str_gives f.old result
        (missing_message (option_map (λ text. text.now) option.entry)) f.new }
{
    match option {
        None => f.write_str("missing argument"),
        Some(option) => write!(f, "missing argument for option '{option}'"),
    }
}

/// Writes the message for a value that the option does not take.
pub fn write_unexpected_value<W: fmt::Write>(
    option: &str,
    value: &OsString,
    f: &mut fmt::Formatter<W>,
) -> fmt::Result
    ensures { WritesOnOk W.write_str_gives f.old result
        (unexpected_value_message option.now value.now) f.new }
{
    let value = Quoted::new(value.as_bytes());
    write!(f, "unexpected argument for option '{option}': {value}")
}

/// Writes a character of a name or a placeholder: escaped if a terminal may act on it, and
/// otherwise as it is.
pub fn write_escaped<W: fmt::Write>(character: char, f: &mut fmt::Formatter<W>) -> fmt::Result
    ensures { WritesOnOk W.write_str_gives f.old result (escaped character) f.new }
{
    if may_act(character) {
        write_escape(character, f)
    } else {
        f.write_char(character)
    }
}

/// Writes the message for an allocation that failed.
pub fn write_no_memory<W: fmt::Write>(f: &mut fmt::Formatter<W>) -> fmt::Result
    ensures { WritesOnOk W.write_str_gives f.old result no_memory_message f.new }
{
    f.write_str("out of memory")
}

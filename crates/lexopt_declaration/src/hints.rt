//! Prints the names that may have been meant by a mistyped one. `nearest.rt` finds them.
ghost use Rattle.std.specs.Prelude.{◌++◌, codes, map};
ghost use Rattle.std.specs.Fmt.{WritesOnOk};
ghost use Rattle.std.specs.List.{flat_map};
ghost use Rattle.lexopt_options_spec.specs.Help.{list_text};
ghost use Rattle.lexopt_declaration.specs.Texts.{hint_text, name_in_quotes};

use crate::message::Escaped;
use std::fmt;

// Writes names in quotes, each after a comma and a blank, and with `dashes` before it.
fn write_others<W: fmt::Write>(
    dashes: &str,
    others: &[&str],
    f: &mut fmt::Formatter<W>,
) -> fmt::Result
    ensures { WritesOnOk W.write_str_gives f.old result (flat_map (λ other. codes ", " ++ other)
        (map (λ other. name_in_quotes dashes.now other.now) others.now)) f.new }
{
    for other in others {
        let other = Escaped(other);
        write!(f, ", '{dashes}{other}'")?;
    }
    Ok(())
}

// Writes names in quotes, with a comma and a blank between them, and with `dashes` before each.
fn write_names<W: fmt::Write>(
    dashes: &str,
    names: &[&str],
    f: &mut fmt::Formatter<W>,
) -> fmt::Result
    ensures { WritesOnOk W.write_str_gives f.old result
        (list_text (map (λ name. name_in_quotes dashes.now name.now) names.now)) f.new }
{
    match names {
        [first, others @ ..] => {
            let first = Escaped(first);
            write!(f, "'{dashes}{first}'")?;
            write_others(dashes, others, f)
        }
        [] => Ok(()),
    }
}

/// Writes the end of a message: the names that may have been meant, if there are any, with `dashes`
/// before each.
pub fn write_hints<W: fmt::Write>(
    dashes: &str,
    names: &[&str],
    f: &mut fmt::Formatter<W>,
) -> fmt::Result
    ensures { WritesOnOk W.write_str_gives f.old result
        (hint_text dashes.now (map (λ name. name.now) names.now)) f.new }
{
    match names {
        [] => Ok(()),
        [name] => {
            let name = Escaped(name);
            write!(f, "; did you mean '{dashes}{name}'?")
        }
        _ => {
            f.write_str("; did you mean one of ")?;
            write_names(dashes, names, f)?;
            f.write_str("?")
        }
    }
}

//! Prints the values in a list. The file of this name in `lexopt_options` checks values by a list.
ghost use Rattle.std.specs.Prelude.{◌++◌, codes, map};
ghost use Rattle.std.specs.Fmt.{WritesOnOk};
ghost use Rattle.std.specs.List.{flat_map};
ghost use Rattle.lexopt_options_spec.specs.Help.{escaped_text};

use crate::message::Escaped;
use std::fmt;

/// The values in a list. `Display` writes them with a comma and a blank between them, and escapes
/// each character that a terminal may act on.
#[derive(Clone, Copy)]
pub struct Listed<'a>(pub &'a [&'a str]);

impl fmt::Display for Listed<'_> {
    ghost use Rattle.std.specs.Prelude.{Some, map};
    ghost use Rattle.lexopt_options_spec.specs.Help.{escaped_text, list_text};

    ghost output = { λ listed. Some (list_text
        (map (λ value. escaped_text value.now) listed.0.now)) };

    fn fmt<W: fmt::Write>(&self, f: &mut fmt::Formatter<W>) -> fmt::Result {
        match self.0 {
            [first, others @ ..] => {
                let first = Escaped(first);
                write!(f, "{first}")?;
                write_others(others, f)
            }
            [] => Ok(()),
        }
    }
}

// Writes values, each after a comma and a blank.
fn write_others<W: fmt::Write>(others: &[&str], f: &mut fmt::Formatter<W>) -> fmt::Result
    ensures { WritesOnOk W.write_str_gives f.old result
        (flat_map (λ other. codes ", " ++ other) (map (λ other. escaped_text other.now) others.now))
        f.new }
{
    for other in others {
        let other = Escaped(other);
        write!(f, ", {other}")?;
    }
    Ok(())
}

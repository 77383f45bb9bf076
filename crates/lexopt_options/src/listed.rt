//! Which values an option accepts. The file of this name in `lexopt_declaration` prints a list.
ghost use Rattle.std.specs.Prelude.{◌≡◌, ◌==◌, false, map, not, position};
ghost use Rattle.std.specs.Cmp.Lexicographic.{pointwise};
ghost use Rattle.std.specs.List.{list_any};
ghost use Rattle.lexopt_options_spec.specs.Completion.{list_of};
ghost use Rattle.lexopt_options_spec.specs.Declaration as spec;
ghost use Rattle.lexopt_declaration.specs.Models.{words_view};
ghost use Rattle.lexopt_options.specs.Reading.{IsInvalidValue};

use crate::mistake::Mistake;
use lexopt_declaration::declaration::{Declared, Words};
use lexopt_words::os_string::OsString;

/// Whether a value is in this list. It is not inlined, since few options have a list.
#[inline(never)]
pub fn is_listed(values: &[&str], value: &[u8]) -> bool
    ensures { result
        ≡ list_any (λ own. pointwise ◌==◌ own.now value.now) values.now }
{
    values.iter().any(|own| own.as_bytes() == value)
}

/// Whether a value is accepted: whether it is in the list, if there is one.
pub fn accepts(words: Words<'_>, value: &OsString) -> bool
    ensures { result ≡ spec.accepts (words_view words.entry) value.now }
{
    match words {
        Words::Listed(values) => is_listed(values, value.as_bytes()),
        Words::Files | Words::Directories | Words::Text => true,
    }
}

/// The index of the first of these values that is not accepted.
pub fn refused_place(words: Words<'_>, values: &[OsString]) -> Option<usize>
    ensures { result
        ≡ position (λ value. not (spec.accepts (words_view words.entry) value)) values.now }
{
    match words {
        Words::Listed(_) => values.iter().position(|value| !accepts(words, value)),
        Words::Files | Words::Directories | Words::Text => None,
    }
}

// The values of a list; none if there is no list.
fn list_of(words: Words<'_>) -> &[&str]
    ensures { map (λ own. own.now) result.now ≡ list_of (words_view words.entry) }
{
    match words {
        Words::Listed(values) => values,
        Words::Files | Words::Directories | Words::Text => &[],
    }
}

/// The mistake that a value is not in the list of an option.
#[tactic(auto, using(crate::proofs::Accepted::refused_list))]
pub fn invalid_value<'a, F, V, M, S>(
    option: &'a Declared<'a, F, V, M, S>,
    value: OsString,
) -> Mistake<'a>
    requires { spec.accepts (words_view option.now.words) value ≡ false }
    ensures { IsInvalidValue option.now value result }
{
    Mistake::InvalidValue {
        option: option.names,
        value,
        values: list_of(option.words),
    }
}

//! Finds an option by its name, and the names of the option at an index.
ghost use Rattle.std.specs.Prelude.{◌≡◌, ◌==◌, map, option_map, position};
ghost use Rattle.std.specs.Cmp.Lexicographic.{pointwise};
ghost use Rattle.std.specs.List.{list_any};
ghost use Rattle.lexopt_line_spec.specs.Table as table;
ghost use Rattle.lexopt_options_spec.specs.Declaration.{has_name, index_of, is_one_of, negated};
ghost use Rattle.lexopt_options_spec.specs.Legal.{are_same};
ghost use Rattle.lexopt_declaration.specs.Models.{names_list, option_view};
ghost use Rattle.lexopt_declaration.specs.Lookups.{has_alias, help_names, is_help, names_at};

use crate::declaration::{Declared, Kind, Names};

/// Returns whether a further name of this option is one of these.
pub fn has_alias<F, V, M, S>(option: &Declared<'_, F, V, M, S>, names: Names<'_>) -> bool
    ensures { result ≡ has_alias names.entry option.now }
{
    option.aliases.iter().any(|alias| names.shares(*alias))
}

/// Returns whether the option has this character, as its own or as a further name.
pub fn has_short<F, V, M, S>(option: &Declared<'_, F, V, M, S>, character: char) -> bool
    ensures { result ≡ has_name (table.short character) (option_view option.now) }
{
    option.names.is_short(character) || has_alias(option, Names::Short(character))
}

// Whether the option has this long name, as its own or as a further one.
fn has_long<F, V, M, S>(option: &Declared<'_, F, V, M, S>, name: &str) -> bool
    ensures { result ≡ has_name (table.long name.now) (option_view option.now) }
{
    option.names.is_long(name) || has_alias(option, Names::Long(name))
}

// Whether a long name is the negation of the other: `no-`, and then that.
fn is_negation(own: &str, name: &str) -> bool
    ensures { result ≡ pointwise ◌==◌ own.now (negated name.now) }
{
    match own.as_bytes().strip_prefix(b"no-") {
        Some(rest) => rest == name.as_bytes(),
        None => false,
    }
}

// Whether one of these names is the negation of this long name.
fn have_negation(names: Names<'_>, name: &str) -> bool
    ensures { result ≡ is_one_of (names_list names.entry) (table.long (negated name.now)) }
{
    match names {
        Names::Long(own) | Names::Both(_, own) => is_negation(own, name),
        Names::Short(_) => false,
    }
}

// Whether a further name of the option is the negation of this long name.
fn has_negation_alias<F, V, M, S>(option: &Declared<'_, F, V, M, S>, name: &str) -> bool
    ensures { result ≡ list_any (λ a. is_one_of (names_list a) (table.long (negated name.now)))
        option.now.aliases.now }
{
    option
        .aliases
        .iter()
        .any(|alias| have_negation(*alias, name))
}

/// Returns whether the option has the negation of this long name, such as `no-color` for `color`, as
/// its own name or as a further one.
pub fn has_negation<F, V, M, S>(option: &Declared<'_, F, V, M, S>, name: &str) -> bool
    ensures { result ≡ has_name (table.long (negated name.now)) (option_view option.now) }
{
    have_negation(option.names, name) || has_negation_alias(option, name)
}

// The index of the first option with this character.
fn place_of_short<F, V, M, S>(
    options: &[Declared<'_, F, V, M, S>],
    character: char,
) -> Option<usize>
    ensures { result
        ≡ position (λ o. has_name (table.short character) (option_view o)) options.now }
{
    options
        .iter()
        .position(|option| has_short(option, character))
}

// The index of the first option with this long name.
fn place_of_long<F, V, M, S>(options: &[Declared<'_, F, V, M, S>], name: &str) -> Option<usize>
    ensures { result
        ≡ position (λ o. has_name (table.long name.now) (option_view o)) options.now }
{
    options.iter().position(|option| has_long(option, name))
}

/// Returns the index of the option with this character, counted from 0; `None` if there is none.
pub fn index_of_short<F, V, M, S>(
    options: &[Declared<'_, F, V, M, S>],
    character: char,
) -> Option<usize>
    ensures { result ≡ index_of (map option_view options.now) (table.short character) }
{
    place_of_short(options, character)
}

/// Returns the index of the option with this name, counted from 0; `None` if there is none.
pub fn index_of_long<F, V, M, S>(options: &[Declared<'_, F, V, M, S>], name: &str) -> Option<usize>
    ensures { result ≡ index_of (map option_view options.now) (table.long name.now) }
{
    place_of_long(options, name)
}

/// Returns the names of the option at this index.
pub fn names_of<'a, F, V, M, S>(
    options: &'a [Declared<'a, F, V, M, S>],
    index: Option<usize>,
) -> Option<Names<'a>>
    ensures { result ≡ names_at options.now index }
{
    match options.get(index?) {
        Some(option) => Some(option.names),
        None => None,
    }
}

// Whether an option of this kind asks for the help.
fn is_help<F, V, M, S>(kind: &Kind<'_, F, V, M, S>) -> bool
    ensures { result ≡ is_help kind.now }
{
    matches!(kind, Kind::Help)
}

// The index of the first option that asks for the help.
fn place_of_help<F, V, M, S>(options: &[Declared<'_, F, V, M, S>]) -> Option<usize>
    ensures { result ≡ position (λ o. is_help o.kind) options.now }
{
    options.iter().position(|option| is_help(&option.kind))
}

/// Returns the names of the first option that asks for the help; `None` if there is none.
pub fn help_names_of<'a, F, V, M, S>(options: &'a [Declared<'a, F, V, M, S>]) -> Option<Names<'a>>
    ensures { result ≡ help_names options.now }
{
    names_of(options, place_of_help(options))
}

/// Returns whether both are the same text.
pub fn are_same(text: Option<&str>, other: Option<&str>) -> bool
    ensures { result ≡ are_same (option_map (λ own. own.now) text.entry)
        (option_map (λ own. own.now) other.entry) }
{
    match text {
        Some(text) => match other {
            Some(other) => text == other,
            None => false,
        },
        None => false,
    }
}

//! The kind of an option: how many values it has by a table. The crate `lexopt` does not re-export
//! this. `Kind` of `lexopt_line_spec` is the same for contracts, `Kind` of `lexopt_declaration`
//! also has the program's keys, and `WordKind` of `lexopt_words` is the kind of a word.
ghost use Rattle.std.specs.Prelude.{◌≡◌, ◌==◌, [], map, string_bytes};
ghost use Rattle.std.specs.Cmp.Lexicographic.{pointwise};
ghost use Rattle.std.specs.List.{list_any};
ghost use Rattle.lexopt_line_spec.specs.Table as spec;
ghost use Rattle.lexopt_line_spec.specs.Table.{holds_in, kind};
ghost use Rattle.lexopt_items.specs.Items.{kind_view, table_view};

use crate::items::Table;

/// The kind of an option: how many values it has.
#[derive(Clone, Copy)]
pub enum Kind {
    /// No value.
    Flag,
    /// One value, always.
    One,
    /// One value or none.
    Optional,
    /// Several values, at least one.
    Several,
}

/// Returns the kind of a short option by the table.
#[inline(always)]
pub fn kind_of_short(table: &Table, option: char) -> Kind
    ensures { kind_view result ≡ kind (table_view table.now) (spec.short option) }
{
    if table.shorts.contains(&option) {
        Kind::One
    } else if table.optional_shorts.contains(&option) {
        Kind::Optional
    } else if table.several_shorts.contains(&option) {
        Kind::Several
    } else {
        Kind::Flag
    }
}

/// Returns the kind of a long option by the table. The name is without its dashes.
#[inline(always)]
pub fn kind_of_long(table: &Table, name: &str) -> Kind
    ensures { kind_view result ≡ kind (table_view table.now) (spec.long name.now) }
{
    if holds(&table.longs, name) {
        Kind::One
    } else if holds(&table.optional_longs, name) {
        Kind::Optional
    } else if holds(&table.several_longs, name) {
        Kind::Several
    } else {
        Kind::Flag
    }
}

// Returns whether a list has this name. It differs from `any_is` only for the prover's sake: its
// clause is in the words of the grammar.
#[inline(always)]
fn holds(names: &Vec<String>, name: &str) -> bool
    ensures { result ≡ holds_in [] (map string_bytes names.now.items) (spec.long name.now) }
{
    any_is(names, name)
}

// Returns whether one of these names is this one. It is a function of its own for the prover's
// sake.
#[inline(always)]
fn any_is(names: &[String], name: &str) -> bool
    ensures { result ≡ list_any (λ own. pointwise ◌==◌ (string_bytes own) name.now) names.now }
{
    names.iter().any(|own| is_name(own, name))
}

// Returns whether two names are equal. It is a function of its own for the prover's sake.
#[inline(always)]
fn is_name(own: &String, name: &str) -> bool
    ensures { result ≡ pointwise ◌==◌ (string_bytes own.now) name.now }
{
    own.as_str() == name
}

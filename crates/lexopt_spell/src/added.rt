//! The words that one item adds to those of the items before it.
ghost use Rattle.std.specs.Prelude.{◌≡◌, ◌≢◌, ◌⊎◌, ◌↔◌, ℕ, Bool, List, [], Contains, IsTrue, map};
ghost use Rattle.std.specs.Prelude.{string_bytes, true};
ghost use Rattle.std.specs.List.{list_all};
ghost use Rattle.lexopt_spec.specs.UnreadLine as line;
ghost use Rattle.lexopt_line_spec.specs.Table as spec;
ghost use Rattle.lexopt_line_spec.specs.Spelling as how;
ghost use Rattle.lexopt_line_spec.specs.Speller.{ArePositionalThenOption, IsOf, NeedSeparator};
ghost use Rattle.lexopt_line_spec.specs.Speller.{is_positional};
ghost use Rattle.lexopt_items.specs.Items.{item_view, table_view};
ghost use Rattle.lexopt_spell.specs.Models.{AddedIs, AddsWords, FormIs, HasParts, after_view};
ghost use Rattle.lexopt_spell.specs.Models.{form_view, is_plain_item, place_view};

use crate::forms::{
    After, Form, Place, is_plain, long_form, long_many_form, short_form, short_many_form,
};
use crate::spell::Reason;
use crate::words::Word;
use lexopt_items::items::{Item, Table};
use lexopt_items::kinds::{kind_of_long, kind_of_short};
use lexopt_words::os_string::OsString;
use std::slice;

/// The words that an item adds: one word, and more words after it; and the place of the next item.
#[derive(Clone, Copy)]
pub struct Added<'a> {
    pub word: Word<'a>,
    pub words: &'a [OsString],
    pub place: Place,
}

// Returns the words of a short option whose values have this form.
fn short_added(place: Place, option: char, form: Form<'_>) -> Result<Added<'_>, Reason>
    ensures { (t : spec.Table) (short_equals : Bool) (later : List spec.Item) (item : spec.Item)
        → HasParts short_equals later (spec.kind t (spec.short option)) (spec.short option) item
        (form_view form.entry)
        → AddedIs t short_equals later (place_view place) item result }
{
    if let Place::Ended = place {
        return Err(Reason::PastSeparator);
    }
    let word = match place {
        _ if option != '-' => Word::Short(option, form.after),
        Place::InCluster => Word::Dash(form.after),
        _ => return Err(Reason::DashWithoutFlag),
    };
    Ok(Added {
        word,
        words: form.words,
        place: form.place,
    })
}

// Returns whether a long option has a name, or a value after `=`.
fn is_named(name: &String, after: After<'_>) -> bool
    ensures { IsTrue result ↔ ((string_bytes name.now ≢ [])
        ⊎ ((value : List ℕ) × (after_view after.entry ≡ how.joined value))) }
{
    !name.is_empty() || matches!(after, After::Joined(_))
}

// Returns the words of a long option whose values have this form. Its name has no `=`.
fn long_placed<'a>(place: Place, name: &'a String, form: Form<'a>) -> Result<Added<'a>, Reason>
    ensures { (t : spec.Table) (short_equals : Bool) (later : List spec.Item) (item : spec.Item)
        → ¬ Contains (string_bytes name.now) line.equals
        → HasParts short_equals later (spec.kind t (spec.long (string_bytes name.now)))
        (spec.long (string_bytes name.now)) item (form_view form.entry)
        → AddedIs t short_equals later (place_view place) item result }
{
    if !is_named(name, form.after) {
        return Err(Reason::EmptyName);
    }
    if let Place::Ended = place {
        return Err(Reason::PastSeparator);
    }
    Ok(Added {
        word: Word::Long(name, form.after),
        words: form.words,
        place: form.place,
    })
}

// Returns the words of a long option, if its values have a form.
fn long_added<'a>(
    place: Place,
    name: &'a String,
    form: Result<Form<'a>, Reason>,
) -> Result<Added<'a>, Reason>
    ensures { (t : spec.Table) (short_equals : Bool) (later : List spec.Item) (item : spec.Item)
        → IsOf (spec.long (string_bytes name.now)) item
        → FormIs short_equals later (spec.kind t (spec.long (string_bytes name.now)))
        (spec.long (string_bytes name.now)) item form.entry
        → AddedIs t short_equals later (place_view place) item result }
{
    if name.as_bytes().contains(&b'=') {
        return Err(Reason::EqualsInName);
    }
    long_placed(place, name, form?)
}

// Returns whether an item is not an option.
fn is_no_option(item: &Item) -> bool
    ensures { result ≡ is_positional (item_view item.now) }
{
    matches!(item, Item::Positional(_))
}

// Returns whether no item is an option.
fn are_no_options(items: &[Item]) -> bool
    ensures { result ≡ list_all (λ item. is_positional (item_view item)) items.now }
{
    items.iter().all(|item| is_no_option(item))
}

// Returns whether a separator before the first of these items would come before an option too.
//
// It reads up to the first option, and is called only right after an option, so in all it reads
// each item of a line at most once.
fn separator_comes_too_early(items: &[Item]) -> bool
    ensures { IsTrue result ↔ ArePositionalThenOption (map item_view items.now) }
{
    match items {
        [] => false,
        [first, others @ ..] => is_no_option(first) && !are_no_options(others),
    }
}

// Returns whether the only value of a short option of several is joined to it before these items.
fn joins_only_value(short_equals: bool, after: &[Item]) -> bool
    ensures { IsTrue result
        ↔ ((short_equals ≡ true) × ArePositionalThenOption (map item_view after.now)) }
{
    short_equals && separator_comes_too_early(after)
}

// Returns whether an item is an option or a plain positional.
fn is_plain_item(item: &Item) -> bool
    ensures { result ≡ is_plain_item (item_view item.now) }
{
    match item {
        Item::Positional(word) => is_plain(word),
        _ => true,
    }
}

// Returns whether each item is an option or a plain positional.
fn are_plain(items: &[Item]) -> bool
    ensures { result ≡ list_all (λ item. is_plain_item (item_view item)) items.now }
{
    items.iter().all(|item| is_plain_item(item))
}

// Returns whether all these items are positionals, and one of them is not plain.
//
// It reads up to the first option, and is called only at the first of successive positionals, so in
// all it reads each item of a line at most twice.
fn separator_is_due(items: &[Item]) -> bool
    ensures { IsTrue result ↔ NeedSeparator (map item_view items.now) }
{
    are_no_options(items) && !are_plain(items)
}

// Returns the words of a positional that comes before these items. After several values a separator
// keeps it from being one more value.
fn positional_added<'a>(place: Place, word: &'a OsString, after: &[Item]) -> Added<'a>
    ensures { (t : spec.Table) (short_equals : Bool) → AddsWords t short_equals
        (map item_view after.now) (place_view place) (spec.positional word.now) result }
{
    let next = match place {
        Place::Ended => Place::Ended,
        Place::AfterPositional if is_plain(word) => Place::AfterPositional,
        Place::Open | Place::InCluster if is_plain(word) && !separator_is_due(after) => {
            Place::AfterPositional
        }
        _ => {
            return Added {
                word: Word::Separator,
                words: slice::from_ref(word),
                place: Place::Ended,
            };
        }
    };
    Added {
        word: Word::Positional(word),
        words: &[],
        place: next,
    }
}

/// Returns the words that an item adds at this place, before the items `after`.
///
/// # Errors
///
/// The reason, if the item cannot be spelled there.
pub fn adds<'a>(
    place: Place,
    item: &'a Item,
    after: &[Item],
    short_equals: bool,
    table: &Table,
) -> Result<Added<'a>, Reason>
    ensures { AddedIs (table_view table.now) short_equals (map item_view after.now)
        (place_view place) (item_view item.now) result }
{
    match item {
        Item::Short(option, value) => {
            let kind = kind_of_short(table, *option);
            short_added(place, *option, short_form(short_equals, kind, value)?)
        }
        Item::ShortMany(option, values) => {
            let kind = kind_of_short(table, *option);
            let joins = joins_only_value(short_equals, after);
            short_added(place, *option, short_many_form(joins, kind, values)?)
        }
        Item::Long(name, value) => {
            let kind = kind_of_long(table, name);
            long_added(place, name, long_form(kind, value))
        }
        Item::LongMany(name, values) => {
            let kind = kind_of_long(table, name);
            long_added(place, name, long_many_form(kind, values))
        }
        Item::Positional(word) => Ok(positional_added(place, word, after)),
    }
}

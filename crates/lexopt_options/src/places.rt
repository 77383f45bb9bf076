//! Which positional each word of a line belongs to, and its key.
ghost use Rattle.std.specs.Prelude.{◌≡◌, ◌≤◌, ◌<◌, ◌-◌, ℕ, List, Some, filter, length, map};
ghost use Rattle.std.specs.Prelude.{slice_get, true};
ghost use Rattle.lexopt_options_spec.specs.Legal as legal;
ghost use Rattle.lexopt_options_spec.specs.Places as spec;
ghost use Rattle.lexopt_options_spec.specs.Places.{ArePlaces, extra, greedy, least, owners};
ghost use Rattle.lexopt_declaration.specs.Models.{count_view, positional_view};
ghost use Rattle.lexopt_declaration.specs.declared.declaration.Declared.{Declared};
ghost use Rattle.lexopt_options.specs.Keys as keys;
ghost use Rattle.lexopt_options.specs.Keys.{AreParsedAs, CanHaveKeys, HasKey, HaveKeys};
ghost use Rattle.lexopt_options.specs.Keys.{IsGiven, IsSame};

use crate::parsed::Parsed;
use lexopt_declaration::declaration::{Count, Positional};
use lexopt_declaration::positionals::least_of;

// The least number of words that belong to a positional.
fn needs(count: Count) -> usize
    ensures { result ≡ spec.needs (count_view count) }
{
    match count {
        Count::Once | Count::AtLeastOnce => 1,
        Count::AtMostOnce | Count::AnyNumber => 0,
    }
}

// How many more words belong to it, where `spare` words are left that no positional needs.
fn extra(count: Count, spare: usize) -> usize
    ensures { result ≡ extra (count_view count) spare }
{
    match count {
        Count::Once => 0,
        Count::AtMostOnce => spare.min(1),
        Count::AnyNumber | Count::AtLeastOnce => spare,
    }
}

/// The index of the positional that the word at this index belongs to, counted from 0, where there
/// are `spare` more words than are required; `None` if there is no such word.
pub fn place_of<P>(positionals: &[Positional<'_, P>], spare: usize, word: usize) -> Option<usize>
    ensures { result ≡ slice_get (owners 0 (greedy (map positional_view positionals.now) spare)) word }
{
    let mut spare = spare;
    let mut left = word;
    for (index, positional) in positionals.iter().enumerate() {
        let needed = needs(positional.count);
        if left < needed {
            return Some(index);
        }
        left -= needed;
        let more = extra(positional.count, spare);
        if left < more {
            return Some(index);
        }
        left -= more;
        spare -= more;
    }
    None
}

/// How many of `count` words are not required.
pub fn spare_of<P>(positionals: &[Positional<'_, P>], count: usize) -> usize
    ensures { result ≡ count - least (map positional_view positionals.now) }
{
    count.saturating_sub(least_of(positionals))
}

// The key of the positional that the word at this index belongs to, counted from 0, where there are
// `spare` more words than are required.
fn key_of<P: Copy>(positionals: &[Positional<'_, P>], spare: usize, word: usize) -> Option<P>
    ensures { (places : List ℕ) (count : ℕ)
        → ArePlaces (map positional_view positionals.now) count places
        → spare ≡ count - least (map positional_view positionals.now) → word < count
        → (key : P) × (i : ℕ) × (result ≡ Some key)
        × (slice_get places word ≡ Some i) × HasKey positionals.now i key }
{
    match place_of(positionals, spare, word) {
        Some(index) => match positionals.get(index) {
            Some(positional) => Some(positional.key),
            None => None,
        },
        None => None,
    }
}

/// How many positionals are among these.
pub fn count_of<F, V, P, M, S>(parsed: &[Parsed<F, V, P, M, S>]) -> usize
    ensures { result ≡ length (filter (λ own. keys.is_positional own) parsed.now) }
{
    parsed
        .iter()
        .filter(|own| matches!(own, Parsed::Positional(_, _)))
        .count()
}

// Gives a positional the key of the declared one that it belongs to: that of the word at this
// index, counted from 0, where there are `spare` more words than are required. Returns whether it
// is a positional.
fn give_key<F, V, P: Copy, M, S>(
    positionals: &[Positional<'_, P>],
    spare: usize,
    word: usize,
    own: &mut Parsed<F, V, P, M, S>,
) -> bool
    ensures kind { result ≡ keys.is_positional own.old }
    ensures same { IsSame own.old own.new }
    ensures given { (places : List ℕ) (count : ℕ)
        → ArePlaces (map positional_view positionals.now) count places
        → spare ≡ count - least (map positional_view positionals.now)
        → (keys.is_positional own.old ≡ true → word < count)
        → IsGiven positionals.now places word own.old own.new }
{
    match own {
        Parsed::Positional(key, _) => {
            if let Some(other) = key_of(positionals, spare, word) {
                *key = other;
            }
            true
        }
        _ => false,
    }
}

/// The key of the first declared positional.
pub fn first_key<P: Copy>(positionals: &[Positional<'_, P>]) -> P
    requires { 1 ≤ length positionals.now }
    ensures { HasKey positionals.now 0 result }
{
    positionals[0].key
}

// Gives each positional among these the key of the declared one that it belongs to. Before, each
// has the key of the first declared one.
fn give_all<F, V, P: Copy, M, S>(
    positionals: &[Positional<'_, P>],
    parsed: &mut [Parsed<F, V, P, M, S>],
)
    ensures length { length parsed.new ≡ length parsed.old }
    ensures same { (options : List (Declared F V M S)) (l : List legal.Parsed)
        → AreParsedAs options l parsed.old → AreParsedAs options l parsed.new }
    ensures keys { CanHaveKeys positionals.now parsed.old → HaveKeys positionals.now parsed.new }
{
    if positionals.len() < 2 {
        return;
    }
    let spare = spare_of(positionals, count_of(parsed));
    let mut word = 0usize;
    for own in parsed.iter_mut() {
        if give_key(positionals, spare, word, own) {
            word += 1;
        }
    }
}

/// Gives each positional that was read the key of the declared one that it belongs to. Before, each
/// has the key of the first declared one.
pub fn give_keys<F, V, P: Copy, M, S>(
    positionals: &[Positional<'_, P>],
    parsed: &mut Vec<Parsed<F, V, P, M, S>>,
)
    ensures same { (options : List (Declared F V M S)) (l : List legal.Parsed)
        → AreParsedAs options l parsed.old.items → AreParsedAs options l parsed.new.items }
    ensures keys { CanHaveKeys positionals.now parsed.old.items
        → HaveKeys positionals.now parsed.new.items }
{
    give_all(positionals, parsed.as_mut_slice());
}

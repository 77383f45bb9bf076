//! Which words the positionals of a line accept, and which positionals a word can belong to.
ghost use Rattle.std.specs.Prelude.{◌≡◌, ◌≤◌, ◌↔◌, ◌+◌, ℕ, IfOk, IsTrue, List, Some, false, length};
ghost use Rattle.std.specs.Prelude.{is_none, map, true};
ghost use Rattle.std.specs.List.{list_any};
ghost use Rattle.std.specs.Option.{MatchOption};
ghost use Rattle.lexopt_options_spec.specs.Completion.{AreOwners, CanBeTaken, CanOwn};
ghost use Rattle.lexopt_options_spec.specs.Legal.{IsWithin, most};
ghost use Rattle.lexopt_options_spec.specs.Places.{AreTaken, IsNotTaken, least, owners};
ghost use Rattle.lexopt_options_spec.specs.Places.{greedy, refused_word, takes_at};
ghost use Rattle.lexopt_declaration.specs.Models.{positional_view};
ghost use Rattle.lexopt_options_spec.specs.Stops as stops;
ghost use Rattle.lexopt_options.specs.Declarations.{declaration_of};
ghost use Rattle.lexopt_options.specs.Keys.{parsed_words};
ghost use Rattle.lexopt_options.specs.Mistakes.{IsMistake};
ghost use Rattle.lexopt_options.specs.Taken as taken;
ghost use Rattle.lexopt_options.specs.Taken.{CanSpare, Fits, IsInvalid, IsRefusal, IsRefusalAt};

use crate::listed::{accepts, is_listed};
use crate::mistake::Mistake;
use crate::options::Options;
use crate::parsed::Parsed;
use crate::places::{count_of, place_of, spare_of};
use lexopt_declaration::declaration::{Positional, Words};
use lexopt_declaration::positionals::most_of;
use lexopt_words::os_string::OsString;
use std::alloc::{AllocError, Global};

/// Whether one of these positionals has a list.
pub fn any_has_list<P>(positionals: &[Positional<'_, P>]) -> bool
    ensures { result ≡ list_any (λ p. taken.has_list p) positionals.now }
{
    positionals
        .iter()
        .any(|positional| matches!(positional.words, Words::Listed(_)))
}

// ---- the end of a line

// The mistake that a positional does not accept a word; `None` if it does.
fn refusal<'a, P>(
    positional: &'a Positional<'a, P>,
    word: &OsString,
) -> Result<Option<Mistake<'a>>, AllocError>
    ensures { IfOk result (λ found. IsRefusal positional.now word.now found) }
{
    match positional.words {
        Words::Listed(values) => {
            if is_listed(values, word.as_bytes()) {
                return Ok(None);
            }
            Ok(Some(Mistake::InvalidArgument {
                placeholder: positional.placeholder,
                word: word.clone()?,
                values,
            }))
        }
        Words::Files | Words::Directories | Words::Text => Ok(None),
    }
}

// The mistake that the positional at this index does not accept a word; `None` if it does.
fn refusal_at<'a, P>(
    positionals: &'a [Positional<'a, P>],
    index: usize,
    word: &OsString,
) -> Result<Option<Mistake<'a>>, AllocError>
    ensures { IfOk result (λ found. IsRefusalAt positionals.now index word.now found) }
{
    match positionals.get(index) {
        Some(positional) => refusal(positional, word),
        None => Ok(None),
    }
}

// The mistake of the first of these words that its positional does not accept, where there are
// `spare` more words than are required.
#[inline(always)]
fn first_refusal<'a, F, V, P, M, S>(
    positionals: &'a [Positional<'a, P>],
    parsed: &[Parsed<F, V, P, M, S>],
    spare: usize,
) -> Result<Option<Mistake<'a>>, AllocError>
    ensures { let ps = map positional_view positionals.now in IfOk result (λ found. MatchOption found
        (refused_word ps (owners 0 (greedy ps spare)) (parsed_words parsed.now) ≡ None)
        (λ mistake. (i : ℕ) × (word : List ℕ)
        × (refused_word ps (owners 0 (greedy ps spare)) (parsed_words parsed.now) ≡ Some (i, word))
        × IsInvalid positionals.now i word mistake)) }
{
    let mut index = 0usize;
    for own in parsed {
        if let Parsed::Positional(_, word) = own {
            if let Some(place) = place_of(positionals, spare, index) {
                if let Some(mistake) = refusal_at(positionals, place, word)? {
                    return Ok(Some(mistake));
                }
            }
            index += 1;
        }
    }
    Ok(None)
}

/// Returns the mistake of the first word of a line that its positional does not accept; `None` if
/// all words are accepted.
///
/// # Errors
///
/// Returns `AllocError` if an allocation fails.
pub fn invalid_argument<'a, F, V, P, M, S>(
    options: &Options<'a, F, V, P, M, S>,
    parsed: &[Parsed<F, V, P, M, S>],
) -> Result<Option<Mistake<'a>>, AllocError>
    ensures { let ps = (declaration_of options.now).positionals in IfOk result (λ found.
        IsWithin (length (parsed_words parsed.now)) (most ps)
        → MatchOption found (AreTaken ps (parsed_words parsed.now))
        (λ mistake. (i : ℕ) × (word : List ℕ) × IsNotTaken ps (parsed_words parsed.now) i word
        × IsMistake (declaration_of options.now) mistake (stops.invalid_argument i word))) }
{
    // Few programs have positionals with lists.
    if !options.has_lists() {
        return Ok(None);
    }
    let positionals = options.positionals();
    first_refusal(positionals, parsed, spare_of(positionals, count_of(parsed)))
}

// ---- where more words can come

// Whether the positional at this index accepts a word.
#[tactic(auto, using(crate::proofs::Accepted::at_place))]
fn takes_at<P>(positionals: &[Positional<'_, P>], index: usize, word: &OsString) -> bool
    ensures { result ≡ takes_at (map positional_view positionals.now) index word.now }
{
    match positionals.get(index) {
        Some(positional) => accepts(positional.words, word),
        None => true,
    }
}

// Whether each of these words belongs to a positional that accepts it, where there are `spare` more
// words than are required.
fn are_taken<P>(positionals: &[Positional<'_, P>], words: &[OsString], spare: usize) -> bool
    ensures { let ps = map positional_view positionals.now in result
        ≡ is_none (refused_word ps (owners 0 (greedy ps spare)) words.now) }
{
    // Few programs have positionals with lists.
    if !any_has_list(positionals) {
        return true;
    }
    for (index, word) in words.iter().enumerate() {
        if let Some(place) = place_of(positionals, spare, index) {
            if !takes_at(positionals, place, word) {
                return false;
            }
        }
    }
    true
}

// The most words beyond the required ones that a line can have, but at most `count`: more of them
// do not change what the first `count` words can belong to.
#[tactic(auto, using(lexopt_options_spec::proofs::Shares::least_fits))]
fn most_spare<P>(positionals: &[Positional<'_, P>], count: usize) -> usize
    ensures { (spare : ℕ) → (spare ≤ result) ↔ ((spare ≤ count)
        × IsWithin (least (map positional_view positionals.now) + spare)
        (most (map positional_view positionals.now))) }
{
    match most_of(positionals) {
        Some(limit) => count.min(spare_of(positionals, limit)),
        None => count,
    }
}

// Whether each of these words belongs to a positional that accepts it, and a word after them to the
// one at the index `next`, if there is one, where there are `spare` more words than are required.
fn fit<P>(
    positionals: &[Positional<'_, P>],
    words: &[OsString],
    next: Option<usize>,
    spare: usize,
) -> bool
    ensures { IsTrue result
        ↔ Fits (map positional_view positionals.now) words.now next spare }
{
    if let Some(index) = next {
        if place_of(positionals, spare, words.len()) != Some(index) {
            return false;
        }
    }
    are_taken(positionals, words, spare)
}

// Whether these words fit in a line of at least `count` words.
fn can_fit<P>(
    positionals: &[Positional<'_, P>],
    words: &[OsString],
    next: Option<usize>,
    count: usize,
) -> bool
    ensures { let ps = map positional_view positionals.now in IsTrue result
        ↔ ((spare : ℕ) × CanSpare ps count spare × Fits ps words.now next spare) }
{
    for spare in spare_of(positionals, count)..=most_spare(positionals, count) {
        if fit(positionals, words, next, spare) {
            return true;
        }
    }
    false
}

/// Whether each of these words can belong to a positional that accepts it, with some more words
/// after them.
#[tactic(auto, using(crate::proofs::TakenWords::fits))]
pub fn can_be_taken<P>(positionals: &[Positional<'_, P>], words: &[OsString]) -> bool
    ensures { IsTrue result ↔ CanBeTaken (map positional_view positionals.now) words.now }
{
    can_fit(positionals, words, None, words.len())
}

// Whether a word after these words can belong to the positional at this index, and each of these
// words to one that accepts it, with some more words at the end or none.
#[tactic(auto, using(crate::proofs::TakenWords::fits))]
fn can_own<P>(positionals: &[Positional<'_, P>], words: &[OsString], index: usize) -> bool
    ensures { IsTrue result ↔ CanOwn (map positional_view positionals.now) words.now index }
{
    can_fit(positionals, words, Some(index), words.len() + 1)
}

/// Returns the indices of the positionals that a word after these words can belong to, where each of
/// these words belongs to one that accepts it, with some more words at the end or none.
///
/// # Errors
///
/// Returns `AllocError` if an allocation fails.
pub fn owners_of<P>(
    alloc: Global,
    positionals: &[Positional<'_, P>],
    words: &[OsString],
) -> Result<Vec<usize>, AllocError>
    ensures { IfOk result
        (λ owners. AreOwners (map positional_view positionals.now) words.now owners.items) }
{
    let mut owners = Vec::with_capacity(alloc, positionals.len())?;
    for index in 0..positionals.len() {
        if can_own(positionals, words, index) {
            owners.push(index)?;
        }
    }
    Ok(owners)
}

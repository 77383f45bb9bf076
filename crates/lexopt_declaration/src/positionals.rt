//! How many positionals a line has to have and may have.
ghost use Rattle.std.specs.Prelude.{◌≡◌, filter, length, map, true};
ghost use Rattle.std.specs.List.{list_any};
ghost use Rattle.lexopt_options_spec.specs.Declaration as spec;
ghost use Rattle.lexopt_options_spec.specs.Legal.{most};
ghost use Rattle.lexopt_options_spec.specs.Places.{least};
ghost use Rattle.lexopt_options_spec.specs.Stops.{required_placeholder};
ghost use Rattle.lexopt_declaration.specs.Models.{count_view, positional_view};

use crate::declaration::{Count, Positional};

/// Returns whether a positional may occur more than once.
pub fn may_repeat<P>(positional: &Positional<'_, P>) -> bool
    ensures { result ≡ spec.may_repeat (count_view positional.now.count) }
{
    match positional.count {
        Count::AnyNumber | Count::AtLeastOnce => true,
        Count::Once | Count::AtMostOnce => false,
    }
}

// Whether a positional is required.
fn is_required<P>(positional: &Positional<'_, P>) -> bool
    ensures { result ≡ spec.has_to_occur (count_view positional.now.count) }
{
    match positional.count {
        Count::Once | Count::AtLeastOnce => true,
        Count::AtMostOnce | Count::AnyNumber => false,
    }
}

// Whether one of these positionals may occur more than once.
fn is_unlimited<P>(positionals: &[Positional<'_, P>]) -> bool
    ensures { result ≡ list_any (λ p. spec.may_repeat (count_view p.count)) positionals.now }
{
    positionals.iter().any(|positional| may_repeat(positional))
}

/// Returns how many positionals a line may have; `None` if there is no limit.
#[tactic(auto, using(crate::proofs::Counting::limited, crate::proofs::Counting::unlimited))]
pub fn most_of<P>(positionals: &[Positional<'_, P>]) -> Option<usize>
    ensures { result ≡ most (map positional_view positionals.now) }
{
    if is_unlimited(positionals) {
        None
    } else {
        Some(positionals.len())
    }
}

// How many of these positionals are required. It is separate from `least_of` only for the proof:
// its contract is by `filter`.
fn required_count<P>(positionals: &[Positional<'_, P>]) -> usize
    ensures { result
        ≡ length (filter (λ p. spec.has_to_occur (count_view p.count)) positionals.now) }
{
    positionals
        .iter()
        .filter(|positional| is_required(positional))
        .count()
}

/// Returns how many positionals are required.
#[tactic(auto, using(crate::proofs::Counting::required_are))]
pub fn least_of<P>(positionals: &[Positional<'_, P>]) -> usize
    ensures { result ≡ least (map positional_view positionals.now) }
{
    required_count(positionals)
}

/// Returns the placeholder of the required positional with this number, counted from 0; the empty
/// text if there is none.
pub fn argument_placeholder<'a, P>(positionals: &'a [Positional<'a, P>], n: usize) -> &'a str
    ensures { result.now ≡ required_placeholder (map positional_view positionals.now) n }
{
    let mut left = n;
    for positional in positionals {
        if is_required(positional) {
            if left == 0 {
                return positional.placeholder;
            }
            left -= 1;
        }
    }
    ""
}

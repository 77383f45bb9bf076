//! What words mean as the beginning of a line, and what the next word is. `read.rt` reads a whole
//! line by keys.
ghost use Rattle.std.specs.Prelude.{◌≡◌, ◌≢◌, ◌↔◌, ◌&&◌, ℕ, [], IfOk, IsTrue, List, None, Some};
ghost use Rattle.std.specs.Prelude.{false, slice_get};
ghost use Rattle.lexopt_spec.specs.UnreadLine.{IsLine, pending};
ghost use Rattle.lexopt_line_spec.specs.Readings.{start};
ghost use Rattle.lexopt_options_spec.specs.Declaration.{Declaration};
ghost use Rattle.lexopt_options_spec.specs.States as spec;
ghost use Rattle.lexopt_declaration.specs.Models.{option_view};
ghost use Rattle.lexopt_options.specs.Begun.{IsBegun, is_ended, surplus_begun};
ghost use Rattle.lexopt_options.specs.Declarations.{declaration_of};
ghost use Rattle.lexopt_options.specs.RestStarts.{start_view};
ghost use Rattle.lexopt_options.specs.States.{IsAfterName, first_of, index_if};
ghost use Rattle.lexopt_options.specs.States.{state_view, with_index};

use crate::listed::{accepts, refused_place};
use crate::options::Options;
use crate::read::{Outcome, is_full, is_noted, note, read_next};
use crate::rest::{RestStart, is_separated};
use lexopt_base::parser::Parser;
use lexopt_base::refusal::Refusal;
use lexopt_base::values::read_several;
use lexopt_declaration::declaration::{Declared, Kind};
use lexopt_words::os_string::OsString;
use std::alloc::{AllocError, Global};

// What the next word of a line is.
#[derive(Clone, Copy)]
pub(crate) enum State {
    // An option, the separator or a positional.
    Anything,
    // The value of the option at this index, whatever it looks like.
    Due(usize),
    // The first of several values of the option at this index: a plain word.
    First(usize),
    // One more of several values of the option at this index if it is plain; otherwise an option or
    // the separator.
    Further(usize),
    // A positional, whatever it looks like.
    Ended,
}

// What words mean as the beginning of a line.
#[derive(Drop)]
pub(crate) struct Front {
    // The positionals.
    pub(crate) words: Vec<OsString>,
    // Whether each option accepts its values.
    pub(crate) accepted: bool,
    // The indices of the options that were read and are required, have a default or may be excluded.
    pub(crate) seen: Vec<usize>,
    // If what is read last is an option that has a value: its index, and its first value.
    pub(crate) last: Option<(usize, OsString)>,
    // What the next word is.
    pub(crate) state: State,
}

// What words mean as the beginning of a line, or that they have a rest.
#[derive(Drop)]
pub(crate) enum Begun {
    // A rest begins with this word, which was read last. If it is one positional too many, the words
    // mean nothing as the beginning of a line, and nothing with any one word after them.
    Rest(OsString),
    // The words have no rest. This is what they mean as the beginning of a line; `None` if they mean
    // nothing, and nothing with any one word after them.
    Front(Option<Front>),
}

// What is read of an option after its name.
#[derive(Drop)]
enum AfterName {
    // Its values: whether it accepts them, the first of them, and whether a plain word right after
    // them would be one more.
    Values {
        accepted: bool,
        first: Option<OsString>,
        goes_on: bool,
    },
    // It lacks a value where the words end. This is what the next word is.
    Lacks(State),
    // It lacks a value, and words are left.
    Missing,
}

// Whether no word is left, if no value is pending.
fn is_at_end(parser: &mut Parser) -> bool
    ensures same { parser.new ≡ parser.old }
    ensures at_end { pending parser.old ≡ None → (IsTrue result ↔ (parser.old.words ≡ [])) }
{
    match parser.try_raw_args() {
        Some(left) => left.as_slice().is_empty(),
        None => false,
    }
}

// What is read of an option that lacks a value, unless memory ran out.
fn lacking(refused: Refusal, found: AfterName) -> Result<AfterName, AllocError>
    ensures { IfOk result (λ lacks. (lacks ≡ found) × (refused ≢ Refusal.OutOfMemory)) }
{
    match refused {
        Refusal::OutOfMemory => Err(AllocError),
        Refusal::MissingValue(_) => Ok(found),
        Refusal::UnexpectedValue { .. } => Ok(found),
    }
}

// The first of these values.
fn first_of(mut values: Vec<OsString>) -> Option<OsString>
    ensures { result ≡ first_of values.items }
{
    if values.is_empty() {
        None
    } else {
        Some(values.swap_remove(0))
    }
}

// Reads the values of this option, which is at this index, and whose name was just read.
fn read_after_name<F, V, M, S>(
    alloc: Global,
    parser: &mut Parser,
    option: &Declared<'_, F, V, M, S>,
    index: usize,
) -> Result<AfterName, AllocError>
    ensures { IfOk result (λ found. (d : Declaration)
        → slice_get d.options index ≡ Some (option_view option.now)
        → IsAfterName d index parser.old found parser.new) }
{
    match option.kind {
        Kind::Flag(_) | Kind::Help | Kind::BriefHelp | Kind::Version(_) => Ok(AfterName::Values {
            accepted: true,
            first: None,
            goes_on: false,
        }),
        Kind::Value(_, _) => match parser.take() {
            Ok(value) => Ok(AfterName::Values {
                accepted: accepts(option.words, &value),
                first: Some(value),
                goes_on: false,
            }),
            Err(refused) => lacking(refused, AfterName::Lacks(State::Due(index))),
        },
        Kind::Maybe(_, _) => match parser.optional_value() {
            Some(value) => Ok(AfterName::Values {
                accepted: accepts(option.words, &value),
                first: Some(value),
                goes_on: false,
            }),
            None => Ok(AfterName::Values {
                accepted: true,
                first: None,
                goes_on: false,
            }),
        },
        Kind::Values(_, _) => {
            let is_joined = parser.has_joined_value();
            let is_last = is_at_end(parser);
            match read_several(alloc, parser) {
                Ok(values) => Ok(AfterName::Values {
                    accepted: refused_place(option.words, &values).is_none(),
                    first: first_of(values),
                    goes_on: !is_joined,
                }),
                Err(refused) => {
                    if is_last {
                        lacking(refused, AfterName::Lacks(State::First(index)))
                    } else {
                        lacking(refused, AfterName::Missing)
                    }
                }
            }
        }
    }
}

// The state where the words end, by whether the separator was read, and by the option of several
// values of which a plain word would be one more, if there is one.
fn state_at_end(going_on: Option<usize>, is_past_separator: bool) -> State
    ensures { state_view result ≡ spec.state_at_end going_on is_past_separator }
{
    if is_past_separator {
        return State::Ended;
    }
    match going_on {
        Some(index) => State::Further(index),
        None => State::Anything,
    }
}

// Whether both hold. This function and the next two are apart from the loop, so that its proof has
// fewer cases.
fn are_both(one: bool, other: bool) -> bool
    ensures { result ≡ (one && other) }
{
    one && other
}

// This index with the value, if there is one.
fn with_index(index: usize, value: Option<OsString>) -> Option<(usize, OsString)>
    ensures { result ≡ with_index index value }
{
    match value {
        Some(value) => Some((index, value)),
        None => None,
    }
}

// This index, if that holds.
fn index_if(holds: bool, index: usize) -> Option<usize>
    ensures { result ≡ index_if holds index }
{
    if holds { Some(index) } else { None }
}

// What words with one positional too many are.
fn surplus_begun(begins: RestStart, word: OsString) -> Begun
    ensures { result ≡ surplus_begun begins word }
{
    match begins {
        RestStart::Surplus => Begun::Rest(word),
        RestStart::Separated => Begun::Front(None),
    }
}

// Reads words as the beginning of a line, up to where a rest begins.
pub(crate) fn read_front<F, V, P, M, S>(
    alloc: Global,
    parser: &mut Parser,
    options: &Options<'_, F, V, P, M, S>,
    begins: RestStart,
) -> Result<Begun, AllocError>
    requires line { IsLine parser.old }
    requires before { parser.old.ended ≡ false }
    ensures { (words : List (List ℕ))
        → parser.old ≡ start (declaration_of options.now).short_equals words
        → IfOk result (λ begun.
        IsBegun (start_view begins) (declaration_of options.now) words begun parser.new) }
{
    let limit = options.most();
    let declared = options.options();
    let mut words = Vec::new(alloc);
    let mut all_accepted = true;
    let mut seen = Vec::new(alloc);
    let mut last = None;
    let mut going_on = None;
    loop {
        match read_next(parser, options)? {
            Outcome::Option(index) => {
                let option = &declared[index];
                match read_after_name(alloc, parser, option, index)? {
                    AfterName::Values {
                        accepted,
                        first,
                        goes_on,
                    } => {
                        note(is_noted(option), index, &mut seen)?;
                        all_accepted = are_both(all_accepted, accepted);
                        last = with_index(index, first);
                        going_on = index_if(goes_on, index);
                    }
                    AfterName::Lacks(state) => {
                        let front = Front {
                            words,
                            accepted: all_accepted,
                            seen,
                            last: None,
                            state,
                        };
                        return Ok(Begun::Front(Some(front)));
                    }
                    AfterName::Missing => return Ok(Begun::Front(None)),
                }
            }
            Outcome::Positional(word) => {
                if is_separated(begins, parser) {
                    return Ok(Begun::Rest(word));
                }
                if is_full(limit, words.len()) {
                    return Ok(surplus_begun(begins, word));
                }
                words.push(word)?;
                last = None;
                going_on = None;
            }
            Outcome::End => {
                let front = Front {
                    words,
                    accepted: all_accepted,
                    seen,
                    last,
                    state: state_at_end(going_on, parser.is_past_separator()),
                };
                return Ok(Begun::Front(Some(front)));
            }
            Outcome::Undeclared(_) => return Ok(Begun::Front(None)),
            Outcome::Unexpected(..) => return Ok(Begun::Front(None)),
        }
    }
}

// Whether the separator was read.
fn is_ended(state: State) -> bool
    ensures { result ≡ is_ended state }
{
    matches!(state, State::Ended)
}

// Whether a plain word is a positional in this state.
fn takes_positional(state: State) -> bool
    ensures { result ≡ spec.takes_positional (state_view state) }
{
    matches!(state, State::Anything | State::Ended)
}

impl<F, V, P, M, S> Options<'_, F, V, P, M, S> {
    ghost use Rattle.std.specs.Prelude.{IfOk, List, ℕ};
    ghost use Rattle.lexopt_spec.specs.UnreadLine.{UnreadLine};
    ghost use Rattle.lexopt_options_spec.specs.Rest.{surplus};
    ghost use Rattle.lexopt_options.specs.Begun.{IsBegun, TellsRest};
    ghost use Rattle.lexopt_options.specs.Declarations.{declaration_of};
    ghost use Rattle.lexopt_options.specs.RestStarts.{start_view};
    ghost use Rattle.lexopt_options.specs.States.{IsFront, IsFrontOf};

    // Whether a rest would begin with a word that is plain even without a separator before it, such
    // as `add`, after words that mean this.
    pub(crate) fn begins_rest(&self, begins: RestStart, front: &Option<Front>) -> bool
        ensures { (words : List (List ℕ)) (u : UnreadLine)
            → IsBegun (start_view begins) (declaration_of self.now) words (Begun.Front front.now) u
            → TellsRest (start_view begins) (declaration_of self.now) words result }
    {
        match front {
            Some(front) => match begins {
                RestStart::Surplus => self.begins_surplus(front),
                RestStart::Separated => is_ended(front.state),
            },
            None => false,
        }
    }

    // Whether such a word would be one positional too many.
    fn begins_surplus(&self, front: &Front) -> bool
        ensures { (words : List (List ℕ)) → IsFront (declaration_of self.now) words front.now
            → TellsRest surplus (declaration_of self.now) words result }
    {
        if takes_positional(front.state) {
            is_full(self.most(), front.words.len())
        } else {
            false
        }
    }

    // What words mean as the beginning of a line, and what the next word is; `None` if they mean
    // nothing, and nothing with any one word after them.
    pub(crate) fn front(
        &self,
        alloc: Global,
        words: Vec<OsString>,
    ) -> Result<Option<Front>, AllocError>
        ensures { IfOk result (λ found. IsFrontOf (declaration_of self.now) words.items found) }
    {
        let mut parser = self.parser_of(words);
        match read_front(alloc, &mut parser, self, RestStart::Surplus)? {
            Begun::Rest(_) => Ok(None),
            Begun::Front(front) => Ok(front),
        }
    }
}

//! Reads a whole line by a declaration. `rest.rt` reads a line whose rest is not read.
ghost use Rattle.std.specs.Prelude.{◌≡◌, ◌≢◌, ◌≤◌, ◌<◌, ◌↔◌, ◌++◌, ℕ, List, IfOk, OnOk, slice_get, true};
ghost use Rattle.std.specs.Prelude.{IsTrue, None, Option, Some, false, length, map};
ghost use Rattle.std.specs.List.{list_any};
ghost use Rattle.std.specs.Option.{MatchOption, is_some};
ghost use Rattle.lexopt_spec.specs.UnreadLine.{IsLine, Tail, UnreadLine};
ghost use Rattle.lexopt_spec.specs.Steps as steps;
ghost use Rattle.lexopt_spec.specs.Steps.{Next};
ghost use Rattle.lexopt_line_spec.specs.Readings.{option_reply, start};
ghost use Rattle.lexopt_line_spec.specs.Values.{ValuesEndBy};
ghost use Rattle.lexopt_base.specs.Refusals.{refusal_reply};
ghost use Rattle.lexopt_line_spec.specs.Table as table;
ghost use Rattle.lexopt_options_spec.specs.Declaration.{Declaration, has, index_of, is_sound};
ghost use Rattle.lexopt_options_spec.specs.Asking.{asked_by};
ghost use Rattle.lexopt_options_spec.specs.Legal as legal;
ghost use Rattle.lexopt_options_spec.specs.Legal.{AreApart, IsWithin, clash, counts};
ghost use Rattle.lexopt_options_spec.specs.Legal.{default_beside};
ghost use Rattle.lexopt_options_spec.specs.Legal.{defaults_beside, most, refused_value};
ghost use Rattle.lexopt_options_spec.specs.Places.{least};
ghost use Rattle.lexopt_options_spec.specs.Stops as stops;
ghost use Rattle.lexopt_options_spec.specs.Stops.{IsFirstClash};
ghost use Rattle.lexopt_declaration.specs.Models.{option_view};
ghost use Rattle.lexopt_declaration.specs.Lookups.{names_at};
ghost use Rattle.lexopt_options.specs.Declarations.{declaration_of, options_of, positionals_of};
ghost use Rattle.lexopt_options.specs.Keys.{AreParsedAs, AreReadAs, asked_view, parsed_words};
ghost use Rattle.lexopt_options.specs.Keys.{positional_keys};
ghost use Rattle.lexopt_options.specs.Kinds as kinds;
ghost use Rattle.lexopt_options.specs.Taken.{has_list};
ghost use Rattle.lexopt_options.specs.Mistakes.{AreNames, IsMistake};
ghost use Rattle.lexopt_options.specs.Lines.{IsLineRead, IsRefused};
ghost use Rattle.lexopt_options.specs.Reading.{AllSeen, AreSeen, ComesNext, UndeclaredNext};
ghost use Rattle.lexopt_options.specs.Reading.{HasEnded, HasRead, HasStopped, IsFirstUnseen};
ghost use Rattle.lexopt_options.specs.Reading.{IsNothing, IsReadByKey, IsRight, IsWrong};
ghost use Rattle.lexopt_options.specs.Reading.{ReadsParsed};
ghost use Rattle.lexopt_options.specs.Reading.{StopsAtOption, is_noted, noted};

use crate::listed::{accepts, invalid_value, refused_place};
use crate::mistake::{Mistake, OptionName, short_hints};
use crate::options::Options;
use crate::parsed::{Asked, ByKey, Parsed};
use crate::places::{first_key, give_keys};
use crate::refused::{Line, Refused};
use crate::rest::{RestStart, is_separated};
use crate::taken::invalid_argument;
use lexopt_base::parser::{Found, Parser};
use lexopt_base::refusal::Refusal;
use lexopt_base::values::read_several;
use lexopt_declaration::declaration as declared;
use lexopt_declaration::declaration::{Declared, Names};
use lexopt_declaration::lookup::{are_same, help_names_of, index_of_long, index_of_short};
use lexopt_declaration::nearest::{hinted_names, long_names};
use lexopt_declaration::positionals::argument_placeholder;
use lexopt_words::os_string::OsString;
use std::alloc::{AllocError, Global};

// What the next step of reading a line finds.
#[derive(Drop)]
pub(crate) enum Outcome {
    // The option at this index, whose values are not read yet.
    Option(usize),
    // A positional.
    Positional(OsString),
    // The end of the line.
    End,
    // An option that is not declared: the short one with this character, or else a long one.
    Undeclared(Option<char>),
    // An option without values, with its dashes, and the value that is joined to it.
    Unexpected(String, OsString),
}

// How the reading of a line ended.
#[derive(Drop)]
pub(crate) enum Ended<'a> {
    // The line was read to its end.
    End,
    // This is one positional more than the declaration allows, or has the separator before it.
    Positional(OsString),
    // The option that was read last asks for this.
    Asked(Asked<'a>),
    // An option has a mistake.
    Mistake(Mistake<'a>),
}

// What was read of a line.
#[derive(Drop)]
pub(crate) struct Read<F, V, P, M, S> {
    // What the line means, by keys; if an option has a mistake, then before it. Each positional has
    // the key of the first declared one.
    pub(crate) parsed: Vec<Parsed<F, V, P, M, S>>,
    // The indices of the options that were read and are required, have a default or may be excluded.
    pub(crate) seen: Vec<usize>,
    // The number of positionals.
    pub(crate) count: usize,
}

// Nothing, for `read_keys`. The list has room for `room` things.
#[inline(always)]
pub(crate) fn nothing_read<F, V, P, M, S>(
    alloc: Global,
    room: usize,
) -> Result<Read<F, V, P, M, S>, AllocError>
    ensures { IfOk result (λ read. IsNothing read) }
{
    Ok(Read {
        parsed: Vec::with_capacity(alloc, room)?,
        seen: Vec::new(alloc),
        count: 0,
    })
}

// The mistake that this option, which was just read, has no value.
fn missing_value<'a, F, V, M, S>(
    option: &Declared<'a, F, V, M, S>,
    refused: Refusal,
) -> Result<Mistake<'a>, AllocError>
    requires { (kind : table.Kind) × (u v w : UnreadLine) × (name : table.Name)
        × Next u (option_reply name) v × (kind ≢ table.flag)
        × ValuesEndBy kind v (refusal_reply refused) w }
    ensures { IfOk result (λ mistake. (d : Declaration) (index : ℕ) (kind : table.Kind)
        (u v w : UnreadLine) (name : table.Name) → is_sound d.options ≡ true
        → slice_get d.options index ≡ Some (option_view option.now)
        → Next u (option_reply name) v → index_of d.options name ≡ Some index
        → kind ≡ kinds.kind_at d.options index
        → ValuesEndBy kind v (refusal_reply refused) w → StopsAtOption d u mistake) }
{
    match refused {
        Refusal::MissingValue(name) => Ok(Mistake::MissingValue {
            option: name.unwrap(),
            placeholder: option.kind.placeholder(),
        }),
        Refusal::OutOfMemory => Err(AllocError),
        Refusal::UnexpectedValue { .. } => unreachable!(),
    }
}

// Reads the values of this option, whose name was just read, and returns the option by its key.
// `Err` is the mistake that it has no value, or one that it does not accept.
fn read_by_key<'a, F: Copy, V: Copy, P, M: Copy, S: Copy>(
    alloc: Global,
    parser: &mut Parser,
    option: &'a Declared<'a, F, V, M, S>,
) -> Result<Result<ByKey<'a, F, V, P, M, S>, Mistake<'a>>, AllocError>
    requires { (u : UnreadLine) × (name : table.Name) × Next u (option_reply name) parser.old }
    ensures { IfOk result (λ read. (o : Options F V P M S) (index count : ℕ) (u : UnreadLine)
        (name : table.Name) → slice_get (options_of o) index ≡ Some option.now
        → Next u (option_reply name) parser.old
        → index_of (declaration_of o).options name ≡ Some index
        → IsReadByKey (declaration_of o) (options_of o) index count u read parser.new) }
{
    match option.kind {
        declared::Kind::Flag(key) => Ok(Ok(ByKey::Parsed(Parsed::Flag(key)))),
        declared::Kind::Help => Ok(Ok(ByKey::Asked(Asked::Help))),
        declared::Kind::BriefHelp => Ok(Ok(ByKey::Asked(Asked::BriefHelp))),
        declared::Kind::Version(text) => Ok(Ok(ByKey::Asked(Asked::Version(text)))),
        declared::Kind::Value(key, _) => match parser.take() {
            Ok(value) => {
                if accepts(option.words, &value) {
                    Ok(Ok(ByKey::Parsed(Parsed::Value(key, value))))
                } else {
                    Ok(Err(invalid_value(option, value)))
                }
            }
            Err(refused) => Ok(Err(missing_value(option, refused)?)),
        },
        declared::Kind::Maybe(key, _) => match parser.optional_value() {
            Some(value) => {
                if accepts(option.words, &value) {
                    Ok(Ok(ByKey::Parsed(Parsed::Maybe(key, Some(value)))))
                } else {
                    Ok(Err(invalid_value(option, value)))
                }
            }
            None => Ok(Ok(ByKey::Parsed(Parsed::Maybe(key, None)))),
        },
        declared::Kind::Values(key, _) => match read_several(alloc, parser) {
            Ok(mut values) => match refused_place(option.words, &values) {
                Some(place) => Ok(Err(invalid_value(option, values.swap_remove(place)))),
                None => Ok(Ok(ByKey::Parsed(Parsed::Values(key, values)))),
            },
            Err(refused) => Ok(Err(missing_value(option, refused)?)),
        },
    }
}

// The mistake that a long option is not declared.
fn unknown_long<'a, F, V, P, M, S>(
    alloc: Global,
    options: &Options<'a, F, V, P, M, S>,
    name: &str,
) -> Result<Mistake<'a>, AllocError>
    ensures { IfOk result (λ mistake. (left : Tail) → IsMistake (declaration_of options.now) mistake
        (stops.unknown_option (table.long name.now) left)) }
{
    let names = long_names(alloc, options.options())?;
    let hints = hinted_names(alloc, &names, name)?;
    let name = OptionName::Long(String::from_str(alloc, name)?);
    Ok(Mistake::UnknownOption { name, hints })
}

// The mistake that a short option, which was just read, is not declared. This takes the rest of its
// cluster.
fn unknown_short<'a, F, V, P, M, S>(
    alloc: Global,
    parser: &mut Parser,
    options: &Options<'a, F, V, P, M, S>,
    option: char,
) -> Result<Mistake<'a>, AllocError>
    ensures { (u : UnreadLine) → Next u (steps.short option) parser.old
        → IfOk result (λ mistake. IsMistake (declaration_of options.now) mistake
        (stops.unknown_option (table.short option) parser.old.tail)) }
{
    // So a leading `=` stays part of the rest.
    parser.set_short_equals(false);
    let hints = match parser.optional_value() {
        Some(rest) => short_hints(alloc, options.options(), option, rest.as_bytes())?,
        None => Vec::new(alloc),
    };
    let name = OptionName::Short(option);
    Ok(Mistake::UnknownOption { name, hints })
}

// The mistake that an option, which was just read, is not declared: the short one with this
// character, or else a long one. This takes the rest of its cluster. It is not inlined, so that
// `read_keys` has no room for its result to clear for each word.
#[cold]
#[inline(never)]
fn unknown_option<'a, F, V, P, M, S>(
    alloc: Global,
    parser: &mut Parser,
    options: &Options<'a, F, V, P, M, S>,
    short: Option<char>,
) -> Result<Mistake<'a>, AllocError>
    ensures { IfOk result (λ mistake. (u : UnreadLine)
        → UndeclaredNext (declaration_of options.now) u short parser.old
        → StopsAtOption (declaration_of options.now) u mistake) }
{
    match short {
        Some(option) => unknown_short(alloc, parser, options, option),
        None => unknown_long(alloc, options, parser.long_name()),
    }
}

// Whether `count` positionals are as many as there may be.
pub(crate) fn is_full(limit: Option<usize>, count: usize) -> bool
    ensures { IsTrue result ↔ (limit ≡ Some count) }
{
    match limit {
        Some(limit) => limit == count,
        None => false,
    }
}

// Reads what comes next in a line. It is always inlined: a call would clear the places of its
// results for each word.
#[inline(always)]
pub(crate) fn read_next<F, V, P, M, S>(
    parser: &mut Parser,
    options: &Options<'_, F, V, P, M, S>,
) -> Result<Outcome, AllocError>
    ensures { IfOk result (λ outcome.
        ComesNext (declaration_of options.now) parser.old outcome parser.new) }
{
    match parser.advance() {
        Ok(Found::Short(option)) => match index_of_short(options.options(), option) {
            Some(index) => Ok(Outcome::Option(index)),
            None => Ok(Outcome::Undeclared(Some(option))),
        },
        Ok(Found::Long) => match index_of_long(options.options(), parser.long_name()) {
            Some(index) => Ok(Outcome::Option(index)),
            None => Ok(Outcome::Undeclared(None)),
        },
        Ok(Found::Value(word)) => Ok(Outcome::Positional(word)),
        Ok(Found::End) => Ok(Outcome::End),
        Err(refused) => match refused {
            Refusal::UnexpectedValue { option, value } => Ok(Outcome::Unexpected(option, value)),
            Refusal::OutOfMemory => Err(AllocError),
            Refusal::MissingValue(_) => unreachable!(),
        },
    }
}

// The most things for which a list gets room before a line is read.
pub(crate) const FIRST_ROOM: usize = 16;

// ---- the end of a line

// Whether this index is among these.
fn is_among(index: usize, seen: &[usize]) -> bool
    ensures { result ≡ has index seen.now }
{
    seen.contains(&index)
}

// The names of the first required option whose index is not among `seen`. It is not inlined, since
// few programs have required options.
#[inline(never)]
fn first_unseen<'a, F, V, M, S>(
    options: &'a [Declared<'a, F, V, M, S>],
    seen: &[usize],
) -> Option<Names<'a>>
    ensures { MatchOption result (AllSeen (map option_view options.now) seen.now)
        (λ names. (index : ℕ) × IsFirstUnseen (map option_view options.now) seen.now index
        × (names_at options.now (Some index) ≡ Some names)) }
{
    for (index, option) in options.iter().enumerate() {
        if option.required && !is_among(index, seen) {
            return Some(option.names);
        }
    }
    None
}

// The names of the first required option of a declaration whose index is not among `seen`.
fn missing_option<'a, F, V, P, M, S>(
    options: &Options<'a, F, V, P, M, S>,
    seen: &[usize],
) -> Option<Names<'a>>
    ensures { MatchOption result (AllSeen (declaration_of options.now).options seen.now)
        (λ names. (index : ℕ) × IsFirstUnseen (declaration_of options.now).options seen.now index
        × AreNames (declaration_of options.now).options index names) }
{
    if !options.has_required() {
        return None;
    }
    first_unseen(options.options(), seen)
}

// The names of the first option among `seen` that this one excludes, which is at this index.
fn first_excluded<'a, F, V, M, S>(
    options: &'a [Declared<'a, F, V, M, S>],
    option: &Declared<'a, F, V, M, S>,
    index: usize,
    seen: &[usize],
) -> Option<Names<'a>>
    requires here { slice_get options.now index ≡ Some option.now }
    requires seen { has index seen.now ≡ true }
    ensures { let clashes = clash (map option_view options.now) (λ i. has i seen.now) index in
        MatchOption result ((other : ℕ) → clashes other ≡ false)
        (λ names. (other : ℕ) × (clashes other ≡ true)
        × ((i : ℕ) → i < other → clashes i ≡ false)
        × (names_at options.now (Some other) ≡ Some names)) }
{
    for (other, declared) in options.iter().enumerate() {
        if other != index
            && are_same(option.exclusive, declared.exclusive)
            && is_among(other, seen)
        {
            return Some(declared.names);
        }
    }
    None
}

// The names of the first option among `seen` that excludes another of them, and of the first that it
// excludes. It is not inlined, since few programs have such options.
#[inline(never)]
fn first_clash<'a, F, V, M, S>(
    options: &'a [Declared<'a, F, V, M, S>],
    seen: &[usize],
) -> Option<(Names<'a>, Names<'a>)>
    ensures { MatchOption result (AreApart (map option_view options.now) (λ i. has i seen.now))
        (λ both. (index : ℕ) × (other : ℕ)
        × IsFirstClash (map option_view options.now) (λ i. has i seen.now) index other
        × (names_at options.now (Some index) ≡ Some both.0)
        × (names_at options.now (Some other) ≡ Some both.1)) }
{
    for (index, option) in options.iter().enumerate() {
        if is_among(index, seen) {
            if let Some(other) = first_excluded(options, option, index, seen) {
                return Some((option.names, other));
            }
        }
    }
    None
}

// The same for the options of a declaration.
fn exclusive_options<'a, F, V, P, M, S>(
    options: &Options<'a, F, V, P, M, S>,
    seen: &[usize],
) -> Option<(Names<'a>, Names<'a>)>
    ensures { let all = (declaration_of options.now).options in
        MatchOption result (AreApart all (λ i. has i seen.now))
        (λ both. (index : ℕ) × (other : ℕ) × IsFirstClash all (λ i. has i seen.now) index other
        × AreNames all index both.0 × AreNames all other both.1) }
{
    if !options.has_exclusive() {
        return None;
    }
    first_clash(options.options(), seen)
}

// Whether this option is required, has a default or may be excluded.
pub(crate) fn is_noted<F, V, M, S>(option: &Declared<'_, F, V, M, S>) -> bool
    ensures { result ≡ is_noted (option_view option.now) }
{
    option.required || option.default.is_some() || option.exclusive.is_some()
}

// Adds the index of an option that was read to `seen`, if the end of the line hangs on it.
pub(crate) fn note(counts: bool, index: usize, seen: &mut Vec<usize>) -> Result<(), AllocError>
    ensures { OnOk result (seen.new.items ≡ noted counts index seen.old.items) }
{
    if counts {
        seen.push(index)?;
    }
    Ok(())
}

// Whether nothing can be missing from a line with `count` positionals, no word has to be in a list,
// and no option may be excluded.
fn is_complete<F, V, P, M, S>(options: &Options<'_, F, V, P, M, S>, count: usize) -> bool
    ensures { IsTrue result ↔ (least (declaration_of options.now).positionals ≤ count)
        × (list_any (λ p. has_list p) (positionals_of options.now) ≡ false)
        × (list_any (λ o. o.required) (options_of options.now) ≡ false)
        × (list_any (λ o. is_some o.exclusive) (options_of options.now) ≡ false) }
{
    if options.least() > count {
        return false;
    }
    if options.has_lists() {
        return false;
    }
    if options.has_required() {
        return false;
    }
    !options.has_exclusive()
}

// Whether a line without words means the empty list.
fn means_nothing<F, V, P, M, S>(options: &Options<'_, F, V, P, M, S>) -> bool
    ensures { IsTrue result ↔ (least (declaration_of options.now).positionals ≤ 0)
        × (list_any (λ p. has_list p) (positionals_of options.now) ≡ false)
        × (list_any (λ o. o.required) (options_of options.now) ≡ false)
        × (list_any (λ o. is_some o.exclusive) (options_of options.now) ≡ false)
        × (list_any (λ o. is_some o.default) (options_of options.now) ≡ false) }
{
    if options.has_defaults() {
        return false;
    }
    is_complete(options, 0)
}

// The mistake at the end of a line of which this was read, with `count` positionals: something is
// missing, a word is not in its list, or two options exclude each other.
fn end_mistake<'a, F, V, P, M, S>(
    options: &Options<'a, F, V, P, M, S>,
    parsed: &[Parsed<F, V, P, M, S>],
    count: usize,
    seen: &[usize],
) -> Result<Option<Mistake<'a>>, AllocError>
    ensures { let d = declaration_of options.now in let words = parsed_words parsed.now in
        IfOk result (λ found. count ≡ length words → IsWithin count (most d.positionals)
        → MatchOption found (IsRight d words seen.now)
        (λ mistake. IsWrong d words seen.now mistake)) }
{
    if is_complete(options, count) {
        return Ok(None);
    }
    if count < options.least() {
        let placeholder = argument_placeholder(options.positionals(), count);
        return Ok(Some(Mistake::MissingArgument(placeholder)));
    }
    if let Some(mistake) = invalid_argument(options, parsed)? {
        return Ok(Some(mistake));
    }
    if let Some(names) = missing_option(options, seen) {
        return Ok(Some(Mistake::MissingOption(names)));
    }
    match exclusive_options(options, seen) {
        Some((names, others)) => Ok(Some(Mistake::Exclusive(names, others))),
        None => Ok(None),
    }
}

// ---- defaults

// Adds the option at this index with its default to `defaults`, if it has one and the index is not
// among `seen`.
fn add_default<F: Drop, V: Copy, P: Drop, M: Drop, S: Drop>(
    alloc: Global,
    option: &Declared<'_, F, V, M, S>,
    index: usize,
    seen: &[usize],
    defaults: &mut Vec<Parsed<F, V, P, M, S>>,
) -> Result<(), AllocError>
    ensures { OnOk result ((options : List (Declared F V M S)) (l : List legal.Parsed)
        → is_sound (map option_view options) ≡ true → slice_get options index ≡ Some option.now
        → AreSeen (map option_view options) l seen.now
        → (own : List (Parsed F V P M S)) × (defaults.new.items ≡ defaults.old.items ++ own)
        × AreParsedAs options (default_beside l index (option_view option.now)) own) }
{
    let Some(default) = option.default else {
        return Ok(());
    };
    if is_among(index, seen) {
        return Ok(());
    }
    match option.kind {
        declared::Kind::Value(key, _) => {
            let word = OsString::from_text(alloc, default)?;
            defaults.push(Parsed::Value(key, word))?;
            Ok(())
        }
        // No other option has a default.
        _ => Ok(()),
    }
}

// The options that have a default and whose index is not among `seen`, with their defaults.
fn defaults_beside<F: Drop, V: Copy, P: Drop, M: Drop, S: Drop>(
    alloc: Global,
    options: &[Declared<'_, F, V, M, S>],
    seen: &[usize],
) -> Result<Vec<Parsed<F, V, P, M, S>>, AllocError>
    requires { is_sound (map option_view options.now) ≡ true }
    ensures { IfOk result (λ defaults. (l : List legal.Parsed)
        → AreSeen (map option_view options.now) l seen.now
        → AreParsedAs options.now (defaults_beside l 0 (map option_view options.now)) defaults.items) }
{
    let mut defaults = Vec::new(alloc);
    for (index, option) in options.iter().enumerate() {
        add_default(alloc, option, index, seen, &mut defaults)?;
    }
    Ok(defaults)
}

// What a legal line means of which this was read: the defaults of the options whose index is not
// among `seen` come before it. It is not inlined, since few programs have defaults.
#[inline(never)]
fn after_defaults<'a, F: Drop, V: Copy, P: Drop, M: Drop, S: Drop>(
    alloc: Global,
    options: &Options<'a, F, V, P, M, S>,
    seen: &[usize],
    parsed: Vec<Parsed<F, V, P, M, S>>,
) -> Result<Vec<Parsed<F, V, P, M, S>>, AllocError>
    ensures { IfOk result (λ all. (l : List legal.Parsed)
        → AreSeen (declaration_of options.now).options l seen.now
        → AreParsedAs (options_of options.now) l parsed.items
        → AreReadAs (options_of options.now) l all.items
        × (positional_keys all.items ≡ positional_keys parsed.items)) }
{
    let mut all = defaults_beside(alloc, options.options(), seen)?;
    let mut parsed = parsed;
    all.append(&mut parsed)?;
    Ok(all)
}

// The same, by one test if no option of the declaration has a default.
#[inline(always)]
fn with_defaults<'a, F: Drop, V: Copy, P: Drop, M: Drop, S: Drop>(
    alloc: Global,
    options: &Options<'a, F, V, P, M, S>,
    seen: &[usize],
    parsed: Vec<Parsed<F, V, P, M, S>>,
) -> Result<Vec<Parsed<F, V, P, M, S>>, AllocError>
    ensures { IfOk result (λ all. (l : List legal.Parsed)
        → AreSeen (declaration_of options.now).options l seen.now
        → AreParsedAs (options_of options.now) l parsed.items
        → AreReadAs (options_of options.now) l all.items
        × (positional_keys all.items ≡ positional_keys parsed.items)) }
{
    if !options.has_defaults() {
        return Ok(parsed);
    }
    after_defaults(alloc, options, seen, parsed)
}

// ---- a line

// How the reading ends at the option that was read last, which asks for this. A value joined to it
// is a mistake.
fn ask<'a, F, V, P, M, S>(
    parser: &mut Parser,
    options: &Options<'a, F, V, P, M, S>,
    asked: Asked<'a>,
) -> Result<Ended<'a>, AllocError>
    ensures { let d = declaration_of options.now in IfOk result (λ ended.
        (words : List (List ℕ)) (begins : RestStart) (u : UnreadLine) (count : ℕ) (seen : List ℕ)
        (parsed : List (Parsed F V P M S)) (s : legal.Parsed)
        → HasRead options.now begins (start d.short_equals words) u count seen parsed
        → ReadsParsed d count u s parser.old → counts s ≡ 0 → refused_value d.options s ≡ None
        → asked_by d.options s ≡ Some (asked_view asked.entry)
        → HasEnded options.now words begins count seen parsed ended parser.new) }
{
    match parser.advance() {
        Ok(_) => Ok(Ended::Asked(asked)),
        Err(refused) => match refused {
            Refusal::UnexpectedValue { option, value } => {
                Ok(Ended::Mistake(Mistake::UnexpectedValue { option, value }))
            }
            Refusal::OutOfMemory => Err(AllocError),
            Refusal::MissingValue(_) => unreachable!(),
        },
    }
}

// Reads a line by keys, up to one positional more than the declaration allows or the first one after
// the separator, if a rest begins with that, and puts what is read into `read`.
//
// The caller owns `read`, so that this function has little to drop on each way out, and its proof
// stays cheap. It, `refused_for` and `line_of` are always inlined for speed: a call would hand over
// what was read, which would then stay in memory and not in registers while the line is read.
#[inline(always)]
pub(crate) fn read_keys<'a, F: Copy, V: Copy, P: Copy, M: Copy, S: Copy>(
    alloc: Global,
    parser: &mut Parser,
    options: &Options<'a, F, V, P, M, S>,
    begins: RestStart,
    read: &mut Read<F, V, P, M, S>,
) -> Result<Ended<'a>, AllocError>
    requires line { IsLine parser.old }
    requires before { parser.old.ended ≡ false }
    requires nothing { IsNothing read.old }
    ensures { IfOk result (λ ended. (words : List (List ℕ))
        → parser.old ≡ start (declaration_of options.now).short_equals words
        → HasEnded options.now words begins read.new.count read.new.seen.items
        read.new.parsed.items ended parser.new) }
{
    let limit = options.most();
    let declared = options.options();
    loop {
        match read_next(parser, options)? {
            Outcome::Option(index) => {
                let option = &declared[index];
                match read_by_key(alloc, parser, option)? {
                    Ok(ByKey::Parsed(own)) => {
                        read.parsed.push(own)?;
                        note(is_noted(option), index, &mut read.seen)?;
                    }
                    Ok(ByKey::Asked(asked)) => return ask(parser, options, asked),
                    Err(mistake) => return Ok(Ended::Mistake(mistake)),
                }
            }
            Outcome::Positional(word) => {
                if is_separated(begins, parser) {
                    return Ok(Ended::Positional(word));
                }
                if is_full(limit, read.count) {
                    return Ok(Ended::Positional(word));
                }
                let key = first_key(options.positionals());
                read.parsed.push(Parsed::Positional(key, word))?;
                read.count += 1;
            }
            Outcome::End => return Ok(Ended::End),
            Outcome::Undeclared(short) => {
                let mistake = unknown_option(alloc, parser, options, short)?;
                return Ok(Ended::Mistake(mistake));
            }
            Outcome::Unexpected(option, value) => {
                // The option that has the value was read last.
                let before = read.parsed.len().saturating_sub(1);
                read.parsed.truncate(before);
                return Ok(Ended::Mistake(Mistake::UnexpectedValue { option, value }));
            }
        }
    }
}

// The refusal of a line for this mistake, before which it means this.
#[inline(always)]
pub(crate) fn refused_for<'a, F, V, P: Copy, M, S>(
    options: &Options<'a, F, V, P, M, S>,
    mut before: Vec<Parsed<F, V, P, M, S>>,
    mistake: Mistake<'a>,
) -> Refused<'a, F, V, P, M, S>
    ensures { (words : List (List ℕ))
        (stopped : HasStopped options.now words before.items mistake.entry)
        → (refused : IsRefused options.now words result) × (refused.why ≡ stopped.why) }
{
    give_keys(options.positionals(), &mut before);
    Refused {
        program: options.program(),
        help: options.help_names(),
        before,
        mistake,
    }
}

// The result for a line of which this was read. It is separate from `read_line`, which drops the
// parser, so that both proofs stay cheap.
#[inline(always)]
pub(crate) fn line_of<'a, F: Drop, V: Copy, P: Copy, M: Drop, S: Drop>(
    alloc: Global,
    options: &Options<'a, F, V, P, M, S>,
    read: Read<F, V, P, M, S>,
    ended: Ended<'a>,
) -> Result<Line<'a, F, V, P, M, S>, AllocError>
    ensures { (words : List (List ℕ)) (v : UnreadLine)
        → HasEnded options.now words RestStart.Surplus
        read.count read.seen.items read.parsed.items ended.entry v
        → IfOk result (λ line. IsLineRead options.now words line) }
{
    let Read {
        mut parsed,
        seen,
        count,
    } = read;
    match ended {
        Ended::End => match end_mistake(options, &parsed, count, &seen)? {
            Some(mistake) => Ok(Line::Refused(refused_for(options, parsed, mistake))),
            None => {
                give_keys(options.positionals(), &mut parsed);
                let all = with_defaults(alloc, options, &seen, parsed)?;
                Ok(Line::Parsed(all))
            }
        },
        Ended::Positional(word) => {
            let mistake = Mistake::UnexpectedArgument(word);
            Ok(Line::Refused(refused_for(options, parsed, mistake)))
        }
        Ended::Asked(asked) => Ok(Line::Asked(asked)),
        Ended::Mistake(mistake) => Ok(Line::Refused(refused_for(options, parsed, mistake))),
    }
}

// Reads a whole line by keys.
fn read_line<'a, F: Copy, V: Copy, P: Copy, M: Copy, S: Copy>(
    alloc: Global,
    options: &Options<'a, F, V, P, M, S>,
    words: Vec<OsString>,
) -> Result<Line<'a, F, V, P, M, S>, AllocError>
    ensures { IfOk result (λ line. IsLineRead options.now words.items line) }
{
    let room = words.len().min(FIRST_ROOM);
    let mut parser = options.parser_of(words);
    let mut read = nothing_read(alloc, room)?;
    let ended = read_keys(alloc, &mut parser, options, RestStart::Surplus, &mut read)?;
    line_of(alloc, options, read, ended)
}

impl<'a, F, V, P, M, S> Options<'a, F, V, P, M, S> {
    ghost use Rattle.std.specs.Prelude.{◌≡◌};
    ghost use Rattle.lexopt_line_spec.specs.Readings.{start};
    ghost use Rattle.lexopt_declaration.specs.Lookups.{help_names};
    ghost use Rattle.lexopt_options.specs.Declarations.{declaration_of, options_of};

    // A parser of these words, none of which has been read, with the `short_equals` of the
    // declaration.
    pub(crate) fn parser_of(&self, words: Vec<OsString>) -> Parser
        ensures { result ≡ start (declaration_of self.now).short_equals words.items }
    {
        let mut parser = Parser::from_vec(words);
        parser.set_short_equals(self.has_short_equals());
        parser
    }

    // The names of the first option that asks for the help.
    pub(crate) fn help_names(&self) -> Option<Names<'a>>
        ensures { result ≡ help_names (options_of self.now) }
    {
        help_names_of(self.options())
    }
}

impl<'a, F: Copy, V: Copy, P: Copy, M: Copy, S: Copy> Options<'a, F, V, P, M, S> {
    ghost use Rattle.std.specs.Prelude.{◌≡◌, ℕ, List, IfOk, map};
    ghost use Rattle.lexopt_options_spec.specs.Legal as legal;
    ghost use Rattle.lexopt_options_spec.specs.Legal.{Means};
    ghost use Rattle.lexopt_options.specs.Declarations.{declaration_of};
    ghost use Rattle.lexopt_options.specs.Lines.{IsLineOf, IsLineRead};

    /// Reads a whole line.
    ///
    /// The words are without the name of the program. This call consumes them. The forms are those
    /// that lexopt documents: `-o value`, `-ovalue`, `-o=value`, `--name value`, `--name=value`,
    /// and flags in a cluster; `docs/behaviour.md` has them all. What a legal line means comes after
    /// the defaults of the options that it does not have, which are in the order of the declaration.
    /// If an option that asks for the help or the version occurs before any mistake, the line is
    /// [`Line::Asked`], whatever comes after it. A refusal has the first mistake, and what the line
    /// means before it, without defaults.
    ///
    /// # Errors
    ///
    /// Returns `AllocError` if an allocation fails. A mistake is [`Line::Refused`].
    ///
    /// # Examples
    ///
    /// With the declaration of [`declare!`](crate::declare):
    ///
    /// ```rust
    /// let mut words = Vec::new(alloc);
    /// for word in ["-vo=x", "--mode", "fast", "a", "--", "-b"] {
    ///     words.push(OsString::from_text(alloc, word)?)?;
    /// }
    /// match options.read(alloc, words)? {
    ///     Line::Parsed(parsed) => {
    ///         // Flag(Verbose), Value(Output, "x"), Value(Mode, "fast"),
    ///         // Positional(File, "a"), Positional(File, "-b")
    ///     }
    ///     Line::Asked(Asked::Help) => rt.print(options.help(alloc, Detail::Full, WIDTH)?)?,
    ///     Line::Asked(Asked::Version(version)) => rt.println(version)?,
    ///     Line::Refused(refused) => rt.eprintln(refused)?,
    /// }
    /// ```
    pub fn read(
        &self,
        alloc: Global,
        words: Vec<OsString>,
    ) -> Result<Line<'a, F, V, P, M, S>, AllocError>
        // The list is the one that the words legally spell, by the keys: declared options, each
        // required one and no two that exclude each other among them, and a number of positionals
        // that the declaration allows, all with values and words that they accept; and it asks for
        // nothing. The defaults of the options that are not in it come before it. Or the words ask
        // for the help or the version before any mistake. Or their reading stops at this mistake,
        // before which this was read and nothing was asked for.
        ensures line { IfOk result (λ line. IsLineRead self.now words.items line) }

        // If the words legally spell such a list, this is that list after the defaults, or what it
        // asks for; the line is not refused.
        ensures answered { (l : List legal.Parsed) → Means (declaration_of self.now) words.items l
            → IfOk result (λ line. IsLineOf self.now l line) }
    {
        // There may be nothing to read, so no parser is made.
        if words.is_empty() && means_nothing(self) {
            return Ok(Line::Parsed(Vec::new(alloc)));
        }
        read_line(alloc, self, words)
    }
}

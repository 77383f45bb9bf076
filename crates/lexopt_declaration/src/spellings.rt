//! The spellings of options that are offered where something is typed, and the values in lists that
//! begin with it.
ghost use Rattle.std.specs.Prelude.{◌≡◌, ◌∷◌, ◌++◌, [], IfOk, OnOk, false, filter, map, nat_eq};
ghost use Rattle.std.specs.Prelude.{ℕ, List, option_map, string_bytes};
ghost use Rattle.std.specs.List.{flat_map, list_any, starts_with};
ghost use Rattle.lexopt_line_spec.specs.Table as table;
ghost use Rattle.lexopt_options_spec.specs.Completion as spec;
ghost use Rattle.lexopt_options_spec.specs.Completion.{AreText, is_free, offered, spelled};
ghost use Rattle.lexopt_options_spec.specs.Completion.{spelled_by, spelling, spellings_if};
ghost use Rattle.lexopt_options_spec.specs.Legal as legal;
ghost use Rattle.lexopt_declaration.specs.Models.{names_list, option_view, spelling_view};
ghost use Rattle.lexopt_declaration.specs.Models.{words_view};

use crate::declaration::{Declared, Names, Words, are_text};
use crate::lookup::are_same;
use std::alloc::{AllocError, Global};

/// A word that is an option without a value.
#[derive(Debug, Drop)]
pub struct Spelling<'a> {
    /// The word: `-c` or `--name`.
    pub text: String,
    /// The help text of the option.
    pub help: &'a str,
}

// The word `-c` of a character.
fn short_spelling(alloc: Global, character: char) -> Result<String, AllocError>
    ensures { IfOk result (λ s. string_bytes s ≡ spelling (table.short character)) }
{
    format!(in alloc; "-{character}")
}

// The word `--name` of a name.
fn long_spelling(alloc: Global, name: &str) -> Result<String, AllocError>
    ensures { IfOk result (λ s. string_bytes s ≡ spelling (table.long name.now)) }
{
    format!(in alloc; "--{name}")
}

// Whether a spelling is offered: one that is shown, if it begins with what was typed; any other, if
// it was typed whole.
fn is_offered(text: &str, shown: bool, typed: &[u8]) -> bool
    ensures { (help : List ℕ) → result ≡ spec.is_offered typed.now
        (record { text = text.now; help = help; shown = shown }) }
{
    if shown {
        text.as_bytes().starts_with(typed)
    } else {
        text.as_bytes() == typed
    }
}

// Adds a spelling of an option if it is offered.
fn add_spelling<'a>(
    spellings: &mut Vec<Spelling<'a>>,
    text: String,
    help: &'a str,
    shown: bool,
    typed: &[u8],
) -> Result<(), AllocError>
    ensures { OnOk result (map spelling_view spellings.new.items
        ≡ map spelling_view spellings.old.items ++ offered typed.now
        (record { text = string_bytes text; help = help.now; shown = shown } ∷ [])) }
{
    if is_offered(text.as_str(), shown, typed) {
        spellings.push(Spelling { text, help })?;
    }
    Ok(())
}

// Adds the spellings of these names of an option that are offered.
fn add_names<'a>(
    alloc: Global,
    spellings: &mut Vec<Spelling<'a>>,
    names: Names<'_>,
    help: &'a str,
    shown: bool,
    typed: &[u8],
) -> Result<(), AllocError>
    ensures { OnOk result (map spelling_view spellings.new.items
        ≡ map spelling_view spellings.old.items
        ++ offered typed.now (spelled help.now shown (names_list names.entry))) }
{
    if let Some(character) = names.short() {
        let text = short_spelling(alloc, character)?;
        add_spelling(spellings, text, help, shown, typed)?;
    }
    if let Some(name) = names.long() {
        let text = long_spelling(alloc, name)?;
        add_spelling(spellings, text, help, shown, typed)?;
    }
    Ok(())
}

// Adds the spellings of these aliases of an option that are offered.
fn add_aliases<'a>(
    alloc: Global,
    spellings: &mut Vec<Spelling<'a>>,
    aliases: &[Names<'_>],
    help: &'a str,
    typed: &[u8],
) -> Result<(), AllocError>
    ensures { OnOk result (map spelling_view spellings.new.items
        ≡ map spelling_view spellings.old.items
        ++ offered typed.now (spelled help.now false (flat_map names_list aliases.now))) }
{
    for names in aliases {
        add_names(alloc, spellings, *names, help, false, typed)?;
    }
    Ok(())
}

// Adds the spellings of an option that are offered.
fn add_spellings<'a, F, V, M, S>(
    alloc: Global,
    spellings: &mut Vec<Spelling<'a>>,
    option: &Declared<'a, F, V, M, S>,
    typed: &[u8],
) -> Result<(), AllocError>
    ensures { OnOk result (map spelling_view spellings.new.items
        ≡ map spelling_view spellings.old.items
        ++ offered typed.now (spelled_by (option_view option.now))) }
{
    let shown = !option.hidden;
    add_names(alloc, spellings, option.names, option.help, shown, typed)?;
    add_aliases(alloc, spellings, option.aliases, option.help, typed)
}

// The exclusive group of the option at this index, if it is in one.
fn exclusive_at<'a, F, V, M, S>(
    options: &[Declared<'a, F, V, M, S>],
    index: usize,
) -> Option<&'a str>
    ensures { option_map (λ own. own.now) result
        ≡ legal.exclusive_at (map option_view options.now) index }
{
    match options.get(index) {
        Some(option) => option.exclusive,
        None => None,
    }
}

// Whether the options at these indices exclude each other.
fn exclude<F, V, M, S>(options: &[Declared<'_, F, V, M, S>], index: usize, other: usize) -> bool
    ensures { result ≡ legal.exclude (map option_view options.now) index other }
{
    other != index && are_same(exclusive_at(options, index), exclusive_at(options, other))
}

// Whether an option at one of these indices excludes the option at this one.
fn is_excluded<F, V, M, S>(
    options: &[Declared<'_, F, V, M, S>],
    indices: &[usize],
    index: usize,
) -> bool
    ensures { result
        ≡ list_any (λ k. legal.exclude (map option_view options.now) k index) indices.now }
{
    indices.iter().any(|other| exclude(options, *other, index))
}

/// Returns those spellings of options that are offered where something was typed, in order, without
/// those of options that an option at one of these indices excludes.
///
/// # Errors
///
/// Returns `AllocError` if an allocation fails.
pub fn spellings_of<'a, F, V, M, S>(
    alloc: Global,
    options: &[Declared<'a, F, V, M, S>],
    indices: &[usize],
    typed: &[u8],
) -> Result<Vec<Spelling<'a>>, AllocError>
    ensures text { AreText (map option_view options.now) }
    ensures spellings { let all = map option_view options.now in
        IfOk result (λ found. map spelling_view found.items
        ≡ offered typed.now (spellings_if (is_free all indices.now) all)) }
{
    are_text(options);
    let mut spellings = Vec::new(alloc);
    for (index, option) in options.iter().enumerate() {
        if !is_excluded(options, indices, index) {
            add_spellings(alloc, &mut spellings, option, typed)?;
        }
    }
    Ok(spellings)
}

// Adds a word if it begins with what was typed.
fn add_word(found: &mut Vec<String>, word: String, typed: &[u8]) -> Result<(), AllocError>
    ensures { OnOk result (map string_bytes found.new.items ≡ map string_bytes found.old.items
        ++ filter (λ s. starts_with nat_eq s typed.now) (string_bytes word ∷ [])) }
{
    if word.as_bytes().starts_with(typed) {
        found.push(word)?;
    }
    Ok(())
}

/// Adds the values in a list, if there is one, that begin with what was typed.
///
/// # Errors
///
/// Returns `AllocError` if an allocation fails.
pub fn add_values(
    alloc: Global,
    found: &mut Vec<String>,
    words: Words<'_>,
    typed: &[u8],
) -> Result<(), AllocError>
    ensures { OnOk result (map string_bytes found.new.items ≡ map string_bytes found.old.items
        ++ filter (λ s. starts_with nat_eq s typed.now) (spec.list_of (words_view words.entry))) }
{
    add_joined(alloc, found, "", words, typed)
}

// The word with this value after `before`.
fn joined_word(alloc: Global, before: &str, value: &str) -> Result<String, AllocError>
    ensures { IfOk result (λ s. string_bytes s ≡ before.now ++ value.now) }
{
    format!(in alloc; "{before}{value}")
}

// Adds the words that have one of these values after `before`, and begin with what was typed.
fn add_joined_words(
    alloc: Global,
    found: &mut Vec<String>,
    before: &str,
    values: &[&str],
    typed: &[u8],
) -> Result<(), AllocError>
    ensures { OnOk result (map string_bytes found.new.items ≡ map string_bytes found.old.items
        ++ filter (λ s. starts_with nat_eq s typed.now)
        (map (λ v. before.now ++ v) (map (λ v. v.now) values.now))) }
{
    for value in values {
        add_word(found, joined_word(alloc, before, value)?, typed)?;
    }
    Ok(())
}

/// Adds the words that have a value in a list, if there is one, after `before`, and begin with what
/// was typed.
///
/// # Errors
///
/// Returns `AllocError` if an allocation fails.
pub fn add_joined(
    alloc: Global,
    found: &mut Vec<String>,
    before: &str,
    words: Words<'_>,
    typed: &[u8],
) -> Result<(), AllocError>
    ensures { OnOk result (map string_bytes found.new.items ≡ map string_bytes found.old.items
        ++ filter (λ s. starts_with nat_eq s typed.now)
        (map (λ v. before.now ++ v) (spec.list_of (words_view words.entry)))) }
{
    match words {
        Words::Listed(values) => add_joined_words(alloc, found, before, values, typed),
        Words::Files | Words::Directories | Words::Text => Ok(()),
    }
}

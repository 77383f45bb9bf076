//! The help of declared options, in the form that the GNU Coding Standards give `--help`, and laid
//! out like that of `ls`. The file of this name in `lexopt_commands` adds the commands.
ghost use Rattle.std.specs.Prelude.{◌≡◌, ◌≤◌, ◌+◌, ◌-◌, ◌∷◌, ◌++◌, ◌&&◌, ◌==◌, [], List, ℕ, IfOk, OnOk};
ghost use Rattle.std.specs.Prelude.{if◌then◌else◌, codes, is_none, length, map, nat_lt, not, option_map};
ghost use Rattle.std.specs.Prelude.{string_bytes};
ghost use Rattle.std.specs.List.{AllZip, concat, flat_map, list_any, starts_with};
ghost use Rattle.std.specs.Option.{is_some};
ghost use Rattle.lexopt_options_spec.specs.Legal as legal;
ghost use Rattle.lexopt_options_spec.specs.Help as spec;
ghost use Rattle.lexopt_options_spec.specs.Help.{IsEntry, IsHelp, IsOption, IsParagraph, IsUsage};
ghost use Rattle.lexopt_options_spec.specs.Help.{IsUsageLine, Wraps};
ghost use Rattle.lexopt_declaration.specs.Models.{arity_kind, arity_placeholder, beside_view, detail_view};
ghost use Rattle.lexopt_declaration.specs.Models.{long_name};
ghost use Rattle.lexopt_declaration.specs.Models.{option_view, positional_view, short_name};
ghost use Rattle.lexopt_declaration.specs.Models.{words_view};
ghost use Rattle.lexopt_declaration.specs.Declarations.{declaration_view};

use crate::declaration::{Arity, Beside, Count, Declaration, Declared, Names, Positional, Words};
use crate::listed::Listed;
use crate::lookup::{are_same, has_negation, has_short};
use crate::message::Escaped;
use bstr::ByteSlice;
use std::alloc::{AllocError, Global};
use std::fmt::Write;

/// How much the help tells.
#[derive(Debug, Clone, Copy, PartialEq, Eq)]
pub enum Detail {
    /// Without the longer help texts of options ([`Declared::details`]), and without the epilogue.
    Brief,
    /// All of it.
    Full,
}

/// The width of the help, in columns, for a terminal whose width is not known.
pub const WIDTH: usize = 80;

// The column where the words of the usage line begin, after `Usage: `.
const USAGE_COLUMN: usize = 7;

// How many columns a text takes: one for each grapheme cluster, which a person sees as a character.
fn columns(text: &str) -> usize
    ensures count { result ≡ spec.columns text.now }
    ensures bound { result ≤ length text.now }
{
    text.as_bytes().graphemes().count()
}

// Adds `count` blanks.
fn push_blanks(out: &mut String, count: usize) -> Result<(), AllocError>
    ensures { IfOk result (λ _. string_bytes out.new ≡ string_bytes out.old ++ spec.blanks count) }
{
    for _ in 0..count {
        out.push(' ')?;
    }
    Ok(())
}

// Adds what comes after the character of an option that has no long name.
fn push_after_short(out: &mut String, arity: Arity<'_>) -> Result<(), AllocError>
    ensures { IfOk result (λ _. string_bytes out.new ≡ string_bytes out.old
        ++ spec.after_short (arity_kind arity.entry) (arity_placeholder arity.entry)) }
{
    match arity {
        Arity::Zero => Ok(()),
        Arity::One(value) => write!(out, " {value}"),
        Arity::Optional(value) => write!(out, "[{value}]"),
        Arity::Several(value) => write!(out, " {value}..."),
    }
}

// Adds what comes after the character of an option that has a long name.
fn push_before_long(out: &mut String, arity: Arity<'_>) -> Result<(), AllocError>
    ensures { IfOk result (λ _. string_bytes out.new ≡ string_bytes out.old
        ++ spec.before_long (arity_kind arity.entry) (arity_placeholder arity.entry)) }
{
    match arity {
        Arity::Optional(value) => write!(out, "[{value}]"),
        Arity::Zero | Arity::One(_) | Arity::Several(_) => Ok(()),
    }
}

// Adds what comes after the long name of an option.
fn push_after_long(out: &mut String, arity: Arity<'_>) -> Result<(), AllocError>
    ensures { IfOk result (λ _. string_bytes out.new ≡ string_bytes out.old
        ++ spec.after_long (arity_kind arity.entry) (arity_placeholder arity.entry)) }
{
    match arity {
        Arity::Zero => Ok(()),
        Arity::One(value) => write!(out, "={value}"),
        Arity::Optional(value) => write!(out, "[={value}]"),
        Arity::Several(value) => write!(out, " {value}..."),
    }
}

// Adds a long name with its dashes, its negation if that is shown beside it, and what comes after it.
fn push_long(
    out: &mut String,
    beside: Beside,
    name: &str,
    arity: Arity<'_>,
) -> Result<(), AllocError>
    ensures { IfOk result (λ _. string_bytes out.new ≡ string_bytes out.old
        ++ (spec.long_shown (beside_view beside) name.now
        ++ spec.after_long (arity_kind arity.entry) (arity_placeholder arity.entry))) }
{
    match beside {
        Beside::Negation => write!(out, "--[no-]{name}")?,
        Beside::Flag(_) | Beside::Nothing => write!(out, "--{name}")?,
    }
    push_after_long(out, arity)
}

// Adds what comes before a long name, if the option has no character.
fn push_before_alone(out: &mut String, beside: Beside) -> Result<(), AllocError>
    ensures { IfOk result (λ _. string_bytes out.new
        ≡ string_bytes out.old ++ spec.before_alone (beside_view beside)) }
{
    match beside {
        Beside::Flag(character) => write!(out, "-{character}, "),
        Beside::Negation | Beside::Nothing => out.push_str("    "),
    }
}

// Adds the label of an option.
fn push_label(
    out: &mut String,
    beside: Beside,
    names: Names<'_>,
    arity: Arity<'_>,
) -> Result<(), AllocError>
    ensures { IfOk result (λ _. string_bytes out.new ≡ string_bytes out.old
        ++ spec.label_of (beside_view beside) (short_name names.entry) (long_name names.entry)
        (arity_kind arity.entry) (arity_placeholder arity.entry)) }
{
    match names {
        Names::Short(character) => {
            write!(out, "-{character}")?;
            push_after_short(out, arity)
        }
        Names::Long(name) => {
            push_before_alone(out, beside)?;
            push_long(out, beside, name, arity)
        }
        Names::Both(character, name) => {
            write!(out, "-{character}")?;
            push_before_long(out, arity)?;
            out.push_str(", ")?;
            push_long(out, beside, name, arity)
        }
    }
}

// The words of a text: what is between its blanks.
fn words_of<'a>(alloc: Global, text: &'a str) -> Result<Vec<&'a str>, AllocError>
    ensures { IfOk result (λ words. map (λ w. w.now) words.items ≡ spec.words_of text.now) }
{
    text.split(' ')
        .filter(|word| !word.is_empty())
        .collect(alloc)
}

// The column where the text of an entry begins, counted from 0.
fn help_column(width: usize) -> usize
    ensures value { result ≡ spec.help_column width }
    ensures bound { result ≤ width }
{
    (width / 3).min(24)
}

// Adds the end of a line, and blanks up to this column of the next.
fn push_break(out: &mut String, column: usize) -> Result<(), AllocError>
    ensures { IfOk result (λ _. string_bytes out.new
        ≡ string_bytes out.old ++ spec.line_feed ∷ spec.blanks column) }
{
    out.push('\n')?;
    push_blanks(out, column)
}

// Adds a word: after a blank if `room` columns have room for both, otherwise on a new line, which
// has `limit` columns after `column` blanks. Returns how many columns are left on the line.
fn push_word(
    out: &mut String,
    word: &str,
    room: usize,
    limit: usize,
    column: usize,
) -> Result<usize, AllocError>
    ensures text { IfOk result (λ _. string_bytes out.new ≡ string_bytes out.old
        ++ (if nat_lt (spec.columns word.now) room then spec.blank ∷ word.now
        else (spec.line_feed ∷ spec.blanks column ++ word.now))) }
    ensures room { IfOk result (λ left. left ≡ (if nat_lt (spec.columns word.now) room
        then room - (spec.columns word.now + 1) else limit - spec.columns word.now)) }
{
    let needed = columns(word);
    if needed < room {
        out.push(' ')?;
        out.push_str(word)?;
        return Ok(room - needed - 1);
    }
    push_break(out, column)?;
    out.push_str(word)?;
    Ok(limit.saturating_sub(needed))
}

// Adds words on lines of `limit` columns. Each line but the first has `column` blanks before it.
fn push_lines(
    out: &mut String,
    first: &str,
    others: &[&str],
    limit: usize,
    column: usize,
) -> Result<(), AllocError>
    ensures { IfOk result (λ _. (lines : List spec.Line)
        × Wraps limit (first.now ∷ map (λ w. w.now) others.now) lines
        × (string_bytes out.new ≡ string_bytes out.old ++ spec.below column lines)) }
{
    out.push_str(first)?;
    let mut room = limit.saturating_sub(columns(first));
    for word in others {
        room = push_word(out, word, room, limit, column)?;
    }
    Ok(())
}

// Adds what comes between a label and its help text.
fn push_gap(out: &mut String, label: &str, column: usize) -> Result<(), AllocError>
    ensures { IfOk result (λ _. string_bytes out.new
        ≡ string_bytes out.old ++ spec.gap column label.now) }
{
    let room = column.saturating_sub(columns(label));
    if room >= 4 {
        push_blanks(out, room - 2)
    } else {
        push_break(out, column)
    }
}

// Adds what comes after a label: its help text, if it has a word.
fn push_beside(
    out: &mut String,
    label: &str,
    words: &[&str],
    limit: usize,
    column: usize,
) -> Result<(), AllocError>
    ensures { IfOk result (λ _. (lines : List spec.Line)
        × Wraps limit (map (λ w. w.now) words.now) lines
        × (string_bytes out.new ≡ string_bytes out.old ++ spec.beside column label.now lines)) }
{
    let [first, others @ ..] = words else {
        return Ok(());
    };
    push_gap(out, label, column)?;
    push_lines(out, first, others, limit, column)
}

// Adds a label, and these words beside it.
fn push_labelled(
    out: &mut String,
    label: &str,
    words: &[&str],
    width: usize,
) -> Result<(), AllocError>
    ensures { IfOk result (λ _. (lines : List spec.Line)
        × Wraps (width - spec.help_column width) (map (λ w. w.now) words.now) lines
        × (string_bytes out.new
        ≡ string_bytes out.old ++ spec.entry (spec.help_column width) label.now lines)) }
{
    let column = help_column(width);
    out.push_str("  ")?;
    out.push_str(label)?;
    push_beside(out, label, words, width - column, column)?;
    out.push('\n')
}

// Whether a text ends with a full stop.
fn is_sentence(text: &str) -> bool
    ensures { result ≡ spec.is_sentence text.now }
{
    text.as_bytes().ends_with(b".")
}

// The help text, and the list if there is one.
fn with_list(alloc: Global, help: &str, words: Words<'_>) -> Result<String, AllocError>
    ensures { IfOk result (λ text.
        string_bytes text ≡ spec.with_list help.now (words_view words.entry)) }
{
    match words {
        Words::Files | Words::Directories | Words::Text => String::from_str(alloc, help),
        Words::Listed(values) if help.is_empty() => format!(in alloc; "one of {}", Listed(values)),
        Words::Listed(values) if is_sentence(help) => {
            format!(in alloc; "{help} One of {}.", Listed(values))
        }
        Words::Listed(values) => format!(in alloc; "{help}: one of {}", Listed(values)),
    }
}

// The text of an entry: the help text, and the list unless the help leaves it out.
fn told(alloc: Global, hides_list: bool, help: &str, words: Words<'_>) -> Result<String, AllocError>
    ensures { IfOk result (λ text.
        string_bytes text ≡ spec.told hides_list help.now (words_view words.entry)) }
{
    if hides_list {
        return String::from_str(alloc, help);
    }
    with_list(alloc, help, words)
}

/// Adds an entry: a label, and this text beside it, wrapped to `width` columns.
///
/// # Errors
///
/// Returns `AllocError` if an allocation fails.
pub fn push_described(
    out: &mut String,
    alloc: Global,
    label: &str,
    help: &str,
    width: usize,
) -> Result<(), AllocError>
    ensures { IfOk result (λ _. (text : List ℕ) × IsEntry width label.now help.now text
        × (string_bytes out.new ≡ string_bytes out.old ++ text)) }
{
    let words = words_of(alloc, help)?;
    push_labelled(out, label, words.as_slice(), width)
}

// Adds a heading, if there is one, on a line of its own after an empty line.
fn push_heading(out: &mut String, heading: Option<&str>) -> Result<(), AllocError>
    ensures { IfOk result (λ _. string_bytes out.new ≡ string_bytes out.old
        ++ spec.heading_lines (option_map (λ text. text.now) heading.entry)) }
{
    match heading {
        Some(heading) => write!(out, "\n{heading}:\n"),
        None => Ok(()),
    }
}

// The help text of an option: the longer one, unless there is none or the help is brief.
fn chosen<'a>(detail: Detail, help: &'a str, details: Option<&'a str>) -> &'a str
    ensures { result.now
        ≡ spec.chosen (detail_view detail) help.now (option_map (λ text. text.now) details.entry) }
{
    match detail {
        Detail::Full => details.unwrap_or(help),
        Detail::Brief => help,
    }
}

// Adds the default, if there is one.
fn push_default(text: &mut String, default: Option<&str>) -> Result<(), AllocError>
    ensures { IfOk result (λ _. string_bytes text.new
        ≡ spec.with_default (string_bytes text.old) (option_map (λ value. value.now) default.entry)) }
{
    match default {
        Some(value) => {
            let value = Escaped(value);
            write!(text, " [default: {value}]")
        }
        None => Ok(()),
    }
}

// The text of the entry of an option.
fn option_text<F, V, M, S>(
    alloc: Global,
    detail: Detail,
    option: &Declared<'_, F, V, M, S>,
) -> Result<String, AllocError>
    ensures { IfOk result (λ text. string_bytes text
        ≡ spec.option_text (detail_view detail) (option_view option.now)) }
{
    let help = chosen(detail, option.help, option.details);
    let mut text = told(alloc, option.hides_list, help, option.words)?;
    push_default(&mut text, option.default)?;
    Ok(text)
}

// Adds the heading of an option, if it has one, and its entry.
fn push_option<F, V, M, S>(
    out: &mut String,
    alloc: Global,
    detail: Detail,
    option: &Declared<'_, F, V, M, S>,
    width: usize,
) -> Result<(), AllocError>
    ensures { IfOk result (λ _. (text : List ℕ)
        × IsOption (detail_view detail) width (option_view option.now) text
        × (string_bytes out.new ≡ string_bytes out.old ++ text)) }
{
    push_heading(out, option.heading)?;
    let mut label = String::new(alloc);
    push_label(&mut label, option.beside, option.names, option.kind.arity())?;
    let text = option_text(alloc, detail, option)?;
    push_described(out, alloc, label.as_str(), text.as_str(), width)
}

// Whether the label of the first option shows the second.
fn shows<F, V, M, S>(first: &Declared<'_, F, V, M, S>, second: &Declared<'_, F, V, M, S>) -> bool
    ensures { result ≡ spec.shows (option_view first.now) (option_view second.now) }
{
    match first.beside {
        Beside::Flag(character) => match first.names {
            Names::Long(_) => has_short(second, character),
            Names::Short(_) | Names::Both(..) => false,
        },
        Beside::Negation => match first.names {
            Names::Long(name) | Names::Both(_, name) => has_negation(second, name),
            Names::Short(_) => false,
        },
        Beside::Nothing => false,
    }
}

// Whether the label of the first option, if it is not hidden, shows the second.
fn is_showing<F, V, M, S>(
    first: &Declared<'_, F, V, M, S>,
    second: &Declared<'_, F, V, M, S>,
) -> bool
    ensures { result ≡ (not first.now.hidden
        && spec.shows (option_view first.now) (option_view second.now)) }
{
    !first.hidden && shows(first, second)
}

// Whether the label of one of these options, which is not hidden, shows this one.
fn is_shown_by<F, V, M, S>(
    options: &[Declared<'_, F, V, M, S>],
    option: &Declared<'_, F, V, M, S>,
) -> bool
    ensures { result ≡ list_any (λ p. not p.hidden
        && spec.shows (option_view p) (option_view option.now)) options.now }
{
    options.iter().any(|other| is_showing(other, option))
}

// Whether this one of the options has an entry.
fn has_entry<F, V, M, S>(
    options: &[Declared<'_, F, V, M, S>],
    option: &Declared<'_, F, V, M, S>,
) -> bool
    ensures { result ≡ (not option.now.hidden
        && not (spec.is_shown_by (map option_view options.now) (option_view option.now))) }
{
    if option.hidden {
        return false;
    }
    !is_shown_by(options, option)
}

// The entries of the options that have one, each after its heading if it has one.
fn option_entries<F, V, M, S>(
    alloc: Global,
    detail: Detail,
    options: &[Declared<'_, F, V, M, S>],
    width: usize,
) -> Result<String, AllocError>
    ensures { IfOk result (λ text. (entries : List (List ℕ))
        × AllZip (IsOption (detail_view detail) width)
        (spec.entered (map option_view options.now)) entries
        × (string_bytes text ≡ concat entries)) }
{
    let mut text = String::new(alloc);
    for option in options {
        if !has_entry(options, option) {
            continue;
        }
        push_option(&mut text, alloc, detail, option, width)?;
    }
    Ok(text)
}

// Adds the entries of options after an empty line, with which a heading begins.
fn push_options_part(out: &mut String, entries: &str) -> Result<(), AllocError>
    ensures { IfOk result (λ _.
        string_bytes out.new ≡ string_bytes out.old ++ spec.options_part entries.now) }
{
    if entries.as_bytes().starts_with(b"\n") {
        return out.push_str(entries);
    }
    push_apart(out, entries)
}

/// Adds the entries of the options that have one, wrapped to `width` columns, with their headings.
/// An empty line comes before them.
///
/// # Errors
///
/// Returns `AllocError` if an allocation fails.
pub fn push_options<F, V, M, S>(
    out: &mut String,
    alloc: Global,
    detail: Detail,
    options: &[Declared<'_, F, V, M, S>],
    width: usize,
) -> Result<(), AllocError>
    ensures { IfOk result (λ _. (entries : List (List ℕ))
        × AllZip (IsOption (detail_view detail) width)
        (spec.entered (map option_view options.now)) entries
        × (string_bytes out.new ≡ string_bytes out.old ++ spec.options_part (concat entries))) }
{
    let entries = option_entries(alloc, detail, options, width)?;
    push_options_part(out, entries.as_str())
}

/// Returns the entries of the positionals that have a help text with a word, or a list that the
/// help shows, wrapped to `width` columns.
///
/// # Errors
///
/// Returns `AllocError` if an allocation fails.
pub fn positional_entries<P>(
    alloc: Global,
    positionals: &[Positional<'_, P>],
    width: usize,
) -> Result<String, AllocError>
    ensures { IfOk result (λ text. (entries : List (List ℕ))
        × AllZip (λ p. IsEntry width p.placeholder (spec.positional_text p))
        (spec.described (map positional_view positionals.now)) entries
        × (string_bytes text ≡ concat entries)) }
{
    let mut text = String::new(alloc);
    for positional in positionals {
        let told = told(
            alloc,
            positional.hides_list,
            positional.help,
            positional.words,
        )?;
        let words = words_of(alloc, told.as_str())?;
        let words = words.as_slice();
        if words.is_empty() {
            continue;
        }
        push_labelled(&mut text, positional.placeholder, words, width)?;
    }
    Ok(text)
}

/// Adds a paragraph, wrapped to `width` columns. Adds nothing if it has no word.
///
/// # Errors
///
/// Returns `AllocError` if an allocation fails.
pub fn push_paragraph(
    out: &mut String,
    alloc: Global,
    content: &str,
    width: usize,
) -> Result<(), AllocError>
    ensures { IfOk result (λ _. (text : List ℕ) × IsParagraph width content.now text
        × (string_bytes out.new ≡ string_bytes out.old ++ text)) }
{
    let words = words_of(alloc, content)?;
    let [first, others @ ..] = words.as_slice() else {
        return Ok(());
    };
    push_lines(out, first, others, width, 0)?;
    out.push('\n')
}

/// Adds a part of the help, after an empty line. Adds nothing if the part is empty.
///
/// # Errors
///
/// Returns `AllocError` if an allocation fails.
pub fn push_apart(out: &mut String, part: &str) -> Result<(), AllocError>
    ensures { IfOk result (λ _.
        string_bytes out.new ≡ string_bytes out.old ++ spec.set_apart part.now) }
{
    if part.is_empty() {
        return Ok(());
    }
    out.push('\n')?;
    out.push_str(part)
}

/// Returns the paragraphs of the epilogue that the help shows.
pub fn shown_epilogue<'a>(detail: Detail, epilogue: &'a [&'a str]) -> &'a [&'a str]
    ensures { map (λ content. content.now) result.now
        ≡ spec.shown_epilogue (detail_view detail) (map (λ content. content.now) epilogue.now) }
{
    match detail {
        Detail::Brief => &[],
        Detail::Full => epilogue,
    }
}

/// Adds the paragraphs of the epilogue, each after an empty line, wrapped to `width` columns.
///
/// # Errors
///
/// Returns `AllocError` if an allocation fails.
pub fn push_epilogue(
    out: &mut String,
    alloc: Global,
    epilogue: &[&str],
    width: usize,
) -> Result<(), AllocError>
    ensures { IfOk result (λ _. (paragraphs : List (List ℕ))
        × AllZip (IsParagraph width) (map (λ content. content.now) epilogue.now) paragraphs
        × (string_bytes out.new
        ≡ string_bytes out.old ++ flat_map spec.set_apart paragraphs)) }
{
    for content in epilogue {
        let mut paragraph = String::new(alloc);
        push_paragraph(&mut paragraph, alloc, content, width)?;
        push_apart(out, paragraph.as_str())?;
    }
    Ok(())
}

// Whether an option is neither hidden nor required, and no other excludes it.
fn is_voluntary<F, V, M, S>(option: &Declared<'_, F, V, M, S>) -> bool
    ensures { result ≡ (not option.now.hidden
        && (not option.now.required && is_none option.now.exclusive)) }
{
    !option.hidden && (!option.required && option.exclusive.is_none())
}

// Whether there is such an option among these.
fn any_voluntary<F, V, M, S>(options: &[Declared<'_, F, V, M, S>]) -> bool
    ensures { result
        ≡ list_any (λ o. not o.hidden && (not o.required && is_none o.exclusive)) options.now }
{
    options.iter().any(|option| is_voluntary(option))
}

// Adds `[OPTION]...` to the words of the usage line, if there is such an option.
fn add_options_mark<F, V, M, S>(
    alloc: Global,
    marks: &mut Vec<String>,
    options: &[Declared<'_, F, V, M, S>],
) -> Result<(), AllocError>
    ensures { OnOk result (map string_bytes marks.new.items ≡ map string_bytes marks.old.items
        ++ spec.options_mark (spec.voluntary (spec.visible (map option_view options.now)))) }
{
    if !any_voluntary(options) {
        return Ok(());
    }
    marks.push(String::from_str(alloc, "[OPTION]...")?)?;
    Ok(())
}

// Adds an option with its value, as the usage line has it.
fn push_mark(out: &mut String, names: Names<'_>, arity: Arity<'_>) -> Result<(), AllocError>
    ensures { IfOk result (λ _. string_bytes out.new ≡ string_bytes out.old
        ++ spec.mark_of (short_name names.entry) (long_name names.entry) (arity_kind arity.entry)
        (arity_placeholder arity.entry)) }
{
    match names {
        Names::Short(character) => {
            write!(out, "-{character}")?;
            push_after_short(out, arity)
        }
        Names::Long(name) | Names::Both(_, name) => {
            write!(out, "--{name}")?;
            push_after_long(out, arity)
        }
    }
}

// An option with its value, as the usage line has it.
fn option_mark<F, V, M, S>(
    alloc: Global,
    option: &Declared<'_, F, V, M, S>,
) -> Result<String, AllocError>
    ensures { IfOk result (λ text. string_bytes text
        ≡ spec.option_mark (option_view option.now)) }
{
    let mut mark = String::new(alloc);
    push_mark(&mut mark, option.names, option.kind.arity())?;
    Ok(mark)
}

// Whether an option is not hidden, and is in this exclusive group.
fn has_text<F, V, M, S>(option: &Declared<'_, F, V, M, S>, text: Option<&str>) -> bool
    ensures { result ≡ (not option.now.hidden && legal.are_same
        (option_map (λ own. own.now) text.entry) (option_map (λ own. own.now) option.now.exclusive)) }
{
    !option.hidden && are_same(text, option.exclusive)
}

// Whether there is such an option among these.
fn any_has_text<F, V, M, S>(options: &[Declared<'_, F, V, M, S>], text: Option<&str>) -> bool
    ensures { result ≡ list_any (λ o. not o.hidden && legal.are_same
        (option_map (λ own. own.now) text.entry) (option_map (λ own. own.now) o.exclusive)) options.now }
{
    options.iter().any(|option| has_text(option, text))
}

// Adds each such option of these to an option that it excludes, as the usage line has them.
fn push_others<F, V, M, S>(
    mark: &mut String,
    options: &[Declared<'_, F, V, M, S>],
    text: Option<&str>,
) -> Result<(), AllocError>
    ensures { IfOk result (λ _. string_bytes mark.new ≡ string_bytes mark.old
        ++ flat_map (λ o. codes " | " ++ spec.option_mark o)
        (spec.sharing (option_map (λ own. own.now) text.entry)
        (spec.visible (map option_view options.now)))) }
{
    for option in options {
        if has_text(option, text) {
            mark.push_str(" | ")?;
            push_mark(mark, option.names, option.kind.arity())?;
        }
    }
    Ok(())
}

// An option and those of these that it excludes, as the usage line has them: `[--json | --xml]`.
fn choice_mark<F, V, M, S>(
    alloc: Global,
    option: &Declared<'_, F, V, M, S>,
    later: &[Declared<'_, F, V, M, S>],
) -> Result<String, AllocError>
    ensures { IfOk result (λ mark. string_bytes mark ≡ spec.choice_mark (option_view option.now)
        (spec.sharing (option_view option.now).exclusive (spec.visible (map option_view later.now)))) }
{
    let mut mark = String::from_str(alloc, "[")?;
    push_mark(&mut mark, option.names, option.kind.arity())?;
    push_others(&mut mark, later, option.exclusive)?;
    mark.push_str("]")?;
    Ok(mark)
}

// Whether an option is the first of its exclusive group that is not hidden, after these.
fn is_first_choice<F, V, M, S>(
    before: &[Declared<'_, F, V, M, S>],
    option: &Declared<'_, F, V, M, S>,
) -> bool
    ensures { let text = option_map (λ own. own.now) option.now.exclusive in
        result ≡ (not option.now.hidden && (is_some option.now.exclusive && not (list_any
        (λ o. not o.hidden && legal.are_same text (option_map (λ own. own.now) o.exclusive)) before.now))) }
{
    !option.hidden && (option.exclusive.is_some() && !any_has_text(before, option.exclusive))
}

// Adds the options that exclude each other and are not hidden to the words of the usage line.
fn add_choices<F, V, M, S>(
    alloc: Global,
    marks: &mut Vec<String>,
    options: &[Declared<'_, F, V, M, S>],
) -> Result<(), AllocError>
    ensures { OnOk result (map string_bytes marks.new.items ≡ map string_bytes marks.old.items
        ++ spec.choices [] (spec.visible (map option_view options.now))) }
{
    for (index, option) in options.iter().enumerate() {
        if is_first_choice(&options[..index], option) {
            marks.push(choice_mark(alloc, option, &options[index + 1..])?)?;
        }
    }
    Ok(())
}

// Whether an option is required, and not hidden.
fn is_demanded<F, V, M, S>(option: &Declared<'_, F, V, M, S>) -> bool
    ensures { result ≡ (not option.now.hidden && option.now.required) }
{
    !option.hidden && option.required
}

// Adds the options that are required and not hidden to the words of the usage line.
fn add_required_marks<F, V, M, S>(
    alloc: Global,
    marks: &mut Vec<String>,
    options: &[Declared<'_, F, V, M, S>],
) -> Result<(), AllocError>
    ensures { OnOk result (map string_bytes marks.new.items ≡ map string_bytes marks.old.items
        ++ map spec.option_mark (spec.demanded (spec.visible (map option_view options.now)))) }
{
    for declared in options {
        if is_demanded(declared) {
            marks.push(option_mark(alloc, declared)?)?;
        }
    }
    Ok(())
}

// A positional, as the usage line has it.
fn positional_mark<P>(alloc: Global, positional: &Positional<'_, P>) -> Result<String, AllocError>
    ensures { IfOk result (λ text. string_bytes text
        ≡ spec.positional_mark (positional_view positional.now)) }
{
    let placeholder = positional.placeholder;
    match positional.count {
        Count::Once => String::from_str(alloc, placeholder),
        Count::AtMostOnce => format!(in alloc; "[{placeholder}]"),
        Count::AnyNumber => format!(in alloc; "[{placeholder}]..."),
        Count::AtLeastOnce => format!(in alloc; "{placeholder}..."),
    }
}

// Adds the positionals to the words of the usage line.
fn add_positional_marks<P>(
    alloc: Global,
    marks: &mut Vec<String>,
    positionals: &[Positional<'_, P>],
) -> Result<(), AllocError>
    ensures { OnOk result (map string_bytes marks.new.items ≡ map string_bytes marks.old.items
        ++ map spec.positional_mark (map positional_view positionals.now)) }
{
    for positional in positionals {
        marks.push(positional_mark(alloc, positional)?)?;
    }
    Ok(())
}

// The words of the generated usage line after the name of the program.
fn marks_of<F, V, P, M, S>(
    alloc: Global,
    declaration: &Declaration<'_, F, V, P, M, S>,
) -> Result<Vec<String>, AllocError>
    ensures { IfOk result (λ marks. declaration.now.program.now ∷ map string_bytes marks.items
        ≡ spec.usage_words (declaration_view declaration.now)) }
{
    let mut marks = Vec::new(alloc);
    add_options_mark(alloc, &mut marks, declaration.options)?;
    add_choices(alloc, &mut marks, declaration.options)?;
    add_required_marks(alloc, &mut marks, declaration.options)?;
    add_positional_marks(alloc, &mut marks, declaration.positionals)?;
    Ok(marks)
}

// Borrows these texts.
fn texts_of<'a>(alloc: Global, texts: &'a [String]) -> Result<Vec<&'a str>, AllocError>
    ensures { IfOk result (λ words. map (λ w. w.now) words.items ≡ map string_bytes texts.now) }
{
    let mut words = Vec::new(alloc);
    for text in texts {
        words.push(text.as_str())?;
    }
    Ok(words)
}

// Adds a usage line of the name of the program and these words, without how it begins.
fn push_usage_line(
    out: &mut String,
    program: &str,
    words: &[&str],
    width: usize,
) -> Result<(), AllocError>
    ensures { IfOk result (λ _. (line : List ℕ)
        × IsUsageLine width (program.now ∷ map (λ w. w.now) words.now) line
        × (string_bytes out.new ≡ string_bytes out.old ++ line)) }
{
    let limit = width.saturating_sub(USAGE_COLUMN);
    push_lines(out, program, words, limit, USAGE_COLUMN)?;
    out.push('\n')
}

// Adds a usage line of the program's own, without how it begins.
fn push_own_usage(
    out: &mut String,
    alloc: Global,
    program: &str,
    own: &str,
    width: usize,
) -> Result<(), AllocError>
    ensures { IfOk result (λ _. (line : List ℕ)
        × IsUsageLine width (program.now ∷ spec.words_of own.now) line
        × (string_bytes out.new ≡ string_bytes out.old ++ line)) }
{
    let words = words_of(alloc, own)?;
    push_usage_line(out, program, words.as_slice(), width)
}

// Adds the usage lines of the program's own that come after the first.
fn push_other_usages(
    out: &mut String,
    alloc: Global,
    program: &str,
    others: &[&str],
    width: usize,
) -> Result<(), AllocError>
    ensures { IfOk result (λ _. (lines : List (List ℕ))
        × AllZip (λ own. IsUsageLine width (program.now ∷ spec.words_of own))
        (map (λ own. own.now) others.now) lines
        × (string_bytes out.new ≡ string_bytes out.old
        ++ flat_map (λ line. codes "  or:  " ++ line) lines)) }
{
    for own in others {
        out.push_str("  or:  ")?;
        push_own_usage(out, alloc, program, own, width)?;
    }
    Ok(())
}

// Adds the usage line that is generated, without how it begins.
fn push_generated_usage<F, V, P, M, S>(
    out: &mut String,
    alloc: Global,
    declaration: &Declaration<'_, F, V, P, M, S>,
    width: usize,
) -> Result<(), AllocError>
    ensures { IfOk result (λ _. (line : List ℕ)
        × IsUsageLine width (spec.usage_words (declaration_view declaration.now)) line
        × (string_bytes out.new ≡ string_bytes out.old ++ line)) }
{
    let marks = marks_of(alloc, declaration)?;
    let words = texts_of(alloc, marks.as_slice())?;
    push_usage_line(out, declaration.program, words.as_slice(), width)
}

// Adds the usage.
fn push_usage<F, V, P, M, S>(
    out: &mut String,
    alloc: Global,
    declaration: &Declaration<'_, F, V, P, M, S>,
    width: usize,
) -> Result<(), AllocError>
    ensures { IfOk result (λ _. (text : List ℕ)
        × IsUsage width (declaration_view declaration.now) text
        × (string_bytes out.new ≡ string_bytes out.old ++ text)) }
{
    out.push_str("Usage: ")?;
    let [first, others @ ..] = declaration.usage else {
        return push_generated_usage(out, alloc, declaration, width);
    };
    push_own_usage(out, alloc, declaration.program, first, width)?;
    push_other_usages(out, alloc, declaration.program, others, width)
}

/// Returns the usage, wrapped to `width` columns: one line or several, each with a line feed at its
/// end.
///
/// # Errors
///
/// Returns `AllocError` if an allocation fails.
pub fn usage<F, V, P, M, S>(
    alloc: Global,
    declaration: &Declaration<'_, F, V, P, M, S>,
    width: usize,
) -> Result<String, AllocError>
    ensures { IfOk result (λ text.
        IsUsage width (declaration_view declaration.now) (string_bytes text)) }
{
    let mut text = String::new(alloc);
    push_usage(&mut text, alloc, declaration, width)?;
    Ok(text)
}

/// Returns the help, wrapped to `width` columns.
///
/// # Errors
///
/// Returns `AllocError` if an allocation fails.
pub fn help<F, V, P, M, S>(
    alloc: Global,
    detail: Detail,
    declaration: &Declaration<'_, F, V, P, M, S>,
    width: usize,
) -> Result<String, AllocError>
    ensures { IfOk result (λ text. IsHelp (detail_view detail) (declaration_view declaration.now)
        width (string_bytes text)) }
{
    let mut text = usage(alloc, declaration, width)?;
    push_paragraph(&mut text, alloc, declaration.about, width)?;
    let positionals = positional_entries(alloc, declaration.positionals, width)?;
    push_apart(&mut text, positionals.as_str())?;
    push_options(&mut text, alloc, detail, declaration.options, width)?;
    let epilogue = shown_epilogue(detail, declaration.epilogue);
    push_epilogue(&mut text, alloc, epilogue, width)?;
    Ok(text)
}

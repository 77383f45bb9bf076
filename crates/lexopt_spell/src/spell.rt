//! `spell`: turns items back into words, for the command line of another program.
ghost use Rattle.std.specs.Prelude.{◌≡◌, ◌⊎◌, ℕ, List, IfErr, IfOk};
ghost use Rattle.lexopt_items.specs.Lines.{LineReads, LineShows, LineSpells};
ghost use Rattle.lexopt_spell.specs.Lines.{HaveFault, HaveWords, LineMeansNothingElse};
ghost use Rattle.lexopt_spell.specs.Lines.{NamesItemAtFault, NoWordsShow};

use crate::added::adds;
use crate::forms::Place;
use crate::words::push;
use lexopt_items::items::{Item, Table};
use lexopt_words::message::write_no_memory;
use lexopt_words::os_string::OsString;
use std::alloc::{AllocError, Global};
use std::fmt;

/// The reason why an item cannot be spelled after those before it. It prints as a message.
///
/// The types `Reason` of `lexopt_declaration` and `lexopt_commands` are about options and commands
/// that cannot be declared.
#[derive(Debug, Clone, Copy, PartialEq, Eq)]
pub enum Reason {
    /// A long option has `=` in its name: `--a=b` is the option `a` with the value `b`.
    EqualsInName,
    /// A flag is given a value.
    UnexpectedValue,
    /// An option of one value is given none, or an option of several is given an empty list.
    MissingValue,
    /// By the table the option has several values, and it is not given as `ShortMany` or
    /// `LongMany`.
    WantsMany,
    /// By the table the option does not have several values, and it is given as `ShortMany` or
    /// `LongMany`.
    NotMany,
    /// A short option of one value or none is given an empty value, and `short_equals` is off. If
    /// it is on, `-c=` has the empty value.
    EmptyValue,
    /// One of several values would be read as an option or as the separator: `-x` after `1` in
    /// `--dim 1 -x`. Such a value can be spelled if it is the first one of a short option, as in
    /// `-d-x 1`, or the only one of a long option, as in `--dim=-x`.
    OptionAmongValues,
    /// A long option has an empty name, and no value after `=`: `--` alone is the separator.
    EmptyName,
    /// An option comes after a positional that needs `--` before it, so the option would be read as
    /// a positional.
    PastSeparator,
    /// The short option `-` has no short flag right before it. It cannot begin a cluster, since
    /// `--` is the separator and `--name` a long option, but it can follow a flag, as in `-v-`.
    DashWithoutFlag,
}

impl fmt::Display for Reason {
    ghost use Rattle.std.specs.Prelude.{Some};
    ghost use Rattle.lexopt_spell.specs.Messages.{reason_message};

    ghost output = { λ reason. Some (reason_message reason) };

    fn fmt<W: fmt::Write>(&self, f: &mut fmt::Formatter<W>) -> fmt::Result {
        f.write_str(match self {
            Reason::EqualsInName => "a long option cannot have `=` in its name",
            Reason::UnexpectedValue => "by the table the option has no value, and is given one",
            Reason::MissingValue => "by the table the option wants a value, and is given none",
            Reason::WantsMany => "by the table the option has several values: give them as a list",
            Reason::NotMany => "by the table the option does not have several values",
            Reason::EmptyValue => {
                "an empty value cannot come right after a character where `short_equals` is off"
            }
            Reason::OptionAmongValues => "one of several values would be read as an option",
            Reason::EmptyName => "a long option with an empty name needs one value after `=`",
            Reason::PastSeparator => {
                "an option cannot come after a positional that needs `--` before it"
            }
            Reason::DashWithoutFlag =>
                "the option `-` can only come right after a flag of one character",
        })
    }
}

/// The error of [`spell`]. It prints as a message.
#[derive(Debug, Clone, Copy, PartialEq, Eq)]
pub enum SpellError {
    /// This item cannot be spelled after those before it, which can be spelled.
    AtFault {
        /// The index of the item, counted from 0.
        index: usize,
        /// The reason why it cannot be spelled.
        reason: Reason,
    },
    /// An allocation failed. The items may or may not be such that words spell them.
    OutOfMemory,
}

impl fmt::Display for SpellError {
    ghost use Rattle.std.specs.Prelude.{Some};
    ghost use Rattle.lexopt_spell.specs.Messages.{message};

    ghost output = { λ error. Some (message error) };

    fn fmt<W: fmt::Write>(&self, f: &mut fmt::Formatter<W>) -> fmt::Result {
        match self {
            SpellError::AtFault { index, reason } => write!(f, "items[{index}]: {reason}"),
            SpellError::OutOfMemory => write_no_memory(f),
        }
    }
}

impl std::error::Error for SpellError {}

impl From<AllocError> for SpellError {
    ghost use Rattle.std.specs.Prelude.{◌≡◌};
    ghost use Rattle.lexopt_spell.specs.declared.spell.SpellError.TheVariants.{OutOfMemory};

    ghost from_gives = { λ _ error. error ≡ OutOfMemory };

    fn from(_error: AllocError) -> SpellError {
        SpellError::OutOfMemory
    }
}

/// Returns words that spell these items under a table, in order.
///
/// They are words for another program's command line, without its name. `read_items` with the same
/// table and `short_equals` reads them back as the same items, unless memory runs out.
/// `short_equals` must be the setting that the other program reads by: whether `=` separates a
/// short option from its value.
///
/// The forms are those of the POSIX Utility Syntax Guidelines and of GNU, which have no options of
/// several values. `docs/behaviour.md` lists them all; these are the main rules:
///
/// - Each option has a word of its own, except that the short option `-` continues the word of the
///   flag before it: `-v-`.
/// - The separator comes only if a positional needs it, because it would otherwise be read as an
///   option or as one more of several values. It then comes before the first of the positionals
///   that end the line.
/// - If the separator would come before an option too, the only value of a short option of several
///   is joined to it, as in `-d=1`, if `short_equals` is on.
///
/// This allocates the list and each word.
///
/// # Errors
///
/// - `AtFault` if no words spell the items, such as an option after a positional `-f`. It names the
///   first item that cannot be spelled after those before it, and the reason.
/// - `OutOfMemory` if an allocation fails.
///
/// # Examples
///
/// ```rust
/// let mut table = Table::new(alloc);
/// table.shorts.push('o')?;
/// table.longs.push(String::from_str(alloc, "out")?)?;
/// table.optional_longs.push(String::from_str(alloc, "color")?)?;
/// table.several_shorts.push('d')?;
/// let mut items = Vec::new(alloc);
/// items.push(Item::Short('v', None))?;
/// items.push(Item::Short('o', Some(OsString::from_text(alloc, "x")?)))?;
/// for (name, value) in [("out", "y"), ("color", "z")] {
///     let value = OsString::from_text(alloc, value)?;
///     items.push(Item::Long(String::from_str(alloc, name)?, Some(value)))?;
/// }
/// let mut values = Vec::new(alloc);
/// values.push(OsString::from_text(alloc, "1")?)?;
/// values.push(OsString::from_text(alloc, "2")?)?;
/// items.push(Item::ShortMany('d', values))?;
/// items.push(Item::Positional(OsString::from_text(alloc, "-f")?))?;
/// let words = spell(alloc, &items, true, &table)?;
/// ```
///
/// The items `Short('v', None)`, `Short('o', Some(x))`, `Long("out", Some(y))`,
/// `Long("color", Some(z))`, `ShortMany('d', [1, 2])` and `Positional(-f)` give the words `-v`,
/// `-o`, `x`, `--out=y`, `--color=z`, `-d`, `1`, `2`, `--` and `-f`.
pub fn spell(
    alloc: Global,
    items: &[Item],
    short_equals: bool,
    table: &Table,
) -> Result<Vec<OsString>, SpellError>
    // The words are those that the rules choose, and the error names the item at fault and the
    // reason. These clauses state nothing about `OutOfMemory`.
    ensures form { IfOk result (λ words. HaveWords table.now short_equals items.now words.items) }
    ensures fault { IfErr result (λ e. HaveFault table.now short_equals items.now e) }

    // The words legally spell the items. A reading of the words reaches the end and gives the
    // items, and so does every reading.
    ensures spelled { IfOk result (λ words.
        LineSpells table.now short_equals words.items items.now) }
    ensures read { IfOk result (λ words. LineReads table.now short_equals words.items items.now) }
    ensures parsed { IfOk result (λ words.
        LineMeansNothingElse table.now short_equals words.items items.now) }

    // The items before the one at fault can be spelled, and together with it they cannot.
    ensures at_fault { IfErr result (λ e. NamesItemAtFault table.now short_equals items.now e) }

    // Items that some words show are spelled, unless memory runs out.
    ensures answered { (words : List (List ℕ)) → LineShows table.now short_equals words items.now
        → IfErr result (λ e. e ≡ SpellError.OutOfMemory) }
    ensures none { IfErr result (λ e. (e ≡ SpellError.OutOfMemory)
        ⊎ NoWordsShow table.now short_equals items.now) }
{
    let mut words = Vec::with_capacity(alloc, items.len())?;
    let mut place = Place::Open;
    for (index, item) in items.iter().enumerate() {
        match adds(place, item, &items[index + 1..], short_equals, table) {
            Ok(added) => {
                place = added.place;
                push(alloc, &mut words, added.word, added.words)?;
            }
            Err(reason) => return Err(SpellError::AtFault { index, reason }),
        }
    }
    Ok(words)
}

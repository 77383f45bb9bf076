//! `read_items`: reads a whole line by a table of options.
ghost use Rattle.std.specs.Prelude.{◌≡◌, ◌∷◌, ◌++◌, ◌⊎◌, ℕ, [], List, IfErr, IfOk, map, true};
ghost use Rattle.std.specs.Prelude.{string_bytes};
ghost use Rattle.std.specs.Result.{IsErrAnd};
ghost use Rattle.std.specs.Fmt.{WritesOnOk};
ghost use Rattle.lexopt_line_spec.specs.ItemText.{value_text};
ghost use Rattle.lexopt_spec.specs.Steps.{end};
ghost use Rattle.lexopt_line_spec.specs.Table as spec;
ghost use Rattle.lexopt_line_spec.specs.Table.{one_value};
ghost use Rattle.lexopt_line_spec.specs.Readings.{IsReading};
ghost use Rattle.lexopt_base.specs.Refusals.{IsErrorOf};
ghost use Rattle.lexopt_items.specs.Items.{EndsBy, FailsWith, ReadsInto, item_view, table_view};
ghost use Rattle.lexopt_items.specs.Lines.{IsAnswered, IsSpellable, LineFails, LineReads};
ghost use Rattle.lexopt_items.specs.Lines.{LineShows, LineSpells, NamesAreWhole, ShowsList};
ghost use Rattle.lexopt_items.specs.Lines.{ShowsNothing, SpellsList};

use crate::kinds::{kind_of_long, kind_of_short};
use crate::text::{write_list, write_long, write_positional, write_short, write_word};
use crate::values::read_values;
use lexopt_base::parser::{Found, Parser};
use lexopt_base::refusal::Refusal;
use lexopt_words::error::Error;
use lexopt_words::os_string::OsString;
use std::alloc::Global;
use std::fmt;

/// The options that have values, in lists by kind. Any other option is a flag.
///
/// Names are without their dashes. A program fills the lists by `push`. It does no harm to list a
/// name twice, or to list a name with `=`, which no option can have. If an option is in lists of
/// several kinds, one value takes precedence over one or none, and that over several.
///
/// # Examples
///
/// ```rust
/// let mut table = Table::new(alloc);
/// table.shorts.push('o')?;
/// table.longs.push(String::from_str(alloc, "output")?)?;
/// table.optional_longs.push(String::from_str(alloc, "color")?)?;
/// table.several_shorts.push('e')?;
/// ```
#[derive(Debug, Drop)]
pub struct Table {
    /// Short options that always have one value: `o` for `-o`.
    pub shorts: Vec<char>,
    /// Long options that always have one value: `output` for `--output`.
    pub longs: Vec<String>,
    /// Short options with one value or none. The value is in the option's own word, never in the
    /// next: `-i.bak`.
    pub optional_shorts: Vec<char>,
    /// Long options with one value or none. The value comes after `=`: `--color=auto`.
    pub optional_longs: Vec<String>,
    /// Short options with several values, at least one: the one joined by `=` alone, otherwise all
    /// up to the next option or separator.
    pub several_shorts: Vec<char>,
    /// Long options with several values, at least one, as for `several_shorts`.
    pub several_longs: Vec<String>,
}

/// An item of a line: an option with its values, or a positional.
#[derive(Debug, PartialEq, Eq, Drop)]
pub enum Item {
    /// A short option, with its value if it has one.
    Short(char, Option<OsString>),
    /// A long option, without its dashes, with its value if it has one.
    Long(String, Option<OsString>),
    /// A short option of several values, with all of them: at least one.
    ShortMany(char, Vec<OsString>),
    /// A long option of several values, without its dashes, with all of them: at least one.
    LongMany(String, Vec<OsString>),
    /// A positional: a word that is neither an option nor a value, or that comes after the
    /// separator.
    Positional(OsString),
}

impl fmt::Display for Item {
    ghost use Rattle.std.specs.Prelude.{Some};
    ghost use Rattle.lexopt_line_spec.specs.ItemText.{item_text};
    ghost use Rattle.lexopt_items.specs.Items.{item_view};

    ghost output = { λ i. Some (item_text (item_view i)) };

    fn fmt<W: fmt::Write>(&self, f: &mut fmt::Formatter<W>) -> fmt::Result {
        match self {
            Item::Short(option, value) => {
                write_short(*option, f)?;
                write_value(value, f)
            }
            Item::Long(name, value) => {
                write_long(name, f)?;
                write_value(value, f)
            }
            Item::ShortMany(option, values) => {
                write_short(*option, f)?;
                f.write_str(" = ")?;
                write_list(values, f)
            }
            Item::LongMany(name, values) => {
                write_long(name, f)?;
                f.write_str(" = ")?;
                write_list(values, f)
            }
            Item::Positional(word) => write_positional(word, f),
        }
    }
}

// Writes an option's value, if it has one.
fn write_value<W: fmt::Write>(value: &Option<OsString>, f: &mut fmt::Formatter<W>) -> fmt::Result
    ensures { WritesOnOk W.write_str_gives f.old result (value_text value.now) f.new }
{
    match value {
        Some(value) => {
            f.write_str(" = ")?;
            write_word(value, f)
        }
        None => Ok(()),
    }
}

impl Table {
    /// Creates a table of no options. It never allocates.
    ///
    /// # Examples
    ///
    /// ```rust
    /// let mut table = Table::new(alloc);
    /// table.shorts.push('n')?;
    /// ```
    pub fn new(alloc: Global) -> Table
        ensures { table_view result ≡ one_value [] [] }
    {
        Table::one_value(alloc, Vec::new(alloc), Vec::new(alloc))
    }

    /// Creates a table of these options, each of one value. It never allocates.
    ///
    /// # Examples
    ///
    /// ```rust
    /// let names = vec![in alloc; String::from_str(alloc, "number")?]?;
    /// let table = Table::one_value(alloc, vec![in alloc; 'n']?, names);
    /// ```
    pub fn one_value(alloc: Global, shorts: Vec<char>, longs: Vec<String>) -> Table
        ensures { table_view result ≡ one_value shorts.items (map string_bytes longs.items) }
    {
        Table {
            shorts,
            longs,
            optional_shorts: Vec::new(alloc),
            optional_longs: Vec::new(alloc),
            several_shorts: Vec::new(alloc),
            several_longs: Vec::new(alloc),
        }
    }
}

// The most items for which the list has room at first. A longer list grows.
const FIRST_ROOM: usize = 16;

// Appends an item to the list, and returns true: the line goes on.
#[inline(always)]
fn add(items: &mut Vec<Item>, item: Item) -> Result<bool, Refusal>
    ensures ok { IfOk result (λ continues. (continues ≡ true)
        × (map item_view items.new.items ≡ map item_view items.old.items ++ item_view item ∷ [])) }
    ensures err { IfErr result (λ refusal. refusal ≡ Refusal.OutOfMemory) }
{
    if items.push(item).is_err() {
        return Err(Refusal::OutOfMemory);
    }
    Ok(true)
}

// Reads the next item of a line into a list, and returns whether there was one. Each arm appends
// its own item: with one `push` after all arms, a positional would take 14 more instructions.
#[inline(always)]
fn read_item(
    alloc: Global,
    parser: &mut Parser,
    table: &Table,
    items: &mut Vec<Item>,
) -> Result<bool, Refusal>
    ensures ok { IfOk result (λ continues.
        ReadsInto (table_view table.now) parser.old (map item_view items.old.items) continues
        parser.new (map item_view items.new.items)) }
    ensures err { IfErr result (λ refusal. EndsBy (table_view table.now) parser.old refusal) }
{
    match parser.advance()? {
        Found::Short(option) => {
            let values = read_values(alloc, parser, kind_of_short(table, option))?;
            add(items, values.of_short(option))
        }
        Found::Long => {
            // The name is copied before its kind is looked up: a look-up just before the values are
            // read takes fewer instructions.
            let name = String::from_str(alloc, parser.long_name())?;
            let kind = kind_of_long(table, &name);
            let values = read_values(alloc, parser, kind)?;
            add(items, values.of_long(name))
        }
        Found::Value(word) => add(items, Item::Positional(word)),
        Found::End => Ok(false),
    }
}

// Reads the items that are left of a line, up to its end or the first error. The list has room for
// `room` items at first.
fn read_items_left(
    alloc: Global,
    parser: &mut Parser,
    table: &Table,
    room: usize,
) -> Result<Vec<Item>, Refusal>
    ensures ok { IfOk result (λ items.
        IsReading (table_view table.now) parser.old end (map item_view items.items)) }
    ensures err { IfErr result (λ refusal. EndsBy (table_view table.now) parser.old refusal) }
{
    let Ok(mut items) = Vec::with_capacity(alloc, room) else {
        return Err(Refusal::OutOfMemory);
    };
    while read_item(alloc, parser, table, &mut items)? {}
    Ok(items)
}

// Reads the items that are left of a line, as `read_items_left` does, and returns an `Error`.
fn items_of(
    alloc: Global,
    parser: &mut Parser,
    table: &Table,
    room: usize,
) -> Result<Vec<Item>, Error>
    ensures ok { IfOk result (λ items.
        IsReading (table_view table.now) parser.old end (map item_view items.items)) }
    ensures err { IfErr result (λ e. FailsWith (table_view table.now) parser.old e) }
{
    match read_items_left(alloc, parser, table, room) {
        Ok(items) => Ok(items),
        Err(refusal) => error_of(refusal),
    }
}

// Returns the error for a refusal. It is marked cold, since most lines have no error.
#[cold]
fn error_of(refusal: Refusal) -> Result<Vec<Item>, Error>
    ensures { IsErrAnd result (IsErrorOf refusal) }
{
    Err(Error::from(refusal))
}

/// Reads a whole line by a table, and returns its items in order.
///
/// After each option of the table its values are read; any other option is a flag. A flag is an
/// item even if the program does not know it. `short_equals` is whether `=` separates a short
/// option from its value, as in [`Parser::set_short_equals`]. Each damaged piece of an option's
/// name is read, and looked up in the table, as one U+FFFD.
///
/// The words do not include the binary name, and are spent. This allocates the list of items, the
/// names of long options, and lists of values; values and positionals are moved.
///
/// The rules are those of lexopt's `next`, `value`, `optional_value` and `values`.
///
/// # Errors
///
/// Each of these ends the reading, and the items read before are gone.
///
/// - `MissingValue` if an option of one value has none in its word and no word is left, or if an
///   option of several values has none.
/// - `UnexpectedValue` if a flag has a value joined by `=`.
/// - `OutOfMemory` if memory runs out.
///
/// # Examples
///
/// ```rust
/// let mut table = Table::new(alloc);
/// table.shorts.push('o')?;
/// table.longs.push(String::from_str(alloc, "out")?)?;
/// table.optional_longs.push(String::from_str(alloc, "color")?)?;
/// table.several_shorts.push('d')?;
/// let mut words = Vec::new(alloc);
/// for word in ["-vo=x", "--out", "y", "--color=z", "-d", "1", "2", "--", "file"] {
///     words.push(OsString::from_text(alloc, word)?)?;
/// }
/// let items = read_items(alloc, words, true, &table)?;
/// ```
///
/// The words `-vo=x --out y --color=z -d 1 2 -- file` give `Short('v', None)`,
/// `Short('o', Some(x))`, `Long("out", Some(y))`, `Long("color", Some(z))`,
/// `ShortMany('d', [1, 2])` and `Positional(file)`.
pub fn read_items(
    alloc: Global,
    words: Vec<OsString>,
    short_equals: bool,
    table: &Table,
) -> Result<Vec<Item>, Error>
    // A reading of the line gives the items, or ends in the error.
    ensures reading { IfOk result (λ items.
        LineReads table.now short_equals words.items items.items) }
    ensures refused { IfErr result (λ e. LineFails table.now short_equals words.items e) }

    // The words show the items, and spell them if no option has U+FFFD in its name.
    ensures shown { IfOk result (λ items.
        LineShows table.now short_equals words.items items.items) }
    ensures spelled { IfOk result (λ items. NamesAreWhole items.items
        → LineSpells table.now short_equals words.items items.items) }

    // Some words legally spell the items, even if these words do not.
    ensures spellable { IfOk result (λ items. IsSpellable table.now short_equals items.items) }

    // Words show at most one list. If they show one, or spell one, that list is returned, unless
    // memory runs out.
    ensures one_list { (l m : List spec.Item) → ShowsList table.now short_equals words.items l
        → ShowsList table.now short_equals words.items m → l ≡ m }
    ensures answered { (l : List spec.Item) → ShowsList table.now short_equals words.items l
        → IsAnswered l result }
    ensures answered_spelled { (l : List spec.Item)
        → SpellsList table.now short_equals words.items l
        → IsAnswered l result }

    // Any error other than `OutOfMemory` means that the words show no list.
    ensures no_list { IfErr result (λ e. (e ≡ Error.OutOfMemory)
        ⊎ ShowsNothing table.now short_equals words.items) }
{
    let room = words.len().min(FIRST_ROOM);
    let mut parser = Parser::from_vec(words);
    parser.set_short_equals(short_equals);
    items_of(alloc, &mut parser, table, room)
}

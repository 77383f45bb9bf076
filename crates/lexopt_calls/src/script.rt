//! Parses scripts. A script has the words of a command line, the calls to make on a parser of them,
//! and a table of options. `docs/formats.md` has the grammar of its lines.
ghost use Rattle.std.specs.Prelude.{◌≡◌, ◌⊎◌, ℕ, ◌+◌, ◌<◌, ◌≤◌, List, [], None, Some, IfErr};
ghost use Rattle.std.specs.Prelude.{IfOk, MatchOption, OnOk, drop, length, map};
ghost use Rattle.std.specs.Option.{option_map};
ghost use Rattle.std.specs.Io.KnownBytes.{Consumes};
ghost use Rattle.lexopt_calls.specs.Script.{bad_line, after_backslash, call_or_bad};
ghost use Rattle.lexopt_calls.specs.Script.{command, commands_of, entry_or_bad, hexadecimal};
ghost use Rattle.lexopt_calls.specs.Script.{in_front, is_bad, is_reading, joined_to, keyword_of};
ghost use Rattle.lexopt_calls.specs.Script.{meaning, whole_line};
ghost use Rattle.lexopt_line_spec.specs.Table.{one_value};
ghost use Rattle.lexopt_calls.specs.Script.{meaning_by_keyword, most_bytes, number};
ghost use Rattle.lexopt_calls.specs.Script.{one_character, option_named, table_of};
ghost use Rattle.lexopt_calls.specs.Script.{text_of, unescaped, word_or_bad, words_of};
ghost use Rattle.lexopt_calls.specs.Replies.{call_view};
ghost use Rattle.lexopt_items.specs.Items.{table_view};
ghost use Rattle.lexopt_calls.specs.Output.{ReadsWhole, read_room};
ghost use Rattle.lexopt_calls.specs.Meanings.{Adds, commands_in, entry_view, meaning_view};
ghost use Rattle.lexopt_calls.specs.Meanings.{name_view, text_view};

use crate::reply::Call;
use crate::run_error::RunError;
use bstr::ByteSlice;
use lexopt_items::items::Table;
use lexopt_words::codepoint::{FirstCodepoint, first_codepoint};
use lexopt_words::os_string::OsString;
use std::alloc::{AllocError, Global};
use std::io::Read;
use std::{mem, str};

// The most bytes that a script may have.
const LIMIT: usize = 1_048_576;

// The size of one read in bytes: at most this many are read past the limit.
const ROOM: usize = 512;

/// A script: the words of a command line, the table of its options, and the calls on a parser of
/// the words. Between calls the words are read as a whole line, by the table.
#[derive(Drop)]
pub struct Script {
    pub words: Vec<OsString>,
    pub table: Table,
    /// For each whole line, the calls since the one before it.
    pub calls_before: Vec<Vec<Call>>,
    /// The calls after the last whole line.
    pub last_calls: Vec<Call>,
}

/// Reads the bytes of a script, up to the end or past the limit.
pub fn read_script<R: Read>(alloc: Global, reader: &mut R) -> Result<Vec<u8>, RunError>
    ensures ok { IfOk result (λ script.
        ReadsWhole (R.remaining reader.old) (R.remaining reader.new) script.items) }
    ensures bounded { (script : List ℕ)
        × Consumes (R.remaining reader.old) (R.remaining reader.new) script
        × (length script ≤ most_bytes + read_room) }
    ensures err { IfErr result (λ e. (e ≡ RunError.NoMemory) ⊎ (e ≡ RunError.ReadFailed)
        ⊎ ((e ≡ RunError.TooLong)
        × ((script : List ℕ) × Consumes (R.remaining reader.old) (R.remaining reader.new) script
        × (most_bytes < length script)))) }
{
    let mut script = Vec::new(alloc);
    let mut chunk = [0u8; ROOM];
    loop {
        match reader.read(&mut chunk) {
            Ok(0) => return Ok(script),
            Ok(count) => script.extend_from_slice(&chunk[..count])?,
            Err(_) => return Err(RunError::ReadFailed),
        }
        if script.len() > LIMIT {
            return Err(RunError::TooLong);
        }
    }
}

/// Parses a script, or returns the number of its first bad line.
pub fn parse_script(alloc: Global, script: &[u8]) -> Result<Script, RunError>
    requires { length script.now ≤ most_bytes }
    ensures ok { IfOk result (λ s. (s.words.items ≡ words_of script.now)
        × (table_view s.table ≡ table_of script.now)
        × (commands_in s ≡ commands_of script.now)
        × (bad_line script.now ≡ None)) }
    ensures err { IfErr result (λ e. (e ≡ RunError.NoMemory)
        ⊎ ((n : ℕ) × (e ≡ RunError.BadLine n) × (bad_line script.now ≡ Some n))) }
{
    let mut read = Script::new(alloc);
    let mut is_read = false;
    for (index, line) in script.split(|byte| *byte == b'\n').enumerate() {
        let meaning = meaning_of(alloc, line)?;
        if meaning.is_bad(is_read) {
            return Err(RunError::BadLine(index + 1));
        }
        is_read |= meaning.reads_words();
        read.add(alloc, meaning)?;
    }
    Ok(read)
}

impl Script {
    // Creates a script of no words, no options and no calls.
    fn new(alloc: Global) -> Script
        ensures { (result.words.items ≡ []) × (table_view result.table ≡ one_value [] [])
            × (commands_in result ≡ []) }
    {
        Script {
            words: Vec::new(alloc),
            table: Table::new(alloc),
            calls_before: Vec::new(alloc),
            last_calls: Vec::new(alloc),
        }
    }

    // Adds the meaning of a line to the script.
    fn add(&mut self, alloc: Global, meaning: Meaning) -> Result<(), AllocError>
        ensures { OnOk result (Adds (meaning_view meaning) self.old self.new) }
    {
        match meaning {
            Meaning::Nothing | Meaning::Bad => Ok(()),
            Meaning::Word(word) => Ok(self.words.push(word)?),
            Meaning::Entry(entry) => join(&mut self.table, entry),
            Meaning::Call(call) => Ok(self.last_calls.push(call)?),
            Meaning::Items => self.end_calls(alloc),
        }
    }

    // Ends the last calls with a whole line.
    fn end_calls(&mut self, alloc: Global) -> Result<(), AllocError>
        ensures { OnOk result (Adds (command whole_line) self.old self.new) }
    {
        let calls = mem::replace(&mut self.last_calls, Vec::new(alloc));
        Ok(self.calls_before.push(calls)?)
    }
}

// The meaning of a line of a script.
#[derive(Drop)]
enum Meaning {
    Nothing,
    Word(OsString),
    Entry(Entry),
    Call(Call),
    Items,
    Bad,
}

// An option of the table, by its kind.
#[derive(Drop)]
enum Entry {
    One(Name),
    Optional(Name),
    Several(Name),
}

// The name of an option, without its dashes.
#[derive(Drop)]
enum Name {
    Short(char),
    Long(String),
}

impl Meaning {
    // Returns whether the line is bad. `is_read` is whether a line before it reads the words.
    fn is_bad(&self, is_read: bool) -> bool
        ensures { result ≡ is_bad is_read (meaning_view self.now) }
    {
        match self {
            Meaning::Nothing | Meaning::Call(_) | Meaning::Items => false,
            Meaning::Word(_) | Meaning::Entry(_) => is_read,
            Meaning::Bad => true,
        }
    }

    // Returns whether the line reads the words.
    fn reads_words(&self) -> bool
        ensures { result ≡ is_reading (meaning_view self.now) }
    {
        match self {
            Meaning::Nothing | Meaning::Word(_) | Meaning::Entry(_) | Meaning::Bad => false,
            Meaning::Call(call) => !matches!(call, Call::Switch(_)),
            Meaning::Items => true,
        }
    }
}

// Adds an option to the table.
fn join(table: &mut Table, entry: Entry) -> Result<(), AllocError>
    ensures { OnOk result (table_view table.new
        ≡ joined_to (table_view table.old) (entry_view entry).kind (entry_view entry).name) }
{
    match entry {
        Entry::One(Name::Short(option)) => table.shorts.push(option)?,
        Entry::One(Name::Long(name)) => table.longs.push(name)?,
        Entry::Optional(Name::Short(option)) => table.optional_shorts.push(option)?,
        Entry::Optional(Name::Long(name)) => table.optional_longs.push(name)?,
        Entry::Several(Name::Short(option)) => table.several_shorts.push(option)?,
        Entry::Several(Name::Long(name)) => table.several_longs.push(name)?,
    }
    Ok(())
}

// Returns the meaning of a line, which is a keyword, or a keyword, one space and a text.
fn meaning_of(alloc: Global, line: &[u8]) -> Result<Meaning, AllocError>
    ensures { IfOk result (λ m. meaning_view m ≡ meaning line.now) }
{
    let (keyword, text) = cut_at_space(line);
    match str::from_utf8(keyword) {
        Ok(keyword) => match text {
            None => Ok(meaning_alone(alloc, keyword)),
            Some(text) => meaning_with(alloc, keyword, text),
        },
        Err(_) => Ok(Meaning::Bad),
    }
}

// Cuts a line at its first space, if it has one.
fn cut_at_space(line: &[u8]) -> (&[u8], Option<&[u8]>)
    ensures { (result.0.now ≡ keyword_of line.now)
        × (text_view result.1 ≡ text_of line.now) }
{
    match line.find_byte(b' ') {
        Some(space) => (&line[..space], Some(&line[space + 1..])),
        None => (line, None),
    }
}

// Returns the meaning of a keyword alone.
fn meaning_alone(alloc: Global, keyword: &str) -> Meaning
    ensures { meaning_view result ≡ meaning_by_keyword keyword.now None }
{
    match keyword {
        "" => Meaning::Nothing,
        "next" => Meaning::Call(Call::Next),
        "value" => Meaning::Call(Call::Value),
        "optional" => Meaning::Call(Call::Optional),
        "on" => Meaning::Call(Call::Switch(true)),
        "off" => Meaning::Call(Call::Switch(false)),
        "items" => Meaning::Items,
        "w" => Meaning::Word(OsString::new(alloc)),
        _ => Meaning::Bad,
    }
}

// Returns the meaning of a keyword with a text.
fn meaning_with(alloc: Global, keyword: &str, text: &[u8]) -> Result<Meaning, AllocError>
    ensures { IfOk result (λ m. meaning_view m ≡ meaning_by_keyword keyword.now (Some text.now)) }
{
    match keyword {
        "w" => Ok(word_or_bad(unescaped(alloc, text)?)),
        "values" => Ok(call_or_bad(number(text).map(Call::Values))),
        "raw" => Ok(call_or_bad(number(text).map(Call::Raw))),
        "try" => Ok(call_or_bad(number(text).map(Call::TryRaw))),
        "t" => Ok(entry_or_bad(option_named(alloc, text)?.map(Entry::One))),
        "topt" => Ok(entry_or_bad(option_named(alloc, text)?.map(Entry::Optional))),
        "tmany" => Ok(entry_or_bad(option_named(alloc, text)?.map(Entry::Several))),
        _ => Ok(Meaning::Bad),
    }
}

// Returns a word, or a bad line if its text is not a word.
fn word_or_bad(word: Option<OsString>) -> Meaning
    ensures { meaning_view result ≡ word_or_bad word }
{
    match word {
        Some(word) => Meaning::Word(word),
        None => Meaning::Bad,
    }
}

// Returns a call, or a bad line if its text is not a number.
fn call_or_bad(call: Option<Call>) -> Meaning
    ensures { meaning_view result ≡ call_or_bad (option_map call_view call) }
{
    match call {
        Some(call) => Meaning::Call(call),
        None => Meaning::Bad,
    }
}

// Returns an entry of the table, or a bad line if its text is not an option.
fn entry_or_bad(entry: Option<Entry>) -> Meaning
    ensures { meaning_view result ≡ entry_or_bad (option_map entry_view entry) }
{
    match entry {
        Some(entry) => Meaning::Entry(entry),
        None => Meaning::Bad,
    }
}

// Returns the option that a text names: `-` and a character, or `--` and a name.
fn option_named(alloc: Global, text: &[u8]) -> Result<Option<Name>, AllocError>
    ensures { IfOk result (λ name. option_map name_view name ≡ option_named text.now) }
{
    if let Some(name) = text.strip_prefix(b"--") {
        return match str::from_utf8(name) {
            Ok(name) => Ok(Some(Name::Long(String::from_str(alloc, name)?))),
            Err(_) => Ok(None),
        };
    }
    match text.strip_prefix(b"-") {
        Some(character) => Ok(one_character(character).map(Name::Short)),
        None => Ok(None),
    }
}

// Returns the character that these bytes encode, if they encode exactly one.
fn one_character(bytes: &[u8]) -> Option<char>
    ensures { result ≡ one_character bytes.now }
{
    match first_codepoint(bytes) {
        FirstCodepoint::Character(character, size) if size == bytes.len() => Some(character),
        _ => None,
    }
}

// Returns the number that one to nine decimal digits represent.
fn number(digits: &[u8]) -> Option<usize>
    ensures { result ≡ number digits.now }
{
    if digits.len() > 9 || digits.starts_with(b"+") {
        return None;
    }
    str::from_utf8(digits).ok()?.parse().ok()
}

// Returns the bytes that a text of a script represents, if each backslash in it begins an escape.
fn unescaped(alloc: Global, text: &[u8]) -> Result<Option<OsString>, AllocError>
    ensures { IfOk result (λ word. word ≡ unescaped text.now) }
{
    let mut bytes = Vec::new(alloc);
    let mut rest = text;
    while let Some((first, after)) = rest.split_first() {
        let (byte, after) = match *first {
            b'\\' => match escaped(after) {
                Some(pair) => pair,
                None => return Ok(None),
            },
            byte => (byte, after),
        };
        bytes.push(byte)?;
        rest = after;
    }
    Ok(Some(OsString::from_vec(bytes)))
}

// Returns the byte that an escape represents, and the text after the escape. `text` begins after
// the backslash.
fn escaped(text: &[u8]) -> Option<(u8, &[u8])>
    ensures { MatchOption result (after_backslash text.now ≡ None)
        (λ p. (after_backslash text.now ≡ in_front p.0 (unescaped p.1.now))
        × (length p.1.now < length text.now)) }
{
    match text {
        [b'\\', after @ ..] => Some((b'\\', after)),
        [b'n', after @ ..] => Some((b'\n', after)),
        [b'x', high, low, after @ ..] => {
            let high = hexadecimal(*high)?;
            let low = hexadecimal(*low)?;
            Some((16 * high + low, after))
        }
        _ => None,
    }
}

// Returns the value of a hexadecimal digit of either case.
fn hexadecimal(digit: u8) -> Option<u8>
    ensures { result ≡ hexadecimal digit }
{
    match digit {
        b'0'..=b'9' => Some(digit - b'0'),
        b'A'..=b'F' => Some(digit - b'A' + 10),
        b'a'..=b'f' => Some(digit - b'a' + 10),
        _ => None,
    }
}

//! A plain reader of whole lines. It reads word by word, and keeps the option that is pending after
//! a word.
//!
//! It is written from the rules alone, to be compared with `read_items`, and calls nothing that
//! `read_items` uses.
use crate::lines::pieces::{first_piece, lossy, push_quoted};
use lexopt_base::OsString;
use lexopt_items::items::{Item, Table};
use std::alloc::{AllocError, Global};
use std::mem;

/// Why a line has no items.
#[derive(Drop)]
pub enum Refusal {
    /// The message of the error.
    Message(String),
    NoMemory,
}

impl From<AllocError> for Refusal {
    fn from(_error: AllocError) -> Refusal {
        Refusal::NoMemory
    }
}

// How many values an option takes.
#[derive(Clone, Copy)]
enum Kind {
    Flag,
    One,
    Optional,
    Several,
}

#[derive(Drop)]
enum Name {
    Short(char),
    Long(String),
}

// What follows an option in its word.
#[derive(Clone, Copy)]
enum After<'a> {
    Nothing,
    // A joined value.
    Joined(&'a [u8]),
    // The rest of a cluster.
    Attached(&'a [u8]),
}

// The option that is pending after the words so far.
#[derive(Drop)]
enum Pending {
    Nothing,
    // The next word is the value of this option.
    Value(Name),
    // This option has these values, and the plain words that follow are more of them.
    Values(Name, Vec<OsString>),
}

impl Name {
    fn is_among(&self, shorts: &[char], longs: &[String]) -> bool {
        match self {
            Name::Short(option) => shorts.contains(option),
            Name::Long(name) => longs.contains(name),
        }
    }

    // The kind of the option: the first whose list has it.
    fn kind(&self, table: &Table) -> Kind {
        if self.is_among(&table.shorts, &table.longs) {
            Kind::One
        } else if self.is_among(&table.optional_shorts, &table.optional_longs) {
            Kind::Optional
        } else if self.is_among(&table.several_shorts, &table.several_longs) {
            Kind::Several
        } else {
            Kind::Flag
        }
    }

    fn with_value(self, value: Option<OsString>) -> Item {
        match self {
            Name::Short(option) => Item::Short(option, value),
            Name::Long(name) => Item::Long(name, value),
        }
    }

    fn with_values(self, values: Vec<OsString>) -> Item {
        match self {
            Name::Short(option) => Item::ShortMany(option, values),
            Name::Long(name) => Item::LongMany(name, values),
        }
    }

    // Adds the option with its dashes.
    fn push_to(&self, text: &mut String) -> Result<(), AllocError> {
        match self {
            Name::Short(option) => {
                text.push('-')?;
                text.push(*option)
            }
            Name::Long(name) => {
                text.push_str("--")?;
                text.push_str(name)
            }
        }
    }
}

// Adds the message of an option that needs a value and has none.
fn push_missing(message: &mut String, name: &Name) -> Result<(), AllocError> {
    message.push_str("missing argument for option '")?;
    name.push_to(message)?;
    message.push('\'')
}

// Adds the message of a flag with this joined value.
fn push_unexpected(message: &mut String, name: &Name, value: &[u8]) -> Result<(), AllocError> {
    message.push_str("unexpected argument for option '")?;
    name.push_to(message)?;
    message.push_str("': ")?;
    push_quoted(message, value)
}

// The refusal of an option, with its joined value if there is one.
fn refused(alloc: Global, name: &Name, value: Option<&[u8]>) -> Refusal {
    let mut message = String::new(alloc);
    let added = match value {
        Some(value) => push_unexpected(&mut message, name, value),
        None => push_missing(&mut message, name),
    };
    match added {
        Ok(()) => Refusal::Message(message),
        Err(_) => Refusal::NoMemory,
    }
}

// Adds the word of these bytes.
fn push_word(alloc: Global, values: &mut Vec<OsString>, bytes: &[u8]) -> Result<(), AllocError> {
    Ok(values.push(OsString::from_bytes(alloc, bytes)?)?)
}

// Whether a word is a plain word, which an option of several values takes.
fn is_plain(word: &[u8]) -> bool {
    word.first() != Some(&b'-') || word.len() == 1
}

// What follows an option in its cluster.
fn after_short(rest: &[u8], short_equals: bool) -> After<'_> {
    match rest {
        [] => After::Nothing,
        [b'=', value @ ..] if short_equals => After::Joined(value),
        _ => After::Attached(rest),
    }
}

// The name of a long option, up to the first `=`, and what follows it.
fn long_parts(word: &[u8]) -> (&[u8], After<'_>) {
    let mut parts = word.splitn(2, |byte| *byte == b'=');
    let name = parts.next().unwrap_or(word);
    match parts.next() {
        Some(value) => (name, After::Joined(value)),
        None => (name, After::Nothing),
    }
}

#[derive(Drop)]
struct Reader<'t> {
    alloc: Global,
    short_equals: bool,
    table: &'t Table,
    items: Vec<Item>,
    pending: Pending,
    after_separator: bool,
}

impl Reader<'_> {
    fn word(&self, bytes: &[u8]) -> Result<OsString, AllocError> {
        OsString::from_bytes(self.alloc, bytes)
    }

    fn push(&mut self, item: Item) -> Result<(), AllocError> {
        Ok(self.items.push(item)?)
    }

    // Ends the pending option, if there is one.
    fn close(&mut self) -> Result<(), Refusal> {
        match mem::replace(&mut self.pending, Pending::Nothing) {
            Pending::Nothing => {}
            Pending::Value(name) => return Err(refused(self.alloc, &name, None)),
            Pending::Values(name, values) => {
                if values.is_empty() {
                    return Err(refused(self.alloc, &name, None));
                }
                self.push(name.with_values(values))?;
            }
        }
        Ok(())
    }

    // Whether the pending option takes the word as a value.
    fn takes_as_value(&mut self, word: &[u8]) -> Result<bool, Refusal> {
        match mem::replace(&mut self.pending, Pending::Nothing) {
            Pending::Nothing => Ok(false),
            Pending::Value(name) => {
                let value = self.word(word)?;
                self.push(name.with_value(Some(value)))?;
                Ok(true)
            }
            Pending::Values(name, mut values) => {
                let takes = is_plain(word);
                if takes {
                    push_word(self.alloc, &mut values, word)?;
                }
                self.pending = Pending::Values(name, values);
                Ok(takes)
            }
        }
    }

    // Reads an option and what follows it in its word. Returns whether the whole word is read.
    fn read_option(&mut self, name: Name, after: After<'_>) -> Result<bool, Refusal> {
        match name.kind(self.table) {
            Kind::Flag => self.read_flag(name, after),
            Kind::One => self.read_one(name, after),
            Kind::Optional => self.read_optional(name, after),
            Kind::Several => self.read_several(name, after),
        }
    }

    fn read_flag(&mut self, name: Name, after: After<'_>) -> Result<bool, Refusal> {
        if let After::Joined(value) = after {
            return Err(refused(self.alloc, &name, Some(value)));
        }
        self.push(name.with_value(None))?;
        Ok(matches!(after, After::Nothing))
    }

    fn read_one(&mut self, name: Name, after: After<'_>) -> Result<bool, Refusal> {
        match after {
            After::Joined(value) | After::Attached(value) => {
                let value = self.word(value)?;
                self.push(name.with_value(Some(value)))?;
            }
            After::Nothing => self.pending = Pending::Value(name),
        }
        Ok(true)
    }

    fn read_optional(&mut self, name: Name, after: After<'_>) -> Result<bool, Refusal> {
        let value = match after {
            After::Joined(value) | After::Attached(value) => Some(self.word(value)?),
            After::Nothing => None,
        };
        self.push(name.with_value(value))?;
        Ok(true)
    }

    fn read_several(&mut self, name: Name, after: After<'_>) -> Result<bool, Refusal> {
        let mut values = Vec::new(self.alloc);
        if let After::Joined(value) | After::Attached(value) = after {
            push_word(self.alloc, &mut values, value)?;
        }
        if let After::Joined(_) = after {
            self.push(name.with_values(values))?;
        } else {
            self.pending = Pending::Values(name, values);
        }
        Ok(true)
    }

    fn read_cluster(&mut self, cluster: &[u8]) -> Result<(), Refusal> {
        let mut rest = cluster;
        for _ in 0..cluster.len() {
            let Some(piece) = first_piece(rest) else {
                break;
            };
            let after = after_short(piece.rest, self.short_equals);
            if self.read_option(Name::Short(piece.shown()), after)? {
                break;
            }
            rest = piece.rest;
        }
        Ok(())
    }

    fn read_long(&mut self, word: &[u8]) -> Result<(), Refusal> {
        let (name, after) = long_parts(word);
        let name = Name::Long(lossy(self.alloc, name)?);
        self.read_option(name, after)?;
        Ok(())
    }

    // Reads a word that is not a value.
    fn read_own(&mut self, word: &[u8]) -> Result<(), Refusal> {
        match word {
            b"--" if !self.after_separator => self.after_separator = true,
            [b'-', b'-', long @ ..] if !self.after_separator => self.read_long(long)?,
            [b'-', cluster @ ..] if !self.after_separator && !cluster.is_empty() => {
                self.read_cluster(cluster)?;
            }
            _ => {
                let word = self.word(word)?;
                self.push(Item::Positional(word))?;
            }
        }
        Ok(())
    }

    fn read_word(&mut self, word: &[u8]) -> Result<(), Refusal> {
        if self.takes_as_value(word)? {
            return Ok(());
        }
        self.close()?;
        self.read_own(word)
    }

    fn read_words(&mut self, words: &[&[u8]]) -> Result<(), Refusal> {
        for word in words {
            self.read_word(word)?;
        }
        self.close()
    }
}

/// The items of the words by this table, or the refusal.
pub fn read(
    alloc: Global,
    words: &[&[u8]],
    short_equals: bool,
    table: &Table,
) -> Result<Vec<Item>, Refusal> {
    let mut reader = Reader {
        alloc,
        short_equals,
        table,
        items: Vec::new(alloc),
        pending: Pending::Nothing,
        after_separator: false,
    };
    reader.read_words(words)?;
    Ok(reader.items)
}

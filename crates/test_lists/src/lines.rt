//! Reads every list of at most three of 25 words by `read_items` and by a plain reader, which is
//! written from the rules alone, and compares the two.
//!
//! The tables have three groups of options: the letter `a`; the character U+FFFD, as which damage
//! is read; and the marks, which are `-` and `=` as short options, and `-` and the empty name as
//! long options. Each group has no value, one value, an optional value or several values, in all 64
//! ways. In four more tables all groups are in lists of several kinds.
//!
//! For each table the output is how many readings agreed and how many differed, under both settings
//! of `short_equals`, and the first list that differed. Items are compared as values, and errors by
//! their messages.
//!
//! Then it reads clusters, with `short_equals` false: each list of one to four of twenty bytes, by
//! `next` and by the plain pieces.

mod clusters;
mod pieces;
mod plain;
mod tables;
mod tally;

use crate::lines::pieces::push_quoted;
use crate::lines::plain::Refusal;
use crate::lines::tables::{CHOICES, Choice, OVERLAPS};
use crate::lines::tally::Tally;
use crate::lists::list_of;
use crate::words::WORDS;
use lexopt_base::Error;
use lexopt_items::items::{Item, Table, read_items};
use std::alloc::{AllocError, Global};
use std::io;
use test_helpers::parsers::words_from;

// Whether both readers read the same items, or refuse the line with the same message.
fn agree(
    alloc: Global,
    plain: &Result<Vec<Item>, Refusal>,
    found: &Result<Vec<Item>, Error>,
) -> Result<bool, AllocError> {
    match (plain, found) {
        (Err(Refusal::NoMemory), _) | (_, Err(Error::OutOfMemory)) => Err(AllocError),
        (Ok(items), Ok(found)) => Ok(found == items),
        (Err(Refusal::Message(message)), Err(error)) => Ok(error.to_string(alloc)? == *message),
        _ => Ok(false),
    }
}

// Whether both readers agree on these words.
fn read_alike(
    alloc: Global,
    words: &[&[u8]],
    short_equals: bool,
    table: &Table,
) -> Result<bool, AllocError> {
    let found = read_items(alloc, words_from(alloc, words)?, short_equals, table);
    agree(
        alloc,
        &plain::read(alloc, words, short_equals, table),
        &found,
    )
}

// Adds the words in quotes, and `short_equals`.
fn push_words(text: &mut String, words: &[&[u8]], short_equals: bool) -> Result<(), AllocError> {
    for word in words {
        push_quoted(text, word)?;
        text.push(' ')?;
    }
    text.push_str(if short_equals { "on" } else { "off" })
}

fn shown_words(alloc: Global, words: &[&[u8]], short_equals: bool) -> Result<String, AllocError> {
    let mut text = String::new(alloc);
    push_words(&mut text, words, short_equals)?;
    Ok(text)
}

impl Tally {
    // Reads these words by both readers.
    fn read(
        &mut self,
        alloc: Global,
        words: &[&[u8]],
        short_equals: bool,
        table: &Table,
    ) -> Result<(), AllocError> {
        if read_alike(alloc, words, short_equals, table)? {
            self.agree();
        } else {
            self.differ(shown_words(alloc, words, short_equals)?);
        }
        Ok(())
    }

    // Reads the lists with numbers below this one under both settings of `short_equals`, the
    // shortest first.
    fn read_all(&mut self, alloc: Global, table: &Table, end: usize) -> Result<(), AllocError> {
        for number in 0..end {
            if let Some(words) = list_of(alloc, &WORDS, number)? {
                self.read(alloc, &words, true, table)?;
                self.read(alloc, &words, false, table)?;
            }
        }
        Ok(())
    }
}

impl Choice {
    // Reads these lists of words by this table, and prints the counts.
    fn read(self, rt: &(impl Print + AllocGlobal), end: usize) -> io::Result<Tally> {
        let table = self.table(rt.alloc())?;
        let name = self.name(rt.alloc())?;
        let mut tally = Tally::new();
        tally.read_all(rt.alloc(), &table, end)?;
        tally.print(rt, name.as_str())?;
        Ok(tally)
    }
}

/// Reads the lists with numbers below this one by all tables, and prints the counts.
pub fn print_lists(rt: &(impl Print + AllocGlobal), end: usize) -> io::Result<()> {
    let mut total = Tally::new();
    for number in 0..CHOICES {
        total.add(&Choice::of_kinds(number).read(rt, end)?);
    }
    for lists in OVERLAPS.iter() {
        total.add(&Choice::same(*lists).read(rt, end)?);
    }
    total.print(rt, "total")
}

/// Reads the clusters, and prints the counts.
pub fn print_clusters(rt: &(impl Print + AllocGlobal)) -> io::Result<()> {
    let Ok(clusters) = clusters::read_all(rt.alloc()) else {
        return Err(io::Error::from(io::ErrorKind::Other));
    };
    clusters.print(rt, "clusters")
}

//! The tables by which the lists are read.
use lexopt_items::items::Table;
use std::alloc::{AllocError, Global};

/// Which lists of a table some options are in: the name of the choice, and whether they are in
/// those of one value, of an optional value and of several values.
#[derive(Clone, Copy)]
pub struct Lists(&'static str, bool, bool, bool);

// Options that are in one list, or in none.
static KINDS: [Lists; 4] = [
    Lists("none", false, false, false),
    Lists("one", true, false, false),
    Lists("optional", false, true, false),
    Lists("several", false, false, true),
];

/// Options that are in lists of two or three kinds.
pub static OVERLAPS: [Lists; 4] = [
    Lists("one and optional", true, true, false),
    Lists("one and several", true, false, true),
    Lists("optional and several", false, true, true),
    Lists("all", true, true, true),
];

// A group of short options and of long options.
#[derive(Clone, Copy)]
struct Options(&'static [char], &'static [&'static str]);

const LETTER: Options = Options(&['a'], &["a"]);

const DAMAGE: Options = Options(&['\u{FFFD}'], &["\u{FFFD}"]);

const MARKS: Options = Options(&['-', '='], &["", "-"]);

/// A table: the lists that have the letter, the character U+FFFD, and the marks.
#[derive(Clone, Copy)]
pub struct Choice {
    letter: Lists,
    damage: Lists,
    marks: Lists,
}

/// The number of choices of at most one list for each group.
pub const CHOICES: usize = 64;

fn add_to(
    alloc: Global,
    options: Options,
    shorts: &mut Vec<char>,
    longs: &mut Vec<String>,
) -> Result<(), AllocError> {
    shorts.extend_from_slice(options.0)?;
    for name in options.1 {
        longs.push(String::from_str(alloc, name)?)?;
    }
    Ok(())
}

impl Lists {
    // Adds these options to these lists of a table.
    fn add(self, alloc: Global, options: Options, table: &mut Table) -> Result<(), AllocError> {
        let Lists(_, one, optional, several) = self;
        if one {
            add_to(alloc, options, &mut table.shorts, &mut table.longs)?;
        }
        if optional {
            add_to(
                alloc,
                options,
                &mut table.optional_shorts,
                &mut table.optional_longs,
            )?;
        }
        if several {
            add_to(
                alloc,
                options,
                &mut table.several_shorts,
                &mut table.several_longs,
            )?;
        }
        Ok(())
    }
}

impl Choice {
    /// The choice with this number, of at most one list for each group.
    pub fn of_kinds(number: usize) -> Choice {
        Choice {
            letter: KINDS[number / 16 % 4],
            damage: KINDS[number / 4 % 4],
            marks: KINDS[number % 4],
        }
    }

    /// The choice of the same lists for all groups.
    pub fn same(lists: Lists) -> Choice {
        Choice {
            letter: lists,
            damage: lists,
            marks: lists,
        }
    }

    /// The table itself.
    pub fn table(self, alloc: Global) -> Result<Table, AllocError> {
        let mut table = Table::new(alloc);
        self.letter.add(alloc, LETTER, &mut table)?;
        self.damage.add(alloc, DAMAGE, &mut table)?;
        self.marks.add(alloc, MARKS, &mut table)?;
        Ok(table)
    }

    /// The name that is printed before its counts.
    pub fn name(self, alloc: Global) -> Result<String, AllocError> {
        let letter = self.letter.0;
        let damage = self.damage.0;
        let marks = self.marks.0;
        format!(in alloc; "a in {letter}, U+FFFD in {damage}, marks in {marks}")
    }
}

//! Counts of what was read, and a hash of the first read. A hash of every read would cost more than
//! the reads.
use crate::declared::{Flag, Maybe, Value, Values, Word};
use lexopt_options::{OsString, Parsed};
use std::fmt;

#[derive(Drop)]
pub struct Seen {
    copies: u64,
    options: u64,
    values: u64,
    positionals: u64,
    bytes: u64,
    // The FNV-1a hash of the first read.
    hash: u64,
    hashes: bool,
}

impl Seen {
    pub fn new() -> Seen {
        Seen {
            copies: 0,
            options: 0,
            values: 0,
            positionals: 0,
            bytes: 0,
            hash: 0xcbf2_9ce4_8422_2325,
            hashes: true,
        }
    }

    /// Ends the hash, after the first read.
    pub fn stop_hashing(&mut self) {
        self.hashes = false;
    }

    /// Counts options that are declared, and not read.
    pub fn options(&mut self, count: usize) {
        self.options = self.options.wrapping_add(count as u64);
    }

    pub fn copies(&mut self, words: &[OsString]) {
        self.copies = self.copies.wrapping_add(words.len() as u64);
    }

    /// Counts what was read from a line.
    pub fn line(&mut self, line: &[Parsed<Flag, Value, Word, Maybe, Values>]) {
        for parsed in line {
            match parsed {
                Parsed::Flag(flag) => self.option(*flag as u64),
                Parsed::Value(option, value) => {
                    self.option(*option as u64);
                    self.value(value.as_bytes());
                }
                Parsed::Maybe(option, value) => {
                    self.option(*option as u64);
                    if let Some(value) = value {
                        self.value(value.as_bytes());
                    }
                }
                Parsed::Values(option, values) => {
                    self.option(*option as u64);
                    self.several(values);
                }
                Parsed::Positional(Word::File, word) => self.positional(word.as_bytes()),
            }
        }
    }

    // Counts the option at this place of the declaration.
    fn option(&mut self, place: u64) {
        self.options = self.options.wrapping_add(1);
        self.text(b'o', &place.to_le_bytes());
    }

    fn value(&mut self, value: &[u8]) {
        self.values = self.values.wrapping_add(1);
        self.text(b'v', value);
    }

    // Counts the values of an option of several values.
    fn several(&mut self, values: &[OsString]) {
        self.text(b'c', &(values.len() as u64).to_le_bytes());
        for value in values {
            self.value(value.as_bytes());
        }
    }

    fn positional(&mut self, word: &[u8]) {
        self.positionals = self.positionals.wrapping_add(1);
        self.text(b'p', word);
    }

    fn text(&mut self, kind: u8, bytes: &[u8]) {
        self.bytes = self.bytes.wrapping_add(bytes.len() as u64);
        if self.hashes {
            self.byte(kind);
            for byte in bytes {
                self.byte(*byte);
            }
        }
    }

    fn byte(&mut self, byte: u8) {
        self.hash = (self.hash ^ u64::from(byte)).wrapping_mul(0x0100_0000_01b3);
    }
}

impl fmt::Display for Seen {
    fn fmt<W: fmt::Write>(&self, f: &mut fmt::Formatter<W>) -> fmt::Result {
        let Seen {
            copies,
            options,
            values,
            positionals,
            bytes,
            hash,
            ..
        } = self;
        writeln!(f, "copies {copies}")?;
        writeln!(f, "options {options}")?;
        writeln!(f, "values {values}")?;
        writeln!(f, "positionals {positionals}")?;
        writeln!(f, "bytes {bytes}")?;
        writeln!(f, "hash {hash:016x}")
    }
}

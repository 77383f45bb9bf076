//! Clusters of a few bytes, read by `next` with `short_equals` false: an option for each piece, and
//! then the end of the line.
use crate::lines::pieces::{first_piece, push_quoted};
use crate::lines::tally::Tally;
use lexopt_base::{Error, Parser};
use std::alloc::Global;
use test_helpers::calls::{is_at_end, reads_short};
use test_helpers::parsers::parser_of;

// The bytes at both ends of the ranges of table 3-7, and bytes that are in no row of the table.
static BYTES: [u8; 20] = [
    0x41, 0x7F, 0x80, 0x8F, 0x90, 0x9F, 0xA0, 0xBF, 0xC1, 0xC2, 0xDF, 0xE0, 0xE1, 0xED, 0xEE, 0xF0,
    0xF1, 0xF4, 0xF5, 0xFF,
];

// A parser of the cluster of these bytes.
fn parser_of_cluster(alloc: Global, bytes: &[u8]) -> Result<Parser, Error> {
    let mut word = Vec::new(alloc);
    word.push(b'-')?;
    word.extend_from_slice(bytes)?;
    let mut parser = parser_of(alloc, &[word.as_slice()])?;
    parser.set_short_equals(false);
    Ok(parser)
}

// Whether the parser reads an option for the character of each piece, and then the end.
fn reads_pieces(parser: &mut Parser, bytes: &[u8]) -> Result<bool, Error> {
    let mut rest = bytes;
    for _ in 0..bytes.len() {
        let Some(piece) = first_piece(rest) else {
            break;
        };
        if !reads_short(parser, piece.shown())? {
            return Ok(false);
        }
        rest = piece.rest;
    }
    is_at_end(parser)
}

// Reads a cluster, and counts it.
fn read(alloc: Global, tally: &mut Tally, bytes: &[u8]) -> Result<(), Error> {
    if reads_pieces(&mut parser_of_cluster(alloc, bytes)?, bytes)? {
        tally.agree();
    } else {
        let mut text = String::new(alloc);
        push_quoted(&mut text, bytes)?;
        tally.differ(text);
    }
    Ok(())
}

// Reads these two bytes, alone and with one or two bytes after them.
fn read_longer(alloc: Global, tally: &mut Tally, first: u8, second: u8) -> Result<(), Error> {
    read(alloc, tally, &[first, second])?;
    for third in BYTES.iter() {
        read(alloc, tally, &[first, second, *third])?;
        for fourth in BYTES.iter() {
            read(alloc, tally, &[first, second, *third, *fourth])?;
        }
    }
    Ok(())
}

/// Reads each list of one to four of the bytes as a cluster.
pub fn read_all(alloc: Global) -> Result<Tally, Error> {
    let mut tally = Tally::new();
    for first in BYTES.iter() {
        read(alloc, &mut tally, &[*first])?;
        for second in BYTES.iter() {
            read_longer(alloc, &mut tally, *first, *second)?;
        }
    }
    Ok(tally)
}

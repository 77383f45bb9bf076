//! Tries every sequence of `next`, `value`, `optional_value` and `values` on every list of at most
//! three of 25 words.
//!
//! Each call is made on the parser, and by `replay` on a copy, and the replies agree. `values` is
//! read to its end. A sequence ends when `next` returns `None`, or when there is no value or no
//! optional value.
//!
//! The output is how many lists it tried, and the first fault, if there was one.

mod step;

use crate::lists::list_of;
use crate::sequences::step::{STEPS, Step, is_last, is_replayed, made};
use crate::words::WORDS;
use lexopt_base::{Error, Parser};
use lexopt_calls::reply::Reply;
use std::alloc::Global;
use std::io;
use test_helpers::parsers::parser_of;

// The greatest length of a sequence.
const MOST_CALLS: u32 = 100;

// How many lists were tried, and the first fault.
#[derive(Drop)]
struct Tried {
    lists: u64,
    fault: Option<&'static str>,
}

// A parser after some calls.
#[derive(Drop)]
struct Place {
    parser: Parser,
    calls: u32,
}

impl Tried {
    fn fault(&mut self, what: &'static str) {
        if self.fault.is_none() {
            self.fault = Some(what);
        }
    }

    // Makes a call, also by `replay` on a copy, and compares the replies. Returns whether the sequence
    // continues after it.
    fn call(&mut self, alloc: Global, place: &mut Place, step: Step) -> Result<bool, Error> {
        let mut copy = place.parser.clone()?;
        let found = made(alloc, &mut place.parser, step);
        self.compare(alloc, &mut copy, step, &found, place.calls)
    }

    // Makes the call by `replay` on this copy, and compares the reply with what was found. Returns
    // whether the sequence continues after the call.
    fn compare(
        &mut self,
        alloc: Global,
        copy: &mut Parser,
        step: Step,
        found: &Result<Reply, Error>,
        calls: u32,
    ) -> Result<bool, Error> {
        if !is_replayed(alloc, copy, step, found)? {
            self.fault("replay has another reply");
        }
        if is_last(found) {
            return Ok(false);
        }
        if calls > MOST_CALLS {
            self.fault("a sequence is too long");
        }
        Ok(calls <= MOST_CALLS)
    }

    // Makes a call after a place. Returns the place after it, if the sequence continues.
    fn step(&mut self, alloc: Global, place: &Place, step: Step) -> Result<Option<Place>, Error> {
        let mut next = Place {
            parser: place.parser.clone()?,
            calls: place.calls.saturating_add(1),
        };
        let continues = self.call(alloc, &mut next, step)?;
        Ok(continues.then_some(next))
    }

    // Tries every sequence from a place.
    fn sequences(&mut self, alloc: Global, place: Place) -> Result<(), Error> {
        let mut places = Vec::new(alloc);
        places.push(place)?;
        for _ in 0..u64::MAX {
            let Some(place) = places.pop() else {
                break;
            };
            for step in STEPS.iter() {
                if let Some(next) = self.step(alloc, &place, *step)? {
                    places.push(next)?;
                }
            }
        }
        Ok(())
    }

    // Tries every sequence on these words.
    fn list(&mut self, alloc: Global, words: &[&[u8]]) -> Result<(), Error> {
        self.lists = self.lists.saturating_add(1);
        let parser = parser_of(alloc, words)?;
        self.sequences(alloc, Place { parser, calls: 0 })
    }

    // Tries the lists with numbers below this one.
    fn lists(&mut self, alloc: Global, end: usize) -> Result<(), Error> {
        for number in 0..end {
            if let Some(words) = list_of(alloc, &WORDS, number)? {
                self.list(alloc, &words)?;
            }
        }
        Ok(())
    }
}

/// Tries the lists with numbers below this one, and prints the result.
pub fn print(rt: &(impl Print + AllocGlobal), end: usize) -> io::Result<()> {
    let mut tried = Tried {
        lists: 0,
        fault: None,
    };
    if tried.lists(rt.alloc(), end).is_err() {
        tried.fault("a call failed");
    }
    let lists = tried.lists;
    match tried.fault {
        None => println!(rt; "{lists} lists, no fault"),
        Some(what) => println!(rt; "{lists} lists: {what}"),
    }
}

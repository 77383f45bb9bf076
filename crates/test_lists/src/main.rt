//! Tests the library on the cases of standard input, and then by brute force on many lists of
//! words, and prints the counts. It reads every short list of words, and makes every sequence of
//! calls on each. If it is called with an argument, the lists have at most one word, and no
//! clusters are read.
#![tactic(auto)]

mod cases;
mod lines;
mod lists;
mod sequences;
mod words;

use lists::numbers_of;
use std::{env, io};
use words::WORDS;

fn main(rt: HostRuntime) -> io::Result<()> {
    cases::print(&rt)?;
    if env::args(&rt)?.count() > 1 {
        lines::print_lists(&rt, WORDS.len() + 1)?;
        return sequences::print(&rt, WORDS.len() + 1);
    }
    lines::print_lists(&rt, numbers_of(WORDS.len()))?;
    lines::print_clusters(&rt)?;
    sequences::print(&rt, numbers_of(WORDS.len()))
}

//! Calls that run out of memory, and are made again. The script `refused_memory` beside `src` runs
//! these tests many times, and makes one allocation fail in each run: each allocation in turn.
//!
//! A test checks the call that ran out of memory, and what the same call returns when it is made
//! again. The test then fails, and names that call. If no allocation fails, every test passes.

mod call_lists;
mod parser_calls;
mod script_runs;
mod word_calls;

use std::test::Fail;

/// How a call went, or a call and the same call made again.
#[derive(Clone, Copy)]
pub enum Outcome {
    /// Each call had the expected result.
    Expected,
    /// One call ran out of memory. If the call was made twice, the other had the expected result.
    OutOfMemory,
    /// A call had another result.
    Wrong,
}

impl Outcome {
    /// The outcome of a call that had a result, which is the expected one or not.
    pub fn of(is_expected: bool) -> Outcome {
        if is_expected {
            Outcome::Expected
        } else {
            Outcome::Wrong
        }
    }

    /// The outcome of this call and of the same call made again.
    pub fn and_again(self, second: Outcome) -> Outcome {
        match (self, second) {
            (Outcome::Expected, Outcome::Expected) => Outcome::Expected,
            (Outcome::OutOfMemory, Outcome::Expected) | (Outcome::Expected, Outcome::OutOfMemory) =>
                Outcome::OutOfMemory,
            _ => Outcome::Wrong,
        }
    }

    /// This outcome if the calls beside it had the expected results too, and otherwise `Wrong`.
    pub fn only_if(self, are_expected: bool) -> Outcome {
        if are_expected { self } else { Outcome::Wrong }
    }
}

/// Fails a test, which names the call that ran out of memory.
pub fn out_of_memory_in(call: &str) -> Result<(), Fail> {
    Err(Fail::new(format_args!("{call} ran out of memory")))
}

/// Ends a test by the outcome of this call.
pub fn check_outcome(outcome: Outcome, call: &str) -> Result<(), Fail> {
    match outcome {
        Outcome::Expected => Ok(()),
        Outcome::OutOfMemory => out_of_memory_in(call),
        Outcome::Wrong => Err(Fail::new("a call returned another result")),
    }
}

//! Reads the words that the program was called with.
//!
//! Each word is read into a buffer that grows until the word fits, so there is no limit on the
//! length of a word.
ghost use Rattle.std.specs.Prelude.{◌≡◌, ℕ, List, None, Option, Some, Err, IfOk, take};
ghost use Rattle.std.specs.Io.{WritesAtMost};
ghost use Rattle.lexopt_words.specs.Answered.{AreAnswered};

use crate::os_string::OsString;
use std::alloc::{AllocError, Global};
use std::env::{Env, FillError};

// The size of the buffer at first, in bytes.
const FIRST_ROOM: usize = 512;

// How many times as large the buffer gets if a word does not fit. The environment is asked for that
// word again, which takes time by the bytes that did fit, so the buffer grows fast: the third one
// has room for the longest word that Linux allows.
const GROWTH: usize = 16;

// A source of words: one word for each place, counted from 0. It is a trait for the prover's sake,
// so that the clause of `ask_for_words` can name the words of a source; `Env` does not state its
// words.
trait WordSource {
    ghost use Rattle.std.specs.declared.env.FillError.TheVariants.{NotPresent};

    // What a place may have: a word, or `None` after the last word.
    ghost answers: { Self → ℕ → Option (List ℕ) → Type 0 };

    // Copies the word at a place to the front of the buffer, and returns its length in bytes.
    fn copy_word(&self, place: usize, room: &mut [u8]) -> Result<usize, FillError>
        ensures within { WritesAtMost result room.new }
        ensures word { IfOk result (λ count. answers self.now place (Some (take count room.new))) }
        ensures end { result ≡ Err NotPresent → answers self.now place None };
}

// The contract of `Env::arg` states that a word fits into the buffer, and nothing about its bytes.
impl<R: Env> WordSource for R {
    ghost answers = { λ _ _ _. Unit {0} };

    fn copy_word(&self, place: usize, room: &mut [u8]) -> Result<usize, FillError> {
        self.arg(place, room)
    }
}

/// Returns the words that the program was called with, of any bytes and any length.
///
/// The first word is the binary name. There may be no word at all. The words come from `Env::arg`,
/// whose contract states nothing about their bytes, so only tests show which words these are. This
/// allocates the list, each word, and a buffer.
///
/// # Errors
///
/// `AllocError` if an allocation fails.
///
/// # Examples
///
/// ```rust
/// use lexopt_words::os_string::arguments;
///
/// // The words without the binary name.
/// let words: Vec<OsString> = arguments(rt, alloc)?.into_iter().skip(1).collect(alloc)?;
/// ```
pub fn arguments<R: Env>(rt: &R, alloc: Global) -> Result<Vec<OsString>, AllocError> {
    ask_for_words(rt, alloc)
}

// Returns the word of each place, up to the first place that has none. The buffer grows until the
// word fits.
#[tactic(auto, using(crate::proofs::Answered::one_more_came))]
fn ask_for_words<S: WordSource>(source: &S, alloc: Global) -> Result<Vec<OsString>, AllocError>
    ensures { IfOk result (λ words. AreAnswered (S.answers source.now) 0 words.items) }
{
    let mut words = Vec::new(alloc);
    let mut room = vec![in alloc; 0u8; FIRST_ROOM]?;
    for _ in 0..usize::MAX {
        match source.copy_word(words.len(), room.as_mut_slice()) {
            Ok(count) => words.push(OsString::from_bytes(alloc, &room[..count])?)?,
            Err(FillError::NotPresent) => return Ok(words),
            Err(FillError::TooLong) => room.resize(room.len().saturating_mul(GROWTH), 0)?,
        }
    }
    Err(AllocError)
}

//! The words of a command line, in one vector with a cursor.
//!
//! Reading moves the cursor over the words. A word that is returned is moved out of the vector, and
//! an empty word takes its place, so this allocates nothing and moves no other word, except in
//! `take_after`.
ghost use Rattle.std.specs.Prelude.{◌≡◌, ◌≢◌, ◌≤◌, ◌∷◌, [], IfOk, Some, drop, length, vec_len};
ghost use Rattle.std.specs.Prelude.{option_map};
ghost use Rattle.lexopt_base.specs.KeptWords.{IsFirst, TakesNext, last_bytes};

use lexopt_words::os_string::OsString;
use lexopt_words::words::copies;
use std::alloc::{AllocError, Global};
use std::marker::Model;
use std::mem;

/// Words with a cursor. Contracts see the word just before the cursor, which may be read in part,
/// and the words after the cursor, which are unread.
#[derive(Drop)]
pub struct KeptWords {
    alloc: Global,
    words: Vec<OsString>,
    // The number of words before the cursor.
    count: usize,
}

impl Model for KeptWords {
    ghost use Rattle.lexopt_base.specs.KeptWords.{Kept};

    ghost Value = { Kept };

    ghost use Rattle.lexopt_base.specs.KeptWords.{kept_of, IsWithin};

    ghost view = { kept_of };

    ghost invariant = { IsWithin };
}

impl KeptWords {
    /// Creates the list, with the cursor before the first word.
    pub fn new(alloc: Global, words: Vec<OsString>) -> KeptWords
        ensures { result ≡ record { current = []; left = words.items } }
    {
        KeptWords {
            alloc,
            words,
            count: 0,
        }
    }

    /// Returns the bytes of the word just before the cursor.
    pub fn current(&self) -> &[u8]
        requires { self.now.current ≢ [] }
        ensures { result.now ≡ self.now.current }
    {
        self.words[self.count - 1].as_bytes()
    }

    /// Returns the word after the cursor, if there is one.
    pub fn first(&self) -> Option<&OsString>
        ensures { IsFirst (option_map (λ word. word.now) result) self.now.left }
    {
        self.words.get(self.count)
    }

    /// Moves the cursor over the next word.
    pub fn pass(&mut self)
        requires { self.old.left ≢ [] }
        ensures { self.old.left ≡ self.new.current ∷ self.new.left }
    {
        self.count += 1;
    }

    /// Takes the word after the cursor, if there is one, and moves the cursor over its place.
    #[inline(always)]
    pub fn take_next(&mut self) -> Option<OsString>
        ensures { TakesNext self.old result self.new }
    {
        let place = self.count;
        if place == self.words.len() {
            return None;
        }
        let empty = OsString::new(self.alloc);
        let word = mem::replace(&mut self.words[place], empty);
        self.count = place + 1;
        Some(word)
    }

    /// Takes the word after the cursor, if there is one. The cursor moves over its place, and the
    /// word just before the cursor moves along with it.
    #[inline(always)]
    pub fn take_after(&mut self) -> Option<OsString>
        requires { self.old.current ≢ [] }
        ensures taken { TakesNext self.old result self.new }
        ensures current { self.new.current ≡ self.old.current }
    {
        let place = self.count;
        if place == self.words.len() {
            return None;
        }
        let empty = OsString::new(self.alloc);
        let current = mem::replace(&mut self.words[place - 1], empty);
        let word = mem::replace(&mut self.words[place], current);
        self.count = place + 1;
        Some(word)
    }

    /// Returns the words after the cursor.
    pub fn left(&self) -> &[OsString]
        ensures { result.now ≡ self.now.left }
    {
        &self.words[self.count..]
    }

    /// Copies the word just before the cursor and the words after it. This allocates.
    pub fn copy(&self) -> Result<KeptWords, AllocError>
        ensures { IfOk result (λ kept. kept ≡ self.now) }
    {
        let first = self.count.saturating_sub(1);
        Ok(KeptWords {
            alloc: self.alloc,
            words: copies(self.alloc, &self.words[first..])?,
            count: self.count - first,
        })
    }

    /// Takes the last `count` bytes of the word just before the cursor. An empty word takes its
    /// place.
    #[inline(always)]
    pub fn take_tail(&mut self, count: usize) -> OsString
        requires some { self.old.current ≢ [] }
        requires within { count ≤ length self.old.current }
        ensures value { result ≡ last_bytes count self.old.current }
        ensures left { self.new.left ≡ self.old.left }
    {
        // This is computed before the word is moved out: a call that borrowed the word afterwards
        // would keep LLVM from following its parts into the caller.
        let front = self.current().len() - count;
        let empty = OsString::new(self.alloc);
        let word = mem::replace(&mut self.words[self.count - 1], empty);
        word.without_front(front)
    }
}

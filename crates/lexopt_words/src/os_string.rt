//! Words of a command line, which are lists of bytes and need not be UTF-8. No call changes a word
//! that it keeps or returns as a word. `words.rt` has a call for lists of words.
ghost use Rattle.std.specs.Prelude.{◌≡◌, ◌↔◌, ◌≤◌, ℕ, List, [], drop, length, string_bytes, IfOk};
ghost use Rattle.std.specs.Prelude.{IfSome, IsOk, IsSome, IsTrue, IsUtf8, MatchResult, vec_len};
ghost use Rattle.lexopt_spec.specs.Pieces.{lossy};

pub use crate::arguments::arguments;
use crate::codepoint::lossy_text;
pub use crate::quoted::{Quoted, Visible};
use std::alloc::{AllocError, Global};
use std::cmp::Ordering;
use std::hash::{Hash, Hasher};
use std::marker::Model;
use std::{fmt, str};

/// A word: a list of bytes, which need not be UTF-8. Contracts see it as that list.
///
/// It takes the place of `std::ffi::OsString` of Rust.
///
/// # Examples
///
/// ```rust
/// let word = OsString::from_text(alloc, "--name=value")?;
/// let is_dashed = word.as_bytes().starts_with(b"-");
/// ```
#[derive(Drop)]
pub struct OsString {
    // The bytes of the word, after `front` bytes that are no longer part of it. This way a value is
    // taken out of its word without moving a byte.
    bytes: Vec<u8>,
    // The number of bytes at the front that are no longer part of the word.
    front: usize,
}

impl Model for OsString {
    ghost Value = { List ℕ };

    ghost view = { λ word. drop word.front word.bytes.items };

    ghost invariant = { λ word. word.front ≤ vec_len word.bytes };
}

impl OsString {
    /// Creates the empty word. It never allocates.
    pub fn new(alloc: Global) -> OsString
        ensures { result ≡ [] }
    {
        OsString {
            bytes: Vec::new(alloc),
            front: 0,
        }
    }

    /// Copies these bytes into a word.
    ///
    /// # Errors
    ///
    /// `AllocError` if memory for the copy runs out.
    pub fn from_bytes(alloc: Global, bytes: &[u8]) -> Result<OsString, AllocError>
        ensures { IfOk result (λ word. word ≡ bytes.now) }
    {
        Ok(OsString {
            bytes: Vec::from_slice(alloc, bytes)?,
            front: 0,
        })
    }

    /// Copies the bytes of a text into a word.
    ///
    /// # Errors
    ///
    /// `AllocError` if memory for the copy runs out.
    pub fn from_text(alloc: Global, text: &str) -> Result<OsString, AllocError>
        ensures { IfOk result (λ word. word ≡ text.now) }
    {
        OsString::from_bytes(alloc, text.as_bytes())
    }

    /// Turns these bytes into a word. It never allocates.
    pub fn from_vec(bytes: Vec<u8>) -> OsString
        ensures { result ≡ bytes.items }
    {
        OsString { bytes, front: 0 }
    }

    /// Turns a text into a word. It never allocates.
    pub fn from_string(text: String) -> OsString
        ensures { result ≡ string_bytes text }
    {
        OsString::from_vec(text.into_bytes())
    }

    /// Returns the bytes of the word. It never allocates.
    pub fn into_vec(self) -> Vec<u8>
        ensures { result.items ≡ self }
    {
        let OsString { bytes, front } = self;
        if front == 0 {
            return bytes;
        }
        moved_up(bytes, front)
    }

    /// Returns the word without its first `count` bytes. It never allocates, and moves no byte.
    ///
    /// This requires that the word has at least `count` bytes, which the prover checks at each
    /// call.
    ///
    /// # Examples
    ///
    /// ```rust
    /// // `--name=value` without its first 7 bytes is `value`.
    /// let word = OsString::from_text(alloc, "--name=value")?;
    /// let value = word.without_front(7);
    /// ```
    pub fn without_front(self, count: usize) -> OsString
        requires { count ≤ length self }
        ensures { result ≡ drop count self }
    {
        let OsString { bytes, front } = self;
        OsString {
            bytes,
            front: front + count,
        }
    }

    /// Returns the word as text if it is UTF-8, otherwise the same word as `Err`. It never
    /// allocates.
    ///
    /// # Examples
    ///
    /// ```rust
    /// // The bytes `66 6F 6F` are `Ok` of `foo`; the bytes `66 6F 6F FF` are `Err` of the word.
    /// let mut texts = Vec::new(alloc);
    /// let mut words = Vec::new(alloc);
    /// match parser.value()?.into_string() {
    ///     Ok(text) => texts.push(text)?,
    ///     Err(word) => words.push(word)?,
    /// }
    /// ```
    pub fn into_string(self) -> Result<String, OsString>
        ensures exactly_on_utf8 { IsOk result ↔ IsUtf8 self }
        ensures same_bytes { MatchResult result (λ text. string_bytes text ≡ self) (λ word.
            word ≡ self) }
    {
        match String::from_utf8(self.into_vec()) {
            Ok(text) => Ok(text),
            Err(error) => Err(OsString::from_vec(error.into_bytes())),
        }
    }

    /// Returns the bytes of the word.
    pub fn as_bytes(&self) -> &[u8]
        ensures { result.now ≡ self.now }
    {
        &self.bytes[self.front..]
    }

    /// Returns a view of the word.
    pub fn as_os_str(&self) -> OsStr<'_>
        ensures { result.bytes.now ≡ self.now }
    {
        OsStr::from_bytes(self.as_bytes())
    }

    /// Returns the word as text if it is UTF-8. The bytes `66 6F 6F FF` give `None`.
    ///
    /// # Examples
    ///
    /// ```rust
    /// let word = parser.value()?;
    /// let is_auto = word.to_str() == Some("auto");
    /// ```
    pub fn to_str(&self) -> Option<&str>
        ensures exactly_on_utf8 { IsSome result ↔ IsUtf8 self.now }
        ensures same_bytes { IfSome result (λ text. text.now ≡ self.now) }
    {
        self.as_os_str().to_str()
    }

    /// Returns whether the word is this text: `word.is("--")`.
    pub fn is(&self, text: &str) -> bool
        ensures { IsTrue result ↔ (self.now ≡ text.now) }
    {
        self.as_os_str().is(text)
    }

    /// Returns the lossy text of the word, in which each damaged piece is one U+FFFD.
    ///
    /// # Errors
    ///
    /// `AllocError` if memory for the text runs out.
    ///
    /// # Examples
    ///
    /// ```rust
    /// // The bytes `66 6F 6F FF` give `foo` and U+FFFD.
    /// let text = parser.value()?.to_string_lossy(alloc)?;
    /// ```
    pub fn to_string_lossy(&self, alloc: Global) -> Result<String, AllocError>
        ensures { IfOk result (λ text. string_bytes text ≡ lossy self.now) }
    {
        lossy_text(alloc, self.as_bytes())
    }

    /// Returns the number of bytes of the word.
    pub fn len(&self) -> usize
        ensures { result ≡ length self.now }
    {
        self.bytes.len() - self.front
    }

    /// Returns whether the word has no bytes.
    pub fn is_empty(&self) -> bool
        ensures { IsTrue result ↔ (self.now ≡ []) }
    {
        self.len() == 0
    }

    // Returns the allocator of the word.
    pub(crate) fn allocator(&self) -> Global {
        *self.bytes.allocator()
    }
}

// Removes the first `count` bytes, and keeps the allocation.
#[cold]
fn moved_up(bytes: Vec<u8>, count: usize) -> Vec<u8>
    requires { count ≤ vec_len bytes }
    ensures { result.items ≡ drop count bytes.items }
{
    let mut bytes = bytes;
    bytes.copy_within(count.., 0);
    let len = bytes.len() - count;
    bytes.truncate(len);
    bytes
}

impl Clone for OsString {
    ghost use Rattle.std.specs.Prelude.{◌≡◌};

    ghost is_clone = { λ word copy. copy ≡ word };

    /// Copies the word.
    ///
    /// # Errors
    ///
    /// `AllocError` if memory for the copy runs out.
    fn clone(&self) -> Result<OsString, AllocError> {
        self.as_os_str().to_os_string(*self.bytes.allocator())
    }
}

impl PartialEq for OsString {
    ghost use Rattle.std.proofs.Common.{rules};
    ghost use Rattle.std.specs.Prelude.{◌==◌};
    ghost use Rattle.std.specs.Cmp.Lexicographic.{pointwise};
    ghost use Rattle.std.specs.Cmp.Rules.{comparing};

    ghost eq = { pointwise ◌==◌ };

    ghost laws = { Prim.search (comparing, rules) };

    fn eq(&self, other: &OsString) -> bool {
        self.as_bytes() == other.as_bytes()
    }
}

impl Eq for OsString {
    ghost use Rattle.std.proofs.Common.{rules};
    ghost use Rattle.std.specs.Cmp.Rules.{comparing};

    ghost laws = { Prim.search (comparing, rules) };
}

// Words have the order of their lists of bytes: the first byte that differs decides, and a prefix
// comes first. `-ab` comes before `-b`, and `-a` before `-ab`.
impl PartialOrd for OsString {
    ghost use Rattle.std.proofs.Common.{rules};
    ghost use Rattle.std.specs.Cmp.{partial_order_from_own_ties};
    ghost use Rattle.std.specs.Cmp.Rules.{comparing};
    ghost use Rattle.std.specs.Cmp.Lexicographic.{slice_cmp};
    ghost use Rattle.std.specs.Ordering.{as_partial_cmp, nat_cmp};

    ghost partial_cmp = { as_partial_cmp (slice_cmp nat_cmp) };

    ghost laws = { partial_order_from_own_ties (Prim.search (comparing, rules))
        (Prim.search (comparing, rules)) };

    fn partial_cmp(&self, other: &OsString) -> Option<Ordering> {
        Some(self.cmp(other))
    }
}

impl Ord for OsString {
    ghost use Rattle.std.proofs.Common.{rules};
    ghost use Rattle.std.specs.Cmp.Rules.{comparing};
    ghost use Rattle.std.specs.Cmp.Lexicographic.{slice_cmp};
    ghost use Rattle.std.specs.Ordering.{nat_cmp};

    ghost cmp = { slice_cmp nat_cmp };

    ghost total = { Prim.search (comparing, rules) };

    ghost matches_partial_cmp = { Prim.search (comparing, rules) };

    ghost matches_eq = { Prim.search (comparing, rules) };

    fn cmp(&self, other: &OsString) -> Ordering {
        self.as_bytes().cmp(other.as_bytes())
    }
}

// This hashes the number of bytes and then each byte, as a `Vec<u8>` does.
impl Hash for OsString {
    ghost use Rattle.std.proofs.Common.{rules};
    ghost use Rattle.std.specs.Cmp.Rules.{hashing};
    ghost use Rattle.std.specs.Hash.{slice, u8};

    ghost hash_input = { slice u8 };

    ghost respects_eq = { Prim.search (hashing, rules) };

    fn hash<H: Hasher>(&self, state: &mut H) {
        self.as_bytes().hash(state);
    }
}

// `{word:?}` prints the quoted form, as `Quoted` does.
impl fmt::Debug for OsString {
    ghost use Rattle.std.specs.Prelude.{Some};
    ghost use Rattle.lexopt_spec.specs.Text.{quoted};

    ghost debug_output = { λ word. Some (quoted word) };

    fn fmt<W: fmt::Write>(&self, f: &mut fmt::Formatter<W>) -> fmt::Result {
        fmt::Debug::fmt(&self.as_os_str(), f)
    }
}

/// A view of a word's bytes. It is passed by value, where Rust passes `&OsStr`.
#[derive(Clone, Copy)]
pub struct OsStr<'a> {
    /// The bytes of the word.
    pub bytes: &'a [u8],
}

impl<'a> OsStr<'a> {
    /// Returns a view of these bytes.
    pub fn from_bytes(bytes: &'a [u8]) -> OsStr<'a>
        ensures { result.bytes.now ≡ bytes.now }
    {
        OsStr { bytes }
    }

    /// Returns the bytes of the word, for as long as the view may borrow them.
    pub fn as_bytes(self) -> &'a [u8]
        ensures { result.now ≡ self.entry.bytes.now }
    {
        let OsStr { bytes } = self;
        bytes
    }

    /// Returns the word as text if it is UTF-8, for as long as the view may borrow it.
    pub fn to_str(self) -> Option<&'a str>
        ensures exactly_on_utf8 { IsSome result ↔ IsUtf8 self.entry.bytes.now }
        ensures same_bytes { IfSome result (λ text. text.now ≡ self.entry.bytes.now) }
    {
        str::from_utf8(self.bytes).ok()
    }

    /// Returns whether the word is this text.
    pub fn is(self, text: &str) -> bool
        ensures { IsTrue result ↔ (self.entry.bytes.now ≡ text.now) }
    {
        self.bytes == text.as_bytes()
    }

    /// Returns the lossy text of the word, in which each damaged piece is one U+FFFD.
    ///
    /// # Errors
    ///
    /// `AllocError` if memory for the text runs out.
    pub fn to_string_lossy(self, alloc: Global) -> Result<String, AllocError>
        ensures { IfOk result (λ text. string_bytes text ≡ lossy self.entry.bytes.now) }
    {
        lossy_text(alloc, self.bytes)
    }

    /// Copies the bytes into a word.
    ///
    /// # Errors
    ///
    /// `AllocError` if memory for the copy runs out.
    pub fn to_os_string(self, alloc: Global) -> Result<OsString, AllocError>
        ensures { IfOk result (λ word. word ≡ self.entry.bytes.now) }
    {
        OsString::from_bytes(alloc, self.bytes)
    }
}

impl PartialEq for OsStr<'_> {
    ghost use Rattle.std.proofs.Common.{rules};
    ghost use Rattle.std.specs.Prelude.{◌==◌};
    ghost use Rattle.std.specs.Cmp.Lexicographic.{pointwise};
    ghost use Rattle.std.specs.Cmp.Rules.{comparing};

    ghost eq = { λ a b. pointwise ◌==◌ a.bytes.now b.bytes.now };

    ghost laws = { Prim.search (comparing, rules) };

    fn eq(&self, other: &Self) -> bool {
        self.bytes == other.bytes
    }
}

impl Eq for OsStr<'_> {
    ghost use Rattle.std.proofs.Common.{rules};
    ghost use Rattle.std.specs.Cmp.Rules.{comparing};

    ghost laws = { Prim.search (comparing, rules) };
}

impl fmt::Debug for OsStr<'_> {
    ghost use Rattle.std.specs.Prelude.{Some};
    ghost use Rattle.lexopt_spec.specs.Text.{quoted};

    ghost debug_output = { λ word. Some (quoted word.bytes.now) };

    fn fmt<W: fmt::Write>(&self, f: &mut fmt::Formatter<W>) -> fmt::Result {
        fmt::Display::fmt(&Quoted::new(self.bytes), f)
    }
}

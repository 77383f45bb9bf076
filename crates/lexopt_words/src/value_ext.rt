//! Conversions of a value to a text or to another type.
ghost use Rattle.std.specs.Prelude.{◌≡◌, List, ℕ, IsUtf8, MatchResult, Result, string_bytes};
ghost use Rattle.std.specs.Fn.{FnOnceReturnsAt, FnOnceTakesAt};
ghost use Rattle.lexopt_words.specs.Conversions.{IsNotUnicode, IsParsed};

use crate::error::Error;
use crate::os_string::OsString;
use std::str::FromStr;

mod private {
    pub trait Sealed {}

    impl Sealed for crate::os_string::OsString {}
}

/// Conversions of a value. Only `OsString` implements this trait.
///
/// # Examples
///
/// ```rust
/// use lexopt_base::prelude::ValueExt;
///
/// let number = parser.value()?.parse::<u32>()?;
/// let name = parser.value()?.string()?;
/// ```
pub trait ValueExt: private::Sealed {
    // The bytes of the word.
    ghost word: { Self → List ℕ };

    /// Converts the word to the type `T`, by the `FromStr` of `T`.
    ///
    /// # Errors
    ///
    /// - `NonUnicodeValue` with a copy of the word if it is not UTF-8.
    /// - `ParsingFailed` with the whole text of the word and a cause if `FromStr` fails. The cause
    ///   is an `anyhow::Error`, which keeps at most 120 bytes of what the error of `FromStr`
    ///   prints: a longer text is cut, and then ends in three dots.
    /// - `OutOfMemory` in place of either of these.
    ///
    /// # Examples
    ///
    /// ```rust
    /// // `-n 10` sets the number to 10; `-n x` is refused.
    /// let mut number = 1;
    /// if let Some(Short('n')) = parser.next()? {
    ///     number = parser.value()?.parse::<u32>()?;
    /// }
    /// ```
    fn parse<T: FromStr>(&self) -> Result<T, Error>
    where
        T::Err: Into<anyhow::Error>,
        ensures text { IsUtf8 (word self.now) → ((answer : Result T T.Err)
            × T.from_str_gives (word self.now) answer
            × IsParsed T.Err.converts (word self.now) answer result) }
        ensures damaged { (IsUtf8 (word self.now) → ⊥) → IsNotUnicode (word self.now) result };

    /// Converts the word by a function of the program's own.
    ///
    /// `func` is called once with the text of the word if it is UTF-8, otherwise not at all.
    ///
    /// # Errors
    ///
    /// - `NonUnicodeValue` with a copy of the word if it is not UTF-8.
    /// - `ParsingFailed` with the whole text of the word and a cause if `func` fails. The cause is
    ///   an `anyhow::Error`, which keeps at most 120 bytes of what the error of `func` prints: a
    ///   longer text is cut, and then ends in three dots.
    /// - `OutOfMemory` in place of either of these.
    ///
    /// # Examples
    ///
    /// ```rust
    /// use anyhow::bail;
    ///
    /// fn jobs_of(text: &str) -> anyhow::Result<u32> {
    ///     match text.parse() {
    ///         Ok(jobs @ 1..=256) => Ok(jobs),
    ///         _ => bail!("expected a number from 1 to 256"),
    ///     }
    /// }
    ///
    /// let jobs = parser.value()?.parse_with(jobs_of)?;
    /// ```
    fn parse_with<F, T, E>(&self, func: F) -> Result<T, Error>
    where
        F: FnOnce(&str) -> Result<T, E> + Drop,
        E: Into<anyhow::Error>,
        requires { IsUtf8 (word self.now) → FnOnceTakesAt F.FnOnce func (word self.now) }
        ensures text { IsUtf8 (word self.now) → ((answer : Result T E)
            × FnOnceReturnsAt F.FnOnce func (word self.now) answer
            × IsParsed E.converts (word self.now) answer result) }
        ensures damaged { (IsUtf8 (word self.now) → ⊥) → IsNotUnicode (word self.now) result };

    /// Turns the word into a `String`. It never allocates.
    ///
    /// # Errors
    ///
    /// `NonUnicodeValue` with the word itself if it is not UTF-8.
    ///
    /// # Examples
    ///
    /// ```rust
    /// // The thing to greet is a text; a word that is not UTF-8 is refused.
    /// let mut thing = None;
    /// if let Some(Value(word)) = parser.next()? {
    ///     thing = Some(word.string()?);
    /// }
    /// ```
    fn string(self) -> Result<String, Error>
        ensures { MatchResult result
            (λ text. (string_bytes text ≡ word self) × IsUtf8 (word self))
            (λ e. (e ≡ Error.NonUnicodeValue (word self)) × (IsUtf8 (word self) → ⊥)) };
}

impl ValueExt for OsString {
    ghost word = { λ word. word };

    fn parse<T: FromStr>(&self) -> Result<T, Error>
    where
        T::Err: Into<anyhow::Error>,
    {
        // Each arm returns at once: if they met at the end of the function, the whole `Result`
        // would be moved.
        match self.parse_with(|text| T::from_str(text)) {
            Ok(value) => return Ok(value),
            Err(error) => Err(error),
        }
    }

    fn parse_with<F, T, E>(&self, func: F) -> Result<T, Error>
    where
        F: FnOnce(&str) -> Result<T, E> + Drop,
        E: Into<anyhow::Error>,
    {
        match self.to_str() {
            Some(text) => match func(text) {
                // As in `parse`.
                Ok(value) => return Ok(value),
                Err(error) => {
                    let error = error.into();
                    let value = String::from_str(self.allocator(), text)?;
                    Err(Error::ParsingFailed { value, error })
                }
            },
            None => Err(Error::NonUnicodeValue(self.clone()?)),
        }
    }

    fn string(self) -> Result<String, Error> {
        match self.into_string() {
            Ok(text) => Ok(text),
            Err(word) => Err(Error::NonUnicodeValue(word)),
        }
    }
}

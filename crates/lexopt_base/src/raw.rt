//! `raw_args` and `try_raw_args`: the unread words, taken as they are.
use crate::parser::Parser;
use lexopt_words::error::Error;
use lexopt_words::os_string::{OsStr, OsString};

/// A view of the unread words, made by [`Parser::raw_args`] and [`Parser::try_raw_args`].
///
/// It is an iterator: each call of `next` takes one word, whatever it looks like. Words that are
/// not taken stay with the parser. `next`, `peek`, `next_if` and `as_slice` do not allocate.
/// `collect` allocates a list: if memory runs out, it returns an error, and the words that it had
/// taken are gone.
#[derive(Drop)]
pub struct RawArgs<'a> {
    parser: &'a mut Parser,
}

impl Parser {
    ghost use Rattle.std.specs.Prelude.{◌≡◌, ◌↔◌, None, IsSome, IfOk, IfSome};
    ghost use Rattle.std.specs.Borrow.{sem};
    ghost use Rattle.lexopt_spec.specs.UnreadLine.{pending};
    ghost use Rattle.lexopt_base.specs.Views.{LendsWords, LineIfBusy, LineIfRawArgsFail};

    /// Returns a view of the unread words, whatever they look like.
    ///
    /// A `--` that the view yields is a word like any other, and does not end the options. Words
    /// that are not taken from the view stay with the parser. If no word is left, the view is
    /// empty. If memory runs out while `collect` makes a list of the words, those that it had taken
    /// are gone.
    ///
    /// # Errors
    ///
    /// - `UnexpectedValue` if a value in the last option's word was not taken, such as `x` of
    ///   `--name=x` or `b` of `-ab`. It is consumed, so a second call succeeds.
    /// - `OutOfMemory` in place of that error. Nothing is consumed.
    ///
    /// # Examples
    ///
    /// ```rust
    /// // `timeout 10 ls -l`: the first positional has been read, and the rest is the command.
    /// let command: Vec<OsString> = parser.raw_args()?.collect(alloc)?;
    /// ```
    pub fn raw_args(&mut self) -> Result<RawArgs<'_>, Error>
        ensures* refused { sem 𝓛 (LineIfRawArgsFail self.entry result) }
        ensures view { IfOk result (LendsWords self.entry) }
    {
        self.refuse_if_pending()?;
        Ok(RawArgs { parser: self })
    }

    /// Returns a view of the unread words, unless a value in the last option's word was not taken.
    ///
    /// `None` means that there is such a value, which [`Parser::optional_value`] would return; it
    /// stays. This call consumes and allocates nothing. If no word is left, the view is empty.
    ///
    /// # Examples
    ///
    /// ```rust
    /// // Takes the next word if it is a number after one dash, as in `head -10`.
    /// fn take_dash_number(parser: &mut Parser) -> Option<usize> {
    ///     let mut words = parser.try_raw_args()?;
    ///     let digits = words.peek()?.to_str()?.strip_prefix('-')?;
    ///     let number = digits.parse::<usize>().ok()?;
    ///     let _word = words.next();
    ///     Some(number)
    /// }
    /// ```
    pub fn try_raw_args(&mut self) -> Option<RawArgs<'_>>
        ensures* busy { sem 𝓛 (LineIfBusy self.entry result) }
        ensures nothing_pending { IsSome result ↔ (pending self.old ≡ None) }
        ensures view { IfSome result (LendsWords self.entry) }
    {
        if self.pending().is_some() {
            return None;
        }
        Some(RawArgs { parser: self })
    }
}

impl Iterator for RawArgs<'_> {
    ghost use Rattle.std.specs.Iterator.{item_count};
    ghost use Rattle.lexopt_base.specs.Views.{GivesWord};

    type Item = OsString;

    ghost next_gives = { GivesWord };

    ghost remaining = { item_count (λ view. view.parser.now.words) };

    /// Takes the next word, and returns it. `None` means that no word is left.
    fn next(&mut self) -> Option<OsString> {
        self.parser.take_whole_word()
    }
}

impl RawArgs<'_> {
    ghost use Rattle.std.specs.Prelude.{◌≡◌, Some, option_map, slice_get};
    ghost use Rattle.lexopt_base.specs.KeptWords.{IsFirst};
    ghost use Rattle.lexopt_base.specs.Views.{NextIf};

    /// Returns a view of the next word, which stays. `None` means that no word is left.
    ///
    /// # Examples
    ///
    /// ```rust
    /// let words = parser.raw_args()?;
    /// let Some(word) = words.peek() else {
    ///     return Err(Error::from("missing argument COMMAND"));
    /// };
    /// let is_dashed = word.as_bytes().starts_with(b"-");
    /// ```
    pub fn peek(&self) -> Option<OsStr<'_>>
        ensures { IsFirst (option_map (λ word. word.bytes.now) result) self.now.parser.now.words }
    {
        let word = self.as_slice().first()?;
        Some(word.as_os_str())
    }

    /// Takes the next word if `func` returns true for it, and returns it.
    ///
    /// `func` is called once if there is a next word, otherwise not at all. `None` means that no
    /// word is left, or that `func` returned false; the word then stays.
    ///
    /// # Examples
    ///
    /// ```rust
    /// let mut words = parser.raw_args()?;
    /// let dashed = words.next_if(|word| word.as_bytes().starts_with(b"-"));
    /// ```
    pub fn next_if<F: FnOnce(OsStr<'_>) -> bool + Drop>(&mut self, func: F) -> Option<OsString>
        requires { (word : _) → slice_get self.old.parser.now.words 0 ≡ Some word.bytes.now
            → F.pre func word }
        ensures same_parser { self.new.parser.ghost_name ≡ self.old.parser.ghost_name }
        ensures asked { NextIf (F.post func) self.old.parser.now result self.new.parser.now }
    {
        let word = self.peek()?;
        if func(word) { self.next() } else { None }
    }

    /// Returns the unread words, which stay.
    ///
    /// # Examples
    ///
    /// ```rust
    /// let words = parser.raw_args()?;
    /// let count = words.as_slice().len();
    /// ```
    pub fn as_slice(&self) -> &[OsString]
        ensures { result.now ≡ self.now.parser.now.words }
    {
        self.parser.words_left()
    }
}

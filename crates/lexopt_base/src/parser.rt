//! The parser: a command line, of which some words have been read.
ghost use Rattle.std.specs.Prelude.{◌≡◌, ◌≢◌, ◌↔◌, ◌⊎◌, ◌<◌, ◌≤◌, ℕ, List, [], ◌∷◌, Some, None};
ghost use Rattle.std.specs.Prelude.{false, IsTrue, IsSome, IfOk, IfErr, OnErr, OnOk, codes};
ghost use Rattle.std.specs.List.{list_all};
ghost use Rattle.std.specs.Prelude.{drop, length, string_bytes, string_capacity};
ghost use Rattle.std.specs.Str.{is_utf8};
ghost use Rattle.std.specs.Option.{option_map};
ghost use Rattle.std.specs.Iterator.{IsFiniteIterable};
ghost use Rattle.lexopt_spec.specs.Pieces.{lossy};
ghost use Rattle.lexopt_spec.specs.UnreadLine.{IsNormalIn, fresh, invoked, long_option, no_tail, pending};
ghost use Rattle.lexopt_spec.specs.UnreadLine.{pending_in, rest_of, spelling};
ghost use Rattle.lexopt_spec.specs.Steps.{Answers, Next, OptionalStep, Reply, Value};
ghost use Rattle.lexopt_spec.specs.Steps.{ReadsPositional, ReadsWord, maybe};
ghost use Rattle.lexopt_base.specs.Replies.{IsReplyOfNext, RepliesWith, next_reply, value_reply};
ghost use Rattle.lexopt_base.specs.Words.{YieldsWords};
ghost use Rattle.lexopt_base.specs.Found.{found_as, advance_reply};
ghost use Rattle.lexopt_words.specs.Message.{IsCustom};
ghost use Rattle.lexopt_spec.specs.Views.{WordItem, available};
ghost use Rattle.lexopt_base.specs.Refusals.{HasPending, IsMissing, RefusesPending, TakesPending};
ghost use Rattle.lexopt_base.specs.Refusals.{take_reply};
ghost use Rattle.lexopt_base.specs.Pending.{IsCounted, is_joined};
ghost use Rattle.lexopt_base.specs.Views.{RawArgsFailWith, BeginFailsWith};
ghost use Rattle.lexopt_base.specs.Models.{IsLongRead, IsShortRead};

use crate::kept_words::KeptWords;
use crate::refusal::Refusal;
use bstr::ByteSlice;
use lexopt_words::codepoint::{codepoint_at, lossy_text};
use lexopt_words::error::{Arg, Error};
use lexopt_words::os_string::{OsString, arguments};
use lexopt_words::word::{WordKind, is_positional, kind_of};
use std::alloc::{AllocError, Global};
use std::env::Env;
use std::marker::Model;

// What is left of the word just before the cursor. A position is a byte offset in that word. The
// states with nothing left come first, so that one comparison recognizes them.
#[derive(Clone, Copy)]
enum State {
    // Nothing.
    Ready,
    // Nothing, and the separator has been read.
    FinishedOpts,
    // The rest of a cluster, such as `bc` of `-abc`, which begins here.
    Shorts(usize),
    // The value of `--option=value`, which begins here.
    PendingValue(usize),
}

// The option read last.
#[derive(Clone, Copy)]
enum LastOption {
    Nothing,
    Short(char),
    // The parser keeps its name.
    Long,
}

/// What [`Parser::advance`] reads.
///
/// It differs from [`Arg`] in that it borrows nothing from the parser.
#[derive(Drop)]
pub enum Found {
    /// A short option. It is now the last option.
    Short(char),
    /// A long option. It is now the last option, and [`Parser::long_name`] lends its name.
    Long,
    /// A positional.
    Value(OsString),
    /// The end of the line: no word is left.
    End,
}

// The value that is left in the word of the last option.
#[derive(Clone, Copy)]
pub(crate) struct Pending {
    // Its length in bytes.
    pub count: usize,
    // Whether `=` joins it to its option.
    pub is_joined: bool,
}

/// A parser for a command line.
///
/// [`Parser::from_env_os`] creates one for the program's own words. [`Parser::next`] reads an
/// option or a positional; [`Parser::value`], [`Parser::optional_value`] and [`Parser::values`]
/// take the values of the option just read; [`Parser::raw_args`] takes words as they are.
///
/// Contracts see a parser as its unread line: the tail of the word being read, the unread words,
/// whether the separator has been read, the last option, `short_equals`, and the binary name.
///
/// # Examples
///
/// ```rust
/// let mut parser = Parser::from_env_os(rt, alloc)?;
/// let mut verbose = false;
/// let mut output = None;
/// let mut files = Vec::new(alloc);
/// for _ in 0..u64::MAX {
///     match parser.next()? {
///         Some(Short('v') | Long("verbose")) => verbose = true,
///         Some(Short('o') | Long("output")) => output = Some(parser.value()?),
///         Some(Value(file)) => files.push(file)?,
///         Some(argument) => return Err(argument.unexpected(alloc)),
///         None => break,
///     }
/// }
/// ```
///
/// Every loop has to be proved to end, so this one counts, where Rust would have `while let`.
#[derive(Drop)]
pub struct Parser {
    alloc: Global,
    words: KeptWords,
    state: State,
    last_option: LastOption,
    // The name of the long option read last. `next` and `long_name` lend it from here.
    name: String,
    short_equals: bool,
    bin_name: Option<String>,
}

impl Model for Parser {
    ghost use Rattle.lexopt_spec.specs.UnreadLine.{UnreadLine};

    ghost Value = { UnreadLine };

    ghost use Rattle.lexopt_base.specs.Models.{line_of, IsSound};

    ghost view = { line_of };

    ghost invariant = { IsSound };
}

impl Parser {
    ghost use Rattle.std.specs.Borrow.{sem};
    ghost use Rattle.lexopt_base.specs.Ends.{LineAfterNext};

    /// Creates a parser from words that do not include the binary name.
    ///
    /// All items are taken at once, so the iterator must end. This allocates the list of words;
    /// [`Parser::from_vec`] makes the same parser from a `Vec`, and allocates nothing. `bin_name`
    /// returns `None`, and `short_equals` is on.
    ///
    /// # Errors
    ///
    /// `OutOfMemory` if the allocation fails. The items are gone.
    ///
    /// # Examples
    ///
    /// ```rust
    /// let mut words = Vec::new(alloc);
    /// words.push(OsString::from_text(alloc, "-n")?)?;
    /// words.push(OsString::from_text(alloc, "10")?)?;
    /// let mut parser = Parser::from_args(alloc, words)?;
    /// ```
    #[inline(always)]
    pub fn from_args<I>(alloc: Global, args: I) -> Result<Parser, Error>
    where
        I: IntoIterator<Item = OsString> + Drop,
        I::IntoIter: Drop,
        requires { IsFiniteIterable I.into_iter_gives I.IntoIter.can_next I.IntoIter.remaining args }
        ensures ok { IfOk result (λ parser. (words : List (List ℕ))
            × YieldsWords I.into_iter_gives I.IntoIter.next_gives args words
            × (parser ≡ fresh words)) }
        ensures err { IfErr result (λ e. e ≡ Error.OutOfMemory) }
    {
        let words = collect_words(alloc, args)?;
        Ok(Parser::unread(alloc, KeptWords::new(alloc, words), None))
    }

    /// Creates a parser from words that do not include the binary name, without an allocation.
    ///
    /// It is the parser that [`Parser::from_args`] would make of these words. The parser keeps the
    /// `Vec`, and allocates with the allocator of that `Vec`.
    ///
    /// # Examples
    ///
    /// ```rust
    /// let words = vec![in alloc; OsString::from_text(alloc, "--help")?]?;
    /// let mut parser = Parser::from_vec(words);
    /// ```
    #[inline(always)]
    pub fn from_vec(words: Vec<OsString>) -> Parser
        ensures { result ≡ fresh words.items }
    {
        let alloc = *words.allocator();
        Parser::unread(alloc, KeptWords::new(alloc, words), None)
    }

    /// Creates a parser from words of which the first, if there is one, is the binary name.
    ///
    /// The parser reads the words after the binary name. All items are taken at once, so the
    /// iterator must end. This allocates the list of words, and the binary name as text.
    ///
    /// # Errors
    ///
    /// `OutOfMemory` if an allocation fails. The items are gone.
    ///
    /// # Examples
    ///
    /// ```rust
    /// let mut words = Vec::new(alloc);
    /// words.push(OsString::from_text(alloc, "ls")?)?;
    /// words.push(OsString::from_text(alloc, "-l")?)?;
    /// // `bin_name` returns `ls`, and `next` reads `-l`.
    /// let mut parser = Parser::from_iter(alloc, words)?;
    /// ```
    pub fn from_iter<I>(alloc: Global, args: I) -> Result<Parser, Error>
    where
        I: IntoIterator<Item = OsString> + Drop,
        I::IntoIter: Drop,
        requires { IsFiniteIterable I.into_iter_gives I.IntoIter.can_next I.IntoIter.remaining args }
        ensures ok { IfOk result (λ parser. (words : List (List ℕ))
            × YieldsWords I.into_iter_gives I.IntoIter.next_gives args words
            × (parser ≡ invoked words)) }
        ensures err { IfErr result (λ e. e ≡ Error.OutOfMemory) }
    {
        let all = collect_words(alloc, args)?;
        Ok(Parser::invoked(alloc, all)?)
    }

    /// Call [`Parser::from_env_os`] instead, which reads words of any bytes, such as the names of
    /// files: this creates a parser from the words that the program was called with only if all of
    /// them are UTF-8.
    ///
    /// The first word is the binary name. No contract states which words these are; only tests show
    /// that.
    ///
    /// # Errors
    ///
    /// - `OutOfMemory` if an allocation fails.
    /// - `Custom` with the message `arguments unavailable` if a word is not UTF-8. The message does
    ///   not name the word.
    ///
    /// # Examples
    ///
    /// ```rust
    /// let mut parser = Parser::from_env(rt, alloc)?;
    /// ```
    // It is not inlined, as `from_env_os` is not.
    #[inline(never)]
    pub fn from_env<R: Env>(rt: &R, alloc: Global) -> Result<Parser, Error>
        ensures ok { IfOk result (λ parser. (words : List (List ℕ))
            × IsTrue (list_all is_utf8 words)
            × (parser ≡ invoked words)) }
        ensures err { IfErr result (λ e. (e ≡ Error.OutOfMemory)
            ⊎ IsCustom (codes "arguments unavailable") e) }
    {
        let words = arguments(rt, alloc)?;
        if !are_texts(&words) {
            return Err(Error::from("arguments unavailable"));
        }
        Ok(Parser::invoked(alloc, words)?)
    }

    /// Creates a parser from the words that the program was called with. This is the usual way to
    /// create a parser.
    ///
    /// The words may be any bytes and any length. The first word is the binary name. The words come
    /// from `os_string::arguments` of `lexopt_words`. No contract states which words these are;
    /// only tests show that. This allocates the list, each word, and the binary name as text.
    ///
    /// `rt` is a reference to the runtime that `main` gets, and `rt.alloc()` is an allocator.
    ///
    /// # Errors
    ///
    /// `OutOfMemory` if an allocation fails.
    ///
    /// # Examples
    ///
    /// ```rust
    /// let mut parser = Parser::from_env_os(rt, alloc)?;
    /// ```
    // A program makes this call once, so LLVM would inline it into the function with the loop. The
    // space of an `Error` would then be zeroed and copied at each `next()?` there, which takes some
    // 150 instructions; `bench/run --check` shows it.
    #[inline(never)]
    pub fn from_env_os<R: Env>(rt: &R, alloc: Global) -> Result<Parser, Error>
        ensures ok { IfOk result (λ parser. (words : List (List ℕ)) × (parser ≡ invoked words)) }
        ensures err { IfErr result (λ e. e ≡ Error.OutOfMemory) }
    {
        Ok(Parser::invoked(alloc, arguments(rt, alloc)?)?)
    }

    /// Returns the name that the program was called by, for use in messages.
    ///
    /// It is the first word as lossy text: each damaged piece becomes one U+FFFD. `None` means that
    /// there was no first word, or that the parser was created by `from_args` or `from_vec`. No
    /// call changes it.
    ///
    /// # Examples
    ///
    /// ```rust
    /// let name = parser.bin_name().unwrap_or("hello");
    /// let _ = eprintln!(rt; "{name}: missing argument THING");
    /// ```
    pub fn bin_name(&self) -> Option<&str>
        ensures { option_map (λ name. name.now) result ≡ self.now.bin_name }
    {
        self.bin_name.as_deref()
    }

    /// Sets whether `=` separates a short option from its value.
    ///
    /// It is on in a new parser: the value of `-o=foo` is `foo`. If it is off, that value is
    /// `=foo`, as `cut -d=` needs. In both cases `-ofoo` and `-o foo` have the value `foo`. The
    /// setting takes effect at the next call, even inside a cluster. Long options do not depend on
    /// it.
    ///
    /// # Examples
    ///
    /// ```rust
    /// // Off for one option: `-d=` has the value `=`.
    /// let mut delimiter = None;
    /// if let Some(Short('d') | Long("delimiter")) = parser.next()? {
    ///     parser.set_short_equals(false);
    ///     delimiter = Some(parser.value()?);
    ///     parser.set_short_equals(true);
    /// }
    /// ```
    pub fn set_short_equals(&mut self, on: bool)
        ensures { self.new ≡ record self.old { short_equals = on } }
    {
        self.short_equals = on;
    }

    /// Returns the next option or positional.
    ///
    /// `Ok(None)` means that the line is at its end. A word is a positional if it is `-`, if it
    /// does not begin with a dash, or if it comes after the separator `--`, which is not returned.
    /// The rules are those of lexopt's documentation, which follow POSIX and GNU conventions.
    ///
    /// A short option is one character of UTF-8. Each damaged piece of an option (by table 3-7 of
    /// the Unicode Standard) is read as one U+FFFD. A positional keeps its bytes.
    ///
    /// The parser lends the name of a long option, so it can be called again once the name is no
    /// longer used. Only the name of a long option and the error `UnexpectedValue` may allocate.
    ///
    /// # Errors
    ///
    /// - `UnexpectedValue` if a value is joined by `=` to the last option and was not taken. The
    ///   value is consumed.
    /// - `OutOfMemory` in place of a long option or of that error. Nothing is consumed.
    ///
    /// Reading can go on after an error.
    ///
    /// # Examples
    ///
    /// ```rust
    /// let mut verbose = false;
    /// let mut output = None;
    /// let mut files = Vec::new(alloc);
    /// for _ in 0..u64::MAX {
    ///     match parser.next()? {
    ///         Some(Short('v') | Long("verbose")) => verbose = true,
    ///         Some(Short('o') | Long("output")) => output = Some(parser.value()?),
    ///         Some(Value(file)) => files.push(file)?,
    ///         Some(argument) => return Err(argument.unexpected(alloc)),
    ///         None => break,
    ///     }
    /// }
    /// ```
    ///
    /// The words `-ab --name=x file` give `Short('a')`, `Short('b')`, `Long("name")`, then the
    /// error `UnexpectedValue` with `x` unless the program takes the value, and then `Value` of
    /// `file`.
    #[inline(always)]
    pub fn next(&mut self) -> Result<Option<Arg<'_>>, Error>
        ensures* after { sem 𝓛 (LineAfterNext self.entry result) }
        ensures reply { IsReplyOfNext self.old (next_reply result) }
    {
        let found = self.advance();
        self.lend(found)
    }

    /// Takes a value for the last option, and returns it.
    ///
    /// The value is the one in the option's own word, if there is one; after `=`, which is consumed
    /// with it, it may be empty. Otherwise it is the next word, whatever it looks like: even `--`,
    /// which then does not end the options. Call this right after `next` returned an option that
    /// has a value; this is how the parser learns that the option has one. The value keeps its
    /// bytes. Only the error allocates.
    ///
    /// # Errors
    ///
    /// - `MissingValue` if the option's word has no value and no word is left. Nothing is consumed.
    /// - `OutOfMemory` in place of a `MissingValue` that names an option. Nothing is consumed.
    ///
    /// # Examples
    ///
    /// ```rust
    /// // `-n10`, `-n=10`, `-n 10`, `--number=10` and `--number 10` all give the value `10`.
    /// let mut number = 1;
    /// if let Some(Short('n') | Long("number")) = parser.next()? {
    ///     number = parser.value()?.parse::<u32>()?;
    /// }
    /// ```
    #[inline(always)]
    pub fn value(&mut self) -> Result<OsString, Error>
        ensures { RepliesWith Value self.old (value_reply result) self.new }
    {
        // This repeats the body of `take`. With a `match` on the result of `take`, a function that
        // returns the error by `?` took some 20 more instructions per call when measured.
        if let Some(pending) = self.pending() {
            return Ok(self.take_value(pending.count));
        }
        if let Some(next) = self.take_word() {
            return Ok(next);
        }
        Err(Error::from(self.missing_value()))
    }

    /// Takes a value for the last option, as [`Parser::value`] does, with a smaller error type.
    ///
    /// It is for libraries that build on the parser. A program calls [`Parser::value`].
    ///
    /// # Errors
    ///
    /// - `MissingValue` if the option's word has no value and no word is left. Nothing is consumed.
    /// - `OutOfMemory` in place of a `MissingValue` that names an option. Nothing is consumed.
    ///
    /// # Examples
    ///
    /// ```rust
    /// // After `advance` returned `Found::Short('n')` for `-n 10`, the value is `10`.
    /// let value = parser.take()?;
    /// ```
    #[inline(always)]
    pub fn take(&mut self) -> Result<OsString, Refusal>
        ensures { Value self.old (take_reply result) self.new }
    {
        if let Some(pending) = self.pending() {
            return Ok(self.take_value(pending.count));
        }
        if let Some(word) = self.take_word() {
            return Ok(word);
        }
        Err(self.missing_value())
    }

    /// Takes the value in the last option's own word, if there is one, and returns it.
    ///
    /// A `=` before the value is consumed with it. `None` means that there is no such value; then
    /// nothing is consumed. This never takes the next word, and never allocates.
    ///
    /// # Examples
    ///
    /// ```rust
    /// // `--color=auto` gives `auto`. `--color` and `--color auto` give `None`; in the latter,
    /// // `auto` is read as a positional.
    /// let mut color = None;
    /// if let Some(Long("color")) = parser.next()? {
    ///     color = parser.optional_value();
    /// }
    /// ```
    ///
    /// `-i.bak` and `-i=.bak` give `.bak`; `-i` and `-i .bak` give `None`.
    pub fn optional_value(&mut self) -> Option<OsString>
        ensures { OptionalStep self.old (maybe result) self.new }
    {
        let count = self.pending()?.count;
        Some(self.take_value(count))
    }

    // Creates a parser from these words, of which the first, if there is one, is the binary name.
    fn invoked(alloc: Global, words: Vec<OsString>) -> Result<Parser, AllocError>
        ensures { IfOk result (λ parser. parser ≡ invoked words.items) }
    {
        let mut words = KeptWords::new(alloc, words);
        let bin_name = match words.take_next() {
            Some(word) => Some(lossy_text(alloc, word.as_bytes())?),
            None => None,
        };
        Ok(Parser::unread(alloc, words, bin_name))
    }

    // Creates a parser of the words after the cursor, of which none has been read.
    #[inline(always)]
    fn unread(alloc: Global, words: KeptWords, bin_name: Option<String>) -> Parser
        ensures { result ≡ record (fresh words.left) {
          bin_name = option_map string_bytes bin_name;
        } }
    {
        Parser {
            alloc,
            words,
            state: State::Ready,
            last_option: LastOption::Nothing,
            name: String::new(alloc),
            short_equals: true,
            bin_name,
        }
    }

    /// Returns the next option or positional, as [`Parser::next`] does, but borrows nothing.
    ///
    /// It is for libraries that build on the parser. A program calls [`Parser::next`]. The result
    /// lends no name, so the clause states the line that is left, and the parser can be called at
    /// once; [`Parser::long_name`] returns the name of a long option.
    ///
    /// # Errors
    ///
    /// - `UnexpectedValue` if a value is joined by `=` to the last option and was not taken. The
    ///   value is consumed.
    /// - `OutOfMemory` in place of a long option or of that error. Nothing is consumed.
    ///
    /// Reading can go on after an error.
    ///
    /// # Examples
    ///
    /// ```rust
    /// use lexopt_base::parser::Found;
    ///
    /// let mut shorts = Vec::new(alloc);
    /// let mut longs = Vec::new(alloc);
    /// let mut words = Vec::new(alloc);
    /// match parser.advance()? {
    ///     Found::Short(option) => shorts.push(option)?,
    ///     Found::Long => longs.push(String::from_str(alloc, parser.long_name())?)?,
    ///     Found::Value(word) => words.push(word)?,
    ///     Found::End => {}
    /// }
    /// ```
    ///
    /// The words `-ab --name=x file` give `Short('a')`, `Short('b')`, `Long`, after which
    /// `long_name` returns `name`, then the error `UnexpectedValue` with `x` unless the value is
    /// taken, then `Value` of `file`, and `End`.
    #[inline(always)]
    pub fn advance(&mut self) -> Result<Found, Refusal>
        ensures { RepliesWith Next self.old (advance_reply self.new.last result) self.new }
    {
        match self.state {
            State::Ready => self.read_word(),
            State::FinishedOpts => Ok(self.read_positional()),
            State::PendingValue(position) => {
                let count = self.words.current().len() - position;
                Err(self.refuse(count))
            }
            State::Shorts(position) => {
                let word = self.words.current();
                let (start, is_joined) = pending_at(word, position, self.short_equals);
                if is_joined {
                    let count = word.len() - start;
                    return Err(self.refuse(count));
                }
                let (option, state) = read_short(word, position);
                self.last_option = LastOption::Short(option);
                self.state = state;
                Ok(Found::Short(option))
            }
        }
    }

    // Reads a word before the separator. A long option is consumed only after the last step that
    // can fail.
    #[inline(always)]
    fn read_word(&mut self) -> Result<Found, Refusal>
        requires tail { self.old.tail ≡ no_tail }
        requires ended { self.old.ended ≡ false }
        ensures { RepliesWith (Answers ReadsWord) self.old (advance_reply self.new.last result)
            self.new }
    {
        let Some(word) = self.words.first() else {
            return Ok(Found::End);
        };
        let word = word.as_bytes();
        match kind_of(word) {
            WordKind::Separator => {
                self.words.pass();
                self.state = State::FinishedOpts;
                Ok(self.read_positional())
            }
            WordKind::Long => {
                let (name, state) = read_long(word);
                keep_name(self.alloc, &mut self.name, name)?;
                self.words.pass();
                self.last_option = LastOption::Long;
                self.state = state;
                Ok(Found::Long)
            }
            WordKind::Shorts => {
                let (option, state) = read_short(word, 1);
                self.words.pass();
                self.last_option = LastOption::Short(option);
                self.state = state;
                Ok(Found::Short(option))
            }
            WordKind::Positional => Ok(self.read_positional()),
        }
    }

    // Reads a word as a positional.
    #[inline(always)]
    fn read_positional(&mut self) -> Found
        requires { self.old.tail ≡ no_tail }
        ensures { RepliesWith ReadsPositional self.old (found_as self.new.last result) self.new }
    {
        match self.take_word() {
            Some(word) => Found::Value(word),
            None => Found::End,
        }
    }

    /// Returns the name of the last option, without its dashes, if that is a long option.
    ///
    /// Each damaged piece of the name is one U+FFFD. If the last option is a short one, or there is
    /// none, this is the name of the long option read last, or the empty text; no clause states
    /// that.
    ///
    /// # Examples
    ///
    /// ```rust
    /// // After `advance` returned `Found::Long` for `--name=x`, this is `name`.
    /// let name = parser.long_name();
    /// ```
    #[inline(always)]
    pub fn long_name(&self) -> &str
        ensures { (name : List ℕ) → self.now.last ≡ long_option name → result.now ≡ name }
    {
        &self.name
    }

    // Turns the result of `advance` into that of `next`, which lends the name of a long option.
    #[inline(always)]
    fn lend(&self, found: Result<Found, Refusal>) -> Result<Option<Arg<'_>>, Error>
        ensures { (reply : Reply) → advance_reply self.now.last found ≡ Some reply
            → next_reply result ≡ Some reply }
    {
        // Each arm returns at once. If they met at the end of the function, LLVM would not follow
        // each of them into the caller's `match`.
        match found {
            Ok(Found::Short(option)) => return Ok(Some(Arg::Short(option))),
            Ok(Found::Long) => return Ok(Some(Arg::Long(&self.name))),
            Ok(Found::Value(word)) => return Ok(Some(Arg::Value(word))),
            Ok(Found::End) => return Ok(None),
            Err(refusal) => Err(Error::from(refusal)),
        }
    }

    // Returns the length of the value that is left in the word of the last option, if there is one.
    #[inline(always)]
    pub(crate) fn pending(&self) -> Option<Pending>
        ensures value { IsCounted self.now result }
        ensures option { IsSome result → IsSome (spelling self.now.last) }
    {
        match self.state {
            State::Ready | State::FinishedOpts => None,
            State::PendingValue(position) => Some(Pending {
                count: self.words.current().len() - position,
                is_joined: true,
            }),
            State::Shorts(position) => {
                let word = self.words.current();
                let (start, is_joined) = pending_at(word, position, self.short_equals);
                Some(Pending {
                    count: word.len() - start,
                    is_joined,
                })
            }
        }
    }

    // Takes the pending value, which has `count` bytes.
    #[inline(always)]
    pub(crate) fn take_value(&mut self, count: usize) -> OsString
        requires { HasPending self.old count }
        ensures { TakesPending self.old result self.new }
    {
        let value = self.words.take_tail(count);
        self.state = State::Ready;
        value
    }

    // Takes the next word. Nothing may be left of the word being read.
    #[inline(always)]
    pub(crate) fn take_word(&mut self) -> Option<OsString>
        requires { self.old.tail ≡ no_tail }
        ensures { WordItem self.old result self.new }
    {
        self.words.take_next()
    }

    // Takes the next word, and keeps what is left of the word being read.
    #[inline(always)]
    pub(crate) fn take_whole_word(&mut self) -> Option<OsString>
        ensures { WordItem self.old result self.new }
    {
        match self.state {
            State::Ready | State::FinishedOpts => self.words.take_next(),
            // A view of words is never made in these states, but its type does not show that.
            State::PendingValue(_) | State::Shorts(_) => self.words.take_after(),
        }
    }

    // Returns the unread words.
    pub(crate) fn words_left(&self) -> &[OsString]
        ensures { result.now ≡ self.now.words }
    {
        self.words.left()
    }

    /// Returns whether the separator `--` has been read. If it has, [`Parser::advance`] reads each
    /// word that is left as a positional.
    ///
    /// Most programs need not ask.
    ///
    /// # Examples
    ///
    /// ```rust
    /// // After `advance` returned `Found::Value` for `x` of `-- x`, this is `true`.
    /// let is_past = parser.is_past_separator();
    /// ```
    #[inline(always)]
    pub fn is_past_separator(&self) -> bool
        ensures { result ≡ self.now.ended }
    {
        matches!(self.state, State::FinishedOpts)
    }

    /// Returns whether a value that `=` joins to the last option is still to be taken.
    ///
    /// Most programs need not ask. If it is `true`, that value is the only one that
    /// [`Parser::values`] would give.
    ///
    /// # Examples
    ///
    /// ```rust
    /// // After `advance` returned `Found::Short('o')`, this is `true` for `-o=x` if `short_equals`
    /// // is on, and `false` for `-ox` and `-o x`.
    /// let is_joined = parser.has_joined_value();
    /// ```
    pub fn has_joined_value(&self) -> bool
        ensures { result ≡ is_joined (pending self.now) }
    {
        match self.pending() {
            Some(pending) => pending.is_joined,
            None => false,
        }
    }

    // Returns whether the next word can be one of several values.
    #[inline(always)]
    pub(crate) fn has_plain_word(&self) -> bool
        ensures { IsTrue result ↔ IsNormalIn self.now.ended self.now.words }
    {
        match self.words.first() {
            Some(word) => self.is_past_separator() || is_positional(word.as_bytes()),
            None => false,
        }
    }

    // Refuses the pending value, which has `count` bytes and is then consumed; or returns
    // `OutOfMemory`, and consumes nothing.
    //
    // This function is inlined, and `spelling` is not. An `Error` stores its cause inline, and that
    // space is zeroed for each result of `next` unless LLVM sees that it is unused. LLVM does see
    // it if the value goes into the error in the caller's own function, and the text comes from a
    // call that returns it in parts. If this function is a call, or `spelling` is inlined, each
    // result takes some 70 more instructions; `bench/run --check` shows it.
    #[inline(always)]
    fn refuse(&mut self, count: usize) -> Refusal
        requires value { HasPending self.old count }
        requires option { IsSome (spelling self.old.last) }
        ensures { RefusesPending self.old result self.new }
    {
        let Ok(Some(option)) = self.spelling() else {
            return Refusal::OutOfMemory;
        };
        Refusal::UnexpectedValue {
            option,
            value: self.take_value(count),
        }
    }

    // Refuses the pending value, if there is one, and consumes it.
    pub(crate) fn refuse_if_pending(&mut self) -> Result<(), Error>
        ensures ok { OnOk result ((self.old.tail ≡ no_tail) × (self.new ≡ self.old)) }
        ensures err { IfErr result (λ e. RawArgsFailWith self.old e self.new) }
    {
        let Some(pending) = self.pending() else {
            return Ok(());
        };
        Err(Error::from(self.refuse(pending.count)))
    }

    // Refuses a line that has no value for the last option.
    #[inline(always)]
    pub(crate) fn refuse_if_missing(&self) -> Result<(), Refusal>
        ensures ok { OnOk result (available self.now ≢ []) }
        ensures err { IfErr result (λ refusal. BeginFailsWith self.now refusal self.now) }
    {
        if self.pending().is_some() || self.has_plain_word() {
            return Ok(());
        }
        Err(self.missing_value())
    }

    // Returns the error for a line that has no value for the last option.
    #[cold]
    #[inline(never)]
    fn missing_value(&self) -> Refusal
        ensures { IsMissing self.now.last result }
    {
        match self.spelling() {
            Ok(option) => Refusal::MissingValue(option),
            Err(_) => Refusal::OutOfMemory,
        }
    }

    // Returns the last option with its dashes. It is a function of its own for the sake of
    // `refuse`.
    #[cold]
    #[inline(never)]
    fn spelling(&self) -> Result<Option<String>, AllocError>
        ensures ok { IfOk result (λ text. option_map string_bytes text ≡ spelling self.now.last) }
        ensures err { OnErr result (IsSome (spelling self.now.last)) }
    {
        let text = match self.last_option {
            LastOption::Nothing => return Ok(None),
            LastOption::Short(option) => format!(in self.alloc; "-{option}"),
            LastOption::Long => {
                // This takes fewer instructions than `format!`.
                let name = self.name.as_str();
                let mut text = String::with_capacity(self.alloc, name.len().saturating_add(2))?;
                text.push_str("--")?;
                text.push_str(name)?;
                return Ok(Some(text));
            }
        };
        Ok(Some(text?))
    }
}

impl Clone for Parser {
    ghost use Rattle.std.specs.Prelude.{◌≡◌};

    ghost is_clone = { λ parser copy. copy ≡ parser };

    /// Returns a parser of the same unread line, with the same binary name.
    ///
    /// Reading from the copy does not change the original. This copies the unread words, the name
    /// of the last long option and the binary name, so it allocates.
    ///
    /// # Errors
    ///
    /// `AllocError` if an allocation fails.
    ///
    /// # Examples
    ///
    /// ```rust
    /// // Looks at the next argument without reading it.
    /// let mut ahead = parser.clone()?;
    /// let is_last = ahead.next()?.is_none();
    /// ```
    fn clone(&self) -> Result<Parser, AllocError> {
        let bin_name = self.bin_name.clone()?;
        Ok(Parser {
            alloc: self.alloc,
            words: self.words.copy()?,
            state: self.state,
            last_option: self.last_option,
            name: self.name.clone()?,
            short_equals: self.short_equals,
            bin_name,
        })
    }
}

// Returns whether all words are UTF-8.
fn are_texts(words: &[OsString]) -> bool
    ensures { result ≡ list_all is_utf8 words.now }
{
    words.iter().all(|word| is_text(word))
}

fn is_text(word: &OsString) -> bool
    ensures { result ≡ is_utf8 word.now }
{
    word.as_bytes().is_utf8()
}

// Collects all items of an iterator. It is a function of its own so that one clause covers both
// `from_args` and `from_iter`.
fn collect_words<I>(alloc: Global, args: I) -> Result<Vec<OsString>, AllocError>
where
    I: IntoIterator<Item = OsString> + Drop,
    I::IntoIter: Drop,
    requires { IsFiniteIterable I.into_iter_gives I.IntoIter.can_next I.IntoIter.remaining args }
    ensures { IfOk result (λ words.
        YieldsWords I.into_iter_gives I.IntoIter.next_gives args words.items) }
{
    let items = args.into_iter().collect(alloc)?;
    Ok(items)
}

// Returns where the value begins that is left of a cluster, and whether `=` joins it to its option.
// The bytes from `position` on are unread.
#[inline(always)]
fn pending_at(cluster: &[u8], position: usize, short_equals: bool) -> (usize, bool)
    requires { position < length cluster.now }
    ensures value { pending_in short_equals (rest_of (drop position cluster.now))
        ≡ Some (drop result.0 cluster.now, result.1) }
    ensures within { result.0 ≤ length cluster.now }
{
    if cluster[position] == b'=' && short_equals {
        (position + 1, true)
    } else {
        (position, false)
    }
}

// Returns the short option at this position of a word, and the state after it.
#[inline(always)]
fn read_short(word: &[u8], position: usize) -> (char, State)
    requires { position < length word.now }
    ensures { IsShortRead word.now position result.0 result.1 }
{
    let piece = codepoint_at(word, position);
    let position = position + piece.size();
    let state = if position < word.len() {
        State::Shorts(position)
    } else {
        State::Ready
    };
    (piece.shown(), state)
}

// Returns the bytes of a long option's name in its word, and the state after it.
#[inline(always)]
fn read_long(word: &[u8]) -> (&[u8], State)
    requires { 2 ≤ length word.now }
    ensures { IsLongRead word.now result.0.now result.1 }
{
    let text = &word[2..];
    match text.find_byte(b'=') {
        Some(place) => (&text[..place], State::PendingValue(2 + place + 1)),
        None => (text, State::Ready),
    }
}

// Replaces the kept name by the lossy text of a name with damage. Like the next function it is not
// inlined, so that little of `keep_name` goes into each loop over the parser.
#[cold]
#[inline(never)]
fn keep_lossy(alloc: Global, kept: &mut String, name: &[u8]) -> Result<(), AllocError>
    ensures ok { OnOk result (string_bytes kept.new ≡ lossy name.now) }
    ensures err { OnErr result (string_bytes kept.new ≡ string_bytes kept.old) }
{
    *kept = lossy_text(alloc, name)?;
    Ok(())
}

// Makes room for a name of this many bytes in place of the kept one.
#[cold]
#[inline(never)]
fn make_room(kept: &mut String, count: usize) -> Result<(), AllocError>
    ensures same { string_bytes kept.new ≡ string_bytes kept.old }
    ensures room { OnOk result (count ≤ string_capacity kept.new) }
{
    kept.reserve(count.saturating_sub(kept.len()))
}

// Replaces the kept name by the lossy text of this one, in which each damaged piece is one U+FFFD.
// If memory runs out, the kept name stays. It is always inlined: a call would take some 20 more
// instructions for each long option.
#[inline(always)]
fn keep_name(alloc: Global, kept: &mut String, name: &[u8]) -> Result<(), AllocError>
    ensures ok { OnOk result (string_bytes kept.new ≡ lossy name.now) }
    ensures err { OnErr result (string_bytes kept.new ≡ string_bytes kept.old) }
{
    let Ok(text) = str::from_utf8(name) else {
        return keep_lossy(alloc, kept, name);
    };
    if kept.capacity() < text.len() {
        make_room(kept, text.len())?;
    }
    kept.clear();
    kept.push_str(text)
}

//! What can come where a word is typed, for the completion of shells.
ghost use Rattle.std.specs.Prelude.{◌≡◌, ◌≢◌, ◌↔◌, ◌∷◌, ◌++◌, ℕ, IfOk, IsTrue, List, MatchOption, OnOk, []};
ghost use Rattle.std.specs.Prelude.{◌<◌, Some, filter, length, nat_eq, map, option_map, slice_get};
ghost use Rattle.std.specs.Prelude.{string_bytes, true};
ghost use Rattle.std.specs.List.{flat_map, starts_with};
ghost use Rattle.std.specs.Str.{IsUtf8};
ghost use Rattle.lexopt_spec.specs.UnreadLine.{BeginsWith, dash};
ghost use Rattle.lexopt_options_spec.specs.Completion.{IsJoined};
ghost use Rattle.lexopt_options_spec.specs.Declaration as spec;
ghost use Rattle.lexopt_options_spec.specs.Declaration.{Declaration};
ghost use Rattle.lexopt_options_spec.specs.Legal.{most};
ghost use Rattle.lexopt_options_spec.specs.States as states;
ghost use Rattle.lexopt_declaration.specs.Models.{positional_view};
ghost use Rattle.lexopt_options.specs.Completions.{CanCome, Opens, joined_values, values_so};
ghost use Rattle.lexopt_options.specs.Completions.{word_values, words_so};
ghost use Rattle.lexopt_options.specs.Declarations.{declaration_of};
ghost use Rattle.lexopt_options.specs.Roles.{IsDeclared, IsRole, joined_view, place_view, seen_of};
ghost use Rattle.lexopt_options.specs.Roles.{words_of};
ghost use Rattle.lexopt_options.specs.States.{IsFrontOf, IsLast, state_view};

use crate::front::{Front, State};
use crate::options::Options;
use crate::read::is_full;
use crate::taken::{can_be_taken, owners_of};
use lexopt_declaration::declaration::{Declared, Positional};
use lexopt_declaration::spellings::{Spelling, add_joined, add_values, spellings_of};
use lexopt_words::os_string::OsString;
use std::alloc::{AllocError, Global};
use std::convert::Infallible;
use std::str;

/// What a typed word is, if it is not an option.
#[derive(Debug)]
pub enum Role<'a, F, V = Infallible, M = Infallible, S = Infallible> {
    /// A value of this option.
    Value(&'a Declared<'a, F, V, M, S>),
    /// A positional.
    Argument,
}

impl<F, V, M, S> Clone for Role<'_, F, V, M, S> {
    ghost use Rattle.std.specs.Prelude.{◌≡◌, ⊤};

    ghost is_clone = { λ own copy. copy ≡ own };

    ghost is_infallible = { λ _. ⊤ };

    fn clone(&self) -> Result<Self, AllocError> {
        Ok(*self)
    }
}

impl<F, V, M, S> Copy for Role<'_, F, V, M, S> {}

/// An option whose value is typed in the same word: `--output=file`, `-ofile`.
#[derive(Debug, Drop)]
pub struct Joined<'a, F, V = Infallible, M = Infallible, S = Infallible> {
    /// The option.
    pub option: &'a Declared<'a, F, V, M, S>,
    /// What comes before the value in the word: `--output=`, `-o`.
    pub before: String,
}

/// What can come where a word is typed.
#[derive(Debug, Drop)]
pub struct Completion<'a, F, V = Infallible, M = Infallible, S = Infallible> {
    /// The spellings of declared options that can come there and begin with what was typed, in the
    /// order of the declaration. Those of options that an option before them excludes are not here,
    /// those of hidden options and of aliases only if they were typed whole. There are none if what
    /// was typed is not UTF-8.
    pub spellings: Vec<Spelling<'a>>,
    /// The words in lists that can come there and begin with what was typed, in the order of the
    /// lists. First come the values of the option of which a word would be a value there; then the
    /// words of the positionals to which it can belong; then, if the value of an option is typed in
    /// the word itself, the values in the list of that option, each after what comes before it. That
    /// an option before them does not accept its value makes no difference.
    pub values: Vec<String>,
    /// What a word is there that begins with what was typed, is longer, and is not an option,
    /// whichever it is; `None` if no such word can come.
    pub word: Option<Role<'a, F, V, M, S>>,
    /// If that word would be a positional: the indices of the declared positionals that it can
    /// belong to, with some more words after it or none, where each positional before it belongs to
    /// one that accepts it.
    pub arguments: Vec<usize>,
    /// The option whose value is typed in the word itself, where an option can come: `output` if
    /// `--output=` or `-ofi` was typed.
    pub joined: Option<Joined<'a, F, V, M, S>>,
}

// What a typed word is, if it is not an option.
#[derive(Clone, Copy)]
enum Place {
    // A value of the option at this index.
    Value(usize),
    // A positional.
    Argument,
}

// ---- where an option can come

// Whether an option can come in this state.
fn opens(state: State) -> bool
    ensures { result ≡ states.opens (state_view state) }
{
    matches!(state, State::Anything | State::Further(_))
}

// Whether an option can come after words that mean this.
fn is_open(front: &Option<Front>) -> bool
    ensures { (d : Declaration) (words : List (List ℕ)) → IsFrontOf d words front.now
        → Opens d words result }
{
    match front {
        Some(front) => opens(front.state),
        None => false,
    }
}

// Whether a declared option can come after words that mean this: an option can, and with some more
// words each option accepts its values, and the positionals the words.
fn can_come<F, V, P, M, S>(options: &Options<'_, F, V, P, M, S>, front: &Option<Front>) -> bool
    ensures { (words : List (List ℕ)) → IsFrontOf (declaration_of options.now) words front.now
        → CanCome (declaration_of options.now) words result }
{
    match front {
        Some(front) => {
            if !opens(front.state) {
                return false;
            }
            if !front.accepted {
                return false;
            }
            can_be_taken(options.positionals(), &front.words)
        }
        None => false,
    }
}

// ---- a word that is not an option

// A positional after these words, if one more is allowed.
fn room(limit: Option<usize>, words: &Vec<OsString>) -> Option<Place>
    ensures { (ps : List spec.Positional) → limit ≡ most ps
        → option_map (place_view words.now.items) result ≡ states.room ps words.now.items }
{
    if is_full(limit, words.len()) {
        return None;
    }
    Some(Place::Argument)
}

// What a word is after words that mean this, if it is not an option. `is_dashed` means that a dash
// was typed first.
fn place_after(limit: Option<usize>, front: &Front, is_dashed: bool) -> Option<Place>
    ensures { let words = front.now.words.items in (ps : List spec.Positional) → limit ≡ most ps
        → option_map (place_view words) result
        ≡ states.role_in ps words is_dashed (state_view front.now.state) }
{
    match front.state {
        State::Anything => {
            if is_dashed {
                None
            } else {
                room(limit, &front.words)
            }
        }
        State::Due(index) => Some(Place::Value(index)),
        State::First(index) | State::Further(index) => {
            if is_dashed {
                None
            } else {
                Some(Place::Value(index))
            }
        }
        State::Ended => room(limit, &front.words),
    }
}

// The positionals of words that mean this; none if they mean nothing.
fn words_of(front: &Option<Front>) -> &[OsString]
    ensures { result.now ≡ words_of front.now }
{
    match front {
        Some(front) => &front.words,
        None => &[],
    }
}

// The indices that are noted of the options of words that mean this; none if they mean nothing.
fn seen_of(front: &Option<Front>) -> &[usize]
    ensures { result.now ≡ seen_of front.now }
{
    match front {
        Some(front) => &front.seen,
        None => &[],
    }
}

// Whether a dash was typed first.
fn begins_with_dash(typed: &OsString) -> bool
    ensures { IsTrue result ↔ BeginsWith dash typed.now }
{
    typed.as_bytes().first() == Some(&b'-')
}

// If this holds, what was typed begins with a byte other than a dash, so that no spelling begins
// with it.
fn begins_otherwise(typed: &OsString) -> bool
    ensures { IsTrue result → (typed.now ≢ []) × ¬ BeginsWith dash typed.now }
{
    !typed.is_empty() && !begins_with_dash(typed)
}

// ---- a value in the word of its option

// One word.
fn one_word(alloc: Global, word: &OsString) -> Result<Vec<OsString>, AllocError>
    ensures { IfOk result (λ words. words.items ≡ word.now ∷ []) }
{
    let mut words = Vec::new(alloc);
    words.push(word.clone()?)?;
    Ok(words)
}

// What comes before this value, if the word ends with it, and what comes before it is UTF-8.
fn text_before(alloc: Global, word: &[u8], value: &[u8]) -> Result<Option<String>, AllocError>
    ensures { IfOk result (λ found. MatchOption found
        ((before : List ℕ) → IsUtf8 before → word.now ≡ before ++ value.now → ⊥)
        (λ text. IsUtf8 (string_bytes text) × (word.now ≡ string_bytes text ++ value.now))) }
{
    match word.strip_suffix(value) {
        Some(before) => match str::from_utf8(before) {
            Ok(text) => Ok(Some(String::from_str(alloc, text)?)),
            Err(_) => Ok(None),
        },
        None => Ok(None),
    }
}

// The index of the option whose value is in the word, and what comes before the value. `last` is
// what the word alone means last.
fn joined_value(
    alloc: Global,
    last: Option<(usize, OsString)>,
    typed: &OsString,
) -> Result<Option<(usize, String)>, AllocError>
    ensures { (d : Declaration) (words : List (List ℕ)) → Opens d words true
        → IsLast d (typed.now ∷ []) last
        → IfOk result (λ found. IsJoined d words typed.now (option_map joined_view found)) }
{
    let Some((index, value)) = last else {
        return Ok(None);
    };
    match text_before(alloc, typed.as_bytes(), value.as_bytes())? {
        Some(before) => Ok(Some((index, before))),
        None => Ok(None),
    }
}

// ---- the options of these indices

// The option at this index.
#[tactic(auto, using(crate::proofs::Accepted::at_place))]
fn option_at<'a, F, V, M, S>(
    options: &'a [Declared<'a, F, V, M, S>],
    index: usize,
) -> &'a Declared<'a, F, V, M, S>
    requires { index < length options.now }
    ensures { slice_get options.now index ≡ Some result.now }
{
    &options[index]
}

// What a word that is not an option is, with the option itself.
fn role_of<'a, F, V, M, S>(
    options: &'a [Declared<'a, F, V, M, S>],
    place: Place,
) -> Role<'a, F, V, M, S>
    requires { (words : List (List ℕ)) × IsDeclared (length options.now) (place_view words place) }
    ensures { (words : List (List ℕ)) → IsRole options.now (place_view words place) result }
{
    match place {
        Place::Value(index) => Role::Value(option_at(options, index)),
        Place::Argument => Role::Argument,
    }
}

// Adds the words in the list of the positional at this index that begin with what was typed.
fn add_words_at<P>(
    alloc: Global,
    values: &mut Vec<String>,
    positionals: &[Positional<'_, P>],
    index: usize,
    typed: &OsString,
) -> Result<(), AllocError>
    ensures { OnOk result (map string_bytes values.new.items ≡ map string_bytes values.old.items
        ++ words_so (map positional_view positionals.now) typed.now index) }
{
    match positionals.get(index) {
        Some(positional) => add_values(alloc, values, positional.words, typed.as_bytes()),
        None => Ok(()),
    }
}

// Adds the words in the lists of the positionals at these indices that begin with what was typed.
fn add_words<P>(
    alloc: Global,
    values: &mut Vec<String>,
    positionals: &[Positional<'_, P>],
    arguments: &[usize],
    typed: &OsString,
) -> Result<(), AllocError>
    ensures { OnOk result (map string_bytes values.new.items ≡ map string_bytes values.old.items
        ++ flat_map (words_so (map positional_view positionals.now) typed.now) arguments.now) }
{
    for index in arguments {
        add_words_at(alloc, values, positionals, *index, typed)?;
    }
    Ok(())
}

// Adds the values that begin with what was typed in the list of the option that a word is a value
// of, if it is one.
fn add_word_values<F, V, M, S>(
    alloc: Global,
    values: &mut Vec<String>,
    word: &Option<Role<'_, F, V, M, S>>,
    typed: &OsString,
) -> Result<(), AllocError>
    ensures { OnOk result (map string_bytes values.new.items ≡ map string_bytes values.old.items
        ++ filter (λ v. starts_with nat_eq v typed.now) (word_values word.now)) }
{
    match word {
        Some(Role::Value(option)) => add_values(alloc, values, option.words, typed.as_bytes()),
        Some(Role::Argument) | None => Ok(()),
    }
}

// Adds the words with a value in the list of the option whose value is typed in the word, if there
// is one: those that begin with what was typed.
fn add_joined_values<F, V, M, S>(
    alloc: Global,
    values: &mut Vec<String>,
    joined: &Option<Joined<'_, F, V, M, S>>,
    typed: &OsString,
) -> Result<(), AllocError>
    ensures { OnOk result (map string_bytes values.new.items ≡ map string_bytes values.old.items
        ++ filter (λ v. starts_with nat_eq v typed.now) (joined_values joined.now)) }
{
    match joined {
        Some(joined) => {
            let before = joined.before.as_str();
            add_joined(alloc, values, before, joined.option.words, typed.as_bytes())
        }
        None => Ok(()),
    }
}

// The values in lists that begin with what was typed: of the option that a word is a value of, of
// the positionals at these indices, and of the option whose value is typed in the word.
fn values_for<F, V, P, M, S>(
    alloc: Global,
    word: &Option<Role<'_, F, V, M, S>>,
    positionals: &[Positional<'_, P>],
    arguments: &[usize],
    joined: &Option<Joined<'_, F, V, M, S>>,
    typed: &OsString,
) -> Result<Vec<String>, AllocError>
    ensures { IfOk result (λ values. map string_bytes values.items
        ≡ values_so (map positional_view positionals.now) typed.now word.now arguments.now
        joined.now) }
{
    let mut values = Vec::new(alloc);
    add_word_values(alloc, &mut values, word, typed)?;
    add_words(alloc, &mut values, positionals, arguments, typed)?;
    add_joined_values(alloc, &mut values, joined, typed)?;
    Ok(values)
}

impl<'a, F, V, P, M, S> Options<'a, F, V, P, M, S> {
    ghost use Rattle.std.specs.Prelude.{◌↔◌, ℕ, IfOk, IsTrue, List, Option, map, option_map};
    ghost use Rattle.lexopt_options_spec.specs.Completion as completion;
    ghost use Rattle.lexopt_options_spec.specs.Completion.{AreOwnersIn, HasRole, IsJoined};
    ghost use Rattle.lexopt_declaration.specs.Models.{spelling_view};
    ghost use Rattle.lexopt_options.specs.Completions.{AreOffered, CanCome, IsCompletion};
    ghost use Rattle.lexopt_options.specs.Completions.{Opens};
    ghost use Rattle.lexopt_options.specs.Declarations.{declaration_of, options_of};
    ghost use Rattle.lexopt_options.specs.Roles.{IsJoinedAt, IsRoleAt, joined_view, place_view};
    ghost use Rattle.lexopt_options.specs.Roles.{words_of};
    ghost use Rattle.lexopt_options.specs.States.{IsFrontOf};

    // The spellings that begin with what was typed, without those of options that are excluded by
    // one before; none if no option can come after words that mean this.
    fn spellings_for(
        &self,
        alloc: Global,
        front: &Option<Front>,
        typed: &OsString,
    ) -> Result<Vec<Spelling<'a>>, AllocError>
        ensures { IfOk result (λ spellings. (words : List (List ℕ))
            → IsFrontOf (declaration_of self.now) words front.now
            → AreOffered (declaration_of self.now) words typed.now
            (map spelling_view spellings.items)) }
    {
        if begins_otherwise(typed) {
            return Ok(Vec::new(alloc));
        }
        if !can_come(self, front) {
            return Ok(Vec::new(alloc));
        }
        match typed.to_str() {
            Some(_) => spellings_of(alloc, self.options(), seen_of(front), typed.as_bytes()),
            None => Ok(Vec::new(alloc)),
        }
    }

    // The index of the option whose value is typed in the word, and what comes before the value;
    // `None` if no option can come there.
    fn joined_option(
        &self,
        alloc: Global,
        opens: bool,
        typed: &OsString,
    ) -> Result<Option<(usize, String)>, AllocError>
        ensures { IfOk result (λ found. (words : List (List ℕ))
            → Opens (declaration_of self.now) words opens
            → IsJoined (declaration_of self.now) words typed.now (option_map joined_view found)) }
    {
        if !opens {
            return Ok(None);
        }
        // Only a word that begins with a dash has an option with its value in it.
        if !begins_with_dash(typed) {
            return Ok(None);
        }
        match self.front(alloc, one_word(alloc, typed)?)? {
            Some(front) => joined_value(alloc, front.last, typed),
            None => Ok(None),
        }
    }

    // The option whose value is typed in the word; `None` if no option can come there.
    fn joined(
        &self,
        alloc: Global,
        opens: bool,
        typed: &OsString,
    ) -> Result<Option<Joined<'a, F, V, M, S>>, AllocError>
        requires { (words : List (List ℕ)) × Opens (declaration_of self.now) words opens }
        ensures { IfOk result (λ found. (words : List (List ℕ))
            → Opens (declaration_of self.now) words opens → (joined : Option completion.Joined)
            × IsJoined (declaration_of self.now) words typed.now joined
            × IsJoinedAt (options_of self.now) joined found) }
    {
        match self.joined_option(alloc, opens, typed)? {
            Some((index, before)) => Ok(Some(Joined {
                option: option_at(self.options(), index),
                before,
            })),
            None => Ok(None),
        }
    }

    // What a word is after words that mean this, if it is not an option.
    fn place(&self, front: &Option<Front>, typed: &OsString) -> Option<Place>
        ensures { (words : List (List ℕ)) → IsFrontOf (declaration_of self.now) words front.now
            → HasRole (declaration_of self.now) words typed.now
            (option_map (place_view (words_of front.now)) result) }
    {
        match front {
            Some(front) => place_after(self.most(), front, begins_with_dash(typed)),
            None => None,
        }
    }

    // What a word is at this place, with the option itself.
    fn role(&self, typed: &OsString, place: Option<Place>) -> Option<Role<'a, F, V, M, S>>
        requires { (words before : List (List ℕ)) × HasRole (declaration_of self.now) words
            typed.now (option_map (place_view before) place) }
        ensures { (before : List (List ℕ))
            → IsRoleAt (options_of self.now) (option_map (place_view before) place) result }
    {
        match place {
            Some(place) => Some(role_of(self.options(), place)),
            None => None,
        }
    }

    // The indices of the positionals that a word at this place, after these words, can belong to.
    fn arguments(
        &self,
        alloc: Global,
        words: &[OsString],
        place: Option<Place>,
    ) -> Result<Vec<usize>, AllocError>
        ensures { IfOk result (λ owners. AreOwnersIn (declaration_of self.now).positionals
            (option_map (place_view words.now) place) owners.items) }
    {
        match place {
            Some(Place::Argument) => owners_of(alloc, self.positionals(), words),
            Some(Place::Value(_)) | None => Ok(Vec::new(alloc)),
        }
    }

    /// Returns what can come where `typed` is typed after `words`, for the completion of shells.
    ///
    /// The words are without the name of the program. This call consumes them. It is not known how
    /// many words will follow, so a word may be able to belong to several positionals, such as the
    /// second word of `SOURCE... DEST` to either.
    ///
    /// # Errors
    ///
    /// Returns `AllocError` if an allocation fails.
    ///
    /// # Examples
    ///
    /// With the declaration of [`declare!`](crate::declare), after `-v`:
    ///
    /// ```rust
    /// let words = vec![in alloc; OsString::from_text(alloc, "-v")?]?;
    /// let typed = OsString::from_text(alloc, "--")?;
    /// let completion = options.complete(alloc, words, &typed)?;
    /// for spelling in &completion.spellings {
    ///     // --verbose, --output, --mode, --help, --version
    ///     println!(rt; "{}", spelling.text)?;
    /// }
    /// ```
    ///
    /// After `-o` no spelling can come, but [`Completion::word`] is a value of `output`.
    pub fn complete(
        &self,
        alloc: Global,
        words: Vec<OsString>,
        typed: &OsString,
    ) -> Result<Completion<'a, F, V, M, S>, AllocError>
        // This is exactly what can come there: the spellings of declared options that begin with
        // what was typed, and after which some words make a line where that option occurs that is
        // legal but for options that exclude each other, if no option before excludes that option,
        // and if they are own names of options that are not hidden or were typed whole; what each
        // longer word is that begins so and is not an option, and to which positionals it can
        // belong; the option whose value is typed in the word; and the values in the lists of these
        // that begin with what was typed.
        ensures { IfOk result (λ completion.
            IsCompletion self.now words.items typed.now completion) }
    {
        let front = self.front(alloc, words)?;
        self.complete_after(alloc, &front, typed)
    }

    // What can come where `typed` is typed after words that mean this.
    pub(crate) fn complete_after(
        &self,
        alloc: Global,
        front: &Option<Front>,
        typed: &OsString,
    ) -> Result<Completion<'a, F, V, M, S>, AllocError>
        requires { (words : List (List ℕ)) × IsFrontOf (declaration_of self.now) words front.now }
        ensures { (words : List (List ℕ)) → IsFrontOf (declaration_of self.now) words front.now
            → IfOk result (λ completion. IsCompletion self.now words typed.now completion) }
    {
        let place = self.place(front, typed);
        let word = self.role(typed, place);
        let arguments = self.arguments(alloc, words_of(front), place)?;
        let joined = self.joined(alloc, is_open(front), typed)?;
        Ok(Completion {
            spellings: self.spellings_for(alloc, front, typed)?,
            values: values_for(alloc, &word, self.positionals(), &arguments, &joined, typed)?,
            word,
            arguments,
            joined,
        })
    }
}

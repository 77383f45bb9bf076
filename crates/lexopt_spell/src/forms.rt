//! The form of an option: whether its values come after its name in its word, or in words of their
//! own.
ghost use Rattle.std.specs.Prelude.{◌≡◌, ◌↔◌, ℕ, Bool, List, [], Some, IfErr, IfOk, IsTrue};
ghost use Rattle.std.specs.Prelude.{false, true};
ghost use Rattle.std.specs.List.{All, list_all};
ghost use Rattle.lexopt_spec.specs.UnreadLine as line;
ghost use Rattle.lexopt_line_spec.specs.Table as table;
ghost use Rattle.lexopt_line_spec.specs.Spelling as how;
ghost use Rattle.lexopt_line_spec.specs.Speller.{ArePositionalThenOption, after_values, open_line};
ghost use Rattle.lexopt_items.specs.Items.{kind_view};
ghost use Rattle.lexopt_spell.specs.Models.{FormIs, after_view, form_view, place_view};

use crate::spell::Reason;
use lexopt_items::kinds::Kind;
use lexopt_words::os_string::OsString;
use lexopt_words::word::is_positional;
use std::slice;

/// The place of the next item: what comes right before it.
#[derive(Clone, Copy)]
pub enum Place {
    /// Nothing that matters for its words.
    Open,
    /// A short flag, the last option of its cluster.
    InCluster,
    /// Values of an option of several that are not joined: a plain word would be one more value.
    AfterValues,
    /// A positional without a separator before it.
    AfterPositional,
    /// The separator, perhaps with positionals after it.
    Ended,
}

/// The text after an option's name in its word.
#[derive(Clone, Copy)]
pub enum After<'a> {
    Nothing,
    /// A value right after the character: `-i.bak`.
    Attached(&'a OsString),
    /// A value after `=`: `--out=x`.
    Joined(&'a OsString),
}

/// The form of an option: the text after its name in its word, the words after that word, and the
/// place of the next item.
#[derive(Clone, Copy)]
pub struct Form<'a> {
    pub after: After<'a>,
    pub words: &'a [OsString],
    pub place: Place,
}

// Returns the form of an option that is only its name.
fn name_only<'a>(place: Place) -> Form<'a>
    ensures { form_view result
        ≡ record { after = how.nothing; words = []; place = place_view place } }
{
    Form {
        after: After::Nothing,
        words: &[],
        place,
    }
}

// Returns the form of an option with all its values in its word.
fn in_word(after: After<'_>) -> Form<'_>
    ensures { form_view result
        ≡ record { after = after_view after.entry; words = []; place = open_line } }
{
    Form {
        after,
        words: &[],
        place: Place::Open,
    }
}

// Returns the form of a value right after a character. If the value is empty or begins with `=`,
// and `short_equals` is on, the value comes after `=` instead. With `short_equals` off an empty
// value has no form.
fn attached_form(short_equals: bool, value: &OsString) -> Result<Form<'_>, Reason>
    ensures { (c : ℕ) (later : List table.Item) → FormIs short_equals later table.optional
        (table.short c) (table.option (table.short c) (Some value.now)) result }
{
    match value.as_bytes() {
        [] => {
            if short_equals {
                Ok(in_word(After::Joined(value)))
            } else {
                Err(Reason::EmptyValue)
            }
        }
        [first, ..] => {
            if short_equals && *first == b'=' {
                Ok(in_word(After::Joined(value)))
            } else {
                Ok(in_word(After::Attached(value)))
            }
        }
    }
}

/// Returns the form of a short option with one value or none.
pub fn short_form(
    short_equals: bool,
    kind: Kind,
    value: &Option<OsString>,
) -> Result<Form<'_>, Reason>
    ensures { (c : ℕ) (later : List table.Item) → FormIs short_equals later (kind_view kind)
        (table.short c) (table.option (table.short c) value.now) result }
{
    match (kind, value) {
        (Kind::Flag, None) => Ok(name_only(Place::InCluster)),
        (Kind::Flag, Some(_)) => Err(Reason::UnexpectedValue),
        (Kind::One, None) => Err(Reason::MissingValue),
        (Kind::One, Some(value)) => Ok(Form {
            after: After::Nothing,
            words: slice::from_ref(value),
            place: Place::Open,
        }),
        (Kind::Optional, None) => Ok(name_only(Place::Open)),
        (Kind::Optional, Some(value)) => attached_form(short_equals, value),
        (Kind::Several, _) => Err(Reason::WantsMany),
    }
}

/// Returns the form of a long option with one value or none.
pub fn long_form(kind: Kind, value: &Option<OsString>) -> Result<Form<'_>, Reason>
    ensures { (short_equals : Bool) (name : List ℕ) (later : List table.Item)
        → FormIs short_equals later (kind_view kind) (table.long name)
        (table.option (table.long name) value.now) result }
{
    match (kind, value) {
        (Kind::Flag, None) => Ok(name_only(Place::Open)),
        (Kind::Flag, Some(_)) => Err(Reason::UnexpectedValue),
        (Kind::One, None) => Err(Reason::MissingValue),
        (Kind::One, Some(value)) => Ok(in_word(After::Joined(value))),
        (Kind::Optional, None) => Ok(name_only(Place::Open)),
        (Kind::Optional, Some(value)) => Ok(in_word(After::Joined(value))),
        (Kind::Several, _) => Err(Reason::WantsMany),
    }
}

/// Returns whether a word is plain before the separator. One of several values in a word of its own
/// has to be.
pub fn is_plain(word: &OsString) -> bool
    ensures { result ≡ line.is_plain false word.now }
{
    is_positional(word.as_bytes())
}

// Returns whether all words are plain before the separator.
fn all_plain(words: &[OsString]) -> bool
    ensures { result ≡ list_all (line.is_plain false) words.now }
{
    words.iter().all(|word| is_plain(word))
}

// Returns the form of several values in words of their own.
fn words_form(values: &[OsString]) -> Result<Form<'_>, Reason>
    ensures form { IfOk result (λ form. form_view form
        ≡ record { after = how.nothing; words = values.now; place = after_values }) }
    ensures plain { IfOk result (λ form. All (line.IsPlain false) values.now) }
    ensures reason { IfErr result (λ reason. reason ≡ Reason.OptionAmongValues) }
    ensures not_plain { IfErr result (λ reason. All (line.IsPlain false) values.now → ⊥) }
{
    if !all_plain(values) {
        return Err(Reason::OptionAmongValues);
    }
    Ok(Form {
        after: After::Nothing,
        words: values,
        place: Place::AfterValues,
    })
}

// Returns the form of several values of a short option of which the first is not plain: it comes
// right after the character, and the others in words of their own.
fn attached_words_form<'a>(first: &'a OsString, others: &'a [OsString]) -> Result<Form<'a>, Reason>
    ensures form { IfOk result (λ form. form_view form
        ≡ record { after = how.attached first.now; words = others.now; place = after_values }) }
    ensures plain { IfOk result (λ form. All (line.IsPlain false) others.now) }
    ensures reason { IfErr result (λ reason. reason ≡ Reason.OptionAmongValues) }
    ensures not_plain { IfErr result (λ reason. All (line.IsPlain false) others.now → ⊥) }
{
    if !all_plain(others) {
        return Err(Reason::OptionAmongValues);
    }
    Ok(Form {
        after: After::Attached(first),
        words: others,
        place: Place::AfterValues,
    })
}

/// Returns the form of a short option with several values. `joins` is whether an only value is
/// joined by `=`.
pub fn short_many_form(joins: bool, kind: Kind, values: &[OsString]) -> Result<Form<'_>, Reason>
    ensures { (short_equals : Bool) (c : ℕ) (later : List table.Item)
        → (IsTrue joins ↔ ((short_equals ≡ true) × ArePositionalThenOption later))
        → FormIs short_equals later (kind_view kind) (table.short c)
        (table.many (table.short c) values.now) result }
{
    let Kind::Several = kind else {
        return Err(Reason::NotMany);
    };
    let [first, others @ ..] = values else {
        return Err(Reason::MissingValue);
    };
    if joins && others.is_empty() {
        return Ok(in_word(After::Joined(first)));
    }
    if is_plain(first) {
        words_form(values)
    } else {
        attached_words_form(first, others)
    }
}

/// Returns the form of a long option with several values. An only value is joined by `=`.
pub fn long_many_form(kind: Kind, values: &[OsString]) -> Result<Form<'_>, Reason>
    ensures { (short_equals : Bool) (name : List ℕ) (later : List table.Item)
        → FormIs short_equals later (kind_view kind) (table.long name)
        (table.many (table.long name) values.now) result }
{
    let Kind::Several = kind else {
        return Err(Reason::NotMany);
    };
    match values {
        [] => Err(Reason::MissingValue),
        [value] => Ok(in_word(After::Joined(value))),
        _ => words_form(values),
    }
}

//! Calls on a parser, and their replies.

use lexopt_items::text::{write_list, write_long, write_positional, write_short, write_word};
use lexopt_words::message::{write_missing_value, write_no_memory, write_unexpected_value};
use lexopt_words::os_string::OsString;
use std::fmt;

/// A call on a parser, for [`replay`](crate::replay::replay). A call of a view takes some items
/// from it, and then drops the view.
#[derive(Debug, PartialEq, Eq, Drop)]
pub enum Call {
    /// `next`: reads the next option or positional.
    Next,
    /// `value`: takes a value for the last option.
    Value,
    /// `optional_value`: takes the value in the last option's own word, if there is one.
    Optional,
    /// `values`: takes up to this many values of the last option.
    Values(usize),
    /// `raw_args`: takes up to this many unread words.
    Raw(usize),
    /// `try_raw_args`: takes up to this many unread words, if no value is pending.
    TryRaw(usize),
    /// `raw_args` and then `next_if`: takes the next word if it is this one.
    RawIf(OsString),
    /// `set_short_equals`: sets whether `=` separates a short option from its value.
    Switch(bool),
}

/// The reply to a call: its result, without anything borrowed. It prints as a line of a script's
/// output.
#[derive(Debug, PartialEq, Eq, Drop)]
pub enum Reply {
    /// `next` read a short option.
    Short(char),
    /// `next` read a long option, here without its dashes.
    LongName(String),
    /// `next` read a positional.
    Positional(OsString),
    /// `next` reached the end of the line.
    End,
    /// `value` took this value.
    Taken(OsString),
    /// `optional_value` took this value, or found none; or `next_if` took the next word, or did
    /// not.
    Maybe(Option<OsString>),
    /// These values or words were taken from a view.
    Items(Vec<OsString>),
    /// `try_raw_args` returned `None`, since a value is pending.
    Busy,
    /// `short_equals` was set.
    Done,
    /// `value` or `values` found no value. The last option is given with its dashes; `None` means
    /// that no option was read.
    Missing(Option<String>),
    /// `next` or `raw_args` found a value that was not taken. The option is given with its dashes.
    Unexpected(String, OsString),
    /// The call ran out of memory.
    NoMemory,
}

impl fmt::Display for Reply {
    ghost use Rattle.std.specs.Prelude.{Some};
    ghost use Rattle.lexopt_calls.specs.Script.{reply_text};
    ghost use Rattle.lexopt_calls.specs.Replies.{reply_view};

    ghost output = { λ r. Some (reply_text (reply_view r)) };

    fn fmt<W: fmt::Write>(&self, f: &mut fmt::Formatter<W>) -> fmt::Result {
        match self {
            Reply::Short(option) => write_short(*option, f),
            Reply::LongName(name) => write_long(name, f),
            Reply::Positional(word) => write_positional(word, f),
            Reply::End => f.write_str("None"),
            Reply::Taken(word) | Reply::Maybe(Some(word)) => write_word(word, f),
            Reply::Maybe(None) | Reply::Busy => f.write_str("None"),
            Reply::Items(words) => write_list(words, f),
            Reply::Done => f.write_str("ok"),
            Reply::Missing(option) => {
                f.write_str("error: ")?;
                write_missing_value(option.as_deref(), f)
            }
            Reply::Unexpected(option, word) => {
                f.write_str("error: ")?;
                write_unexpected_value(option, word, f)
            }
            Reply::NoMemory => {
                f.write_str("error: ")?;
                write_no_memory(f)
            }
        }
    }
}

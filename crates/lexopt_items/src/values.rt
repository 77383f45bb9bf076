//! Reads the values of the option just read, by its kind. The crate `lexopt` does not re-export
//! this. `values.rt` of `lexopt_base` reads several values; `Values` of `lexopt_line_spec` is the
//! same for contracts.
ghost use Rattle.std.specs.Prelude.{◌≡◌, IfErr, IfOk, string_bytes};
ghost use Rattle.lexopt_line_spec.specs.Table as spec;
ghost use Rattle.lexopt_line_spec.specs.Values.{ReadsValues, ValuesEndBy, item_with};
ghost use Rattle.lexopt_base.specs.Refusals.{refusal_reply};
ghost use Rattle.lexopt_items.specs.Items.{item_view, kind_view, values_view};

use crate::items::Item;
use crate::kinds::Kind;
use lexopt_base::parser::Parser;
use lexopt_base::refusal::Refusal;
use lexopt_base::values::read_several;
use lexopt_words::os_string::OsString;
use std::alloc::Global;

/// The values of one option.
#[derive(Drop)]
pub enum Values {
    /// The value of an option of one value or of one or none. A flag has `None`.
    AtMostOne(Option<OsString>),
    /// The values of an option of several.
    All(Vec<OsString>),
}

impl Values {
    /// Returns the item of a short option with these values.
    pub fn of_short(self, option: char) -> Item
        ensures { item_view result ≡ item_with (spec.short option) (values_view self) }
    {
        match self {
            Values::AtMostOne(value) => Item::Short(option, value),
            Values::All(values) => Item::ShortMany(option, values),
        }
    }

    /// Returns the item of a long option with these values.
    pub fn of_long(self, name: String) -> Item
        ensures { item_view result ≡ item_with (spec.long (string_bytes name)) (values_view self) }
    {
        match self {
            Values::AtMostOne(value) => Item::Long(name, value),
            Values::All(values) => Item::LongMany(name, values),
        }
    }
}

/// Takes the values of the last option, which is of this kind.
///
/// # Errors
///
/// - `MissingValue` if an option of one value or of several has none. Nothing is consumed.
/// - `OutOfMemory` if memory runs out. Some of several values may have been taken.
#[inline(always)]
pub fn read_values(alloc: Global, parser: &mut Parser, kind: Kind) -> Result<Values, Refusal>
    ensures ok { IfOk result (λ values.
        ReadsValues (kind_view kind) parser.old (values_view values) parser.new) }
    ensures err { IfErr result (λ refused.
        ValuesEndBy (kind_view kind) parser.old (refusal_reply refused) parser.new) }
{
    match kind {
        Kind::Flag => Ok(Values::AtMostOne(None)),
        Kind::One => {
            let word = parser.take()?;
            Ok(Values::AtMostOne(Some(word)))
        }
        Kind::Optional => Ok(Values::AtMostOne(parser.optional_value())),
        Kind::Several => Ok(Values::All(read_several(alloc, parser)?)),
    }
}

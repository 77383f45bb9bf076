//! Several values of one option: `values` and `begin_values` lend a view, which takes each value
//! from the parser when it is asked for, and `take_values` and `read_several` take values into a
//! list. `values.rt` of `lexopt_items` reads the values of an option by its kind.
ghost use Rattle.std.specs.Prelude.{◌≡◌, ◌≤◌, ◌<◌, ◌⊎◌, ℕ, List, IfErr, IfOk, length};
ghost use Rattle.lexopt_spec.specs.Runs as calls;
ghost use Rattle.lexopt_spec.specs.Runs.{Step};
ghost use Rattle.lexopt_spec.specs.Steps as steps;
ghost use Rattle.lexopt_spec.specs.Views.{ValueItems};
ghost use Rattle.lexopt_base.specs.Refusals.{refusal_reply};
ghost use Rattle.lexopt_base.specs.Stages.{stage_of};

use crate::parser::Parser;
use crate::refusal::Refusal;
use lexopt_words::error::Error;
use lexopt_words::os_string::OsString;
use std::alloc::{AllocError, Global};

// Whether a view of values may yield more.
#[derive(Clone, Copy)]
enum Stage {
    GoingOn,
    End,
}

/// A view of the values of one option, made by [`Parser::values`].
///
/// It is an iterator: each call of `next` takes one value. Values that are not taken stay with the
/// parser. `next` does not allocate. `collect` and [`take_values`] allocate a list: if memory runs
/// out, they return an error, and the values that they had taken are gone.
#[derive(Drop)]
pub struct ValuesIter<'a> {
    parser: &'a mut Parser,
    stage: Stage,
}

impl Parser {
    ghost use Rattle.std.specs.Prelude.{IfOk};
    ghost use Rattle.std.specs.Borrow.{sem};
    ghost use Rattle.lexopt_base.specs.Views.{LendsValues, LineIfBeginFails, LineIfValuesFail};

    /// Returns a view of the values of the last option, of which there is at least one.
    ///
    /// The values are the one in the option's own word, if there is one, and then the next words up
    /// to the first option or separator. A value joined by `=` is the only one. After the
    /// separator, every word is a value. The view takes nothing until it is asked: at `-a b c`, a
    /// view that is asked once leaves `c`. Only the error allocates.
    ///
    /// To take some or all of the values into a list, call [`take_values`] or `collect`. If memory
    /// for that list runs out, the values that were taken are gone.
    ///
    /// # Errors
    ///
    /// - `MissingValue` if there is no value. Nothing is consumed.
    /// - `OutOfMemory` in place of a `MissingValue` that names an option. Nothing is consumed.
    ///
    /// # Examples
    ///
    /// ```rust
    /// // `--files a b -v` and `--files a b --` give `a` and `b`; `--files=a b` gives `a`.
    /// let mut files = Vec::new(alloc);
    /// for file in parser.values()? {
    ///     files.push(file)?;
    /// }
    /// ```
    ///
    /// `-a b c -d` and `-ab c -d` give `b` and `c`. `-a=b c` gives `b`, or `=b` and `c` if
    /// `short_equals` is off.
    #[inline(always)]
    pub fn values(&mut self) -> Result<ValuesIter<'_>, Error>
        ensures* refused { sem 𝓛 (LineIfValuesFail self.entry result) }
        ensures view { IfOk result (LendsValues self.entry) }
    {
        match self.refuse_if_missing() {
            Ok(()) => return Ok(ValuesIter {
                parser: self,
                stage: Stage::GoingOn,
            }),
            Err(refused) => Err(Error::from(refused)),
        }
    }

    /// Returns a view of the values of the last option, as [`Parser::values`] does, with a smaller
    /// error type.
    ///
    /// It is for libraries that build on the parser. A program calls [`Parser::values`].
    ///
    /// # Errors
    ///
    /// - `MissingValue` if there is no value. Nothing is consumed.
    /// - `OutOfMemory` in place of a `MissingValue` that names an option. Nothing is consumed.
    ///
    /// # Examples
    ///
    /// ```rust
    /// use lexopt_base::values::take_values;
    ///
    /// // After `advance` returned `Found::Short('a')` for `-a b c -d`, this takes `b` and `c`.
    /// let mut view = parser.begin_values()?;
    /// let values = take_values(alloc, &mut view, usize::MAX)?;
    /// ```
    #[inline(always)]
    pub fn begin_values(&mut self) -> Result<ValuesIter<'_>, Refusal>
        ensures* refused { sem 𝓛 (LineIfBeginFails self.entry result) }
        ensures view { IfOk result (LendsValues self.entry) }
    {
        self.refuse_if_missing()?;
        Ok(ValuesIter {
            parser: self,
            stage: Stage::GoingOn,
        })
    }
}

impl Iterator for ValuesIter<'_> {
    ghost use Rattle.std.specs.Iterator.{item_count};
    ghost use Rattle.lexopt_spec.specs.Views.{values_left};
    ghost use Rattle.lexopt_base.specs.Stages.{stage_of};
    ghost use Rattle.lexopt_base.specs.Views.{GivesValue};

    type Item = OsString;

    ghost next_gives = { GivesValue };

    ghost remaining = { item_count (λ view. values_left (stage_of view.stage) view.parser.now) };

    /// Takes the next value, and returns it. `None` means that no value is left; after the first
    /// `None` it always returns `None`.
    #[inline(always)]
    fn next(&mut self) -> Option<OsString> {
        match self.stage {
            Stage::GoingOn => self.another(),
            Stage::End => None,
        }
    }
}

impl ValuesIter<'_> {
    ghost use Rattle.std.specs.Prelude.{◌≡◌};
    ghost use Rattle.lexopt_spec.specs.Views.{ValueItem};
    ghost use Rattle.lexopt_base.specs.Stages.{stage_of};

    // Takes the value in the option's own word if there is one, otherwise the next word if it can
    // be a value.
    #[inline(always)]
    fn another(&mut self) -> Option<OsString>
        requires { self.old.stage ≡ Stage.GoingOn }
        ensures same_parser { self.new.parser.ghost_name ≡ self.old.parser.ghost_name }
        ensures item { ValueItem (stage_of self.old.stage) self.old.parser.now result
            self.new.parser.now (stage_of self.new.stage) }
    {
        if let Some(pending) = self.parser.pending() {
            let is_last = pending.is_joined;
            let value = self.parser.take_value(pending.count);
            self.stage = if is_last { Stage::End } else { Stage::GoingOn };
            return Some(value);
        }
        if self.parser.has_plain_word() {
            return self.parser.take_word();
        }
        self.stage = Stage::End;
        None
    }
}

/// Takes up to `count` values from a view: fewer only if the view ends.
///
/// # Errors
///
/// `AllocError` if memory for the list runs out. The values that were taken are gone; the others
/// stay with the parser.
///
/// # Examples
///
/// ```rust
/// use lexopt_base::values::take_values;
///
/// // Of `--dim 10 20 file`, this takes `10` and `20`, and leaves `file`.
/// let mut view = parser.values()?;
/// let sides = take_values(alloc, &mut view, 2)?;
/// ```
pub fn take_values(
    alloc: Global,
    view: &mut ValuesIter<'_>,
    count: usize,
) -> Result<Vec<OsString>, AllocError>
    ensures same_parser { view.new.parser.ghost_name ≡ view.old.parser.ghost_name }
    ensures items { (m : ℕ) × (came : List (List ℕ)) × (m ≤ count)
        × ValueItems m (stage_of view.old.stage) view.old.parser.now came view.new.parser.now
        (stage_of view.new.stage)
        × IfOk result (λ items. (m ≡ count) × (items.items ≡ came)) }
{
    let mut items = Vec::new(alloc);
    for _asked in 0..count {
        match view.next() {
            Some(value) => items.push(value)?,
            None => break,
        }
    }
    Ok(items)
}

/// Takes all values of the last option into a list.
///
/// It is for libraries that build on the parser. A program calls `collect` on [`Parser::values`].
///
/// # Errors
///
/// - `MissingValue` if there is no value. Nothing is consumed.
/// - `OutOfMemory` if memory runs out. Some of the values may have been taken.
///
/// # Examples
///
/// ```rust
/// use lexopt_base::values::read_several;
///
/// // After `advance` returned `Found::Short('a')` for `-a b c -d`, this takes `b` and `c`.
/// let values = read_several(alloc, &mut parser)?;
/// ```
// It is not inlined, so that the code for other options stays short.
#[inline(never)]
pub fn read_several(alloc: Global, parser: &mut Parser) -> Result<Vec<OsString>, Refusal>
    ensures ok { IfOk result (λ values. (n : ℕ) × (length values.items < n)
        × Step (calls.values n) parser.old (steps.items values.items) parser.new) }
    ensures err { IfErr result (λ refused. (refused ≡ Refusal.OutOfMemory)
        ⊎ ((n : ℕ) × Step (calls.values n) parser.old (refusal_reply refused) parser.new)) }
{
    let mut view = parser.begin_values()?;
    Ok(take_values(alloc, &mut view, usize::MAX)?)
}

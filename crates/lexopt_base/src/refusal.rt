//! The error of `advance`, `take` and `begin_values`.
use lexopt_words::error::Error;
use lexopt_words::os_string::OsString;
use std::alloc::AllocError;

/// The error of the calls for libraries that build on the parser: `advance`, `take` and
/// `begin_values`.
///
/// `Error::from` turns it into the error that `next`, `value` or `values` returns. It is smaller
/// than an `Error`, which has room for a cause. `advance` never returns `MissingValue`; `take` and
/// `begin_values` never return `UnexpectedValue`.
#[derive(Drop)]
pub enum Refusal {
    /// There is no value for the last option, which is given with its dashes; `None` if no option
    /// was read. Nothing is consumed.
    MissingValue(Option<String>),
    /// A value is joined by `=` to the last option, and was not taken.
    UnexpectedValue {
        /// The last option, with its dashes.
        option: String,
        /// The value, which is consumed.
        value: OsString,
    },
    /// An allocation failed. Nothing is consumed.
    OutOfMemory,
}

impl From<AllocError> for Refusal {
    ghost use Rattle.std.specs.Prelude.{◌≡◌};
    ghost use Rattle.lexopt_base.specs.declared.refusal.Refusal.TheVariants.{OutOfMemory};

    ghost from_gives = { λ _ refusal. refusal ≡ OutOfMemory };

    fn from(_error: AllocError) -> Refusal {
        Refusal::OutOfMemory
    }
}

// Inlining is left to LLVM: with a hint, it would zero the space of an `Error` at each call of
// `next`.
impl From<Refusal> for Error {
    ghost use Rattle.lexopt_base.specs.Refusals.{IsErrorOf};

    ghost from_gives = { IsErrorOf };

    fn from(refusal: Refusal) -> Error {
        match refusal {
            Refusal::MissingValue(option) => Error::MissingValue { option },
            Refusal::UnexpectedValue { option, value } => Error::UnexpectedValue { option, value },
            Refusal::OutOfMemory => Error::OutOfMemory,
        }
    }
}

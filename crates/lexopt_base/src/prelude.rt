//! The names that most programs use: the variants of `Arg`, and the conversions of values.
//!
//! ```rust
//! use lexopt_base::prelude::{Long, Short, Value, ValueExt};
//! ```
pub use lexopt_words::error::Arg::{Long, Short, Value};
pub use lexopt_words::value_ext::ValueExt;

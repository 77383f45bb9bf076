//! The types below the parser: words of any bytes and their pieces, arguments, errors and their
//! messages, and the conversions of values. `lexopt_base` re-exports those that a program needs.
//!
//! In the examples `rt` is a reference to the runtime that `main` gets, `alloc` is `rt.alloc()`,
//! and `parser` is a `Parser` of `lexopt_base`.
#![tactic(auto)]

mod arguments;
pub mod codepoint;
pub mod error;
pub mod finish;
pub mod message;
pub mod os_string;
mod quoted;
pub mod value_ext;
pub mod word;
pub mod words;

//! Turns items back into words, for the command line of another program. The crate `lexopt`
//! re-exports the module `spell`.
//!
//! In the examples `alloc` is `rt.alloc()`, where `rt` is the runtime that `main` gets.
#![tactic(auto)]

mod added;
mod forms;
pub mod spell;
mod words;

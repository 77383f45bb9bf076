//! Lists of calls on a parser, and scripts. `replay` makes the calls of a list and returns their
//! replies; `run` reads a script, runs it, and writes the results. They are for tests and
//! comparisons. `lexopt::replay` re-exports `Call`, `Reply`, `replay`, `run` and `RunError`.
//!
//! In the examples `alloc` is `rt.alloc()`, where `rt` is the runtime that `main` gets, and
//! `parser` is a `Parser` of `lexopt_base`.
#![tactic(auto)]

pub mod replay;
pub mod reply;
pub mod run;
pub mod run_error;
mod script;
mod script_examples;

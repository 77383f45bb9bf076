//! What a program declares of its options and positionals, and what follows from that alone: the
//! help, the hints for a mistyped name, the spellings that completion offers, and the scripts by
//! which shells complete lines. `lexopt_options` reads lines by it, and re-exports what a program
//! needs.
//!
//! In the examples `rt` is a reference to the runtime that `main` gets, and `alloc` is
//! `rt.alloc()`. The program has the enums `Flag`, `Value`, `Word`, `Maybe` and `Values`, whose
//! variants are its keys.
#![tactic(auto)]

pub mod declaration;
mod examples;
pub mod help;
pub mod hints;
pub mod listed;
pub mod lookup;
pub mod message;
pub mod nearest;
pub mod positionals;
pub mod shell;
pub mod spellings;

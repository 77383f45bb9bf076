//! Reads whole lines by a table of options. The crate `lexopt` re-exports `Item`, `Table` and
//! `read_items`.
//!
//! In the examples `alloc` is `rt.alloc()`, where `rt` is the runtime that `main` gets.
#![tactic(auto)]

pub mod items;
pub mod kinds;
pub mod text;
pub mod values;

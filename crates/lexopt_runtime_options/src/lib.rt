//! Declared options whose declaration is made when the program runs: checked by [`try_options`], or
//! put together by [`Combined`], of several groups or with a group that several declarations share. A
//! program that names this crate names `lexopt_options` too.
//!
//! In the examples `rt` is a reference to the runtime that `main` gets, and `alloc` is
//! `rt.alloc()`; `Declaration`, `Group`, `Options` and `WIDTH` are those of `lexopt_options`.
#![tactic(auto)]

pub mod combined;
pub mod faults;
pub mod shared;

pub use combined::Combined;
pub use faults::{DeclarationError, Reason, try_options};
pub use shared::{Key, split_shared};

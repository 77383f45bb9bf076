//! The definitions that the contracts of declared options cite, in `specs/`, over plain data:
//! declarations, what words mean under them, where a reading stops, which name is nearest to a
//! mistyped one, what can be completed, and what the help is. `proofs/` has the lemmas about them
//! that other crates cite.
//!
//! The only functions here are laws and worked examples of the definitions. They have no body, and
//! nothing depends on them.
#![tactic(auto)]

mod help_examples;
pub mod laws;
mod list_examples;
mod name_examples;

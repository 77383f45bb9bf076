//! Callers of declared options that exist for the prover. Each has clauses of its own, which are
//! proved from the clauses of the public calls alone.
#![tactic(auto)]

pub mod declared;
pub mod declared_keys;
pub mod declared_texts;
pub mod grouped;

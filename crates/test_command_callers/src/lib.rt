//! Callers of declared commands that exist for the prover. Each has clauses of its own, which are
//! proved from the clauses of the public calls alone.
#![tactic(auto)]

pub mod command_lines;
pub mod command_texts;
pub mod commands;

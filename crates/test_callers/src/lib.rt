//! Callers of the parser, and of what reads and spells whole lines, that exist for the prover. Each
//! has clauses of its own, which are proved from the clauses of the public calls alone.
#![tactic(auto)]

pub mod callers;
pub mod line_callers;
pub mod text_callers;

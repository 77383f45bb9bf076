//! What several test crates share: parsers, calls of them, and environments. The public functions
//! have no contracts of their own: they are proved to be safe and to end.
#![tactic(auto)]

pub mod calls;
pub mod environments;
pub mod parsers;

//! The definitions that the contracts of words and of the parser cite. They are over plain data, in
//! `specs/`: the pieces of a byte list, the unread line, each call and its reply, the account of
//! bytes, and the texts of messages. `proofs/` has the lemmas that proofs about the code cite.
//!
//! There is no code here. `lexopt_laws` proves that the definitions fit each other, and `examples`
//! shows what some of them mean and rule out.
#![tactic(auto)]

mod examples;

//! The definitions that the contracts of whole lines cite. They are over plain data, in `specs/`:
//! tables of options, the items that words spell and show, readings, the words that spell items,
//! the texts of items, and the bound of a line. `proofs/` has the lemmas that proofs about the code
//! cite.
//!
//! There is no code here. `lexopt_laws` proves that the definitions fit each other, and `examples`
//! shows what some of them mean and rule out.
#![tactic(auto)]

mod examples;

//! Tests of calls: the public calls that a script cannot make, each once, and rows of values, errors
//! and words. The words of an environment, long names and long scripts, readers and writers that
//! fail, calls that run out of memory, and how a program ends. Lines that a script can have are cases
//! of `test_lists`. Many tests lend what they made to a helper that returns a `bool`, so that their
//! proofs are short.
#![tactic(auto)]

#[cfg(test)]
mod arguments;
#[cfg(test)]
mod calls;
#[cfg(test)]
mod codepoints;
#[cfg(test)]
mod conversions;
#[cfg(test)]
mod ends;
#[cfg(test)]
mod errors;
#[cfg(test)]
mod faults;
#[cfg(test)]
mod items;
#[cfg(test)]
mod many_options;
#[cfg(test)]
mod names;
#[cfg(test)]
mod refused_memory;
#[cfg(test)]
mod replays;
#[cfg(test)]
mod scripts;
#[cfg(test)]
mod sizes;
#[cfg(test)]
mod spelled_items;
#[cfg(test)]
mod views;
#[cfg(test)]
mod whole_lines;
#[cfg(test)]
mod words;

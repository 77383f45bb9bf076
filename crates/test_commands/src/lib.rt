//! Tests of declared commands: each public call once, what is read from an environment, a command that
//! has commands of its own, and a program that runs another one.
#![tactic(auto)]

#[cfg(test)]
mod calls;
#[cfg(test)]
mod git;
#[cfg(test)]
mod levels;
#[cfg(test)]
mod shared;
#[cfg(test)]
mod wrapped;

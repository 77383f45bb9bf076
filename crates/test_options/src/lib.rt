//! Tests of declared options: each public call once, what the library reads from an environment,
//! what `declare!` makes, defaults, options that exclude each other, and the texts of failed
//! conversions.
#![tactic(auto)]

#[cfg(test)]
mod archive;
#[cfg(test)]
mod calls;
#[cfg(test)]
mod declarations;
#[cfg(test)]
mod defaults;
#[cfg(test)]
mod environment;
#[cfg(test)]
mod exclusive;
#[cfg(test)]
mod large;
#[cfg(test)]
mod shared;
#[cfg(test)]
mod values;

//! Whole lines, lists of calls and scripts: `read_items` reads a whole line by a table, `replay`
//! makes the calls of a list on a parser, and `run` reads a script, runs it, and writes a line for
//! each reply and each whole line.

pub use lexopt_calls::replay::replay;
pub use lexopt_calls::reply::{Call, Reply};
pub use lexopt_calls::run::run;
pub use lexopt_calls::run_error::RunError;
pub use lexopt_items::items::{Item, Table, read_items};

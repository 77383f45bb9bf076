//! Runs a script of calls and whole lines: reads it from standard input, and writes a line for each
//! to standard output. `docs/formats.md` describes scripts.
//!
//! The exit status is 0; 2 if a line of the script is bad or the script is too long; or 1 if a
//! read, a write or an allocation fails. After an error the program also writes a line with its
//! message.
#![tactic(auto)]

use lexopt_calls::run::run;
use std::io;
use std::process::ExitCode;

fn main(rt: HostRuntime) -> ExitCode {
    match run(rt.alloc(), &mut rt.reader(), &mut io::writer(&rt)) {
        Ok(()) => ExitCode::SUCCESS,
        Err(error) => {
            let _ = println!(rt; "lexopt_replay: {error}");
            ExitCode::from(error.status())
        }
    }
}

//! How a program ends.
ghost use Rattle.std.specs.Prelude.{◌≡◌};
ghost use Rattle.std.specs.Process.{exit_status};
ghost use Rattle.lexopt_words.specs.Finish.{status_of};

use std::io;
use std::process::ExitCode;

/// The status after a write to a closed pipe. A shell shows the same for a program that `SIGPIPE`
/// ended, as GNU programs do: 128, and 13 for the signal.
pub const BROKEN_PIPE: u8 = 141;

/// Returns the status that `main` exits with, by what the work of the program returned.
///
/// It is the status of `Ok`. An error is a failure to print, or memory that ran out. If it is
/// `ErrorKind::BrokenPipe`, nobody reads what the program prints any longer, as after a pager was
/// left: the status is [`BROKEN_PIPE`], and nothing is printed. After any other error the status is
/// 1, and the name of the program and the error are printed to standard error.
///
/// # Examples
///
/// ```rust
/// use std::process::ExitCode;
/// let outcome = rt.println("Hello").map(|()| ExitCode::SUCCESS);
/// let status = finish(rt, "hello", outcome);
/// ```
pub fn finish<R: Eprint>(rt: &R, program: &str, outcome: io::Result<ExitCode>) -> ExitCode
    ensures { exit_status result ≡ status_of outcome }
{
    match outcome {
        Ok(code) => code,
        Err(error) => match error.kind() {
            io::ErrorKind::BrokenPipe => ExitCode::from(BROKEN_PIPE),
            _ => {
                let _ = eprintln!(rt; "{program}: {error}");
                ExitCode::FAILURE
            }
        },
    }
}

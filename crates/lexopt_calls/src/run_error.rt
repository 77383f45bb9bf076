//! The error of `run`.
ghost use Rattle.std.specs.Prelude.{◌≡◌, Some};

use std::alloc::{AllocError, AllocFailed};
use std::fmt;

/// The error of [`run`](crate::run::run). It prints as a message.
#[derive(Clone, Copy, Debug, PartialEq, Eq)]
pub enum RunError {
    /// The script has a bad line; this is the number of the first one, counted from 1.
    BadLine(usize),
    /// The script has more than 1,048,576 bytes.
    TooLong,
    /// A read failed.
    ReadFailed,
    /// A write failed.
    WriteFailed,
    /// An allocation failed.
    NoMemory,
}

impl RunError {
    ghost use Rattle.lexopt_calls.specs.RunError.{status_of};

    /// Returns the exit status for a program: 2 for `BadLine` and `TooLong`, otherwise 1.
    ///
    /// # Examples
    ///
    /// ```rust
    /// use std::io;
    /// use std::process::ExitCode;
    ///
    /// let status = match run(alloc, &mut rt.reader(), &mut io::writer(rt)) {
    ///     Ok(()) => ExitCode::SUCCESS,
    ///     Err(error) => ExitCode::from(error.status()),
    /// };
    /// ```
    pub fn status(&self) -> u8
        ensures { result ≡ status_of self.now }
    {
        match self {
            RunError::BadLine(_) | RunError::TooLong => 2,
            RunError::ReadFailed | RunError::WriteFailed | RunError::NoMemory => 1,
        }
    }
}

impl fmt::Display for RunError {
    ghost use Rattle.lexopt_calls.specs.RunError.{run_message};

    ghost output = { λ e. Some (run_message e) };

    fn fmt<W: fmt::Write>(&self, f: &mut fmt::Formatter<W>) -> fmt::Result {
        match self {
            RunError::BadLine(line) => write!(f, "line {line} refused"),
            RunError::TooLong => f.write_str("script too long"),
            RunError::ReadFailed => f.write_str("read failed"),
            RunError::WriteFailed => f.write_str("write failed"),
            RunError::NoMemory => f.write_str("out of memory"),
        }
    }
}

impl std::error::Error for RunError {}

impl From<AllocError> for RunError {
    ghost use Rattle.lexopt_calls.specs.declared.run_error.RunError.TheVariants.{NoMemory};

    ghost from_gives = { λ _ e. e ≡ NoMemory };

    fn from(_error: AllocError) -> RunError {
        RunError::NoMemory
    }
}

impl<T: Drop> From<AllocFailed<T>> for RunError {
    ghost use Rattle.lexopt_calls.specs.declared.run_error.RunError.TheVariants.{NoMemory};

    ghost from_gives = { λ _ e. e ≡ NoMemory };

    fn from(_error: AllocFailed<T>) -> RunError {
        RunError::NoMemory
    }
}

//! The result of reading a line, and a line that was refused. `read.rt` of `lexopt_commands` has
//! the result for a line with commands.
ghost use Rattle.std.specs.Prelude.{◌≡◌};
ghost use Rattle.std.specs.Process.{exit_status};

use crate::mistake::Mistake;
use crate::parsed::{Asked, Parsed};
use lexopt_declaration::declaration::Names;
use lexopt_declaration::message::write_help;
use std::convert::Infallible;
use std::fmt;
use std::process::ExitCode;

/// The status with which a program exits after it refused its command line.
pub const USAGE_ERROR: u8 = 2;

/// A line that was refused. [`Refused::print`] prints it. `Display` and `Debug` write the same,
/// without a line feed at the end:
///
/// ```text
/// pack: invalid option '--verbsoe'; did you mean '--verbose'?
/// Try 'pack --help' for more information.
/// ```
#[derive(Drop)]
pub struct Refused<'a, F, V = Infallible, P = Infallible, M = Infallible, S = Infallible> {
    /// The name of the program.
    pub program: &'a str,
    /// The names of the first option that asks for the help, if one is declared.
    pub help: Option<Names<'a>>,
    /// What the line means before the mistake. An option whose value is missing, unexpected or
    /// invalid is not part of it, and neither is a default, unless all options were read and the
    /// mistake, which `lexopt_commands` found, is in what comes after them.
    pub before: Vec<Parsed<F, V, P, M, S>>,
    /// The mistake.
    pub mistake: Mistake<'a>,
}

impl<F: Drop, V: Drop, P: Drop, M: Drop, S: Drop> Refused<'_, F, V, P, M, S> {
    /// Prints this and a line feed to standard error, and returns the status to exit with,
    /// [`USAGE_ERROR`]. The status is the same if it can't be printed. This call consumes the
    /// refusal, so that a program has nothing to drop after it.
    ///
    /// # Examples
    ///
    /// ```rust
    /// use std::process::ExitCode;
    ///
    /// fn refuse(rt: &HostRuntime, refused: Refused<'_, Flag, Value, Word>) -> ExitCode {
    ///     refused.print(rt)
    /// }
    /// ```
    pub fn print<R: Eprint>(self, rt: &R) -> ExitCode
        ensures { exit_status result ≡ 2 }
    {
        let _ = eprintln!(rt; "{self}");
        ExitCode::from(USAGE_ERROR)
    }
}

impl<F, V, P, M, S> fmt::Display for Refused<'_, F, V, P, M, S> {
    ghost use Rattle.std.specs.Prelude.{Some};
    ghost use Rattle.lexopt_options.specs.Messages.{message, refusal_text};

    ghost output = { λ refused. Some (refusal_text refused.program.now refused.help
        (message refused.mistake)) };

    /// Writes the name of the program and the mistake, as GNU programs do; and on a second line
    /// where the help is, if an option for it is declared.
    fn fmt<W: fmt::Write>(&self, f: &mut fmt::Formatter<W>) -> fmt::Result {
        let program = self.program;
        let mistake = &self.mistake;
        write!(f, "{program}: {mistake}")?;
        write_help(program, self.help, f)
    }
}

impl<F, V, P, M, S> fmt::Debug for Refused<'_, F, V, P, M, S> {
    ghost use Rattle.std.specs.Prelude.{Some};
    ghost use Rattle.lexopt_options.specs.Messages.{message, refusal_text};

    ghost debug_output = { λ refused. Some (refusal_text refused.program.now refused.help
        (message refused.mistake)) };

    fn fmt<W: fmt::Write>(&self, f: &mut fmt::Formatter<W>) -> fmt::Result {
        fmt::Display::fmt(self, f)
    }
}

impl<F: Drop, V: Drop, P: Drop, M: Drop, S: Drop> std::error::Error
    for Refused<'_, F, V, P, M, S> {}

/// The result of reading a line.
#[derive(Debug, Drop)]
pub enum Line<'a, F, V = Infallible, P = Infallible, M = Infallible, S = Infallible> {
    /// The line is legal. This is what it means, in order, after the defaults of the options that it
    /// does not have.
    Parsed(Vec<Parsed<F, V, P, M, S>>),
    /// The line asks for the help or the version before any mistake.
    Asked(Asked<'a>),
    /// The line has a mistake.
    Refused(Refused<'a, F, V, P, M, S>),
}

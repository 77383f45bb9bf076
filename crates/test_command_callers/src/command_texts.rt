//! A caller that prints why a command cannot be declared.
ghost use Rattle.std.specs.Prelude.{◌≡◌, IfOk, string_bytes};
ghost use Rattle.test_command_callers.specs.Texts.{error_line};

use lexopt_commands::CommandError;
use std::alloc::{AllocError, Global};

/// Prints why a command cannot be declared.
pub fn command_error_text(alloc: Global, error: &CommandError<'_>) -> Result<String, AllocError>
    ensures { IfOk result (λ text. string_bytes text ≡ error_line error.now) }
{
    format!(in alloc; "{error}")
}

//! Copies of lists of words. `words.rt` of `lexopt_spell` appends words to a list.
ghost use Rattle.std.specs.Prelude.{◌≡◌, IfOk};

use crate::os_string::OsString;
use std::alloc::{AllocError, Global};

/// Copies a list of words.
///
/// # Errors
///
/// `AllocError` if an allocation fails.
pub fn copies(alloc: Global, words: &[OsString]) -> Result<Vec<OsString>, AllocError>
    ensures { IfOk result (λ copied. copied.items ≡ words.now) }
{
    words.to_vec(alloc)
}

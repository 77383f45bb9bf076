//! The stored script. If a call runs out of memory, its line is `error: out of memory`, and every
//! other line is as if that call had not been made. The other scripts are cases of `test_lists`.
use crate::refused_memory::out_of_memory_in;
use crate::scripts::{SCRIPT, WRITTEN};
use lexopt::replay::{RunError, run};
use std::test::Fail;

// The output of the stored script if its first `next` runs out of memory.
const NEXT_FAILED: &[u8] =
    b"error: out of memory\n\"--out=x\"\nValue \"file\"\nValue \"-y\"\nNone\n";

// The script that `lexopt_replay` stores writes all of its output, or nothing if `run` runs out of
// memory. If its first `next` does, `value` returns the whole word, and the calls after it read the
// rest of the line.
#[test]
fn stored_script(rt: HostRuntime) -> Result<(), Fail> {
    let mut written = Vec::with_capacity(rt.alloc(), 2 * WRITTEN.len())?;
    let mut script = SCRIPT;
    match run(rt.alloc(), &mut script, &mut written) {
        Err(RunError::NoMemory) if written.is_empty() => out_of_memory_in("run"),
        Ok(()) if written.as_slice() == WRITTEN => Ok(()),
        Ok(()) if written.as_slice() == NEXT_FAILED => out_of_memory_in("next"),
        _ => Err(Fail::new("run returned another result")),
    }
}

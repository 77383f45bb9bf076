//! Long names, many words and long scripts: none of them runs out of memory.
use lexopt::replay::run;
use std::alloc::{AllocError, Global};

// The number of pieces of a long name, and of words of each kind in a long script.
const MANY: usize = 1_500;

// Whether a script succeeds, and writes this text.
fn writes(alloc: Global, script: &str, text: &str) -> bool {
    let mut written = Vec::new(alloc);
    run(alloc, &mut script.as_bytes(), &mut written).is_ok()
        && written.as_slice() == text.as_bytes()
}

// Whether a long name is read and printed, with a long value and without one. Both repeat `piece`,
// which is `shown` in a name.
fn reads_long_name(alloc: Global, piece: &str, shown: &str) -> Result<bool, AllocError> {
    let bytes = piece.repeat(alloc, MANY)?;
    let name = shown.repeat(alloc, MANY)?;
    let script = format!(in alloc; "w --{bytes}={bytes}\nw --{bytes}\nnext\nnext\nnext\nvalue\n")?;
    let text = format!(in alloc;
        "Long \"{name}\"\nerror: unexpected argument for option '--{name}': \"{bytes}\"\nLong \"{name}\"\nerror: missing argument for option '--{name}'\n"
    )?;
    Ok(writes(alloc, script.as_str(), text.as_str()))
}

#[test]
fn long_names(rt: HostRuntime) {
    for (piece, shown) in [("n", "n"), ("µ", "µ"), ("\\xFF", "\u{fffd}")] {
        assert!(rt;
            reads_long_name(rt.alloc(), piece, shown).expect(&rt, "success"),
            "{shown}"
        );
    }
}

// Whether a script of many words and calls writes every reply.
fn reads_many(alloc: Global) -> Result<bool, AllocError> {
    let words = "w --name=value\nw file\n".repeat(alloc, MANY)?;
    let calls = "next\nvalue\nnext\n".repeat(alloc, MANY)?;
    let replies = "Long \"name\"\n\"value\"\nValue \"file\"\n".repeat(alloc, MANY)?;
    let script = format!(in alloc; "{words}{calls}next\n")?;
    let text = format!(in alloc; "{replies}None\n")?;
    Ok(writes(alloc, script.as_str(), text.as_str()))
}

#[test]
fn many_words(rt: HostRuntime) {
    assert!(rt; reads_many(rt.alloc()).expect(&rt, "success"));
}

//! A script of calls, and its output.

/// The script that `lexopt_replay` stores.
pub const SCRIPT: &[u8] = b"w --out=x\nw file\nw --\nw -y\nnext\nvalue\nnext\nnext\nnext\n";

/// The output of that script.
pub const WRITTEN: &[u8] = b"Long \"out\"\n\"x\"\nValue \"file\"\nValue \"-y\"\nNone\n";

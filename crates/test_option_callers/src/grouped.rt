//! Callers of declarations whose options are in groups.
ghost use Rattle.std.specs.Prelude.{IfOk, string_bytes};
ghost use Rattle.lexopt_options_spec.specs.Declaration.{full};
ghost use Rattle.lexopt_options_spec.specs.Help.{IsHelp};
ghost use Rattle.test_option_callers.specs.Grouped.{grouped, shared};

use crate::declared::{Flag, Value};
use lexopt_options::{Declaration, Detail, Group, Names, Options, declare, declare_group};
use lexopt_runtime_options::Combined;
use std::alloc::{AllocError, Global};

static LEAD: Declaration<'static, Flag, Value> = declare! {
    program: "tool",
    about: "Works.",
    usage: ["FILE", "--quiet"],
    options: [flag(Flag::Verbose, Names::Both('v', "verbose"), "tell more")],
};

static FILES: Group<'static, Flag, Value> = declare_group! {
    options: [
        flag(Flag::Force, Names::Short('f'), "by force"),
        value(Value::Output, Names::Both('o', "output"), "FILE", "write there"),
    ],
};

static TELLING: Group<'static, Flag, Value> = declare_group! {
    options: [flag(Flag::Verbose, Names::Long("quiet"), "tell nothing")],
};

/// The help of a declaration of one option with two groups: its own option first, and then those of
/// each group.
pub fn grouped_help(alloc: Global, width: usize) -> Result<String, AllocError>
    ensures { IfOk result (λ text. IsHelp full grouped width (string_bytes text)) }
{
    let combined = Combined::new(alloc, &LEAD, &[FILES, TELLING])?;
    let declaration = combined.declaration();
    Options::new(&declaration).help(alloc, Detail::Full, width)
}

/// The help of the same declaration that shares the second group, with its own option first.
pub fn shared_help(alloc: Global, width: usize) -> Result<String, AllocError>
    ensures { IfOk result (λ text. IsHelp full shared width (string_bytes text)) }
{
    let combined = Combined::with_shared(alloc, &LEAD, TELLING)?;
    let declaration = combined.declaration();
    Options::new(&declaration).help(alloc, Detail::Full, width)
}

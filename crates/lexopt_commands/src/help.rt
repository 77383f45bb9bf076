//! The help of a program with commands. The file of this name in `lexopt_declaration` has the help
//! of declared options.
ghost use Rattle.std.specs.Prelude.{◌≡◌, ℕ, IfOk, List, string_bytes};
ghost use Rattle.std.specs.List.{AllZip, concat};
ghost use Rattle.lexopt_options_spec.specs.Help.{IsEntry, IsUsage};
ghost use Rattle.lexopt_declaration.specs.Models.{detail_view};
ghost use Rattle.lexopt_options.specs.Declarations.{declaration_of};
ghost use Rattle.lexopt_commands.specs.Help.{IsHelp, with_command};

use crate::command::Command;
use crate::commands::Commands;
use crate::wrapper::{Rest, Wrapper};
use lexopt_declaration::help::{
    push_apart, push_described, push_epilogue, push_options, push_paragraph, shown_epilogue,
};
use lexopt_options::{Detail, Options, RestStart};
use std::alloc::{AllocError, Global};
use std::convert::Infallible;

// The entries of the commands.
fn command_entries<C>(
    alloc: Global,
    commands: &[Command<'_, C>],
    width: usize,
) -> Result<String, AllocError>
    ensures { IfOk result (λ text. (entries : List (List ℕ))
        × AllZip (λ c. IsEntry width c.name.now c.help.now) commands.now entries
        × (string_bytes text ≡ concat entries)) }
{
    let mut text = String::new(alloc);
    for command in commands {
        push_described(&mut text, alloc, command.name, command.help, width)?;
    }
    Ok(text)
}

// A command and its arguments, which the usage line alone shows.
const COMMAND: Rest<'static> = Rest {
    start: RestStart::Surplus,
    placeholder: "COMMAND",
    help: "",
    required: true,
};

// The usage, wrapped to `width` columns: that of the general options, with a command after them.
fn usage_of<F, V, M, S>(
    alloc: Global,
    options: &Options<'_, F, V, Infallible, M, S>,
    width: usize,
) -> Result<String, AllocError>
    ensures { IfOk result (λ text.
        IsUsage width (with_command (declaration_of options.now)) (string_bytes text)) }
{
    Wrapper::new(*options, COMMAND).usage(alloc, width)
}

// The help, wrapped to `width` columns.
fn help_of<C, F, V, M, S>(
    alloc: Global,
    detail: Detail,
    options: &Options<'_, F, V, Infallible, M, S>,
    commands: &[Command<'_, C>],
    width: usize,
) -> Result<String, AllocError>
    ensures { IfOk result (λ text. IsHelp (detail_view detail) (declaration_of options.now)
        commands.now width (string_bytes text)) }
{
    let mut text = usage_of(alloc, options, width)?;
    push_paragraph(&mut text, alloc, options.about(), width)?;
    let entries = command_entries(alloc, commands, width)?;
    push_apart(&mut text, entries.as_str())?;
    push_options(&mut text, alloc, detail, options.options(), width)?;
    let epilogue = shown_epilogue(detail, options.epilogue());
    push_epilogue(&mut text, alloc, epilogue, width)?;
    Ok(text)
}

impl<C, F, V, M, S> Commands<'_, C, F, V, M, S> {
    ghost use Rattle.std.specs.Prelude.{IfOk, string_bytes};
    ghost use Rattle.lexopt_options_spec.specs.Help.{IsUsage};
    ghost use Rattle.lexopt_declaration.specs.Models.{detail_view};
    ghost use Rattle.lexopt_options.specs.Declarations.{declaration_of};
    ghost use Rattle.lexopt_commands.specs.Help.{IsHelp, with_command};

    /// Returns the usage of the program, wrapped to `width` columns: that of the general options
    /// (`Options::usage` of `lexopt_options`). A usage line that is generated ends with `COMMAND`
    /// and `[ARGUMENT]...`.
    ///
    /// # Errors
    ///
    /// Returns `AllocError` if an allocation fails.
    ///
    /// # Examples
    ///
    /// ```rust
    /// let usage = commands.usage(alloc, columns(rt))?;
    /// ```
    pub fn usage(&self, alloc: Global, width: usize) -> Result<String, AllocError>
        ensures { IfOk result (λ text. IsUsage width
            (with_command (declaration_of self.now.options)) (string_bytes text)) }
    {
        usage_of(alloc, &self.options(), width)
    }

    /// Returns the help of the program, wrapped to `width` columns.
    ///
    /// It is that of the general options (`Options::help` of `lexopt_options`), with the usage that
    /// [`Commands::usage`] returns, and with an entry for each command, whose label is the name.
    /// These entries are in the order of the declaration, before those of the options, with an
    /// empty line before the first.
    ///
    /// # Errors
    ///
    /// Returns `AllocError` if an allocation fails.
    ///
    /// # Examples
    ///
    /// ```rust
    /// rt.print(commands.help(alloc, Detail::Full, columns(rt))?)?;
    /// ```
    ///
    /// For `example_commands` at 80 columns that prints
    ///
    /// ```text
    /// Usage: example_commands [OPTION]... COMMAND [ARGUMENT]...
    /// Prints what it has read.
    ///
    ///   add                   add files
    ///   list                  list what was added
    ///   remote                add a remote
    ///   help                  print the help of a command
    ///
    ///   -C, --directory=DIR   where the files are
    ///   -h, --help            print this help and exit
    /// ```
    pub fn help(&self, alloc: Global, detail: Detail, width: usize) -> Result<String, AllocError>
        ensures { IfOk result (λ text. IsHelp (detail_view detail)
            (declaration_of self.now.options) self.now.commands.now width (string_bytes text)) }
    {
        help_of(alloc, detail, &self.options(), self.commands(), width)
    }
}

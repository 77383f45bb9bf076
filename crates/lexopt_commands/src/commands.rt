//! The general options of a program and its commands, which can be declared together.
ghost use Rattle.std.specs.Prelude.{◌≡◌, true};
ghost use Rattle.lexopt_commands.specs.Names.{can_be_declared, names_of};

use crate::command::{Command, CommandError, first_fault};
use lexopt_options::Options;
use std::alloc::AllocError;
use std::convert::Infallible;

/// The general options of a program and its commands, which can be declared together.
///
/// [`Commands::new`] and [`Commands::try_new`] make it. It borrows the commands and is `Copy`. The
/// names of the commands are distinct. None is empty or begins with `-`, and none has a blank, a
/// control character of ASCII or U+FFFD in it.
///
/// `C` is the type of the program's keys for commands. The others are those of the general
/// declaration: for flags, options of one value, options whose value may be left out, and options
/// of several values. There is none for positionals, since the general declaration has none.
pub struct Commands<'a, C, F, V = Infallible, M = Infallible, S = Infallible> {
    options: Options<'a, F, V, Infallible, M, S>,
    commands: &'a [Command<'a, C>],
    ghost sound: { can_be_declared (names_of commands.now) ≡ true },
}

impl<'a, C, F, V, M, S> Commands<'a, C, F, V, M, S> {
    ghost use Rattle.std.specs.Prelude.{◌≡◌, [], ℕ, MatchResult, Some, slice_get, true};
    ghost use Rattle.lexopt_options.specs.Declarations.{declaration_of};
    ghost use Rattle.lexopt_commands.specs.declared.command.Command.{Command};
    ghost use Rattle.lexopt_commands.specs.Meanings.{command_of};
    ghost use Rattle.lexopt_commands.specs.Names.{can_be_declared, first_fault, names_of};

    /// Returns these general options and commands, where the commands are known when the program is
    /// built.
    ///
    /// The prover computes for a constant or a static that the commands can be declared together.
    /// So `rt check` refuses a program with a faulty list of commands, and this call cannot fail
    /// when a proved program runs. [`Reason`](crate::Reason) lists the faults.
    ///
    /// # Examples
    ///
    /// ```rust
    /// let commands = Commands::new(Options::new(&GENERAL), COMMANDS);
    /// ```
    pub fn new(
        options: Options<'a, F, V, Infallible, M, S>,
        commands: &'a [Command<'a, C>],
    ) -> Commands<'a, C, F, V, M, S>
        requires { can_be_declared (names_of commands.now) ≡ true }
        ensures options { result.options ≡ options.entry }
        ensures commands { result.commands.now ≡ commands.now }
    {
        Commands { options, commands }
    }

    /// Returns these general options and commands, where the commands are known only when the
    /// program runs.
    ///
    /// # Errors
    ///
    /// [`CommandError`] has the name of the first command that cannot be declared after those
    /// before it, and the reason.
    ///
    /// # Examples
    ///
    /// ```rust
    /// match Commands::try_new(Options::new(&GENERAL), COMMANDS) {
    ///     Ok(commands) => rt.print(commands.help(alloc, Detail::Full, columns(rt))?)?,
    ///     // If two commands have the name `add`, this prints:
    ///     // git: command 'add': a command before it has its name
    ///     Err(error) => eprintln!(rt; "git: {error}")?,
    /// }
    /// ```
    pub fn try_new(
        options: Options<'a, F, V, Infallible, M, S>,
        commands: &'a [Command<'a, C>],
    ) -> Result<Commands<'a, C, F, V, M, S>, CommandError<'a>>
        ensures { MatchResult result
            (λ made. (made.options ≡ options.entry) × (made.commands.now ≡ commands.now))
            (λ error. first_fault [] (names_of commands.now)
            ≡ Some (error.name.now, error.reason)) }
    {
        match first_fault(commands) {
            Some(error) => Err(error),
            None => Ok(Commands { options, commands }),
        }
    }

    /// Returns the general options, which have no positionals.
    #[tactic(auto, using(crate::proofs::Wholes::no_positionals))]
    pub fn options(&self) -> Options<'a, F, V, Infallible, M, S>
        ensures same { result ≡ self.now.options }
        ensures none { (declaration_of result).positionals ≡ [] }
    {
        self.options
    }

    /// Returns the commands, in the order of the declaration.
    #[tactic(auto, using(crate::proofs::Found::each_found))]
    pub fn commands(&self) -> &'a [Command<'a, C>]
        ensures same { result.now ≡ self.now.commands.now }

        // Each is found by its name.
        ensures found { (i : ℕ) (c : Command C) → slice_get result.now i ≡ Some c
            → command_of result.now c.name.now ≡ Some c }
    {
        self.commands
    }
}

impl<C, F, V, M, S> Clone for Commands<'_, C, F, V, M, S> {
    fn clone(&self) -> Result<Self, AllocError> {
        Ok(*self)
    }
}

impl<C, F, V, M, S> Copy for Commands<'_, C, F, V, M, S> {}

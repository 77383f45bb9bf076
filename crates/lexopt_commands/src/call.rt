//! What is handed on to a command: the words for it, or what a shell asks about them.
ghost use Rattle.std.specs.Prelude.{◌≡◌, IfOk, string_bytes};
ghost use Rattle.lexopt_commands.specs.Calls.{IsCallAnswer, path_of};
ghost use Rattle.lexopt_commands.specs.Wrappers.{IsWrapperCall};

use crate::commands::Commands;
use crate::wrapper::{Wrapper, WrapperAnswer};
use lexopt_options::{Answer, Options, Parsed, Request};
use std::alloc::{AllocError, Global};
use std::convert::Infallible;

/// What a command is called with: the general options before its name, and the words for it, or what
/// a shell asks about these. The words for it are those after its name, and `--help` among them if a
/// name that asks for the help came before it.
///
/// [`Step::Command`](crate::Step::Command) has it. A program hands it on to [`Call::answer`] with
/// the options of the command, or to [`Commands::answer_call`] if the command has commands of its
/// own. It has no public fields, so a program gets the general options only with the answer. A
/// shell may be asking, and reads what the program prints, so print nothing before these calls have
/// returned. A program that has to know the general options earlier, such as one that looks for
/// commands in a folder, reads its words by [`Commands::read`].
///
/// The types of keys are those of [`Commands`].
#[derive(Debug, Drop)]
pub struct Call<F, V = Infallible, M = Infallible, S = Infallible> {
    pub(crate) general: Vec<Parsed<F, V, Infallible, M, S>>,
    pub(crate) request: Request,
}

impl<F: Drop, V: Drop, M: Drop, S: Drop> Call<F, V, M, S> {
    /// Returns what the general options mean, and what the program has to do.
    ///
    /// The given options are those of the command. What the program has to do is what
    /// `Options::answer_request` returns for the words that the command gets, or for what a shell
    /// asks about them. `width` is the width of the help, in columns. In a call that
    /// [`Commands::answer_request`] or [`Commands::answer_call`] returns for a completion, the list
    /// of general options is empty.
    ///
    /// # Errors
    ///
    /// Returns `AllocError` if an allocation fails.
    ///
    /// # Examples
    ///
    /// ```rust
    /// use std::convert::Infallible;
    /// use std::io;
    ///
    /// static ADD: Declaration<'static, Infallible, Infallible, ()> = declare! {
    ///     program: "add",
    ///     options: [help(Names::Both('h', "help"))],
    ///     positionals: [at_least_once((), "FILE")],
    /// };
    ///
    /// fn add(rt: &HostRuntime, path: &str, call: Call<Infallible, ()>) -> io::Result<()> {
    ///     let options = Options::new(&ADD).with_program(path);
    ///     let (general, answer) = call.answer(rt.alloc(), &options, columns(rt))?;
    ///     match answer {
    ///         // For `git -C dir add x`, `general` is Value((), "dir").
    ///         Answer::Parsed(line) => println!(rt; "{} options, {} files", general.len(), line.len()),
    ///         Answer::Text(text) => rt.print(text),
    ///         Answer::Refused(refused) => rt.eprintln(refused),
    ///     }
    /// }
    /// ```
    pub fn answer<'a, G: Copy, W: Copy, P: Copy, N: Copy, T: Copy>(
        self,
        alloc: Global,
        options: &Options<'a, G, W, P, N, T>,
        width: usize,
    ) -> Result<
        (
            Vec<Parsed<F, V, Infallible, M, S>>,
            Answer<'a, G, W, P, N, T>,
        ),
        AllocError,
    >
        ensures { IfOk result (λ found. IsCallAnswer self options.now width found) }
    {
        let answer = options.answer_request(alloc, self.request, width)?;
        Ok((self.general, answer))
    }

    /// Returns the same for a command whose line ends with a rest, such as `git log`, whose paths come
    /// after the separator: what the general options mean, and what `Wrapper::answer_request`
    /// returns.
    ///
    /// # Errors
    ///
    /// Returns `AllocError` if an allocation fails.
    ///
    /// # Examples
    ///
    /// ```rust
    /// use std::convert::Infallible;
    /// use std::io;
    ///
    /// static LOG: Declaration<'static, Infallible, Infallible, ()> = declare! {
    ///     program: "log",
    ///     options: [help(Names::Both('h', "help"))],
    ///     positionals: [any_number((), "REVISION").text()],
    /// };
    ///
    /// const PATHS: Rest<'static> = Rest {
    ///     start: RestStart::Separated,
    ///     placeholder: "PATH",
    ///     help: "only what changed these",
    ///     required: false,
    /// };
    ///
    /// fn log(rt: &HostRuntime, path: &str, call: Call<Infallible, ()>) -> io::Result<()> {
    ///     let wrapper = Wrapper::new(Options::new(&LOG).with_program(path), PATHS);
    ///     let (_general, answer) = call.answer_wrapped(rt.alloc(), &wrapper, columns(rt))?;
    ///     match answer {
    ///         // For `git log main -- x`, `line` is Positional((), "main"), and `paths` is `x`.
    ///         WrapperAnswer::Parsed(line, paths) => println!(rt; "{line:?} {paths:?}"),
    ///         WrapperAnswer::Text(text) => rt.print(text),
    ///         WrapperAnswer::Refused(refused) => rt.eprintln(refused),
    ///     }
    /// }
    /// ```
    pub fn answer_wrapped<'a, G: Copy, W: Copy, P: Copy, N: Copy, T: Copy>(
        self,
        alloc: Global,
        wrapper: &Wrapper<'a, G, W, P, N, T>,
        width: usize,
    ) -> Result<
        (
            Vec<Parsed<F, V, Infallible, M, S>>,
            WrapperAnswer<'a, G, W, P, N, T>,
        ),
        AllocError,
    >
        ensures { IfOk result (λ found. IsWrapperCall self wrapper.now width found) }
    {
        let found = wrapper.answer_request(alloc, self.request, width)?;
        Ok((self.general, found))
    }
}

impl<C, F, V, M, S> Commands<'_, C, F, V, M, S> {
    ghost use Rattle.std.specs.Prelude.{◌≡◌, IfOk, string_bytes};
    ghost use Rattle.lexopt_commands.specs.Calls.{path_of};

    // The path of the command with this name.
    pub(crate) fn path_of(&self, alloc: Global, name: &str) -> Result<String, AllocError>
        ensures { IfOk result (λ path. string_bytes path ≡ path_of self.now.options name.now) }
    {
        let program = self.options().program();
        format!(in alloc; "{program} {name}")
    }
}

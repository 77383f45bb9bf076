//! Callers that exist for the prover, over any general options and commands. Their clauses state what
//! a line means, and what the program does about a request, by the meaning of the words.
ghost use Rattle.std.specs.Prelude.{◌≡◌, ◌∷◌, ℕ, [], IfOk, List, None, Some, slice_get, true};
ghost use Rattle.lexopt_options_spec.specs.Asking.{first_asked};
ghost use Rattle.lexopt_options_spec.specs.Declaration as spec;
ghost use Rattle.lexopt_options_spec.specs.Rest.{MeansBefore, surplus};
ghost use Rattle.lexopt_options_spec.specs.Legal as legal;
ghost use Rattle.lexopt_options.specs.Answers.{IsRequestAnswer};
ghost use Rattle.lexopt_options.specs.Declarations.{declaration_of, options_of};
ghost use Rattle.lexopt_commands.specs.declared.command.Command as one;
ghost use Rattle.lexopt_commands.specs.declared.command.Runs.TheVariants as runs;
ghost use Rattle.lexopt_commands.specs.Names.{can_be_declared, names_of};
ghost use Rattle.test_command_callers.specs.AnyCommands.{IsAskedFor, IsNamed, LineTells, RequestTells};

use lexopt_commands::{Call, Command, CommandLine, Commands, Step};
use lexopt_options::{Answer, Options, OsString, Parsed, Request};
use std::alloc::{AllocError, Global};
use std::convert::Infallible;

/// Reads a line.
pub fn read_line<'a, C: Copy, F: Copy, V: Copy, M: Copy, S: Copy>(
    alloc: Global,
    options: Options<'a, F, V, Infallible, M, S>,
    commands: &'a [Command<'a, C>],
    words: Vec<OsString>,
) -> Result<CommandLine<'a, C, F, V, M, S>, AllocError>
    requires { can_be_declared (names_of commands.now) ≡ true }
    ensures line { IfOk result (λ line.
        LineTells options.entry commands.now words.items line) }
    ensures asked { (l : List legal.Parsed) (rest : List (List ℕ)) (asked : spec.Asked)
        → MeansBefore surplus (declaration_of options.entry) words.items l rest
        → first_asked (declaration_of options.entry).options l ≡ Some asked
        → IfOk result (λ line. IsAskedFor asked line) }
    ensures named { (i : ℕ) (own : one.Command C) (key : C) (l : List legal.Parsed)
        (rest : List (List ℕ)) → slice_get commands.now i ≡ Some own
        → own.runs ≡ runs.Command key
        → MeansBefore surplus (declaration_of options.entry) words.items l (own.name.now ∷ rest)
        → first_asked (declaration_of options.entry).options l ≡ None
        → IfOk result (λ line.
        IsNamed (options_of options.entry) l own.name.now key rest line) }
{
    Commands::new(options, commands).read(alloc, words)
}

/// Returns what the program does about a request.
pub fn answer_request<'a, C: Copy, F: Copy, V: Copy, M: Copy, S: Copy>(
    alloc: Global,
    options: Options<'a, F, V, Infallible, M, S>,
    commands: &'a [Command<'a, C>],
    request: Request,
    width: usize,
) -> Result<Step<'a, C, F, V, M, S>, AllocError>
    requires { can_be_declared (names_of commands.now) ≡ true }
    ensures { IfOk result (λ step.
        RequestTells options.entry commands.now [] request width step) }
{
    Commands::new(options, commands).answer_request(alloc, request, width)
}

/// Returns what the program does about the call of a command that has these commands.
pub fn answer_call<'a, C: Copy, F: Copy, V: Copy, M: Copy, S: Copy>(
    alloc: Global,
    options: Options<'a, F, V, Infallible, M, S>,
    commands: &'a [Command<'a, C>],
    call: Call<F, V, M, S>,
    width: usize,
) -> Result<Step<'a, C, F, V, M, S>, AllocError>
    requires { can_be_declared (names_of commands.now) ≡ true }
    ensures { IfOk result (λ step.
        RequestTells options.entry commands.now call.general.items call.request width step) }
{
    Commands::new(options, commands).answer_call(alloc, call, width)
}

/// Returns what the general options of a call mean, and what the program does about the call of a
/// command that has these options.
pub fn answer_own<
    'a,
    F: Drop,
    V: Drop,
    M: Drop,
    S: Drop,
    G: Copy,
    W: Copy,
    P: Copy,
    N: Copy,
    T: Copy,
>(
    alloc: Global,
    options: &Options<'a, G, W, P, N, T>,
    call: Call<F, V, M, S>,
    width: usize,
) -> Result<
    (
        Vec<Parsed<F, V, Infallible, M, S>>,
        Answer<'a, G, W, P, N, T>,
    ),
    AllocError,
>
    ensures { IfOk result (λ found. (found.0 ≡ call.general)
        × IsRequestAnswer options.now call.request width found.1) }
{
    call.answer(alloc, options, width)
}

//! Callers that exist for the prover. Their clauses are proved from the clauses of the public calls
//! alone. They state in plain data what lines of three commands mean, what can complete a word, what
//! the help shows, and which names cannot be declared.
ghost use Rattle.std.specs.Prelude.{◌≡◌, ◌∷◌, ◌++◌, [], ℕ, IfOk, List, MatchOption, None, codes};
ghost use Rattle.std.specs.Prelude.{string_bytes, true};
ghost use Rattle.lexopt_options_spec.specs.Asking.{first_asked};
ghost use Rattle.lexopt_options_spec.specs.Rest.{HaveNoRest, IsSplit, MeansBefore, surplus};
ghost use Rattle.lexopt_options_spec.specs.Legal as legal;
ghost use Rattle.lexopt_options.specs.Declarations.{declaration_of, options_of};
ghost use Rattle.lexopt_commands.specs.declared.command.Reason.TheVariants as reason;
ghost use Rattle.test_command_callers.specs.declared.commands.Task.TheVariants as task;
ghost use Rattle.test_command_callers.specs.Tasks.{AreOffered, IsAsking, IsMissing, IsTask, IsTaskAsked};
ghost use Rattle.test_command_callers.specs.Tasks.{IsTaskHelp, IsUnknown, IsWritten, begun, task_lines};
ghost use Rattle.std.specs.List.{flat_map};

use lexopt_commands::{Command, CommandLine, Commands, Reason, Runs, Step};
use lexopt_options::{Detail, Options, OsString, Request};
use std::alloc::{AllocError, Global};
use std::convert::Infallible;

/// What the commands do.
#[derive(Clone, Copy)]
pub enum Task {
    /// `add`.
    Add,
    /// `remote`.
    Remote,
}

static TASKS: [Command<'static, Task>; 3] = [
    Command {
        name: "add",
        help: "add files",
        runs: Runs::Command(Task::Add),
    },
    Command {
        name: "remote",
        help: "add or remove a remote",
        runs: Runs::Command(Task::Remote),
    },
    Command {
        name: "help",
        help: "print the help of a command",
        runs: Runs::Help,
    },
];

/// Reads a line of these commands under any general options.
pub fn read_tasks<'a, F: Copy, V: Copy, M: Copy, S: Copy>(
    alloc: Global,
    options: Options<'a, F, V, Infallible, M, S>,
    words: Vec<OsString>,
) -> Result<CommandLine<'a, Task, F, V, M, S>, AllocError>
    ensures command { (l : List legal.Parsed) (rest : List (List ℕ))
        → first_asked (declaration_of options.entry).options l ≡ None
        → MeansBefore surplus (declaration_of options.entry) words.items l (codes "remote" ∷ rest)
        → IfOk result (λ line. IsTask (options_of options.entry) l (codes "remote")
        task.Remote rest line) }
    ensures help_of_a_command { (l : List legal.Parsed)
        → first_asked (declaration_of options.entry).options l ≡ None
        → MeansBefore surplus (declaration_of options.entry) words.items l
        (codes "help" ∷ codes "remote" ∷ codes "add" ∷ [])
        → IfOk result (λ line. IsTask (options_of options.entry) l (codes "remote") task.Remote
        (codes "add" ∷ codes "--help" ∷ []) line) }
    ensures help_before_a_dash { (l : List legal.Parsed) (word : List ℕ) (rest : List (List ℕ))
        → first_asked (declaration_of options.entry).options l ≡ None
        → MeansBefore surplus (declaration_of options.entry) words.items l
        (codes "help" ∷ codes "remote" ∷ (codes "-" ++ word) ∷ rest)
        → IfOk result (λ line. IsTask (options_of options.entry) l (codes "remote") task.Remote
        (codes "--help" ∷ (codes "-" ++ word) ∷ rest) line) }
    ensures help_before_a_separator { (l : List legal.Parsed)
        → first_asked (declaration_of options.entry).options l ≡ None
        → MeansBefore surplus (declaration_of options.entry) words.items l
        (codes "help" ∷ codes "remote" ∷ codes "add" ∷ codes "--" ∷ codes "-x" ∷ [])
        → IfOk result (λ line. IsTask (options_of options.entry) l (codes "remote") task.Remote
        (codes "add" ∷ codes "--help" ∷ codes "--" ∷ codes "-x" ∷ []) line) }
    ensures help { (l : List legal.Parsed)
        → first_asked (declaration_of options.entry).options l ≡ None
        → MeansBefore surplus (declaration_of options.entry) words.items l (codes "help" ∷ [])
        → IfOk result (λ line. IsAsking line) }
    ensures missing { (l : List legal.Parsed)
        → first_asked (declaration_of options.entry).options l ≡ None
        → MeansBefore surplus (declaration_of options.entry) words.items l []
        → IfOk result (λ line. IsMissing (options_of options.entry) l line) }
    ensures unknown { (l : List legal.Parsed) (rest : List (List ℕ))
        → first_asked (declaration_of options.entry).options l ≡ None
        → MeansBefore surplus (declaration_of options.entry) words.items l
        ((codes "remot" ++ 0xFF ∷ []) ∷ rest)
        → IfOk result (λ line. IsUnknown (options_of options.entry) l (codes "remot" ++ 0xFF ∷ [])
        (codes "remot" ++ 0xEF ∷ 0xBF ∷ 0xBD ∷ []) rest line) }
{
    Commands::new(options, &TASKS).read(alloc, words)
}

/// What these commands do to complete this typed word after these words, under any general options.
pub fn complete_tasks<'a, F: Copy, V: Copy, M: Copy, S: Copy>(
    alloc: Global,
    options: Options<'a, F, V, Infallible, M, S>,
    words: Vec<OsString>,
    typed: OsString,
) -> Result<Step<'a, Task, F, V, M, S>, AllocError>
    ensures command { (front rest : List (List ℕ))
        → IsSplit surplus (declaration_of options.entry) words.items front (codes "remote") rest
        → IfOk result (λ step. IsTaskAsked task.Remote
        ((declaration_of options.entry).program ++ codes " remote") rest typed step) }
    ensures help_of_a_command { (front rest : List (List ℕ))
        → IsSplit surplus (declaration_of options.entry) words.items front (codes "help")
        (codes "remote" ∷ rest)
        → IfOk result (λ step. IsTaskAsked task.Remote
        ((declaration_of options.entry).program ++ codes " remote") rest typed step) }
    ensures help { (front : List (List ℕ))
        → IsSplit surplus (declaration_of options.entry) words.items front (codes "help") []
        → IfOk result (λ step. IsWritten (flat_map (begun typed) task_lines) step) }
    ensures unknown { (front rest : List (List ℕ))
        → IsSplit surplus (declaration_of options.entry) words.items front (codes "remo") rest
        → IfOk result (λ step. IsWritten [] step) }
    ensures options { HaveNoRest surplus (declaration_of options.entry) words.items
        → IfOk result (λ step. AreOffered options.entry words.items typed step) }
{
    Commands::new(options, &TASKS).answer_request(alloc, Request::Completion(words, typed), 80)
}

/// The help of these commands under any general options.
pub fn help_of_tasks<F, V, M, S>(
    alloc: Global,
    options: Options<'_, F, V, Infallible, M, S>,
    width: usize,
) -> Result<String, AllocError>
    ensures { IfOk result (λ text.
        IsTaskHelp (declaration_of options.entry) width (string_bytes text)) }
{
    Commands::new(options, &TASKS).help(alloc, Detail::Full, width)
}

static BLANK: [Command<'static, Task>; 2] = [
    Command {
        name: "add",
        help: "",
        runs: Runs::Command(Task::Add),
    },
    Command {
        name: "add more",
        help: "",
        runs: Runs::Help,
    },
];

/// Tries to declare a name with a blank in it: returns the name that cannot be declared, and why.
pub fn blank_in_name<'a, F, V, M, S>(
    options: Options<'a, F, V, Infallible, M, S>,
) -> Option<(&'a str, Reason)>
    ensures { MatchOption result ⊥ (λ fault.
        (fault.0.now ≡ codes "add more") × (fault.1 ≡ reason.BlankOrControlInName)) }
{
    match Commands::try_new(options, &BLANK) {
        Ok(_) => None,
        Err(error) => Some((error.name, error.reason)),
    }
}

/// Tries to declare the commands above: returns whether they can be declared.
pub fn can_be_declared<F, V, M, S>(options: Options<'_, F, V, Infallible, M, S>) -> bool
    ensures { result ≡ true }
{
    match Commands::try_new(options, &TASKS) {
        Ok(_) => true,
        Err(_) => false,
    }
}

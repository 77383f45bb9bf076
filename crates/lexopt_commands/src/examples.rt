//! Worked examples of the definitions, which the prover computes.
ghost use Rattle.std.specs.Prelude.{◌≡◌, ◌∷◌, [], ℕ, List, None, Some, codes, true};
ghost use Rattle.lexopt_commands.specs.declared.command.Command as one;
ghost use Rattle.lexopt_commands.specs.declared.command.Reason.TheVariants as reason;
ghost use Rattle.lexopt_commands.specs.declared.command.Runs.TheVariants as runs;
ghost use Rattle.lexopt_commands.specs.Meanings.{command, command_of, help, meaning, missing};
ghost use Rattle.lexopt_commands.specs.Meanings.{unknown, with_help};
ghost use Rattle.lexopt_commands.specs.Names.{can_be_declared, first_fault};

use crate::command::Command;

/// Lists of names that can be declared together.
pub fn names_are_declared()
    ensures none { can_be_declared [] ≡ true }
    ensures two { can_be_declared (codes "add" ∷ codes "remove" ∷ []) ≡ true }
    ensures front { can_be_declared (codes "add" ∷ codes "ad" ∷ codes "added" ∷ []) ≡ true }
    ensures signs { can_be_declared (codes "a-b" ∷ codes "a=b" ∷ codes "+" ∷ []) ≡ true }
    ensures accent { can_be_declared ((0xC3 ∷ 0xA9 ∷ []) ∷ []) ≡ true }
{}

/// Lists of names that cannot be declared: the first name at fault, and the reason.
pub fn names_are_refused()
    ensures empty { first_fault [] ([] ∷ []) ≡ Some ([], reason.EmptyName) }
    ensures dash { first_fault [] (codes "add" ∷ codes "-a" ∷ [])
        ≡ Some (codes "-a", reason.DashName) }
    ensures replacement { first_fault [] ((0x61 ∷ 0xEF ∷ 0xBF ∷ 0xBD ∷ []) ∷ [])
        ≡ Some (0x61 ∷ 0xEF ∷ 0xBF ∷ 0xBD ∷ [], reason.ReplacementInName) }
    ensures blank { first_fault [] (codes "a b" ∷ codes "add" ∷ [])
        ≡ Some (codes "a b", reason.BlankOrControlInName) }
    ensures control { first_fault [] (codes "a\n" ∷ [])
        ≡ Some (codes "a\n", reason.BlankOrControlInName) }
    ensures delete { first_fault [] ((0x61 ∷ 0x7F ∷ []) ∷ [])
        ≡ Some (0x61 ∷ 0x7F ∷ [], reason.BlankOrControlInName) }
    ensures same { first_fault [] (codes "add" ∷ codes "ad" ∷ codes "add" ∷ [])
        ≡ Some (codes "add", reason.SameName) }
    ensures first_reason { first_fault [] (codes "- " ∷ [] ∷ [])
        ≡ Some (codes "- ", reason.DashName) }
{}

/// What words mean, where the first of them run a command, ask for the help, or are not the names
/// of commands.
pub fn words_mean_so<C>(commands: &[Command<'_, C>])
    ensures nothing { meaning commands.now [] ≡ missing }
    ensures command { (own : one.Command C) (key : C) (word : List ℕ) (rest : List (List ℕ))
        → command_of commands.now word ≡ Some own → own.runs ≡ runs.Command key
        → meaning commands.now (word ∷ rest) ≡ command own.name.now key rest }
    ensures another { (word : List ℕ) (rest : List (List ℕ)) → command_of commands.now word ≡ None
        → meaning commands.now (word ∷ rest) ≡ unknown word rest }
    ensures help_alone { (own : one.Command C) (word : List ℕ)
        → command_of commands.now word ≡ Some own → own.runs ≡ runs.Help
        → meaning commands.now (word ∷ []) ≡ help }
    ensures help_of_a_command { (asks own : one.Command C) (key : C) (first word : List ℕ)
        (rest : List (List ℕ))
        → command_of commands.now first ≡ Some asks → asks.runs ≡ runs.Help
        → command_of commands.now word ≡ Some own → own.runs ≡ runs.Command key
        → meaning commands.now (first ∷ word ∷ rest)
        ≡ command own.name.now key (with_help rest) }
    ensures help_twice { (asks own : one.Command C) (first second : List ℕ) (rest : List (List ℕ))
        → command_of commands.now first ≡ Some asks → asks.runs ≡ runs.Help
        → command_of commands.now second ≡ Some own → own.runs ≡ runs.Help
        → meaning commands.now (first ∷ second ∷ rest) ≡ help }
    ensures help_by_option { (asks : one.Command C) (first : List ℕ) (rest : List (List ℕ))
        → command_of commands.now first ≡ Some asks → asks.runs ≡ runs.Help
        → command_of commands.now (codes "--help") ≡ None
        → meaning commands.now (first ∷ codes "--help" ∷ rest) ≡ help }
    ensures help_of_another { (asks : one.Command C) (first : List ℕ) (rest : List (List ℕ))
        → command_of commands.now first ≡ Some asks → asks.runs ≡ runs.Help
        → command_of commands.now (codes "-h") ≡ None
        → meaning commands.now (first ∷ codes "-h" ∷ rest) ≡ unknown (codes "-h") (with_help rest) }
{}

/// Where the word is that asks a command for its help, among the words after its name: no option
/// and no separator comes before it.
pub fn help_is_asked_before_options()
    ensures no_words { with_help [] ≡ codes "--help" ∷ [] }
    ensures plain { with_help (codes "add" ∷ codes "" ∷ [])
        ≡ codes "add" ∷ codes "" ∷ codes "--help" ∷ [] }
    ensures separator { with_help (codes "add" ∷ codes "--" ∷ [])
        ≡ codes "add" ∷ codes "--help" ∷ codes "--" ∷ [] }
    ensures option { with_help (codes "-m" ∷ codes "add" ∷ [])
        ≡ codes "--help" ∷ codes "-m" ∷ codes "add" ∷ [] }
    ensures one_dash { with_help (codes "a-" ∷ codes "-" ∷ codes "-x" ∷ [])
        ≡ codes "a-" ∷ codes "--help" ∷ codes "-" ∷ codes "-x" ∷ [] }
{}

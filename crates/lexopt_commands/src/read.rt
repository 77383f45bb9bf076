//! Reads a line up to the name of a command, and what that name and the words after it mean. The
//! file of this name in `lexopt_options` reads whole lines.
ghost use Rattle.std.specs.Prelude.{◌≡◌, ◌==◌, ◌∷◌, [], IfOk, None, codes, map, nat_eq, position};
ghost use Rattle.std.specs.List.{starts_with};
ghost use Rattle.std.specs.Option.{MatchOption};
ghost use Rattle.std.specs.Cmp.Lexicographic.{pointwise};
ghost use Rattle.lexopt_commands.specs.Meanings.{command_at, command_of, first_dashed, help_of};
ghost use Rattle.lexopt_commands.specs.Meanings.{helped, meaning, with_help};
ghost use Rattle.lexopt_commands.specs.Mistakes.{IsHint};
ghost use Rattle.lexopt_commands.specs.Names.{names_of};
ghost use Rattle.lexopt_commands.specs.Views.{meaning_view};

use crate::command::{Command, Runs, is_named};
use crate::commands::Commands;
use lexopt_declaration::lookup::help_names_of;
use lexopt_declaration::nearest::hinted_names;
use lexopt_options::{Asked, Line, Mistake, Parsed, Refused, RestStart, read_rest};
use lexopt_words::codepoint::lossy_text;
use lexopt_words::os_string::OsString;
use std::alloc::{AllocError, Global};
use std::convert::Infallible;

/// The result of reading a line of a program with commands.
#[derive(Debug, Drop)]
pub enum CommandLine<'a, C, F, V = Infallible, M = Infallible, S = Infallible> {
    /// The line has a command: what the general options before it mean, after the defaults of those
    /// that it does not have; its name; its key; and the words for it. These are the words after its
    /// name. If a name that asks for the help came before it, `--help` is among them, before the
    /// first that begins with a dash, or after all.
    Command(Vec<Parsed<F, V, Infallible, M, S>>, &'a str, C, Vec<OsString>),
    /// The line asks for the help or the version before any mistake.
    Asked(Asked<'a>),
    /// The line has a mistake.
    Refused(Refused<'a, F, V, Infallible, M, S>),
}

// The word that asks a command for its help.
const HELP: &str = "--help";

// What the words after the general options mean.
#[derive(Drop)]
pub(crate) enum Meaning<'a, C> {
    // Run the command with this name and key, with the words for it.
    Command(&'a str, C, Vec<OsString>),
    // Print the help of the program.
    Help,
    // There is no word.
    Missing,
    // This word has to be the name of a command, and is not. A command of that name would get these
    // words.
    Unknown(OsString, Vec<OsString>),
}

// The index of the first command with this name.
fn place_of<C>(commands: &[Command<'_, C>], name: &[u8]) -> Option<usize>
    ensures { result ≡ position (λ c. pointwise ◌==◌ c.name.now name.now) commands.now }
{
    commands.iter().position(|command| is_named(command, name))
}

// The command at this index.
fn command_at<'a, C: Copy>(
    commands: &[Command<'a, C>],
    index: Option<usize>,
) -> Option<Command<'a, C>>
    ensures { result ≡ command_at commands.now index }
{
    match commands.get(index?) {
        Some(command) => Some(Command {
            name: command.name,
            help: command.help,
            runs: command.runs,
        }),
        None => None,
    }
}

/// The first command with this name; `None` if there is none.
pub(crate) fn command_of<'a, C: Copy>(
    commands: &[Command<'a, C>],
    name: &[u8],
) -> Option<Command<'a, C>>
    ensures { result ≡ command_of commands.now name.now }
{
    command_at(commands, place_of(commands, name))
}

/// Takes the first of these words; `None` if there is none.
pub(crate) fn take_first(words: &mut Vec<OsString>) -> Option<OsString>
    ensures { MatchOption result (words.old.items ≡ [])
        (λ word. words.old.items ≡ word ∷ words.new.items) }
{
    if words.is_empty() {
        None
    } else {
        Some(words.remove(0))
    }
}

// Whether a word begins with a dash.
fn begins_with_dash(word: &OsString) -> bool
    ensures { result ≡ starts_with nat_eq word.now (codes "-") }
{
    word.as_bytes().starts_with(b"-".as_slice())
}

// The index of the first of these words that begins with a dash.
fn first_dashed(words: &[OsString]) -> Option<usize>
    ensures { result ≡ first_dashed words.now }
{
    words.iter().position(|word| begins_with_dash(word))
}

// These words, and the word that asks a command for its help: before the first of them that begins
// with a dash, or after all.
fn with_help(alloc: Global, words: Vec<OsString>) -> Result<Vec<OsString>, AllocError>
    ensures { IfOk result (λ all. all.items ≡ with_help words.items) }
{
    let mut words = words;
    let place = first_dashed(&words).unwrap_or(words.len());
    words.insert(place, OsString::from_text(alloc, HELP)?)?;
    Ok(words)
}

// What these words mean after a name that asks for the help, where the first is not the name of a
// command.
fn help_of_other<'a, C>(
    alloc: Global,
    word: OsString,
    rest: Vec<OsString>,
) -> Result<Meaning<'a, C>, AllocError>
    ensures { IfOk result (λ found. meaning_view found ≡ helped None word rest.items) }
{
    if word.as_bytes() == HELP.as_bytes() {
        Ok(Meaning::Help)
    } else {
        Ok(Meaning::Unknown(word, with_help(alloc, rest)?))
    }
}

// What words mean after a name that asks for the help.
fn help_of<'a, C: Copy>(
    alloc: Global,
    commands: &[Command<'a, C>],
    words: Vec<OsString>,
) -> Result<Meaning<'a, C>, AllocError>
    ensures { IfOk result (λ found. meaning_view found ≡ help_of commands.now words.items) }
{
    let mut words = words;
    let Some(word) = take_first(&mut words) else {
        return Ok(Meaning::Help);
    };
    let Some(command) = command_of(commands, word.as_bytes()) else {
        return help_of_other(alloc, word, words);
    };
    match command.runs {
        Runs::Command(key) => Ok(Meaning::Command(command.name, key, with_help(alloc, words)?)),
        Runs::Help => Ok(Meaning::Help),
    }
}

// What the words after the general options mean.
fn meaning_of<'a, C: Copy>(
    alloc: Global,
    commands: &[Command<'a, C>],
    words: Vec<OsString>,
) -> Result<Meaning<'a, C>, AllocError>
    ensures { IfOk result (λ found. meaning_view found ≡ meaning commands.now words.items) }
{
    let mut words = words;
    let Some(word) = take_first(&mut words) else {
        return Ok(Meaning::Missing);
    };
    let Some(command) = command_of(commands, word.as_bytes()) else {
        return Ok(Meaning::Unknown(word, words));
    };
    match command.runs {
        Runs::Command(key) => Ok(Meaning::Command(command.name, key, words)),
        Runs::Help => help_of(alloc, commands, words),
    }
}

// The names of these commands.
fn names_of<'a, C>(alloc: Global, commands: &[Command<'a, C>]) -> Result<Vec<&'a str>, AllocError>
    ensures { IfOk result (λ names. map (λ name. name.now) names.items ≡ names_of commands.now) }
{
    let mut names = Vec::new(alloc);
    for command in commands {
        names.push(command.name)?;
    }
    Ok(names)
}

// The names of commands that may have been meant by this word.
fn hints_for<'a, C>(
    alloc: Global,
    commands: &[Command<'a, C>],
    word: &OsString,
) -> Result<Vec<&'a str>, AllocError>
    ensures { IfOk result (λ hints.
        IsHint commands.now word.now (map (λ hint. hint.now) hints.items)) }
{
    let names = names_of(alloc, commands)?;
    let typed = lossy_text(alloc, word.as_bytes())?;
    hinted_names(alloc, &names, typed.as_str())
}

impl<'a, C, F, V, M, S> Commands<'a, C, F, V, M, S> {
    ghost use Rattle.std.specs.Prelude.{◌≡◌};
    ghost use Rattle.lexopt_declaration.specs.Lookups.{help_names};
    ghost use Rattle.lexopt_options.specs.Declarations.{declaration_of, options_of};

    // Refuses a line for this mistake, after these general options.
    fn refuse(
        &self,
        before: Vec<Parsed<F, V, Infallible, M, S>>,
        mistake: Mistake<'a>,
    ) -> Refused<'a, F, V, Infallible, M, S>
        ensures program { result.program.now ≡ (declaration_of self.now.options).program }
        ensures help { result.help ≡ help_names (options_of self.now.options) }
        ensures before { result.before ≡ before }
        ensures mistake { result.mistake ≡ mistake.entry }
    {
        let options = self.options();
        Refused {
            program: options.program(),
            help: help_names_of(options.options()),
            before,
            mistake,
        }
    }
}

impl<'a, C: Copy, F: Copy, V: Copy, M: Copy, S: Copy> Commands<'a, C, F, V, M, S> {
    ghost use Rattle.std.specs.Prelude.{◌≡◌, ◌∷◌, ℕ, IfOk, List, None, Some, slice_get};
    ghost use Rattle.lexopt_options_spec.specs.Asking.{first_asked};
    ghost use Rattle.lexopt_options_spec.specs.Rest.{MeansBefore, surplus};
    ghost use Rattle.lexopt_options_spec.specs.Legal as legal;
    ghost use Rattle.lexopt_options.specs.Declarations.{declaration_of};
    ghost use Rattle.lexopt_commands.specs.declared.command.Command as one;
    ghost use Rattle.lexopt_commands.specs.declared.command.Runs.TheVariants as runs;
    ghost use Rattle.lexopt_commands.specs.Lines.{IsCommandLine, IsLineAfter, IsLineOf, IsLineRead};

    // What a line means by its general options, `parsed`, and the words after them.
    fn end(
        &self,
        alloc: Global,
        parsed: Vec<Parsed<F, V, Infallible, M, S>>,
        words: Vec<OsString>,
    ) -> Result<CommandLine<'a, C, F, V, M, S>, AllocError>
        ensures { IfOk result (λ line. IsLineAfter self.now parsed.items words.items line) }
    {
        match meaning_of(alloc, self.commands(), words)? {
            Meaning::Command(name, key, own) => Ok(CommandLine::Command(parsed, name, key, own)),
            Meaning::Help => Ok(CommandLine::Asked(Asked::Help)),
            Meaning::Missing => {
                let mistake = Mistake::MissingCommand(names_of(alloc, self.commands())?);
                Ok(CommandLine::Refused(self.refuse(parsed, mistake)))
            }
            Meaning::Unknown(word, rest) => {
                let hints = hints_for(alloc, self.commands(), &word)?;
                let mistake = Mistake::UnknownCommand { word, rest, hints };
                Ok(CommandLine::Refused(self.refuse(parsed, mistake)))
            }
        }
    }

    /// Reads a line up to the name of a command.
    ///
    /// The words are without the name of the program. This call consumes them. The general options
    /// come first. The word after them is the name of a command. All other words are for that
    /// command, and are not read.
    ///
    /// After a name that asks for the help ([`Runs::Help`]), such as `help`, the next word is the
    /// name of a command: `help add` means `add --help`, and `help remote add` means
    /// `remote add --help`. So that a command prints its help for these, its declaration has an
    /// option for the help with the long name `help`. `help` alone, and `help --help`, ask for the
    /// help of the program.
    ///
    /// # Errors
    ///
    /// Returns `AllocError` if an allocation fails. A mistake is [`CommandLine::Refused`].
    ///
    /// # Examples
    ///
    /// With the declarations of [`declare_commands!`](crate::declare_commands):
    ///
    /// ```rust
    /// let mut words = Vec::new(alloc);
    /// for word in ["-C", "dir", "add", "-f", "x"] {
    ///     words.push(OsString::from_text(alloc, word)?)?;
    /// }
    /// match commands.read(alloc, words)? {
    ///     CommandLine::Command(general, name, task, own) => {
    ///         // `general` is Value((), "dir"), `name` is "add", `task` is Task::Add, and `own` is
    ///         // `-f`, `x`.
    ///     }
    ///     CommandLine::Asked(Asked::Help) => rt.print(commands.help(alloc, Detail::Full, columns(rt))?)?,
    ///     CommandLine::Asked(Asked::Version(version)) => rt.println(version)?,
    ///     CommandLine::Refused(refused) => rt.eprintln(refused)?,
    /// }
    /// ```
    pub fn read(
        &self,
        alloc: Global,
        words: Vec<OsString>,
    ) -> Result<CommandLine<'a, C, F, V, M, S>, AllocError>
        // The words are general options that ask for nothing, and words that mean this command. Or
        // the options ask for the help or the version before any mistake; or they ask for nothing,
        // and the words after them ask for the help. Or this is the first mistake: of the options,
        // or of the words after them.
        ensures line { IfOk result (λ line. IsLineRead self.now words.items line) }

        // If the words are general options and a rest, this is what those mean.
        ensures answered { (l : List legal.Parsed) (rest : List (List ℕ))
            → MeansBefore surplus (declaration_of self.now.options) words.items l rest
            → IfOk result (λ line. IsLineOf self.now l rest line) }

        // If the words are general options that ask for nothing, the name of a command and words
        // for it, this is that command.
        ensures named { (i : ℕ) (own : one.Command C) (key : C) (l : List legal.Parsed)
            (rest : List (List ℕ)) → slice_get self.now.commands.now i ≡ Some own
            → own.runs ≡ runs.Command key
            → MeansBefore surplus (declaration_of self.now.options) words.items l (own.name.now ∷ rest)
            → first_asked (declaration_of self.now.options).options l ≡ None
            → IfOk result (λ line. IsCommandLine self.now l own.name.now key rest line) }
    {
        let (line, rest) = read_rest(alloc, &self.options(), RestStart::Surplus, words)?;
        match line {
            Line::Parsed(parsed) => self.end(alloc, parsed, rest),
            Line::Asked(asked) => Ok(CommandLine::Asked(asked)),
            Line::Refused(refused) => Ok(CommandLine::Refused(refused)),
        }
    }
}

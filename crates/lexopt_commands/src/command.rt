//! What a program declares of its commands, and which names can be declared.
ghost use Rattle.std.specs.Prelude.{◌≡◌, ◌==◌, [], None, option_map};
ghost use Rattle.std.specs.List.{list_any};
ghost use Rattle.std.specs.Cmp.Lexicographic.{pointwise};
ghost use Rattle.lexopt_options_spec.specs.Declaration as spec;
ghost use Rattle.lexopt_options_spec.specs.Declarable.{has_replacement};
ghost use Rattle.lexopt_commands.specs.Names.{fault, first_fault, name_fault, names_of};

use lexopt_declaration::message::Escaped;
use std::alloc::AllocError;
use std::fmt;

/// What the name of a command does.
#[derive(Debug, PartialEq, Eq)]
pub enum Runs<C> {
    /// Runs a command: the program's own key for it.
    Command(C),
    /// Asks for the help of the program, or of the command whose name is the next word.
    Help,
}

impl<C: Copy> Clone for Runs<C> {
    ghost use Rattle.std.specs.Prelude.{◌≡◌, ⊤};

    ghost is_clone = { λ own copy. copy ≡ own };

    ghost is_infallible = { λ _. ⊤ };

    fn clone(&self) -> Result<Self, AllocError> {
        Ok(match self {
            Runs::Command(key) => Runs::Command(*key),
            Runs::Help => Runs::Help,
        })
    }
}

impl<C: Copy> Copy for Runs<C> {}

/// A declared command.
#[derive(Debug)]
pub struct Command<'a, C> {
    /// Its name.
    pub name: &'a str,
    /// Its help text. The help wraps it at spaces, of which several count as one. Shells show it as
    /// it is, with a space for each control character of ASCII.
    pub help: &'a str,
    /// What its name does.
    pub runs: Runs<C>,
}

impl<C: Copy> Clone for Command<'_, C> {
    ghost use Rattle.std.specs.Prelude.{◌≡◌, ⊤};

    ghost is_clone = { λ own copy. copy ≡ own };

    ghost is_infallible = { λ _. ⊤ };

    fn clone(&self) -> Result<Self, AllocError> {
        Ok(Command {
            name: self.name,
            help: self.help,
            runs: self.runs.clone()?,
        })
    }
}

impl<C: Copy> Copy for Command<'_, C> {}

/// Why a name cannot be declared. `Display` writes it, such as `its name is empty`. The `Reason` of
/// `lexopt_options` is about options.
#[derive(Debug, Clone, Copy, PartialEq, Eq)]
pub enum Reason {
    /// It is empty.
    EmptyName,
    /// It begins with `-`, as an option and the separator do.
    DashName,
    /// It has U+FFFD in it, which represents damage in what was typed.
    ReplacementInName,
    /// It has a blank or a control character of ASCII in it. A shell separates words at blanks, and
    /// a terminal acts on control characters.
    BlankOrControlInName,
    /// A command before it has the same name.
    SameName,
}

/// A command that cannot be declared. `Display` and `Debug` write it on one line:
///
/// ```text
/// command '-a': its name begins with '-'
/// ```
#[derive(Clone, Copy, PartialEq, Eq)]
pub struct CommandError<'a> {
    /// Its name.
    pub name: &'a str,
    /// Why it cannot be declared.
    pub reason: Reason,
}

impl fmt::Display for Reason {
    ghost use Rattle.std.specs.Prelude.{Some};
    ghost use Rattle.lexopt_commands.specs.Messages.{reason_text};

    ghost output = { λ reason. Some (reason_text reason) };

    fn fmt<W: fmt::Write>(&self, f: &mut fmt::Formatter<W>) -> fmt::Result {
        match self {
            Reason::EmptyName => f.write_str("its name is empty"),
            Reason::DashName => f.write_str("its name begins with '-'"),
            Reason::ReplacementInName => f.write_str("its name has U+FFFD in it"),
            Reason::BlankOrControlInName => {
                f.write_str("its name has a blank or a control character in it")
            }
            Reason::SameName => f.write_str("a command before it has its name"),
        }
    }
}

impl fmt::Display for CommandError<'_> {
    ghost use Rattle.std.specs.Prelude.{Some};
    ghost use Rattle.lexopt_commands.specs.Messages.{command_error_text};

    ghost output = { λ error. Some (command_error_text error) };

    fn fmt<W: fmt::Write>(&self, f: &mut fmt::Formatter<W>) -> fmt::Result {
        let name = Escaped(self.name);
        let reason = self.reason;
        write!(f, "command '{name}': {reason}")
    }
}

impl fmt::Debug for CommandError<'_> {
    ghost use Rattle.std.specs.Prelude.{Some};
    ghost use Rattle.lexopt_commands.specs.Messages.{command_error_text};

    ghost debug_output = { λ error. Some (command_error_text error) };

    fn fmt<W: fmt::Write>(&self, f: &mut fmt::Formatter<W>) -> fmt::Result {
        fmt::Display::fmt(self, f)
    }
}

impl std::error::Error for CommandError<'_> {}

// Whether a name has U+FFFD in it, as UTF-8.
fn has_replacement(name: &[u8]) -> bool
    ensures { result ≡ has_replacement name.now }
{
    match name {
        [0xEF, 0xBF, 0xBD, ..] => true,
        [_, rest @ ..] => has_replacement(rest),
        [] => false,
    }
}

// Whether a byte is a blank or a control character of ASCII.
fn is_blank_or_control(byte: u8) -> bool
    ensures { result ≡ spec.is_blank_or_control byte }
{
    byte < b'!' || byte == 0x7F
}

// Whether a name has a blank or a control character of ASCII in it.
fn has_blank_or_control(name: &[u8]) -> bool
    ensures { result ≡ list_any spec.is_blank_or_control name.now }
{
    name.iter().any(|byte| is_blank_or_control(*byte))
}

// What is wrong with a name, whatever the other names are.
fn name_fault(name: &[u8]) -> Option<Reason>
    ensures { result ≡ name_fault name.now }
{
    let [first, ..] = name else {
        return Some(Reason::EmptyName);
    };
    if *first == b'-' {
        Some(Reason::DashName)
    } else if has_replacement(name) {
        Some(Reason::ReplacementInName)
    } else if has_blank_or_control(name) {
        Some(Reason::BlankOrControlInName)
    } else {
        None
    }
}

/// Whether this is the name of the command.
pub(crate) fn is_named<C>(command: &Command<'_, C>, name: &[u8]) -> bool
    ensures { result ≡ pointwise ◌==◌ command.now.name.now name.now }
{
    command.name.as_bytes() == name
}

// Whether one of these commands has this name.
fn any_is_named<C>(commands: &[Command<'_, C>], name: &[u8]) -> bool
    ensures { result ≡ list_any (λ c. pointwise ◌==◌ c.name.now name.now) commands.now }
{
    commands.iter().any(|command| is_named(command, name))
}

// What is wrong with a name after these commands.
fn fault<C>(before: &[Command<'_, C>], name: &str) -> Option<Reason>
    ensures { result ≡ fault (names_of before.now) name.now }
{
    let bytes = name.as_bytes();
    if let Some(reason) = name_fault(bytes) {
        return Some(reason);
    }
    if any_is_named(before, bytes) {
        return Some(Reason::SameName);
    }
    None
}

/// The first command that cannot be declared after those before it, and why.
pub(crate) fn first_fault<'a, C>(commands: &'a [Command<'a, C>]) -> Option<CommandError<'a>>
    ensures { option_map (λ error. (error.name.now, error.reason)) result
        ≡ first_fault [] (names_of commands.now) }
{
    for (index, command) in commands.iter().enumerate() {
        let name = command.name;
        if let Some(reason) = fault(&commands[..index], name) {
            return Some(CommandError { name, reason });
        }
    }
    None
}

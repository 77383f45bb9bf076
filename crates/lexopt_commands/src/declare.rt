//! `declare_commands!`: commands in a constant, with a line for each. The file of this name in
//! `lexopt_options` declares options.

/// Makes a slice of [`Command`](crate::Command)s, as the value of a constant, a static or a local.
///
/// A line is one of these:
///
/// - `command(key, name, help text)`: a command. The key is the program's own value for it, which
///   [`Step::Command`](crate::Step::Command) returns.
/// - `help(name)`: a name that asks for the help. Its help text is `print the help of a command`.
///
/// The macro does not check the names; [`Commands::new`](crate::Commands::new) does. A name is not
/// empty, does not begin with `-`, has no blank, control character of ASCII or U+FFFD in it, and is
/// not the name of a command before it.
///
/// # Examples
///
/// ```rust
/// use lexopt_commands::{Command, declare_commands};
/// use lexopt_options::{Declaration, Names, declare};
/// use std::convert::Infallible;
///
/// #[derive(Clone, Copy)]
/// enum Task {
///     Add,
///     Remote,
/// }
///
/// static GENERAL: Declaration<'static, Infallible, ()> = declare! {
///     program: "git",
///     options: [
///         value((), Names::Both('C', "directory"), "DIR", "where the files are").directories(),
///         help(Names::Both('h', "help")),
///     ],
/// };
///
/// static COMMANDS: &[Command<'static, Task>] = declare_commands![
///     command(Task::Add, "add", "add files"),
///     command(Task::Remote, "remote", "add or remove a remote"),
///     help("help"),
/// ];
/// ```
///
/// They declare lines such as `-C dir add -f x`, `remote add` and `help add`. What `-f x` means is
/// declared by another declaration, that of the command `add`.
#[macro_export]
macro_rules! declare_commands {
    ($($what:ident $given:tt),* $(,)?) => {
        &[$($crate::declare_commands!(@$what $given)),*]
    };
    (@command($key:expr, $name:expr, $help:expr $(,)?)) => {
        $crate::Command { name: $name, help: $help, runs: $crate::Runs::Command($key) }
    };
    (@help($name:expr $(,)?)) => {
        $crate::Command {
            name: $name,
            help: "print the help of a command",
            runs: $crate::Runs::Help,
        }
    };
}

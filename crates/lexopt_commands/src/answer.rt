//! What a program with commands has to do about its command line or about the request of a shell.
//! The file of this name in `lexopt_options` has the same for a program without commands.
ghost use Rattle.std.specs.Prelude.{◌≡◌, ◌++◌, IfOk, string_bytes};
ghost use Rattle.lexopt_options.specs.Keys.{asked_view};
ghost use Rattle.lexopt_commands.specs.Answers.{IsAskedText};

use crate::call::Call;
use crate::commands::Commands;
use crate::read::CommandLine;
use lexopt_options::{Asked, Detail, Parsed, Refused, Request, columns};
use lexopt_words::os_string::OsString;
use std::alloc::{AllocError, Global};
use std::convert::Infallible;
use std::env::Env;

/// What a program with commands has to do about a line or a request. The types of keys are those of
/// [`Commands`].
#[derive(Debug, Drop)]
pub enum Step<'a, C, F, V = Infallible, M = Infallible, S = Infallible> {
    /// Run the command with this key. The text is its path, such as `git remote add`, which
    /// `Options::with_program` makes the name of the program in the command's options. Then hand
    /// the call on: to [`Call::answer`] with these options, or to [`Commands::answer_call`] if the
    /// command has commands of its own.
    Command(C, String, Call<F, V, M, S>),
    /// Print this to standard output, and exit: the help, the version, or what a shell asked for.
    Text(String),
    /// Print this to standard error, and exit: `Refused::print` returns the status.
    Refused(Refused<'a, F, V, Infallible, M, S>),
}

// These, and then those.
fn joined<T: Drop>(alloc: Global, before: Vec<T>, after: Vec<T>) -> Result<Vec<T>, AllocError>
    ensures { IfOk result (λ all. all.items ≡ before.items ++ after.items) }
{
    if before.is_empty() {
        return Ok(after);
    }
    before.into_iter().chain(after).collect(alloc)
}

impl<C, F, V, M, S> Commands<'_, C, F, V, M, S> {
    ghost use Rattle.std.specs.Prelude.{IfOk, string_bytes};
    ghost use Rattle.lexopt_options.specs.Keys.{asked_view};
    ghost use Rattle.lexopt_commands.specs.Answers.{IsAskedText};

    // The text for this request: the help, or the version and a line feed.
    fn asked_text(
        &self,
        alloc: Global,
        asked: Asked<'_>,
        width: usize,
    ) -> Result<String, AllocError>
        ensures { IfOk result (λ text.
            IsAskedText self.now (asked_view asked.entry) width (string_bytes text)) }
    {
        match asked {
            Asked::Help => self.help(alloc, Detail::Full, width),
            Asked::BriefHelp => self.help(alloc, Detail::Brief, width),
            Asked::Version(version) => format!(in alloc; "{version}\n"),
        }
    }
}

impl<'a, C: Copy, F: Copy, V: Copy, M: Copy, S: Copy> Commands<'a, C, F, V, M, S> {
    ghost use Rattle.std.specs.Prelude.{ℕ, [], IfOk, List, Option};
    ghost use Rattle.lexopt_options.specs.Requests.{IsRequest};
    ghost use Rattle.lexopt_options.specs.declared.request.Request.{Request};
    ghost use Rattle.lexopt_commands.specs.Answers.{IsRequestStep, IsStep};

    // What the program has to do about words after these general options.
    fn answer_after(
        &self,
        alloc: Global,
        before: Vec<Parsed<F, V, Infallible, M, S>>,
        words: Vec<OsString>,
        width: usize,
    ) -> Result<Step<'a, C, F, V, M, S>, AllocError>
        ensures { IfOk result (λ step. IsStep self.now before.items words.items width step) }
    {
        match self.read(alloc, words)? {
            CommandLine::Command(parsed, name, key, own) => {
                let general = joined(alloc, before, parsed)?;
                let request = Request::Line(own);
                let path = self.path_of(alloc, name)?;
                Ok(Step::Command(key, path, Call { general, request }))
            }
            CommandLine::Asked(asked) => Ok(Step::Text(self.asked_text(alloc, asked, width)?)),
            CommandLine::Refused(refused) => Ok(Step::Refused(refused)),
        }
    }

    // What the program has to do about a request after these general options.
    fn answer_request_after(
        &self,
        alloc: Global,
        before: Vec<Parsed<F, V, Infallible, M, S>>,
        request: Request,
        width: usize,
    ) -> Result<Step<'a, C, F, V, M, S>, AllocError>
        ensures { IfOk result (λ step. IsRequestStep self.now before.items request width step) }
    {
        match request {
            Request::Line(words) => self.answer_after(alloc, before, words, width),
            Request::Completion(words, typed) => self.completion_step(alloc, words, typed),
            Request::Script(shell) => Ok(Step::Text(self.options().script(alloc, shell)?)),
            Request::Unknown => Ok(Step::Refused(self.options().unknown_request(alloc)?)),
        }
    }

    /// Reads the words of a command line up to the name of a command, and returns what the program
    /// has to do.
    ///
    /// The words are without the name of the program. This call consumes them. If a general option
    /// that asks for the help or the version occurs before any mistake, the first such option
    /// counts: the result is the help of [`Commands::help`], wrapped to `width` columns, or the
    /// text of the version and a line feed. Words that ask for the help by a name such as `help`
    /// get the same help. Otherwise it is what [`Commands::read`] returns, with the path of the
    /// command, and with a [`Call`] that has the general options and the words for the command.
    ///
    /// # Errors
    ///
    /// Returns `AllocError` if an allocation fails.
    ///
    /// # Examples
    ///
    /// With the declarations of [`declare_commands!`](crate::declare_commands), the words
    /// `-C dir add -f x` are the command `add` with the line `-f x`:
    ///
    /// ```rust
    /// let mut words = Vec::new(alloc);
    /// for word in ["-C", "dir", "add", "-f", "x"] {
    ///     words.push(OsString::from_text(alloc, word)?)?;
    /// }
    /// match commands.answer(alloc, words, columns(rt))? {
    ///     // `path` is "git add", and `_call` has Value((), "dir") and the words `-f`, `x`.
    ///     Step::Command(Task::Add, path, _call) => rt.println(path)?,
    ///     Step::Command(Task::Remote, path, _call) => rt.println(path)?,
    ///     Step::Text(text) => rt.print(text)?,
    ///     Step::Refused(refused) => rt.eprintln(refused)?,
    /// }
    /// ```
    pub fn answer(
        &self,
        alloc: Global,
        words: Vec<OsString>,
        width: usize,
    ) -> Result<Step<'a, C, F, V, M, S>, AllocError>
        ensures { IfOk result (λ step. IsStep self.now [] words.items width step) }
    {
        self.answer_after(alloc, Vec::new(alloc), words, width)
    }

    /// Returns what the program has to do about a request.
    ///
    /// - [`Request::Line`]: what [`Commands::answer`] returns.
    /// - [`Request::Completion`] after general options and the name of a command: ask the command
    ///   what can come, by [`Step::Command`]. One name that asks for the help may come before the
    ///   name of the command. Whether a required option is missing, an option accepts its value, or
    ///   one asks for the help, makes no difference.
    /// - [`Request::Completion`] right after general options: print a line for each command whose
    ///   name begins with what was typed, if a name can come there, and then what
    ///   `Options::completion_text` returns by the general declaration.
    /// - [`Request::Completion`] right after general options and a name that asks for the help:
    ///   print a line for each command whose name begins with what was typed.
    /// - [`Request::Completion`] after general options and any other word, or after a name that
    ///   asks for the help and any other word: print nothing.
    /// - [`Request::Completion`] anywhere else: print what `Options::completion_text` returns by
    ///   the general declaration.
    /// - [`Request::Script`]: print what `Options::script` returns.
    /// - [`Request::Unknown`]: refuse it.
    ///
    /// The line for a command is `+`, the name, a tab, and its help text. This call consumes the
    /// request.
    ///
    /// # Errors
    ///
    /// Returns `AllocError` if an allocation fails.
    ///
    /// # Examples
    ///
    /// ```rust
    /// let words = arguments(rt, alloc)?.into_iter().skip(1).collect(alloc)?;
    /// match commands.answer_request(alloc, Request::new(alloc, None, words), columns(rt))? {
    ///     // The options of the command answer the call.
    ///     Step::Command(_task, _path, _call) => {}
    ///     Step::Text(text) => rt.print(text)?,
    ///     Step::Refused(refused) => rt.eprintln(refused)?,
    /// }
    /// ```
    pub fn answer_request(
        &self,
        alloc: Global,
        request: Request,
        width: usize,
    ) -> Result<Step<'a, C, F, V, M, S>, AllocError>
        ensures { IfOk result (λ step. IsRequestStep self.now [] request width step) }
    {
        self.answer_request_after(alloc, Vec::new(alloc), request, width)
    }

    /// Returns what the program has to do about the call of a command whose own commands are these.
    ///
    /// It is what [`Commands::answer_request`] returns for the words after the command's name, or
    /// for what a shell asks about them. For a line, the general options of `call` come before
    /// those that are read here, so both have the same types of keys. `call` is consumed.
    ///
    /// # Errors
    ///
    /// Returns `AllocError` if an allocation fails.
    ///
    /// # Examples
    ///
    /// The command `remote` has commands of its own:
    ///
    /// ```rust
    /// use std::convert::Infallible;
    /// use std::io;
    ///
    /// static REMOTE: Declaration<'static, Infallible, ()> = declare! {
    ///     program: "remote",
    ///     options: [help(Names::Both('h', "help"))],
    /// };
    ///
    /// static REMOTE_COMMANDS: &[Command<'static, ()>] =
    ///     declare_commands![command((), "add", "add a remote")];
    ///
    /// static REMOTE_ADD: Declaration<'static, Infallible, Infallible, ()> = declare! {
    ///     program: "add",
    ///     options: [help(Names::Both('h', "help"))],
    ///     positionals: [once((), "NAME"), once((), "URL")],
    /// };
    ///
    /// fn remote(rt: &HostRuntime, path: &str, call: Call<Infallible, ()>) -> io::Result<()> {
    ///     let commands = Commands::new(Options::new(&REMOTE).with_program(path), REMOTE_COMMANDS);
    ///     match commands.answer_call(rt.alloc(), call, columns(rt))? {
    ///         // `path` is "git remote add".
    ///         Step::Command((), path, call) => remote_add(rt, &path, call),
    ///         Step::Text(text) => rt.print(text),
    ///         Step::Refused(refused) => rt.eprintln(refused),
    ///     }
    /// }
    ///
    /// fn remote_add(rt: &HostRuntime, path: &str, call: Call<Infallible, ()>) -> io::Result<()> {
    ///     let options = Options::new(&REMOTE_ADD).with_program(path);
    ///     let (_general, answer) = call.answer(rt.alloc(), &options, columns(rt))?;
    ///     match answer {
    ///         Answer::Parsed(line) => println!(rt; "{} words", line.len()),
    ///         Answer::Text(text) => rt.print(text),
    ///         Answer::Refused(refused) => rt.eprintln(refused),
    ///     }
    /// }
    /// ```
    pub fn answer_call(
        &self,
        alloc: Global,
        call: Call<F, V, M, S>,
        width: usize,
    ) -> Result<Step<'a, C, F, V, M, S>, AllocError>
        ensures { IfOk result (λ step.
            IsRequestStep self.now call.general.items call.request width step) }
    {
        self.answer_request_after(alloc, call.general, call.request, width)
    }

    /// Reads the program's own command line, or the request of a shell in the environment, and
    /// returns what the program has to do.
    ///
    /// The first word is taken for the name that the program was called by, and is not read. The
    /// width of the help is [`columns`](crate::columns). Shells ask by the environment variable for
    /// the program of the general declaration, as `Options::from_env` describes.
    ///
    /// The clause is about some words, some value and some width. No clause can state that they are
    /// those of the environment.
    ///
    /// # Errors
    ///
    /// Returns `AllocError` if an allocation fails.
    ///
    /// # Examples
    ///
    /// ```rust
    /// use std::io;
    ///
    /// fn run(rt: &HostRuntime) -> io::Result<()> {
    ///     match Commands::new(Options::new(&GENERAL), COMMANDS).from_env(rt)? {
    ///         // The options of the command answer the call, as `Call::answer` shows.
    ///         Step::Command(_task, _path, _call) => Ok(()),
    ///         Step::Text(text) => rt.print(text),
    ///         Step::Refused(refused) => rt.eprintln(refused),
    ///     }
    /// }
    /// ```
    pub fn from_env<R: Env + AllocGlobal>(
        &self,
        rt: &R,
    ) -> Result<Step<'a, C, F, V, M, S>, AllocError>
        ensures { IfOk result (λ step. (value : Option (List ℕ)) × (words : List (List ℕ))
            × (request : Request) × (width : ℕ) × IsRequest value words request
            × IsRequestStep self.now [] request width step) }
    {
        let alloc = rt.alloc();
        let request = Request::from_env(rt, alloc, self.options().program())?;
        self.answer_request(alloc, request, columns(rt))
    }
}

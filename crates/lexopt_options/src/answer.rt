//! What a program has to do about its command line or about the request of a shell: do its own
//! work, print a text, or refuse the line.
ghost use Rattle.std.specs.Prelude.{◌≡◌, ◌++◌, IfOk, OnOk, string_bytes};
ghost use Rattle.std.specs.List.{flat_map, list_any};
ghost use Rattle.lexopt_declaration.specs.Models.{spelling_view};
ghost use Rattle.lexopt_options.specs.Answers.{IsWidth, completion_text, joined_line};
ghost use Rattle.lexopt_options.specs.Answers.{are_at, are_directories, are_files, arguments_line};
ghost use Rattle.lexopt_options.specs.Answers.{listed_line, names_line, spelling_line};
ghost use Rattle.lexopt_options.specs.Answers.{spelling_lines, value_line, word_line};

use crate::complete::{Completion, Joined, Role};
use crate::front::Front;
use crate::mistake::Mistake;
use crate::options::Options;
use crate::parsed::{Asked, Parsed};
use crate::refused::{Line, Refused};
use crate::request::Request;
use lexopt_declaration::declaration::{Positional, Words};
use lexopt_declaration::help::{Detail, WIDTH};
use lexopt_declaration::message::push_help;
use lexopt_declaration::shell::{Script, Shell, variable};
use lexopt_declaration::spellings::Spelling;
use lexopt_words::os_string::OsString;
use std::alloc::{AllocError, Global};
use std::convert::Infallible;
use std::env::Env;
use std::str;

/// What a program has to do about a line or a request. The types of keys are those of
/// [`Declaration`](crate::Declaration).
#[derive(Debug, Drop)]
pub enum Answer<'a, F, V = Infallible, P = Infallible, M = Infallible, S = Infallible> {
    /// Do the program's own work. This is what the line means, in order.
    Parsed(Vec<Parsed<F, V, P, M, S>>),
    /// Print this to standard output, and exit: the help, the version, or what a shell asked for.
    Text(String),
    /// Print this to standard error, and exit: [`Refused::print`] returns the status.
    Refused(Refused<'a, F, V, P, M, S>),
}

// The line that tells a shell which names complete a value of an option: of files, of directories,
// or none.
fn names_line(words: Words<'_>) -> &'static str
    ensures { result.now ≡ names_line words.entry }
{
    match words {
        Words::Files => "files\n",
        Words::Directories => "directories\n",
        Words::Text | Words::Listed(_) => "",
    }
}

// Whether the words of the positional at this index are completed by the names of files.
fn is_of_files<P>(positionals: &[Positional<'_, P>], index: usize) -> bool
    ensures { result ≡ are_at are_files positionals.now index }
{
    match positionals.get(index) {
        Some(positional) => matches!(positional.words, Words::Files),
        None => false,
    }
}

// Whether the words of the positional at this index are completed by the names of directories.
fn is_of_directories<P>(positionals: &[Positional<'_, P>], index: usize) -> bool
    ensures { result ≡ are_at are_directories positionals.now index }
{
    match positionals.get(index) {
        Some(positional) => matches!(positional.words, Words::Directories),
        None => false,
    }
}

// Whether the words of a positional at one of these indices are completed by the names of files.
fn any_of_files<P>(positionals: &[Positional<'_, P>], arguments: &[usize]) -> bool
    ensures { result ≡ list_any (λ i. are_at are_files positionals.now i) arguments.now }
{
    arguments
        .iter()
        .any(|index| is_of_files(positionals, *index))
}

// Whether the words of a positional at one of these indices are completed by the names of
// directories.
fn any_of_directories<P>(positionals: &[Positional<'_, P>], arguments: &[usize]) -> bool
    ensures { result ≡ list_any (λ i. are_at are_directories positionals.now i) arguments.now }
{
    arguments
        .iter()
        .any(|index| is_of_directories(positionals, *index))
}

// The line that tells a shell which names complete a word that can belong to the positionals at
// these indices.
fn arguments_line<P>(positionals: &[Positional<'_, P>], arguments: &[usize]) -> &'static str
    ensures { result.now ≡ arguments_line positionals.now arguments.now }
{
    if any_of_files(positionals, arguments) {
        "files\n"
    } else if any_of_directories(positionals, arguments) {
        "directories\n"
    } else {
        ""
    }
}

// The line that tells a shell which names complete a word that is not an option.
fn word_line<F, V, P, M, S>(
    positionals: &[Positional<'_, P>],
    word: &Option<Role<'_, F, V, M, S>>,
    arguments: &[usize],
) -> &'static str
    ensures { result.now ≡ word_line positionals.now word.now arguments.now }
{
    match word {
        Some(Role::Value(option)) => names_line(option.words),
        Some(Role::Argument) => arguments_line(positionals, arguments),
        None => "",
    }
}

// Adds a line for a spelling: the spelling, a tab, and the help text of its option.
fn push_spelling(text: &mut String, spelling: &Spelling<'_>) -> Result<(), AllocError>
    ensures { OnOk result (string_bytes text.new
        ≡ string_bytes text.old ++ spelling_line (spelling_view spelling.now)) }
{
    text.push_str(spelling.text.as_str())?;
    text.push('\t')?;
    push_help(text, spelling.help)?;
    text.push('\n')
}

// Adds a line for each of these spellings.
fn push_spellings(text: &mut String, spellings: &[Spelling<'_>]) -> Result<(), AllocError>
    ensures { OnOk result (string_bytes text.new
        ≡ string_bytes text.old ++ flat_map (λ s. spelling_line (spelling_view s)) spellings.now) }
{
    for spelling in spellings {
        push_spelling(text, spelling)?;
    }
    Ok(())
}

// Adds a line for each of these spellings, unless nothing was typed.
fn push_typed(
    text: &mut String,
    typed: &OsString,
    spellings: &[Spelling<'_>],
) -> Result<(), AllocError>
    ensures { OnOk result (string_bytes text.new
        ≡ string_bytes text.old ++ spelling_lines typed.now spellings.now) }
{
    if typed.as_bytes().is_empty() {
        return Ok(());
    }
    push_spellings(text, spellings)
}

// Adds the line that tells a shell which names complete a value, and what comes before the value in
// its word.
fn push_names(text: &mut String, words: Words<'_>, before: &str) -> Result<(), AllocError>
    ensures { OnOk result (string_bytes text.new
        ≡ string_bytes text.old ++ value_line words.entry before.now) }
{
    match words {
        Words::Files => text.push_str("files\t")?,
        Words::Directories => text.push_str("directories\t")?,
        Words::Text | Words::Listed(_) => return Ok(()),
    }
    text.push_str(before)?;
    text.push('\n')
}

// Adds the line for the option whose value is typed in the word, if there is one.
fn push_joined<F, V, M, S>(
    text: &mut String,
    joined: &Option<Joined<'_, F, V, M, S>>,
) -> Result<(), AllocError>
    ensures { OnOk result (string_bytes text.new ≡ string_bytes text.old ++ joined_line joined.now) }
{
    match joined {
        Some(joined) => push_names(text, joined.option.words, joined.before.as_str()),
        None => Ok(()),
    }
}

// Adds a line for a value in a list, after `+` unless it begins with a dash.
fn push_value(text: &mut String, value: &str) -> Result<(), AllocError>
    ensures { OnOk result
        (string_bytes text.new ≡ string_bytes text.old ++ listed_line value.now) }
{
    if value.as_bytes().first() != Some(&b'-') {
        text.push('+')?;
    }
    text.push_str(value)?;
    text.push('\n')
}

// Adds a line for each of these values.
fn push_values(text: &mut String, values: &[String]) -> Result<(), AllocError>
    ensures { OnOk result (string_bytes text.new
        ≡ string_bytes text.old ++ flat_map (λ s. listed_line (string_bytes s)) values.now) }
{
    for value in values {
        push_value(text, value.as_str())?;
    }
    Ok(())
}

// What is offered, in the form that the scripts for shells read.
fn text_of<F, V, P, M, S>(
    alloc: Global,
    positionals: &[Positional<'_, P>],
    typed: &OsString,
    completion: &Completion<'_, F, V, M, S>,
) -> Result<String, AllocError>
    ensures { IfOk result (λ text.
        string_bytes text ≡ completion_text positionals.now typed.now completion.now) }
{
    let mut text = String::new(alloc);
    push_typed(&mut text, typed, &completion.spellings)?;
    push_values(&mut text, &completion.values)?;
    text.push_str(word_line(positionals, &completion.word, &completion.arguments))?;
    push_joined(&mut text, &completion.joined)?;
    Ok(text)
}

// The width that a text denotes: its number, if it is a decimal number that fits and is not 0;
// otherwise 80.
fn width_of(text: &[u8]) -> usize
    ensures { IsWidth text.now result }
{
    match str::from_utf8(text) {
        Ok(text) => match text.parse::<usize>() {
            Ok(0) | Err(_) => WIDTH,
            Ok(width) => width,
        },
        Err(_) => WIDTH,
    }
}

// The most bytes of `COLUMNS` that are read. A 64-bit number has at most that many digits.
const NUMBER_ROOM: usize = 20;

/// Returns the width for a help, in columns, by the environment variable `COLUMNS`. A shell knows
/// the width of the terminal by this name, but hands it to a program only if the user exports it.
///
/// The width is the decimal number in the variable, if it is above 0 and fits into 64 bits. If
/// there is no such number, or the variable has more than 20 bytes, it is
/// [`WIDTH`](crate::WIDTH). No clause can state what is in the environment.
pub fn columns<R: Env>(rt: &R) -> usize {
    let mut room = [0u8; NUMBER_ROOM];
    match rt.var("COLUMNS", &mut room) {
        Ok(count) => width_of(&room[..count]),
        Err(_) => WIDTH,
    }
}

impl<F, V, P, M, S> Options<'_, F, V, P, M, S> {
    ghost use Rattle.std.specs.Prelude.{◌≡◌, ℕ, IfOk, List, string_bytes};
    ghost use Rattle.lexopt_options.specs.Answers.{IsAskedText, IsCompletionText, script_lines};
    ghost use Rattle.lexopt_options.specs.Declarations.{declaration_of};
    ghost use Rattle.lexopt_options.specs.Keys.{asked_view};
    ghost use Rattle.lexopt_options.specs.States.{IsFrontOf};

    /// Returns what can come where `typed` is typed after `words`, as the scripts for shells read
    /// it.
    ///
    /// The words are without the name of the program. This call consumes them. The text has these
    /// lines, in this order:
    ///
    /// - Unless nothing was typed, one for each spelling that can come and whose option is not
    ///   hidden: the spelling, a tab, and the help text of the option, with a blank for each
    ///   control character of ASCII.
    /// - One for each of [`Completion::values`]: after `+`, as in `+tar`, if it is a word of its
    ///   own; without it after its option, as in `--format=tar`.
    /// - If a word that is not an option can come: one line by the [`Words`] of the option that it
    ///   is a value of, or of the positionals that it can belong to: `files`, `directories`, or no
    ///   line.
    /// - If the value of an option is typed in the word itself: one line by the [`Words`] of that
    ///   option: `files` or `directories`, a tab, and what comes before the value; or no line.
    ///
    /// # Errors
    ///
    /// Returns `AllocError` if an allocation fails.
    ///
    /// # Examples
    ///
    /// With the declaration of [`declare!`](crate::declare), if `--o` was typed, and no word before
    /// it:
    ///
    /// ```rust
    /// let typed = OsString::from_text(alloc, "--o")?;
    /// let text = options.completion_text(alloc, Vec::new(alloc), &typed)?;
    /// // "--output\tthe archive\n"
    /// ```
    pub fn completion_text(
        &self,
        alloc: Global,
        words: Vec<OsString>,
        typed: &OsString,
    ) -> Result<String, AllocError>
        ensures { IfOk result (λ text.
            IsCompletionText self.now words.items typed.now (string_bytes text)) }
    {
        let front = self.front(alloc, words)?;
        self.completion_text_after(alloc, &front, typed)
    }

    // The text of `completion_text` where `typed` is typed after words that mean this.
    pub(crate) fn completion_text_after(
        &self,
        alloc: Global,
        front: &Option<Front>,
        typed: &OsString,
    ) -> Result<String, AllocError>
        requires { (words : List (List ℕ)) × IsFrontOf (declaration_of self.now) words front.now }
        ensures { (words : List (List ℕ)) → IsFrontOf (declaration_of self.now) words front.now
            → IfOk result (λ text. IsCompletionText self.now words typed.now (string_bytes text)) }
    {
        let completion = self.complete_after(alloc, front, typed)?;
        text_of(alloc, self.positionals(), typed, &completion)
    }

    /// Returns the script by which this shell completes the lines of the program, with a line feed
    /// at its end.
    ///
    /// [`Script`] describes the script, and which names of programs it works for. The script
    /// completes the command that has the name of the program ([`Options::program`]).
    ///
    /// # Errors
    ///
    /// Returns `AllocError` if an allocation fails.
    ///
    /// # Examples
    ///
    /// ```rust
    /// rt.print(options.script(alloc, Shell::Bash)?)?;
    /// ```
    pub fn script(&self, alloc: Global, shell: Shell) -> Result<String, AllocError>
        ensures { IfOk result (λ text. string_bytes text ≡ script_lines self.now shell) }
    {
        let program = self.program();
        let name = variable(alloc, program)?;
        let script = Script {
            shell,
            program,
            variable: name.as_str(),
        };
        format!(in alloc; "{script}\n")
    }

    // The text for this request: the help, or the version and a line feed.
    fn asked_text(
        &self,
        alloc: Global,
        asked: Asked<'_>,
        width: usize,
    ) -> Result<String, AllocError>
        ensures { IfOk result (λ text.
            IsAskedText (declaration_of self.now) (asked_view asked.entry) width
            (string_bytes text)) }
    {
        match asked {
            Asked::Help => self.help(alloc, Detail::Full, width),
            Asked::BriefHelp => self.help(alloc, Detail::Brief, width),
            Asked::Version(version) => format!(in alloc; "{version}\n"),
        }
    }
}

impl<'a, F, V, P, M, S> Options<'a, F, V, P, M, S> {
    ghost use Rattle.std.specs.Prelude.{IfOk};
    ghost use Rattle.lexopt_options.specs.Answers.{IsUnknownRequest};

    /// Returns the refusal of an unknown request of a shell. Its mistake names the variable.
    ///
    /// # Errors
    ///
    /// Returns `AllocError` if an allocation fails.
    pub fn unknown_request(&self, alloc: Global) -> Result<Refused<'a, F, V, P, M, S>, AllocError>
        ensures { IfOk result (λ refused. IsUnknownRequest self.now refused) }
    {
        let program = self.program();
        let variable = variable(alloc, program)?;
        Ok(Refused {
            program,
            help: self.help_names(),
            before: Vec::new(alloc),
            mistake: Mistake::InvalidVariable(variable),
        })
    }
}

impl<'a, F: Copy, V: Copy, P: Copy, M: Copy, S: Copy> Options<'a, F, V, P, M, S> {
    ghost use Rattle.std.specs.Prelude.{ℕ, IfOk, List, Option};
    ghost use Rattle.lexopt_options.specs.Answers.{IsAnswer, IsRequestAnswer};
    ghost use Rattle.lexopt_options.specs.Requests.{IsRequest};
    ghost use Rattle.lexopt_options.specs.declared.request.Request.{Request};

    /// Reads the words of a command line, and returns what the program has to do.
    ///
    /// The words are without the name of the program. This call consumes them. If an option that
    /// asks for the help or the version occurs before any mistake, the first such option counts:
    /// the result is the help, wrapped to `width` columns, or the text of the version and a line
    /// feed. Otherwise it is what [`Options::read`] returns. No word is reserved for shells, which
    /// ask by an environment variable ([`Options::from_env`]).
    ///
    /// # Errors
    ///
    /// Returns `AllocError` if an allocation fails.
    ///
    /// # Examples
    ///
    /// ```rust
    /// let mut words = Vec::new(alloc);
    /// for word in ["-o", "out.zip", "a"] {
    ///     words.push(OsString::from_text(alloc, word)?)?;
    /// }
    /// match options.answer(alloc, words, WIDTH)? {
    ///     Answer::Parsed(line) => println!(rt; "{} options and files", line.len())?,
    ///     Answer::Text(text) => rt.print(text)?,
    ///     Answer::Refused(refused) => rt.eprintln(refused)?,
    /// }
    /// ```
    ///
    /// With the declaration of [`declare!`](crate::declare), the words `-o out.zip a` are
    /// [`Answer::Parsed`], `-v --help --bogus` is [`Answer::Text`], and `--bogus --help` is
    /// [`Answer::Refused`].
    pub fn answer(
        &self,
        alloc: Global,
        words: Vec<OsString>,
        width: usize,
    ) -> Result<Answer<'a, F, V, P, M, S>, AllocError>
        ensures { IfOk result (λ answer. IsAnswer self.now words.items width answer) }
    {
        match self.read(alloc, words)? {
            Line::Parsed(parsed) => Ok(Answer::Parsed(parsed)),
            Line::Asked(asked) => Ok(Answer::Text(self.asked_text(alloc, asked, width)?)),
            Line::Refused(refused) => Ok(Answer::Refused(refused)),
        }
    }

    /// Returns what the program has to do about a request.
    ///
    /// - [`Request::Line`]: what [`Options::answer`] returns.
    /// - [`Request::Completion`]: print [`Options::completion_text`].
    /// - [`Request::Script`]: print [`Options::script`].
    /// - [`Request::Unknown`]: refuse it, by [`Options::unknown_request`].
    ///
    /// This call consumes the request. Unless that is a [`Request::Line`], a shell reads what the
    /// program prints, so print nothing before this call has returned.
    ///
    /// # Errors
    ///
    /// Returns `AllocError` if an allocation fails.
    ///
    /// # Examples
    ///
    /// ```rust
    /// let words = arguments(rt, alloc)?.into_iter().skip(1).collect(alloc)?;
    /// match options.answer_request(alloc, Request::new(alloc, None, words), WIDTH)? {
    ///     Answer::Parsed(line) => println!(rt; "{} options and files", line.len())?,
    ///     Answer::Text(text) => rt.print(text)?,
    ///     Answer::Refused(refused) => rt.eprintln(refused)?,
    /// }
    /// ```
    pub fn answer_request(
        &self,
        alloc: Global,
        request: Request,
        width: usize,
    ) -> Result<Answer<'a, F, V, P, M, S>, AllocError>
        ensures { IfOk result (λ answer. IsRequestAnswer self.now request width answer) }
    {
        match request {
            Request::Line(words) => self.answer(alloc, words, width),
            Request::Completion(words, typed) => {
                Ok(Answer::Text(self.completion_text(alloc, words, &typed)?))
            }
            Request::Script(shell) => Ok(Answer::Text(self.script(alloc, shell)?)),
            Request::Unknown => Ok(Answer::Refused(self.unknown_request(alloc)?)),
        }
    }

    /// Reads the program's own command line, or the request of a shell in the environment, and
    /// returns what the program has to do.
    ///
    /// The first word is taken for the name that the program was called by, and is not read. The
    /// width of the help is [`columns`]. A shell asks by the environment variable that [`variable`]
    /// names, such as `_EXAMPLE_ARCHIVE_COMPLETE` for `example_archive`, with the values of
    /// Python's click. The name is [`Options::program`], whatever the name by which the program was
    /// called. These are the values:
    ///
    /// - `bash_source`, `zsh_source` and `fish_source` ask for the script of that shell.
    /// - `bash_complete`, `zsh_complete` and `fish_complete` ask what can come. In that case the
    ///   last word is what was typed, and the others come before it.
    /// - Any other value is refused, unless it is empty.
    ///
    /// The clause is about some words, some value and some width. No clause can state that they are
    /// those of the environment.
    ///
    /// # Errors
    ///
    /// Returns `AllocError` if an allocation fails.
    ///
    /// # Examples
    ///
    /// ```rust
    /// use std::io;
    /// use std::process::ExitCode;
    ///
    /// fn run(rt: &HostRuntime) -> io::Result<ExitCode> {
    ///     match Options::new(&DECLARATION).from_env(rt)? {
    ///         Answer::Parsed(line) => println!(rt; "{} options and files", line.len())?,
    ///         Answer::Text(text) => rt.print(text)?,
    ///         Answer::Refused(refused) => return Ok(refused.print(rt)),
    ///     }
    ///     Ok(ExitCode::SUCCESS)
    /// }
    /// ```
    ///
    /// In bash this line completes the program's words:
    ///
    /// ```text
    /// source <(_EXAMPLE_ARCHIVE_COMPLETE=bash_source example_archive)
    /// ```
    pub fn from_env<R: Env + AllocGlobal>(
        &self,
        rt: &R,
    ) -> Result<Answer<'a, F, V, P, M, S>, AllocError>
        ensures { IfOk result (λ answer. (value : Option (List ℕ)) × (words : List (List ℕ))
            × (request : Request) × (width : ℕ) × IsRequest value words request
            × IsRequestAnswer self.now request width answer) }
    {
        let alloc = rt.alloc();
        let request = Request::from_env(rt, alloc, self.program())?;
        self.answer_request(alloc, request, columns(rt))
    }
}

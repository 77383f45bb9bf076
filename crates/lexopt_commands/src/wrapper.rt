//! Declared options of a program whose line ends with a rest, which it does not read: the command line
//! of another program, as that of `timeout`, or the words after the separator.
ghost use Rattle.std.specs.Prelude.{◌≡◌, ◌++◌, ◌&&◌, [], IfOk, map, not};
ghost use Rattle.std.specs.Prelude.{if◌then◌else◌, string_bytes};
ghost use Rattle.lexopt_declaration.specs.Models.{count_view, positional_view};
ghost use Rattle.lexopt_options.specs.RestStarts.{start_view};
ghost use Rattle.lexopt_commands.specs.Wrappers.{argument_positional, begins_with_dash};
ghost use Rattle.lexopt_commands.specs.Wrappers.{command_line, rest_count, rest_line, rest_mark};
ghost use Rattle.lexopt_commands.specs.Wrappers.{rest_positional, rest_positionals, text_before};

use lexopt_declaration::declaration::{Count, Declaration, Positional, Words};
use lexopt_declaration::help;
use lexopt_declaration::lookup::help_names_of;
use lexopt_options::{
    Asked, Detail, Line, Mistake, Options, Parsed, Refused, Request, RestCompletion, RestStart,
    columns, complete_rest, read_rest,
};
use lexopt_words::os_string::OsString;
use std::alloc::{AllocError, Global};
use std::convert::Infallible;
use std::env::Env;

/// What the rest of a line is.
#[derive(Debug, Clone, Copy)]
pub struct Rest<'a> {
    /// Where it begins. If that is [`RestStart::Surplus`], it is the command line of another program,
    /// and shells complete it so. If it is [`RestStart::Separated`], it is the words after the
    /// separator `--`, and shells offer the names of files.
    pub start: RestStart,
    /// Its placeholder in the usage line, in the help and in messages: that of the other program,
    /// such as `COMMAND`, or that of each word after the separator, such as `PATH`.
    pub placeholder: &'a str,
    /// Its help text. If it has no word, the help has no entry for it.
    pub help: &'a str,
    /// Whether every legal line has it, with a word at least.
    pub required: bool,
}

/// Declared options and positionals, and after them a rest, which has all words to the end of the
/// line, even those that look like options. It is `Copy`.
///
/// With [`RestStart::Surplus`] the rest begins with the first word that is one positional too many
/// for the declaration. So the declaration allows a fixed number of positionals, such as the one of
/// `timeout DURATION COMMAND [ARGUMENT]...`, or none, as that of `nohup COMMAND [ARGUMENT]...`. If it
/// allows any number, no line has a rest.
///
/// With [`RestStart::Separated`] the rest begins after the separator `--`, as that of
/// `log [REVISION]... [-- PATH...]`, and the declaration may allow any number of positionals before
/// it.
///
/// # Examples
///
/// ```rust
/// use lexopt_commands::{Rest, RestStart, Wrapper, WrapperAnswer};
/// use std::io;
///
/// const COMMAND: Rest<'static> = Rest {
///     start: RestStart::Surplus,
///     placeholder: "COMMAND",
///     help: "what to run",
///     required: true,
/// };
///
/// // With the options of `GENERAL`, and no positional.
/// fn run(rt: &HostRuntime) -> io::Result<()> {
///     match Wrapper::new(Options::new(&GENERAL), COMMAND).from_env(rt)? {
///         // For `-C dir ls -l`, `parsed` is Value((), "dir"), and `command` is `ls`, `-l`.
///         WrapperAnswer::Parsed(parsed, command) => println!(rt; "{parsed:?} {command:?}"),
///         WrapperAnswer::Text(text) => rt.print(text),
///         WrapperAnswer::Refused(refused) => rt.eprintln(refused),
///     }
/// }
/// ```
pub struct Wrapper<'a, F, V = Infallible, P = Infallible, M = Infallible, S = Infallible> {
    options: Options<'a, F, V, P, M, S>,
    rest: Rest<'a>,
}

/// What a program whose line ends with a rest has to do about a line or a request. The types of keys are
/// those of [`Wrapper`].
#[derive(Debug, Drop)]
pub enum WrapperAnswer<'a, F, V = Infallible, P = Infallible, M = Infallible, S = Infallible> {
    /// Do the program's own work. This is what its own words mean, in order, after the defaults of
    /// the options that they do not have, and the rest, which is empty only if it is not required.
    Parsed(Vec<Parsed<F, V, P, M, S>>, Vec<OsString>),
    /// Print this to standard output, and exit: the help, the version, or what a shell asked for.
    Text(String),
    /// Print this to standard error, and exit: `Refused::print` returns the status.
    Refused(Refused<'a, F, V, P, M, S>),
}

// ---- the help

// A positional without its key.
fn shown<'a, P>(positional: &Positional<'a, P>) -> Positional<'a, ()>
    ensures { positional_view result ≡ positional_view positional.now }
{
    Positional {
        key: (),
        placeholder: positional.placeholder,
        count: positional.count,
        help: positional.help,
        words: positional.words,
        hides_list: positional.hides_list,
    }
}

// How often the rest occurs.
fn rest_count(required: bool) -> Count
    ensures { count_view result ≡ rest_count required }
{
    if required {
        Count::Once
    } else {
        Count::AtMostOnce
    }
}

// The placeholder of the rest in the usage line and in the help, such as `COMMAND` or `-- PATH...`.
fn rest_mark(alloc: Global, rest: Rest<'_>) -> Result<String, AllocError>
    ensures { IfOk result (λ mark. string_bytes mark ≡ rest_mark rest.entry) }
{
    let Rest { placeholder, .. } = rest;
    match rest.start {
        RestStart::Surplus => String::from_str(alloc, placeholder),
        RestStart::Separated => format!(in alloc; "-- {placeholder}..."),
    }
}

// The rest, or its first word, as the help shows it with this placeholder.
fn rest_positional<'a>(mark: &'a str, rest: Rest<'a>) -> Positional<'a, ()>
    ensures { positional_view result ≡ rest_positional mark.now rest.entry }
{
    Positional {
        key: (),
        placeholder: mark,
        count: rest_count(rest.required),
        help: rest.help,
        words: Words::Files,
        hides_list: false,
    }
}

// The words after the first of a command line, as the help shows them.
fn argument_positional() -> Positional<'static, ()>
    ensures { positional_view result ≡ argument_positional }
{
    Positional {
        key: (),
        placeholder: "ARGUMENT",
        count: Count::AnyNumber,
        help: "",
        words: Words::Files,
        hides_list: false,
    }
}

// The declared positionals, without their keys.
fn declared_positionals<'a, P>(
    alloc: Global,
    positionals: &[Positional<'a, P>],
) -> Result<Vec<Positional<'a, ()>>, AllocError>
    ensures { IfOk result (λ all.
        map positional_view all.items ≡ map positional_view positionals.now) }
{
    let mut all = Vec::new(alloc);
    for positional in positionals {
        all.push(shown(positional))?;
    }
    Ok(all)
}

// The declared positionals, without their keys, and those of the rest, with this placeholder.
fn all_positionals<'a, P>(
    alloc: Global,
    positionals: &[Positional<'a, P>],
    mark: &'a str,
    rest: Rest<'a>,
) -> Result<Vec<Positional<'a, ()>>, AllocError>
    ensures { IfOk result (λ all. map positional_view all.items
        ≡ map positional_view positionals.now ++ rest_positionals mark.now rest.entry) }
{
    let mut all = declared_positionals(alloc, positionals)?;
    all.push(rest_positional(mark, rest))?;
    match rest.start {
        RestStart::Surplus => all.push(argument_positional())?,
        RestStart::Separated => {}
    }
    Ok(all)
}

// The line by which a shell completes a command line of which this many words come before the one
// that is typed.
fn command_line(alloc: Global, count: usize) -> Result<String, AllocError>
    ensures { IfOk result (λ text. string_bytes text ≡ command_line count) }
{
    format!(in alloc; "command\t{count}\n")
}

// The line by which a shell completes a rest of which this many words come before the one that is
// typed.
fn rest_line(alloc: Global, start: RestStart, count: usize) -> Result<String, AllocError>
    ensures { IfOk result (λ text. string_bytes text ≡ rest_line start count) }
{
    match start {
        RestStart::Surplus => command_line(alloc, count),
        RestStart::Separated => String::from_str(alloc, "files\n"),
    }
}

// This text, and the line for a command line that begins with the word that is typed if this holds.
fn with_command_line(alloc: Global, text: String, begins: bool) -> Result<String, AllocError>
    ensures { IfOk result (λ all. string_bytes all
        ≡ string_bytes text ++ (if begins then command_line 0 else [])) }
{
    if begins {
        let line = command_line(alloc, 0)?;
        format!(in alloc; "{text}{line}")
    } else {
        Ok(text)
    }
}

// Whether a word that begins so can begin the rest, if one that is plain can.
fn can_begin(begins_rest: bool, typed: &OsString) -> bool
    ensures { result ≡ (begins_rest && not (begins_with_dash typed.now)) }
{
    match typed.as_bytes() {
        [b'-', ..] => false,
        _ => begins_rest,
    }
}

// What can come where this is typed after words without a rest: this text, or the line for a rest that
// can begin there.
fn text_before(
    alloc: Global,
    start: RestStart,
    text: String,
    begins: bool,
    typed: &OsString,
) -> Result<String, AllocError>
    ensures { IfOk result (λ all.
        string_bytes all ≡ text_before start (string_bytes text) begins typed.now) }
{
    match start {
        RestStart::Surplus => with_command_line(alloc, text, can_begin(begins, typed)),
        RestStart::Separated => {
            if begins {
                String::from_str(alloc, "files\n")
            } else {
                Ok(text)
            }
        }
    }
}

impl<'a, F, V, P, M, S> Wrapper<'a, F, V, P, M, S> {
    ghost use Rattle.std.specs.Prelude.{◌≡◌, IfOk, map, string_bytes};
    ghost use Rattle.lexopt_options_spec.specs.Help.{IsHelp, IsUsage};
    ghost use Rattle.lexopt_declaration.specs.Declarations.{declaration_view};
    ghost use Rattle.lexopt_declaration.specs.Models.{detail_view, positional_view};
    ghost use Rattle.lexopt_options.specs.Declarations.{declaration_of};
    ghost use Rattle.lexopt_options.specs.Keys.{asked_view};
    ghost use Rattle.lexopt_options.specs.Answers.{IsAskedText};
    ghost use Rattle.lexopt_commands.specs.Wrappers.{IsWrapperText, whole_of};

    /// Returns these options, with this rest after them.
    pub fn new(options: Options<'a, F, V, P, M, S>, rest: Rest<'a>) -> Wrapper<'a, F, V, P, M, S>
        ensures options { result.options ≡ options.entry }
        ensures rest { result.rest ≡ rest.entry }
    {
        Wrapper { options, rest }
    }

    /// Returns the options.
    pub fn options(&self) -> Options<'a, F, V, P, M, S>
        ensures { result ≡ self.now.options }
    {
        self.options
    }

    // What is declared, with the rest as these positionals.
    fn declaration<'b>(
        &self,
        positionals: &'b [Positional<'b, ()>],
    ) -> Declaration<'b, F, V, (), M, S>
    where
        'a: 'b,
        ensures { declaration_view result ≡ record (declaration_of self.now.options) {
          positionals = map positional_view positionals.now;
        } }
    {
        let options = self.options;
        Declaration {
            program: options.program(),
            about: options.about(),
            usage: options.usage_texts(),
            options: options.options(),
            positionals,
            epilogue: options.epilogue(),
            short_equals: options.has_short_equals(),
        }
    }

    /// Returns the usage of the program, wrapped to `width` columns: that of the declaration. A usage
    /// line that is generated ends with the rest: `COMMAND [ARGUMENT]...` or `-- PATH...`, with its
    /// placeholder, and in brackets if it is not required.
    ///
    /// # Errors
    ///
    /// Returns `AllocError` if an allocation fails.
    pub fn usage(&self, alloc: Global, width: usize) -> Result<String, AllocError>
        ensures { IfOk result (λ text. IsUsage width (whole_of self.now) (string_bytes text)) }
    {
        let mark = rest_mark(alloc, self.rest)?;
        let declared = self.options.positionals();
        let positionals = all_positionals(alloc, declared, mark.as_str(), self.rest)?;
        help::usage(alloc, &self.declaration(&positionals), width)
    }

    /// Returns the help of the program, wrapped to `width` columns: that of the declaration, with
    /// the rest as its last positional.
    ///
    /// # Errors
    ///
    /// Returns `AllocError` if an allocation fails.
    ///
    /// # Examples
    ///
    /// For `example_wrapper` at 80 columns that is
    ///
    /// ```text
    /// Usage: example_wrapper [OPTION]... DURATION COMMAND [ARGUMENT]...
    /// Prints what it would run, and for how long.
    ///
    ///   DURATION              after how many seconds it would end
    ///   COMMAND               what it would run
    ///
    ///   -s, --signal=NAME     what it would end it with
    ///   -v, --verbose         tell more
    ///   -h, --help            print this help and exit
    /// ```
    pub fn help(&self, alloc: Global, detail: Detail, width: usize) -> Result<String, AllocError>
        ensures { IfOk result
            (λ text. IsHelp (detail_view detail) (whole_of self.now) width (string_bytes text)) }
    {
        let mark = rest_mark(alloc, self.rest)?;
        let declared = self.options.positionals();
        let positionals = all_positionals(alloc, declared, mark.as_str(), self.rest)?;
        help::help(alloc, detail, &self.declaration(&positionals), width)
    }

    // The text for this request: the help, or the version and a line feed.
    fn asked_text(
        &self,
        alloc: Global,
        asked: Asked<'_>,
        width: usize,
    ) -> Result<String, AllocError>
        ensures { IfOk result (λ text.
            IsAskedText (whole_of self.now) (asked_view asked.entry) width (string_bytes text)) }
    {
        match asked {
            Asked::Help => self.help(alloc, Detail::Full, width),
            Asked::BriefHelp => self.help(alloc, Detail::Brief, width),
            Asked::Version(version) => format!(in alloc; "{version}\n"),
        }
    }

    /// Returns what can come where `typed` is typed after `words`, as the scripts for shells read
    /// it.
    ///
    /// For a rest that is a command line: if the words have no rest, that is the text of
    /// `Options::completion_text`; and if a word that begins so can begin the rest, a line
    /// `command`, a tab and `0` after it. If they have one, it is that line alone, with the number of
    /// the words of the rest. By it the shell completes that many words before the one that is typed,
    /// and this, as a command line of their own.
    ///
    /// For a rest after the separator: if there is a separator among the words, that is the line
    /// `files`; otherwise the text of `Options::completion_text`.
    ///
    /// # Errors
    ///
    /// Returns `AllocError` if an allocation fails.
    pub fn completion_text(
        &self,
        alloc: Global,
        words: Vec<OsString>,
        typed: &OsString,
    ) -> Result<String, AllocError>
        ensures { IfOk result (λ text.
            IsWrapperText self.now words.items typed.now (string_bytes text)) }
    {
        let start = self.rest.start;
        let found = complete_rest(alloc, &self.options, start, words, typed)?;
        match found {
            RestCompletion::Rest(rest) => rest_line(alloc, start, rest.len()),
            RestCompletion::Text { text, begins_rest } => {
                text_before(alloc, start, text, begins_rest, typed)
            }
        }
    }
}

impl<'a, F: Copy, V: Copy, P: Copy, M: Copy, S: Copy> Wrapper<'a, F, V, P, M, S> {
    ghost use Rattle.std.specs.Prelude.{ℕ, IfOk, List, Option};
    ghost use Rattle.lexopt_options.specs.Requests.{IsRequest};
    ghost use Rattle.lexopt_options.specs.declared.refused.Line.TheVariants as line;
    ghost use Rattle.lexopt_options.specs.declared.request.Request.{Request};
    ghost use Rattle.lexopt_options.specs.RestLines.{IsRestRead};
    ghost use Rattle.lexopt_commands.specs.Wrappers.{IsWrapperAnswer, IsWrapperRequest};

    // What the program has to do about a line that means this, with this rest.
    fn answer_rest(
        &self,
        parsed: Vec<Parsed<F, V, P, M, S>>,
        rest: Vec<OsString>,
    ) -> WrapperAnswer<'a, F, V, P, M, S>
        ensures { (words : List (List ℕ)) (width : ℕ)
            → IsRestRead (start_view self.now.rest.start) self.now.options words rest.items
            (line.Parsed parsed)
            → IsWrapperAnswer self.now words width result }
    {
        if self.rest.required && rest.is_empty() {
            return WrapperAnswer::Refused(Refused {
                program: self.options.program(),
                help: help_names_of(self.options.options()),
                before: parsed,
                mistake: Mistake::MissingArgument(self.rest.placeholder),
            });
        }
        WrapperAnswer::Parsed(parsed, rest)
    }

    /// Reads the words of a command line, and returns what the program has to do.
    ///
    /// The words are without the name of the program. This call consumes them. `width` is the width
    /// of the help, in columns. If the rest is required and missing, and nothing else is wrong, the
    /// mistake is `Mistake::MissingArgument` with its placeholder.
    ///
    /// # Errors
    ///
    /// Returns `AllocError` if an allocation fails.
    pub fn answer(
        &self,
        alloc: Global,
        words: Vec<OsString>,
        width: usize,
    ) -> Result<WrapperAnswer<'a, F, V, P, M, S>, AllocError>
        ensures { IfOk result (λ answer. IsWrapperAnswer self.now words.items width answer) }
    {
        let (line, rest) = read_rest(alloc, &self.options, self.rest.start, words)?;
        match line {
            Line::Parsed(parsed) => Ok(self.answer_rest(parsed, rest)),
            Line::Asked(asked) => {
                let text = self.asked_text(alloc, asked, width)?;
                Ok(WrapperAnswer::Text(text))
            }
            Line::Refused(refused) => Ok(WrapperAnswer::Refused(refused)),
        }
    }

    /// Returns what the program has to do about a request: about a line what [`Wrapper::answer`]
    /// returns; to complete a word, print [`Wrapper::completion_text`]; otherwise what
    /// `Options::answer_request` returns. This call consumes the request.
    ///
    /// # Errors
    ///
    /// Returns `AllocError` if an allocation fails.
    pub fn answer_request(
        &self,
        alloc: Global,
        request: Request,
        width: usize,
    ) -> Result<WrapperAnswer<'a, F, V, P, M, S>, AllocError>
        ensures { IfOk result (λ answer. IsWrapperRequest self.now request width answer) }
    {
        match request {
            Request::Line(words) => self.answer(alloc, words, width),
            Request::Completion(words, typed) => {
                let text = self.completion_text(alloc, words, &typed)?;
                Ok(WrapperAnswer::Text(text))
            }
            Request::Script(shell) => Ok(WrapperAnswer::Text(self.options.script(alloc, shell)?)),
            Request::Unknown => Ok(WrapperAnswer::Refused(self.options.unknown_request(alloc)?)),
        }
    }

    /// Reads the program's own command line, or the request of a shell in the environment, and
    /// returns what the program has to do, as `Options::from_env` does.
    ///
    /// The clause is about some words, some value and some width. No clause can state that they are
    /// those of the environment.
    ///
    /// # Errors
    ///
    /// Returns `AllocError` if an allocation fails.
    pub fn from_env<R: Env + AllocGlobal>(
        &self,
        rt: &R,
    ) -> Result<WrapperAnswer<'a, F, V, P, M, S>, AllocError>
        ensures { IfOk result (λ answer. (value : Option (List ℕ)) × (words : List (List ℕ))
            × (request : Request) × (width : ℕ) × IsRequest value words request
            × IsWrapperRequest self.now request width answer) }
    {
        let alloc = rt.alloc();
        let request = Request::from_env(rt, alloc, self.options.program())?;
        self.answer_request(alloc, request, columns(rt))
    }
}

impl<F, V, P, M, S> Clone for Wrapper<'_, F, V, P, M, S> {
    fn clone(&self) -> Result<Self, AllocError> {
        Ok(*self)
    }
}

impl<F, V, P, M, S> Copy for Wrapper<'_, F, V, P, M, S> {}

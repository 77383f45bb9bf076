//! What a program is asked for, by its user or by a shell.
ghost use Rattle.std.specs.Prelude.{◌≢◌, ℕ, [], List, Option, Some};
ghost use Rattle.lexopt_options.specs.Requests.{IsCompletionRequest, IsRequest};

use lexopt_declaration::shell::{Shell, ShellRequest, variable};
use lexopt_words::os_string::{OsString, arguments};
use std::alloc::{AllocError, Global};
use std::env::{Env, FillError};

/// What a program is asked for, by its user or by a shell.
#[derive(Debug, Drop)]
pub enum Request {
    /// Do what this line means: its words, without the name of the program.
    Line(Vec<OsString>),
    /// Print what can come where a word is typed. These are the words before it, without the name
    /// of the program, and what was typed of it.
    Completion(Vec<OsString>, OsString),
    /// Print the script by which this shell completes lines.
    Script(Shell),
    /// The variable by which shells ask has a value that is not known.
    Unknown,
}

// Asks what can come where the last of these words is typed; where nothing is typed if there is
// none.
fn completion_of(alloc: Global, mut words: Vec<OsString>) -> Request
    ensures { IsCompletionRequest words.items result }
{
    match words.pop() {
        Some(typed) => Request::Completion(words, typed),
        None => Request::Completion(words, OsString::new(alloc)),
    }
}

// The request by this value of the variable, which is not empty, and these words.
fn asked_by(alloc: Global, value: &[u8], words: Vec<OsString>) -> Request
    requires { value.now ≢ [] }
    ensures { IsRequest (Some value.now) words.items result }
{
    match ShellRequest::from_value(value) {
        Some(ShellRequest::Script(shell)) => Request::Script(shell),
        Some(ShellRequest::Completion(_)) => completion_of(alloc, words),
        None => Request::Unknown,
    }
}

// The most bytes that are read of the variable by which a shell asks. Every request is shorter.
const REQUEST_ROOM: usize = 16;

// The request by the environment variable of this name and these words. No clause can state what is
// in the environment, so this one is about some value.
fn request_by<R: Env>(rt: &R, alloc: Global, name: &str, words: Vec<OsString>) -> Request
    ensures { (value : Option (List ℕ)) × IsRequest value words.items result }
{
    let mut room = [0u8; REQUEST_ROOM];
    match rt.var(name, &mut room) {
        Ok(count) => Request::new(alloc, Some(&room[..count]), words),
        Err(FillError::NotPresent) => Request::new(alloc, None, words),
        // The value is longer than any request.
        Err(FillError::TooLong) => Request::new(alloc, Some(b"?"), words),
    }
}

impl Request {
    ghost use Rattle.std.specs.Prelude.{ℕ, IfOk, List, Option, option_map};
    ghost use Rattle.lexopt_options.specs.Requests.{IsRequest};

    /// Returns what a program is asked for, by the value of the variable by which shells ask and by
    /// the words of the command line.
    ///
    /// `value` is `None` if the variable is not set. The words are without the name of the program,
    /// and are moved into the request.
    ///
    /// - `None` or the empty value: [`Request::Line`] of the words.
    /// - `bash_source`, `zsh_source`, `fish_source`: [`Request::Script`], whatever the words are.
    /// - `bash_complete`, `zsh_complete`, `fish_complete`: [`Request::Completion`], where the last
    ///   word is what was typed.
    /// - Any other: [`Request::Unknown`].
    ///
    /// # Examples
    ///
    /// ```rust
    /// // `--o` was typed after `-v`.
    /// let mut words = Vec::new(alloc);
    /// words.push(OsString::from_text(alloc, "-v")?)?;
    /// words.push(OsString::from_text(alloc, "--o")?)?;
    /// let request = Request::new(alloc, Some(b"bash_complete"), words);
    /// let answer = options.answer_request(alloc, request, WIDTH)?;
    /// ```
    pub fn new(alloc: Global, value: Option<&[u8]>, words: Vec<OsString>) -> Request
        ensures { IsRequest (option_map (λ v. v.now) value.entry) words.items result }
    {
        match value {
            Some(value) if !value.is_empty() => asked_by(alloc, value, words),
            _ => Request::Line(words),
        }
    }

    /// Returns what a program is asked for by its own words, and by the environment variable by
    /// which shells ask the program of this name ([`variable`]).
    ///
    /// The first word is taken for the name that the program was called by, and is not part of the
    /// request. A value of the variable of more than 16 bytes is [`Request::Unknown`]. Otherwise
    /// the request is that of [`Request::new`].
    ///
    /// The clause is about some value and some words. No clause can state that they are those of
    /// the environment.
    ///
    /// # Errors
    ///
    /// Returns `AllocError` if an allocation fails.
    ///
    /// # Examples
    ///
    /// ```rust
    /// let request = Request::from_env(rt, alloc, options.program())?;
    /// let answer = options.answer_request(alloc, request, WIDTH)?;
    /// ```
    pub fn from_env<R: Env>(rt: &R, alloc: Global, program: &str) -> Result<Request, AllocError>
        ensures { IfOk result (λ request. (value : Option (List ℕ)) × (words : List (List ℕ))
            × IsRequest value words request) }
    {
        let mut words = arguments(rt, alloc)?;
        if !words.is_empty() {
            let _name = words.remove(0);
        }
        let name = variable(alloc, program)?;
        Ok(request_by(rt, alloc, name.as_str(), words))
    }
}

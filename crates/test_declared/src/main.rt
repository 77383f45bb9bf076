//! Reads lines by six declarations, completes words, and prints the help. The script `compare`
//! beside `src` does the same by a plain reader, and compares.
//!
//! Each line of standard input is a case: the digit of a declaration, a letter, and then each word
//! after a space. The output for a case is a line. The letter says what is done:
//!
//! - `r` reads a line. The output has what is read, with its keys; what is asked for; or the mistake
//!   and what was read before it.
//! - `c` completes the last word. The output has the spellings, the values, what another word is
//!   there, the positionals that it can belong to, and the option whose value is typed in the word.
//! - `R` reads a line that may have a rest, which begins with a surplus positional, and `S` one whose
//!   rest begins after the separator. The output has the rest too.
//! - `C` and `D` complete the last word of such a line. The output has the rest of the words before
//!   it, or the lines that a script of a shell reads, and whether the rest can begin there.
//! - `h` makes the full help for a width, which is the word, and `b` the brief one.
#![tactic(auto)]

mod plans;

use lexopt_options::{
    Completion, Detail, Line, OsString, RestCompletion, RestStart, Role, WIDTH, complete_rest,
    read_rest,
};
use plans::{Key, Place, PlanOptions, options_of};
use std::alloc::{AllocError, Global};
use std::io::{self, Read};

type PlanLine = Line<'static, Key, Key, Place, Key, Key>;

type PlanCompletion = Completion<'static, Key, Key, Key, Key>;

// The words of a case. What comes before its first space is none of them.
fn words_of(alloc: Global, case: &[u8]) -> Result<Vec<OsString>, AllocError> {
    let mut words = Vec::new(alloc);
    for word in case.split(|byte| *byte == b' ').skip(1) {
        words.push(OsString::from_bytes(alloc, word)?)?;
    }
    Ok(words)
}

// What was read, as `Debug` writes it; the request; or the mistake, and what was read before it.
fn text_of_line(alloc: Global, line: &PlanLine) -> Result<String, AllocError> {
    match line {
        Line::Parsed(parsed) => format!(in alloc; "{parsed:?}"),
        Line::Asked(asked) => format!(in alloc; "{asked:?}"),
        Line::Refused(refused) => {
            format!(in alloc; "{} after {:?}", refused.mistake, refused.before)
        }
    }
}

// What a word that is not an option is where it can come.
fn push_role(
    text: &mut String,
    word: &Option<Role<'_, Key, Key, Key, Key>>,
) -> Result<(), AllocError> {
    match word {
        Some(Role::Value(option)) => write!(text, "value of {}", option.names),
        Some(Role::Argument) => text.push_str("positional"),
        None => text.push_str("nothing"),
    }
}

// What can come, with a semicolon between two parts.
fn text_of_completion(alloc: Global, found: &PlanCompletion) -> Result<String, AllocError> {
    let mut text = String::new(alloc);
    for spelling in &found.spellings {
        write!(text, "{} ", spelling.text)?;
    }
    write!(text, "; {:?}; ", found.values)?;
    push_role(&mut text, &found.word)?;
    write!(text, "; {:?}", found.arguments)?;
    if let Some(joined) = &found.joined {
        write!(text, "; {} after {}", joined.option.names, joined.before)?;
    }
    Ok(text)
}

// The text of a line that is read.
fn read(alloc: Global, options: &PlanOptions, case: &[u8]) -> Result<String, AllocError> {
    let line = options.read(alloc, words_of(alloc, case)?)?;
    text_of_line(alloc, &line)
}

// The words of a case but the last, and the last.
fn typed_of(alloc: Global, case: &[u8]) -> Result<(Vec<OsString>, OsString), AllocError> {
    let mut words = words_of(alloc, case)?;
    let typed = words.pop().unwrap_or(OsString::new(alloc));
    Ok((words, typed))
}

// The text of a word that is completed.
fn complete(alloc: Global, options: &PlanOptions, case: &[u8]) -> Result<String, AllocError> {
    let (words, typed) = typed_of(alloc, case)?;
    let found = options.complete(alloc, words, &typed)?;
    text_of_completion(alloc, &found)
}

// The text of a line that may have a rest.
fn read_with_rest(
    alloc: Global,
    options: &PlanOptions,
    start: RestStart,
    case: &[u8],
) -> Result<String, AllocError> {
    let (line, rest) = read_rest(alloc, options, start, words_of(alloc, case)?)?;
    let text = text_of_line(alloc, &line)?;
    format!(in alloc; "{text}; {rest:?}")
}

// The text of a word that is completed in a line that may have a rest.
fn complete_with_rest(
    alloc: Global,
    options: &PlanOptions,
    start: RestStart,
    case: &[u8],
) -> Result<String, AllocError> {
    let (words, typed) = typed_of(alloc, case)?;
    match complete_rest(alloc, options, start, words, &typed)? {
        RestCompletion::Rest(rest) => format!(in alloc; "after {rest:?}"),
        RestCompletion::Text { text, begins_rest } => {
            format!(in alloc; "{text:?}; {begins_rest}")
        }
    }
}

// The help for a width.
fn help(
    alloc: Global,
    options: &PlanOptions,
    detail: Detail,
    case: &[u8],
) -> Result<String, AllocError> {
    let (_, word) = typed_of(alloc, case)?;
    let width = word
        .to_str()
        .and_then(|text| text.parse().ok())
        .unwrap_or(WIDTH);
    let text = options.help(alloc, detail, width)?;
    format!(in alloc; "{text:?}")
}

// The output for a case.
fn text_of(alloc: Global, case: &[u8]) -> Result<String, AllocError> {
    match case {
        [digit, letter, ..] => match options_of(*digit) {
            Some(options) => match letter {
                b'r' => read(alloc, &options, case),
                b'c' => complete(alloc, &options, case),
                b'R' => read_with_rest(alloc, &options, RestStart::Surplus, case),
                b'C' => complete_with_rest(alloc, &options, RestStart::Surplus, case),
                b'S' => read_with_rest(alloc, &options, RestStart::Separated, case),
                b'D' => complete_with_rest(alloc, &options, RestStart::Separated, case),
                b'b' => help(alloc, &options, Detail::Brief, case),
                _ => help(alloc, &options, Detail::Full, case),
            },
            None => String::from_str(alloc, "there is no such declaration"),
        },
        _ => Ok(String::new(alloc)),
    }
}

fn main(rt: HostRuntime) -> io::Result<()> {
    let mut input = Vec::new(rt.alloc());
    rt.reader().read_to_end(&mut input)?;
    for case in input.split(|byte| *byte == b'\n') {
        if !case.is_empty() {
            let text = text_of(rt.alloc(), case)?;
            rt.println(text.as_str())?;
        }
    }
    Ok(())
}

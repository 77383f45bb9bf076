//! `run`: reads a script, runs it, and writes a line for each reply and each whole line.
ghost use Rattle.std.specs.Prelude.{◌≡◌, ◌⊎◌, ◌+◌, ◌++◌, ◌≤◌, ◌<◌, ℕ, List, [], None, Some, Err, IfOk};
ghost use Rattle.std.specs.Prelude.{IfErr, OnOk, fold, length, map, codes, string_bytes};
ghost use Rattle.std.specs.Io.KnownBytes.{Appends, Consumes};
ghost use Rattle.lexopt_line_spec.specs.ItemText.{bracketed};
ghost use Rattle.lexopt_calls.specs.Script.{IsOutput, WholeLineText, bad_line};
ghost use Rattle.lexopt_spec.specs.Runs.{short_equals_after};
ghost use Rattle.lexopt_line_spec.specs.ItemText.{item_text};
ghost use Rattle.lexopt_calls.specs.Script.{most_bytes};
ghost use Rattle.lexopt_calls.specs.Script.{with_newline};
ghost use Rattle.lexopt_spec.specs.UnreadLine.{fresh};
ghost use Rattle.lexopt_words.specs.Message.{message};
ghost use Rattle.lexopt_items.specs.Items.{item_view, table_view};
ghost use Rattle.lexopt_calls.specs.Replies.{call_view, reply_view};
ghost use Rattle.lexopt_calls.specs.Output.{ReadsWhole, read_room};
ghost use Rattle.lexopt_calls.specs.Performed.{IsWritten, MakesCalls, answer_text, replies_text};

use crate::replay::replay;
use crate::reply::{Call, Reply};
use crate::run_error::RunError;
use crate::script::{Script, parse_script, read_script};
use lexopt_base::parser::Parser;
use lexopt_items::items::{Item, Table, read_items};
use lexopt_words::error::Error;
use lexopt_words::os_string::OsString;
use lexopt_words::words::copies;
use std::alloc::{AllocError, Global};
use std::io::{Read, Write};

// Appends these items in brackets, with a comma and a space between them.
fn write_items(items: &[Item], text: &mut String) -> Result<(), AllocError>
    ensures { OnOk result (string_bytes text.new
        ≡ string_bytes text.old ++ bracketed item_text (map item_view items.now)) }
{
    text.push_str("[")?;
    if let Some((first, others)) = items.split_first() {
        write!(text, "{first}")?;
        for item in others {
            write!(text, ", {item}")?;
        }
    }
    text.push_str("]")
}

// Appends the result of reading a whole line: its items or its error.
fn write_answer(answer: Result<Vec<Item>, Error>, text: &mut String) -> Result<(), AllocError>
    ensures { OnOk result (string_bytes text.new ≡ string_bytes text.old ++ answer_text answer) }
{
    match answer {
        Ok(items) => write_items(&items, text),
        Err(error) => write!(text, "error: {error}"),
    }
}

// Reads these words as a whole line by the table, and appends a line for the result.
fn write_whole_line(
    alloc: Global,
    words: &[OsString],
    on: bool,
    table: &Table,
    text: &mut String,
) -> Result<(), AllocError>
    ensures { OnOk result ((line : List ℕ) × WholeLineText (table_view table.now) on words.now line
        × (string_bytes text.new ≡ string_bytes text.old ++ with_newline line)) }
{
    let answer = read_items(alloc, copies(alloc, words)?, on, table);
    write_answer(answer, text)?;
    text.push_str("\n")
}

// Appends a line for each of these replies.
fn write_replies(replies: &[Reply], text: &mut String) -> Result<(), AllocError>
    ensures { OnOk result (string_bytes text.new
        ≡ string_bytes text.old ++ replies_text (map reply_view replies.now)) }
{
    for reply in replies {
        writeln!(text, "{reply}")?;
    }
    Ok(())
}

// Returns `short_equals` after these calls.
fn short_equals_after(on: bool, calls: &[Call]) -> bool
    ensures { result ≡ fold short_equals_after on (map call_view calls.now) }
{
    let mut now = on;
    for call in calls {
        if let Call::Switch(switched) = call {
            now = *switched;
        }
    }
    now
}

// Makes these calls, appends a line for each reply, and returns `short_equals` after them.
fn make_calls(
    alloc: Global,
    calls: &[Call],
    parser: &mut Parser,
    on: bool,
    text: &mut String,
) -> Result<bool, AllocError>
    ensures { IfOk result (λ now.
        MakesCalls (map call_view calls.now) parser.old on (string_bytes text.old)
        parser.new now (string_bytes text.new)) }
{
    let Ok(replies) = replay(alloc, parser, calls) else {
        return Err(AllocError);
    };
    write_replies(&replies, text)?;
    Ok(short_equals_after(on, calls))
}

// Runs a script on a parser of its words, and appends a line for each command.
fn perform(
    alloc: Global,
    script: &Script,
    parser: &mut Parser,
    text: &mut String,
) -> Result<(), AllocError>
    requires fresh { parser.old ≡ fresh script.now.words.items }
    requires empty { string_bytes text.old ≡ [] }
    ensures { OnOk result (IsWritten script.now (string_bytes text.new)) }
{
    let mut on = true;
    for calls in &script.calls_before {
        on = make_calls(alloc, calls, parser, on, text)?;
        write_whole_line(alloc, &script.words, on, &script.table, text)?;
    }
    make_calls(alloc, &script.last_calls, parser, on, text)?;
    Ok(())
}

// Runs a script, and returns its output.
fn perform_all(alloc: Global, script: &Script) -> Result<String, RunError>
    ensures ok { IfOk result (λ text. IsWritten script.now (string_bytes text)) }
    ensures err { IfErr result (λ e. e ≡ RunError.NoMemory) }
{
    let mut parser = Parser::from_vec(copies(alloc, &script.words)?);
    let mut text = String::new(alloc);
    perform(alloc, script, &mut parser, &mut text)?;
    Ok(text)
}

// Returns the output of a script, or its first bad line.
fn output(alloc: Global, script: &[u8]) -> Result<String, RunError>
    requires { length script.now ≤ most_bytes }
    ensures ok { IfOk result (λ text. IsOutput script.now (string_bytes text)) }
    ensures err { IfErr result (λ e. (e ≡ RunError.NoMemory)
        ⊎ ((n : ℕ) × (e ≡ RunError.BadLine n) × (bad_line script.now ≡ Some n))) }
{
    let script = parse_script(alloc, script)?;
    perform_all(alloc, &script)
}

/// Reads a whole script, runs it, and then writes a line for each reply and each whole line.
///
/// `docs/formats.md` describes scripts and their output. A script has at most 1,048,576 bytes; at
/// most 512 more are read. The script and the whole output are held in memory.
///
/// # Errors
///
/// - `TooLong` if more bytes were read than a script may have.
/// - `BadLine` with the number of the first bad line.
/// - `ReadFailed` if a read fails.
/// - `NoMemory` if an allocation fails, except in a call of the parser or in `read_items`: then the
///   output has the line `error: out of memory`, and the run goes on.
/// - `WriteFailed` if a write or the flush fails. Some of the output may have been written; after
///   the other errors nothing was.
///
/// # Examples
///
/// ```rust
/// #![tactic(auto)]
///
/// use lexopt::replay::run;
/// use std::io;
/// use std::process::ExitCode;
///
/// fn main(rt: HostRuntime) -> ExitCode {
///     match run(rt.alloc(), &mut rt.reader(), &mut io::writer(&rt)) {
///         Ok(()) => ExitCode::SUCCESS,
///         Err(error) => ExitCode::from(error.status()),
///     }
/// }
/// ```
///
/// With the words `--out=x` and `file`, the calls `next`, `value`, `next` write `Long "out"`, `"x"`
/// and `Value "file"`. With the line `t --out` before them, `items` writes
/// `[Long "out" = "x", Value "file"]`.
pub fn run<R: Read, W: Write>(alloc: Global, reader: &mut R, writer: &mut W) -> Result<(), RunError>
    ensures ok { OnOk result ((script text : List ℕ)
        × ReadsWhole (R.remaining reader.old) (R.remaining reader.new) script
        × IsOutput script text × Appends (W.contents writer.old) (W.contents writer.new) text) }

    // The conditions of the errors.
    ensures bad_line { (line : ℕ) → result ≡ Err (RunError.BadLine line) → ((script : List ℕ)
        × ReadsWhole (R.remaining reader.old) (R.remaining reader.new) script
        × (bad_line script ≡ Some line)) }
    ensures too_long { result ≡ Err RunError.TooLong → ((script : List ℕ)
        × Consumes (R.remaining reader.old) (R.remaining reader.new) script
        × (most_bytes < length script)) }
    ensures write_failed { result ≡ Err RunError.WriteFailed → ((script : List ℕ)
        × ReadsWhole (R.remaining reader.old) (R.remaining reader.new) script
        × (bad_line script ≡ None)) }

    // Nothing is written on an error other than `WriteFailed`, and the number of bytes read is
    // bounded.
    ensures untouched { IfErr result (λ e. (e ≡ RunError.WriteFailed) ⊎ (writer.new ≡ writer.old)) }
    ensures bounded { (script : List ℕ)
        × Consumes (R.remaining reader.old) (R.remaining reader.new) script
        × (length script ≤ most_bytes + read_room) }
{
    let script = read_script(alloc, reader)?;
    let text = output(alloc, &script)?;
    if writer.write_all(text.as_bytes()).is_err() || writer.flush().is_err() {
        return Err(RunError::WriteFailed);
    }
    Ok(())
}

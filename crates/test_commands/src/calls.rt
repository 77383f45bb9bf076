//! Each public call of `Commands`, the calls for lines with a rest, and the words, the variable and
//! `COLUMNS` of an environment.
use crate::git::{Flag, Task, Value, git};
use lexopt_commands::{Command, CommandLine, Commands, Step, declare_commands};
use lexopt_options::{
    Declaration, Detail, Line, Mistake, Names, Options, OsString, Refused, Request, RestStart,
    complete_rest, declare, read_rest,
};
use std::alloc::{AllocError, Global};
use std::convert::Infallible;
use std::fmt::Debug;
use test_helpers::environments::{Arguments, Variable};
use test_helpers::parsers::words_of;

// A call that is given the words of a line, or, for a request, the words before the last and what
// is typed.
#[derive(Clone, Copy)]
enum Call {
    Read,
    Answer,
    Complete,
    ReadRest,
    CompleteRest,
}

use Call::{Answer, Complete, CompleteRest, Read, ReadRest};

// At 30 columns the help of an entry begins at column 10.
const HELP_AT_30: &str = "\
Usage: git [OPTION]... COMMAND
       [ARGUMENT]...
Tracks files.

  add     add files
  remove  remove files
  remote  manage remotes
  help    print the help of a
          command

  -v, --verbose
          tell more
  -C DIR  work there
  -h, --help
          print this help and
          exit
      --version
          print the version
          and exit

It has no index.
";

// Calls, lines, and what is read, printed or refused.
static ROWS: [(Call, &[u8], &str); 20] = [
    (
        Read,
        b"-C dir -- add -f \xFF",
        "[Value(Directory, \"dir\")] add Add [\"-f\", \"\\xFF\"]",
    ),
    (
        Read,
        b"-v help remote x",
        "[Flag(Verbose)] remote Remote [\"x\", \"--help\"]",
    ),
    (Read, b"--version bogus", "Version(\"git 1.0\")"),
    (
        Read,
        b"-v help re x",
        "[Flag(Verbose)], then unknown command \"re\"; did you mean one of 'remove', 'remote'? \
        [\"x\", \"--help\"]",
    ),
    (
        Read,
        b"-v",
        "[Flag(Verbose)], then missing command: one of add, remove, remote, help []",
    ),
    (Answer, b"help", HELP_AT_30),
    (Answer, b"--version", "git 1.0\n"),
    (
        Answer,
        b"-v add x",
        "git add Add Call { general: [Flag(Verbose)], request: Line([\"x\"]) }",
    ),
    (
        Answer,
        b"-x add",
        "git: invalid option '-x'\nTry 'git --help' for more information.",
    ),
    (
        Complete,
        b"-v re",
        "+remove\tremove files\n+remote\tmanage remotes\n",
    ),
    (
        Complete,
        b"-v remote add -",
        "git remote Remote Call { general: [], request: Completion([\"add\"], \"-\") }",
    ),
    (Complete, b"-vCdi", "files\t-vC\n"),
    // After `--help` the general declaration alone decides. It has no positionals.
    (Complete, b"--help -v", "-v\ttell more\n"),
    (Complete, b"--help x -v", ""),
    (
        ReadRest,
        b"-vC x -- add -v",
        "[Flag(Verbose), Value(Directory, \"x\")], then [\"add\", \"-v\"]",
    ),
    (ReadRest, b"-h add", "Help"),
    (
        ReadRest,
        b"-v -C",
        "[Flag(Verbose)], then missing argument DIR for option '-C'",
    ),
    (CompleteRest, b"-v x y -", "Rest([\"x\", \"y\"])"),
    (
        CompleteRest,
        b"-C a",
        "Text { text: \"files\\n\", begins_rest: false }",
    ),
    (
        CompleteRest,
        b"-v --ver",
        "Text { text: \"--verbose\\ttell more\\n--version\\tprint the version and exit\\n\", \
        begins_rest: true }",
    ),
];

// The meaning of a line: the general options, the command's name, its key and its words; or the
// request; or the general options before the mistake, its message, and the words for a command that
// is not known.
fn text_of_line(
    alloc: Global,
    line: &Result<CommandLine<'_, Task, Flag, Value>, AllocError>,
) -> Result<String, AllocError> {
    match line {
        Ok(CommandLine::Command(parsed, name, task, words)) => {
            format!(in alloc; "{parsed:?} {name} {task:?} {words:?}")
        }
        Ok(CommandLine::Asked(asked)) => format!(in alloc; "{asked:?}"),
        Ok(CommandLine::Refused(refused)) => {
            let Refused {
                before,
                mistake,
                ..
            } = refused;
            format!(in alloc;
                "{before:?}, then {mistake} {:?}",
                words_of_unknown(mistake)
            )
        }
        Err(_) => Err(AllocError),
    }
}

// The words for the command that is not known; none for another mistake.
fn words_of_unknown<'a>(mistake: &'a Mistake<'_>) -> &'a [OsString] {
    match mistake {
        Mistake::UnknownCommand { rest, .. } => rest,
        _ => &[],
    }
}

/// What the program does: the command's path, its key and its call, a text to print, or a refusal.
pub fn text_of_step<K: Debug>(
    alloc: Global,
    step: &Result<Step<'_, K, Flag, Value>, AllocError>,
) -> Result<String, AllocError> {
    match step {
        Ok(Step::Command(task, path, call)) => format!(in alloc; "{path} {task:?} {call:?}"),
        Ok(Step::Text(text)) => text.to_string(alloc),
        Ok(Step::Refused(refused)) => refused.to_string(alloc),
        Err(_) => Err(AllocError),
    }
}

// What a line with a rest means, as `Debug` writes it, and the rest; the request; or what was read
// before the mistake, and its message.
fn text_of_rest(alloc: Global, words: Vec<OsString>) -> Result<String, AllocError> {
    let (line, rest) = read_rest(alloc, &git().options(), RestStart::Surplus, words)?;
    match line {
        Line::Parsed(parsed) => format!(in alloc; "{parsed:?}, then {rest:?}"),
        Line::Asked(asked) => format!(in alloc; "{asked:?}"),
        Line::Refused(refused) => {
            format!(in alloc; "{:?}, then {}", refused.before, refused.mistake)
        }
    }
}

// How the last of these words is completed, as `Debug` writes it.
fn text_of_completion(alloc: Global, mut words: Vec<OsString>) -> Result<String, AllocError> {
    let typed = words.pop().unwrap_or(OsString::new(alloc));
    let completion = complete_rest(alloc, &git().options(), RestStart::Surplus, words, &typed)?;
    format!(in alloc; "{completion:?}")
}

// What the call returns for these words, as a text.
fn text_of(alloc: Global, call: Call, line: &[u8]) -> Result<String, AllocError> {
    let words = words_of(alloc, line)?;
    match call {
        Read => text_of_line(alloc, &git().read(alloc, words)),
        Answer => text_of_step(alloc, &git().answer(alloc, words, 30)),
        Complete => {
            let request = Request::new(alloc, Some(b"zsh_complete"), words);
            text_of_step(alloc, &git().answer_request(alloc, request, 30))
        }
        ReadRest => text_of_rest(alloc, words),
        CompleteRest => text_of_completion(alloc, words),
    }
}

#[test]
fn rows(rt: HostRuntime) {
    for (call, line, wanted) in ROWS.iter() {
        let text = text_of(rt.alloc(), *call, line).expect(&rt, "memory");
        assert_eq!(rt; text.as_str(), *wanted, "{line:?}");
    }
}

// What the program does with these words of an environment, at the width of `COLUMNS`.
fn text_of_words(alloc: Global, words: &[OsString]) -> Result<String, AllocError> {
    let environment = Variable {
        arguments: Arguments { words },
        name: "COLUMNS",
        value: Some(b"30"),
    };
    text_of_step(alloc, &git().from_env(&(environment, alloc)))
}

#[test]
fn help_of_the_environment(rt: HostRuntime) {
    let words = words_of(rt.alloc(), b"git help").expect(&rt, "memory");
    let text = text_of_words(rt.alloc(), &words).expect(&rt, "memory");
    assert_eq!(rt; text.as_str(), HELP_AT_30);
}

// Whether these are the texts of the declaration.
fn are_texts(alloc: Global) -> Result<bool, AllocError> {
    let usage = "Usage: git [OPTION]... COMMAND\n       [ARGUMENT]...\n";
    Ok(
        git().usage(alloc, 30)?.as_str() == usage
            && git().help(alloc, Detail::Full, 30)?.as_str() == HELP_AT_30,
    )
}

#[test]
fn what_was_given(rt: HostRuntime) {
    assert_eq!(rt; git().options().program(), "git");
    assert_eq!(rt; git().commands().len(), 4);
    assert!(rt; are_texts(rt.alloc()).expect(&rt, "memory"));
}

static BLANK: &[Command<'static, Task>] = declare_commands![command(Task::Add, "a b", "")];

// Why a name with a blank cannot be declared.
fn text_of_fault(alloc: Global) -> Result<String, AllocError> {
    match Commands::try_new(git().options(), BLANK) {
        Ok(_) => Ok(String::new(alloc)),
        Err(error) => error.to_string(alloc),
    }
}

#[test]
fn faults(rt: HostRuntime) {
    let text = text_of_fault(rt.alloc()).expect(&rt, "memory");
    assert_eq!(rt;
        text.as_str(),
        "command 'a b': its name has a blank or a control character in it"
    );
}

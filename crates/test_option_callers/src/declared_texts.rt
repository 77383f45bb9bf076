//! Callers that print names and errors, and that declare options which may be refused. Their
//! clauses state the texts by plain data.
ghost use Rattle.std.specs.Prelude.{◌≡◌, ◌≢◌, IfOk, MatchResult, codes, map, string_bytes, true};
ghost use Rattle.std.specs.Option.{MatchOption};
ghost use Rattle.lexopt_options_spec.specs.Declaration.{is_sound};
ghost use Rattle.lexopt_declaration.specs.Models.{option_view};
ghost use Rattle.test_option_callers.specs.Printed.{IsErrorOf, IsFaultOf, IsUsageOf, declaration_line};
ghost use Rattle.test_option_callers.specs.Printed.{IsErrorWith, IsUsageWith, names_line, refused_line};
ghost use Rattle.test_option_callers.specs.Printed.{listed_option, report_line, two_options};

use crate::declared::{Flag, Value, Word};
use lexopt_options::{
    Count, Declaration, Declared, Mistake, Names, Positional, Refused, Report, UsageError, Words,
    declare_option,
};
use lexopt_runtime_options::{DeclarationError, Reason, try_options};
use std::alloc::{AllocError, Global};

/// Prints the names of an option.
pub fn names_text(alloc: Global, names: &Names<'_>) -> Result<String, AllocError>
    ensures { IfOk result (λ text. string_bytes text ≡ names_line names.now) }
{
    format!(in alloc; "{names}")
}

/// Prints why an option cannot be declared.
pub fn declaration_text(alloc: Global, error: &DeclarationError<'_>) -> Result<String, AllocError>
    ensures { IfOk result (λ text. string_bytes text ≡ declaration_line error.now) }
{
    format!(in alloc; "{error}")
}

/// Prints why a line is refused.
pub fn refused_text<F, V, P, M, S>(
    alloc: Global,
    refused: &Refused<'_, F, V, P, M, S>,
) -> Result<String, AllocError>
    ensures { IfOk result (λ text. string_bytes text ≡ refused_line refused.now) }
{
    format!(in alloc; "{refused}")
}

/// Prints that an option is missing.
#[tactic(auto, unfolding(lexopt_line_spec::proofs::Computing::computing))]
pub fn missing_option_text(alloc: Global) -> Result<String, AllocError>
    ensures { IfOk result (λ text. string_bytes text ≡ codes "missing option '--user'") }
{
    let mistake = Mistake::MissingOption(Names::Both('u', "user"));
    format!(in alloc; "{mistake}")
}

/// Prints that two options exclude each other.
#[tactic(auto, unfolding(lexopt_line_spec::proofs::Computing::computing))]
pub fn exclusive_options_text(alloc: Global) -> Result<String, AllocError>
    ensures { IfOk result (λ text. string_bytes text
        ≡ codes "options '--json' and '-x' cannot be used together") }
{
    let mistake = Mistake::Exclusive(Names::Long("json"), Names::Short('x'));
    format!(in alloc; "{mistake}")
}

/// Prints a mistake that a program found itself.
pub fn report_text(alloc: Global, report: &Report<'_>) -> Result<String, AllocError>
    ensures { IfOk result (λ text. string_bytes text ≡ report_line report.now) }
{
    format!(in alloc; "{report}")
}

/// The exit status after such a mistake.
pub fn report_status(report: &Report<'_>) -> u8
    ensures memory { report.now.error ≡ UsageError.OutOfMemory → result ≡ 1 }
    ensures usage { report.now.error ≢ UsageError.OutOfMemory → result ≡ 2 }
{
    report.status()
}

// An option of one value, which is in this list.
fn listed_option<'a>(placeholder: &'a str, values: &'a [&'a str]) -> Declared<'a, Flag, Value>
    ensures { let listed = map (λ value. value.now) values.now in
        option_view result ≡ listed_option placeholder.now listed }
{
    declare_option!(value(Value::Output, Names::Both('v', "verbose"), placeholder, "").one_of(
        values
    ))
}

/// Declares two options, the second with a list of values. Returns the character of the first that
/// cannot be declared, and the reason, or `None` if both can be declared together.
pub fn fault_of_two<'a>(
    character: char,
    name: &'a str,
    placeholder: &'a str,
    values: &'a [&'a str],
) -> Option<(char, Reason)>
    ensures { let listed = map (λ value. value.now) values.now in MatchOption result
        (is_sound (two_options character name.now placeholder.now listed) ≡ true)
        (IsFaultOf character name.now placeholder.now listed) }
{
    let options = [
        declare_option!(flag(Flag::Verbose, Names::Both(character, name), "")),
        listed_option(placeholder, values),
    ];
    let declaration: Declaration<'_, Flag, Value> = Declaration {
        program: "",
        about: "",
        usage: &[],
        options: &options,
        positionals: &[],
        epilogue: &[],
        short_equals: true,
    };
    match try_options(&declaration) {
        Ok(_) => None,
        Err(
            DeclarationError::Option {
                option: Names::Both(character, _),
                reason,
            },
        ) => Some((character, reason)),
        Err(_) => None,
    }
}

// The usage line of a declaration, or the text of its error.
fn usage_or_error_of<'a>(
    alloc: Global,
    width: usize,
    declaration: &'a Declaration<'a, Flag, Value, Word>,
) -> Result<Result<String, String>, AllocError>
    ensures { IfOk result (λ found. MatchResult found
        (λ text. IsUsageWith width declaration.now (string_bytes text))
        (λ text. IsErrorWith declaration.now (string_bytes text))) }
{
    match try_options(declaration) {
        Ok(options) => Ok(Ok(options.usage(alloc, width)?)),
        Err(error) => Ok(Err(format!(in alloc; "{error}")?)),
    }
}

/// Declares an option and two positionals, the second with a list of words. Returns the usage line
/// if they can be declared together, and otherwise the text of the error.
pub fn usage_or_error<'a>(
    alloc: Global,
    width: usize,
    character: char,
    help: &'a str,
    first: Count,
    second: Count,
    values: &'a [&'a str],
) -> Result<Result<String, String>, AllocError>
    ensures { let listed = map (λ value. value.now) values.now in
        IfOk result (λ found. MatchResult found
        (λ text. IsUsageOf width character help.now first second listed (string_bytes text))
        (λ text. IsErrorOf character help.now first second listed (string_bytes text))) }
{
    let options = [declare_option!(flag(Flag::Verbose, Names::Short(character), help))];
    let positionals = [
        Positional {
            key: Word::From,
            placeholder: "FROM",
            count: first,
            help,
            words: Words::Directories,
            hides_list: false,
        },
        Positional {
            key: Word::To,
            placeholder: "TO",
            count: second,
            help,
            words: Words::Listed(values),
            hides_list: false,
        },
    ];
    let declaration: Declaration<'_, Flag, Value, Word> = Declaration {
        program: "small",
        about: "",
        usage: &[],
        options: &options,
        positionals: &positionals,
        epilogue: &[],
        short_equals: true,
    };
    usage_or_error_of(alloc, width, &declaration)
}

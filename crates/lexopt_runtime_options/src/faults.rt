//! Checks declarations that are known only when the program runs.
ghost use Rattle.std.specs.Prelude.{◌≡◌, ◌==◌, ◌&&◌, MatchResult, map, option_map, true};
ghost use Rattle.std.specs.Option.{MatchOption};
ghost use Rattle.std.specs.List.{list_all, list_any};
ghost use Rattle.std.specs.Cmp.Lexicographic.{pointwise};
ghost use Rattle.std.specs.Str.{chars};
ghost use Rattle.lexopt_spec.specs.Pieces.{lossy_characters, replacement};
ghost use Rattle.lexopt_line_spec.specs.Table as table;
ghost use Rattle.lexopt_options_spec.specs.Declaration as spec;
ghost use Rattle.lexopt_options_spec.specs.Declaration.{are_clear, are_listable, has, is_sound};
ghost use Rattle.lexopt_declaration.specs.Declarations.{declaration_view};
ghost use Rattle.lexopt_declaration.specs.Models.{arity_kind, arity_placeholder, beside_view};
ghost use Rattle.lexopt_declaration.specs.Models.{kind_of, long_name, names_list, option_view};
ghost use Rattle.lexopt_declaration.specs.Models.{positional_view, short_name, words_view};
ghost use Rattle.lexopt_options.specs.Declarations.{declaration_of, options_of, positionals_of};
ghost use Rattle.lexopt_runtime_options.specs.Faults.{IsDeclarationError, IsListError};
ghost use Rattle.lexopt_runtime_options.specs.Faults.{IsOptionError, IsPositionalError, reason_view};

use lexopt_declaration::declaration::{
    Arity, Beside, Declaration, Declared, Kind, Names, Positional, Words, are_text,
};
use lexopt_declaration::lookup::{has_alias, has_negation, has_short};
use lexopt_declaration::message::Escaped;
use lexopt_declaration::positionals::may_repeat;
use lexopt_options::Options;
use std::fmt;

/// Why an option cannot be declared. `Display` writes it, such as `its name is empty`. The `Reason`
/// of `lexopt_commands` is about the names of commands.
#[derive(Debug, Clone, Copy, PartialEq, Eq)]
pub enum Reason {
    /// Its character is `-`: the word `--` is the separator, and `--name` is a long option.
    DashName,
    /// Its name is empty.
    EmptyName,
    /// Its name has `=` in it: the word `--a=b` is the option `a` with a value.
    EqualsInName,
    /// Its character is U+FFFD, or its name has it. U+FFFD represents damage in what was typed.
    ReplacementInName,
    /// Its character is a blank or a control character of ASCII, or its name has one. A shell
    /// separates words at blanks, and a terminal acts on control characters.
    BlankOrControlInName,
    /// The placeholder of its value is empty, or begins with `-` or `=`. A form that the help shows
    /// could then be illegal, or mean another value.
    BadPlaceholder,
    /// The list of its values is empty, or one of them is empty, begins with `-` or `=`, or has a
    /// blank or a control character of ASCII in it.
    BadList,
    /// It has a default, but is required, does not always have one value, or does not accept it.
    BadDefault,
    /// Its label shows a flag or a negation that is not declared before it, or whose own label shows
    /// another, or that does not fit its names: a flag beside an option that has a character or no
    /// long name, or the negation of an option without a long name.
    BadLabel,
    /// It is in an exclusive group, but required.
    BadExclusive,
    /// An option before it has one of its names.
    SameName,
}

/// What cannot be declared. `Display` and `Debug` write it on one line:
///
/// ```text
/// option '--output': an option before it has one of its names
/// positional argument FILE: one before it may occur more than once too
/// ```
#[derive(Clone, Copy, PartialEq, Eq)]
pub enum DeclarationError<'a> {
    /// An option that cannot be declared after those before it.
    Option {
        /// The names of the option.
        option: Names<'a>,
        /// The reason.
        reason: Reason,
    },
    /// The second positional that may occur more than once: its placeholder.
    Positional(&'a str),
    /// A positional whose list is empty, or has a word that is empty, begins with `-` or `=`, or
    /// has a blank or a control character of ASCII in it: its placeholder.
    BadList(&'a str),
}

impl fmt::Display for Reason {
    ghost use Rattle.std.specs.Prelude.{Some};
    ghost use Rattle.lexopt_runtime_options.specs.Texts.{reason_text};

    ghost output = { λ reason. Some (reason_text reason) };

    fn fmt<W: fmt::Write>(&self, f: &mut fmt::Formatter<W>) -> fmt::Result {
        match self {
            Reason::DashName => f.write_str("its character is '-'"),
            Reason::EmptyName => f.write_str("its name is empty"),
            Reason::EqualsInName => f.write_str("its name has '=' in it"),
            Reason::ReplacementInName => f.write_str("its name has U+FFFD in it"),
            Reason::BlankOrControlInName => {
                f.write_str("its name has a blank or a control character in it")
            }
            Reason::BadPlaceholder => {
                f.write_str("its placeholder is empty or begins with '-' or '='")
            }
            Reason::BadList => f.write_str(
                "the list of its values is empty, or one of them is empty, begins with '-' or '=', \
                 or has a blank or a control character in it",
            ),
            Reason::BadDefault => f.write_str(
                "it has a default, but is required, does not always have one value, or does not \
                 accept it",
            ),
            Reason::BadLabel => f.write_str(
                "its label shows a flag or a negation that is not declared before it, or whose own \
                 label shows another, or that does not fit its names",
            ),
            Reason::BadExclusive => f.write_str("it excludes other options, but is required"),
            Reason::SameName => f.write_str("an option before it has one of its names"),
        }
    }
}

impl fmt::Display for DeclarationError<'_> {
    ghost use Rattle.std.specs.Prelude.{Some};
    ghost use Rattle.lexopt_runtime_options.specs.Texts.{declaration_error_text};

    ghost output = { λ error. Some (declaration_error_text error) };

    fn fmt<W: fmt::Write>(&self, f: &mut fmt::Formatter<W>) -> fmt::Result {
        match self {
            DeclarationError::Option { option, reason } => {
                write!(f, "option '{option}': {reason}")
            }
            DeclarationError::Positional(placeholder) => {
                let placeholder = Escaped(placeholder);
                write!(
                    f,
                    "positional argument {placeholder}: one before it may occur more than once too"
                )
            }
            DeclarationError::BadList(placeholder) => {
                let placeholder = Escaped(placeholder);
                write!(f, "positional argument {placeholder}: {}", Reason::BadList)
            }
        }
    }
}

impl fmt::Debug for DeclarationError<'_> {
    ghost use Rattle.std.specs.Prelude.{Some};
    ghost use Rattle.lexopt_runtime_options.specs.Texts.{declaration_error_text};

    ghost debug_output = { λ error. Some (declaration_error_text error) };

    fn fmt<W: fmt::Write>(&self, f: &mut fmt::Formatter<W>) -> fmt::Result {
        fmt::Display::fmt(self, f)
    }
}

impl std::error::Error for DeclarationError<'_> {}

// Whether a name has U+FFFD in it. It is separate from `has_replacement` for the proof: its
// contract is by the characters of the name, and not by those of its lossy text.
fn any_replacement(name: &str) -> bool
    ensures { result ≡ list_any (λ c. c == replacement) (chars name.now) }
{
    name.chars().any(|character| character == '\u{FFFD}')
}

// Whether a name has U+FFFD in it.
fn has_replacement(name: &str) -> bool
    ensures { result ≡ has replacement (lossy_characters name.now) }
{
    any_replacement(name)
}

// Whether a byte is a blank or a control character of ASCII.
fn is_blank_or_control(byte: u8) -> bool
    ensures { result ≡ spec.is_blank_or_control byte }
{
    byte < b'!' || byte == 0x7F
}

// Whether a name has a blank or a control character of ASCII in it.
fn has_blank_or_control(name: &str) -> bool
    ensures { result ≡ list_any spec.is_blank_or_control name.now }
{
    name.as_bytes()
        .iter()
        .any(|byte| is_blank_or_control(*byte))
}

// What is wrong with the character of an option.
fn short_fault(name: char) -> Option<Reason>
    ensures { option_map reason_view result ≡ spec.short_fault name }
{
    match name {
        '-' => Some(Reason::DashName),
        '\u{FFFD}' => Some(Reason::ReplacementInName),
        '\0'..=' ' | '\x7F' => Some(Reason::BlankOrControlInName),
        _ => None,
    }
}

// What is wrong with the long name of an option.
fn long_fault(name: &str) -> Option<Reason>
    ensures { option_map reason_view result ≡ spec.long_fault name.now }
{
    if name.is_empty() {
        Some(Reason::EmptyName)
    } else if name.as_bytes().contains(&b'=') {
        Some(Reason::EqualsInName)
    } else if has_replacement(name) {
        Some(Reason::ReplacementInName)
    } else if has_blank_or_control(name) {
        Some(Reason::BlankOrControlInName)
    } else {
        None
    }
}

// What is wrong with a character, a long name, or both.
fn names_fault(names: Names<'_>) -> Option<Reason>
    ensures { option_map reason_view result
        ≡ spec.names_fault spec.name_fault (names_list names.entry) }
{
    match names {
        Names::Short(character) => short_fault(character),
        Names::Long(name) => long_fault(name),
        Names::Both(character, name) => match short_fault(character) {
            Some(reason) => Some(reason),
            None => long_fault(name),
        },
    }
}

// What is wrong with the first name of an option that has a fault, further names included.
fn all_names_fault<F, V, M, S>(option: &Declared<'_, F, V, M, S>) -> Option<Reason>
    ensures { option_map reason_view result
        ≡ spec.names_fault spec.name_fault (spec.all_names (option_view option.now)) }
{
    if let Some(reason) = names_fault(option.names) {
        return Some(reason);
    }
    for names in option.aliases {
        if let Some(reason) = names_fault(*names) {
            return Some(reason);
        }
    }
    None
}

// What is wrong with the placeholder of a value.
fn placeholder_fault(arity: Arity<'_>) -> Option<Reason>
    ensures { option_map reason_view result
        ≡ spec.placeholder_fault (arity_kind arity.entry) (arity_placeholder arity.entry) }
{
    let placeholder = match arity {
        Arity::Zero => return None,
        Arity::One(placeholder) | Arity::Optional(placeholder) | Arity::Several(placeholder) => {
            placeholder.as_bytes()
        }
    };
    match placeholder {
        [] | [b'-' | b'=', ..] => Some(Reason::BadPlaceholder),
        _ => None,
    }
}

// Whether this can be in a list.
fn is_listable(value: &str) -> bool
    ensures { result ≡ spec.is_listable value.now }
{
    match value.as_bytes() {
        [] | [b'-' | b'=', ..] => false,
        _ => !has_blank_or_control(value),
    }
}

// Whether each of these can be in a list.
fn are_listable(values: &[&str]) -> bool
    ensures { result ≡ list_all (λ value. spec.is_listable value.now) values.now }
{
    values.iter().all(|value| is_listable(value))
}

// What is wrong with a list, if there is one.
fn list_fault(words: Words<'_>) -> Option<Reason>
    ensures { option_map reason_view result ≡ spec.list_fault (words_view words.entry) }
{
    match words {
        Words::Files | Words::Directories | Words::Text => None,
        Words::Listed(values) => {
            if values.is_empty() {
                return Some(Reason::BadList);
            }
            if are_listable(values) {
                None
            } else {
                Some(Reason::BadList)
            }
        }
    }
}

// Whether a value is in this list.
fn is_listed(values: &[&str], value: &str) -> bool
    ensures { result ≡ list_any (λ own. pointwise ◌==◌ own.now value.now) values.now }
{
    values.iter().any(|own| own.as_bytes() == value.as_bytes())
}

// Whether a value is accepted: whether it is in the list, if there is one.
fn accepts(words: Words<'_>, value: &str) -> bool
    ensures { result ≡ spec.accepts (words_view words.entry) value.now }
{
    match words {
        Words::Listed(values) => is_listed(values, value),
        Words::Files | Words::Directories | Words::Text => true,
    }
}

// Whether an option can have this default.
fn is_default<F, V, M, S>(option: &Declared<'_, F, V, M, S>, value: &str) -> bool
    ensures { result ≡ spec.is_default (kind_of option.now.kind) option.now.required
        (words_view option.now.words) value.now }
{
    if option.required {
        return false;
    }
    match option.kind {
        Kind::Value(_, _) => accepts(option.words, value),
        _ => false,
    }
}

// What is wrong with the default of an option, if it has one.
fn default_fault<F, V, M, S>(option: &Declared<'_, F, V, M, S>) -> Option<Reason>
    ensures { option_map reason_view result ≡ spec.default_fault (option_view option.now) }
{
    let Some(default) = option.default else {
        return None;
    };
    if is_default(option, default) {
        None
    } else {
        Some(Reason::BadDefault)
    }
}

// Whether an option has one of these names.
fn has_one_of<F, V, M, S>(option: &Declared<'_, F, V, M, S>, names: Names<'_>) -> bool
    ensures { result
        ≡ spec.share (names_list names.entry) (spec.all_names (option_view option.now)) }
{
    names.shares(option.names) || has_alias(option, names)
}

// Whether a further name of an option is a name of the other.
fn shares_alias<F, V, M, S>(
    option: &Declared<'_, F, V, M, S>,
    other: &Declared<'_, F, V, M, S>,
) -> bool
    ensures { result
        ≡ list_any (λ a. spec.share (names_list a) (spec.all_names (option_view other.now)))
        option.now.aliases.now }
{
    option.aliases.iter().any(|names| has_one_of(other, *names))
}

// Whether two options have a name in common.
fn shares_name<F, V, M, S>(
    option: &Declared<'_, F, V, M, S>,
    other: &Declared<'_, F, V, M, S>,
) -> bool
    ensures { result ≡ spec.shares_name (option_view option.now) (option_view other.now) }
{
    has_one_of(other, option.names) || shares_alias(option, other)
}

// Whether an option has a name in common with one of these.
fn any_shares_name<F, V, M, S>(
    option: &Declared<'_, F, V, M, S>,
    others: &[Declared<'_, F, V, M, S>],
) -> bool
    ensures { result
        ≡ list_any (λ o. spec.shares_name (option_view option.now) (option_view o)) others.now }
{
    others.iter().any(|other| shares_name(option, other))
}

// Whether an option is a flag whose label shows nothing beside its own names.
fn is_plain_flag<F, V, M, S>(option: &Declared<'_, F, V, M, S>) -> bool
    ensures { result ≡ spec.is_plain_flag (option_view option.now) }
{
    matches!(option.kind.arity(), Arity::Zero) && matches!(option.beside, Beside::Nothing)
}

// Whether an option is such a flag with this character.
fn is_short_flag<F, V, M, S>(option: &Declared<'_, F, V, M, S>, character: char) -> bool
    ensures { result ≡ (spec.is_plain_flag (option_view option.now)
        && spec.has_name (table.short character) (option_view option.now)) }
{
    is_plain_flag(option) && has_short(option, character)
}

// Whether an option is such a flag, and is the negation of this long name.
fn is_negation<F, V, M, S>(option: &Declared<'_, F, V, M, S>, name: &str) -> bool
    ensures { result ≡ (spec.is_plain_flag (option_view option.now)
        && spec.has_name (table.long (spec.negated name.now)) (option_view option.now)) }
{
    is_plain_flag(option) && has_negation(option, name)
}

// Whether one of these is such a flag with this character.
fn any_short_flag<F, V, M, S>(options: &[Declared<'_, F, V, M, S>], character: char) -> bool
    ensures { result ≡ list_any (λ o. spec.is_plain_flag (option_view o)
        && spec.has_name (table.short character) (option_view o)) options.now }
{
    options
        .iter()
        .any(|option| is_short_flag(option, character))
}

// Whether one of these is such a flag, and is the negation of this long name.
fn any_negation<F, V, M, S>(options: &[Declared<'_, F, V, M, S>], name: &str) -> bool
    ensures { result ≡ list_any (λ o. spec.is_plain_flag (option_view o)
        && spec.has_name (table.long (spec.negated name.now)) (option_view o)) options.now }
{
    options.iter().any(|option| is_negation(option, name))
}

// Whether one of these is the flag that the label of an option with these names shows.
fn have_flag<F, V, M, S>(
    options: &[Declared<'_, F, V, M, S>],
    beside: Beside,
    names: Names<'_>,
) -> bool
    ensures { result ≡ spec.have_flag (map option_view options.now)
        (spec.name_beside (beside_view beside) (short_name names.entry) (long_name names.entry)) }
{
    match beside {
        Beside::Flag(character) => match names {
            Names::Long(_) => any_short_flag(options, character),
            _ => false,
        },
        Beside::Negation => match names.long() {
            Some(name) => any_negation(options, name),
            None => false,
        },
        Beside::Nothing => false,
    }
}

// What is wrong with the label of an option after these options.
fn label_fault<F, V, M, S>(
    before: &[Declared<'_, F, V, M, S>],
    beside: Beside,
    names: Names<'_>,
) -> Option<Reason>
    ensures { option_map reason_view result
        ≡ spec.label_fault (map option_view before.now) (beside_view beside)
        (spec.name_beside (beside_view beside) (short_name names.entry) (long_name names.entry)) }
{
    match beside {
        Beside::Nothing => None,
        Beside::Flag(_) | Beside::Negation => {
            if have_flag(before, beside, names) {
                None
            } else {
                Some(Reason::BadLabel)
            }
        }
    }
}

// What is wrong with an option that is in this exclusive group.
fn exclusive_fault(is_required: bool, exclusive: Option<&str>) -> Option<Reason>
    ensures { option_map reason_view result
        ≡ spec.exclusive_fault is_required (option_map (λ own. own.now) exclusive.entry) }
{
    if is_required && exclusive.is_some() {
        return Some(Reason::BadExclusive);
    }
    None
}

// What is wrong with an option after these options.
fn fault<F, V, M, S>(
    before: &[Declared<'_, F, V, M, S>],
    option: &Declared<'_, F, V, M, S>,
) -> Option<Reason>
    ensures { option_map reason_view result
        ≡ spec.fault (map option_view before.now) (option_view option.now) }
{
    if let Some(reason) = all_names_fault(option) {
        return Some(reason);
    }
    if let Some(reason) = placeholder_fault(option.kind.arity()) {
        return Some(reason);
    }
    if let Some(reason) = list_fault(option.words) {
        return Some(reason);
    }
    if let Some(reason) = default_fault(option) {
        return Some(reason);
    }
    if let Some(reason) = label_fault(before, option.beside, option.names) {
        return Some(reason);
    }
    if let Some(reason) = exclusive_fault(option.required, option.exclusive) {
        return Some(reason);
    }
    if any_shares_name(option, before) {
        return Some(Reason::SameName);
    }
    None
}

// The names of the first option that cannot be declared after those before it, and the reason.
fn first_fault<'a, F, V, M, S>(
    options: &'a [Declared<'a, F, V, M, S>],
) -> Option<(Names<'a>, Reason)>
    ensures { MatchOption result (is_sound (map option_view options.now) ≡ true)
        (λ fault. IsOptionError options.now fault.0 fault.1) }
{
    for (index, option) in options.iter().enumerate() {
        if let Some(reason) = fault(&options[..index], option) {
            return Some((option.names, reason));
        }
    }
    None
}

// The placeholder of the second positional that may occur more than once.
fn second_repeated<'a, P>(positionals: &'a [Positional<'a, P>]) -> Option<&'a str>
    ensures { MatchOption result (are_clear (map positional_view positionals.now) ≡ true)
        (IsPositionalError positionals.now) }
{
    let mut repeated = false;
    for positional in positionals {
        if may_repeat(positional) {
            if repeated {
                return Some(positional.placeholder);
            }
            repeated = true;
        }
    }
    None
}

// The placeholder of the first positional whose list cannot be declared.
fn first_bad_list<'a, P>(positionals: &'a [Positional<'a, P>]) -> Option<&'a str>
    ensures { MatchOption result (are_listable (map positional_view positionals.now) ≡ true)
        (IsListError positionals.now) }
{
    for argument in positionals {
        if list_fault(argument.words).is_some() {
            return Some(argument.placeholder);
        }
    }
    None
}

// The first fault of a declaration: the first option that cannot be declared after those before it;
// otherwise the second positional that may occur more than once; otherwise the first positional
// whose list cannot be declared.
fn declaration_fault<'a, F, V, P, M, S>(
    declaration: &'a Declaration<'a, F, V, P, M, S>,
) -> Option<DeclarationError<'a>>
    ensures { MatchOption result
        ((is_sound (map option_view declaration.now.options.now) ≡ true)
        × (are_clear (map positional_view declaration.now.positionals.now) ≡ true)
        × (are_listable (map positional_view declaration.now.positionals.now) ≡ true))
        (IsDeclarationError declaration.now) }
{
    if let Some((option, reason)) = first_fault(declaration.options) {
        return Some(DeclarationError::Option { option, reason });
    }
    if let Some(placeholder) = second_repeated(declaration.positionals) {
        return Some(DeclarationError::Positional(placeholder));
    }
    match first_bad_list(declaration.positionals) {
        Some(placeholder) => Some(DeclarationError::BadList(placeholder)),
        None => None,
    }
}

/// Returns the options of a declaration that is known only when the program runs.
///
/// `Options::new` takes one that is known when the program is built, and cannot fail.
///
/// # Errors
///
/// The error is the first of these that applies:
///
/// - [`DeclarationError::Option`] has the names of the first option that cannot be declared after
///   those before it, and the reason.
/// - [`DeclarationError::Positional`] has the placeholder of the second positional that may occur
///   more than once.
/// - [`DeclarationError::BadList`] has the placeholder of the first positional whose list of words
///   cannot be declared.
///
/// # Examples
///
/// ```rust
/// match try_options(&DECLARATION) {
///     Ok(options) => rt.print(options.help(alloc, Detail::Full, WIDTH)?)?,
///     // If two options have the name `output`, this prints:
///     // pack: option '--output': an option before it has one of its names
///     Err(error) => eprintln!(rt; "pack: {error}")?,
/// }
/// ```
#[tactic(auto, using(lexopt_options_spec::proofs::Declarable::sound_declarable))]
pub fn try_options<'a, F, V, P, M, S>(
    declaration: &'a Declaration<'a, F, V, P, M, S>,
) -> Result<Options<'a, F, V, P, M, S>, DeclarationError<'a>>
    ensures { MatchResult result
        (λ options. (declaration_of options ≡ declaration_view declaration.now)
        × (options_of options ≡ declaration.now.options.now)
        × (positionals_of options ≡ declaration.now.positionals.now))
        (IsDeclarationError declaration.now) }
{
    if let Some(error) = declaration_fault(declaration) {
        return Err(error);
    }
    are_text(declaration.options);
    Ok(Options::new(declaration))
}

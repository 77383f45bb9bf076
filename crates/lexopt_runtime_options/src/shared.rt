//! A group of options that several declarations share, with keys of its own.
ghost use Rattle.std.specs.Prelude.{◌≡◌, [], IfOk};
ghost use Rattle.std.specs.List.{flat_map};
ghost use Rattle.lexopt_declaration.specs.Declarations.{declaration_view};
ghost use Rattle.lexopt_runtime_options.specs.Shared.{own_kind, own_part, shared_kind};
ghost use Rattle.lexopt_runtime_options.specs.Shared.{shared_part, sorted, with_kind};

use lexopt_declaration::declaration::{Declaration, Declared, Kind};
use lexopt_options::Parsed;
use std::alloc::{AllocError, Global};
use std::convert::Infallible;

/// The key of an option where a declaration has options of its own and those of a group that it
/// shares with others.
#[derive(Debug, PartialEq, Eq)]
pub enum Key<F, G> {
    /// An option of its own: its key in the declaration.
    Own(F),
    /// An option of the group: its key in the group.
    Shared(G),
}

impl<F: Copy, G: Copy> Clone for Key<F, G> {
    ghost use Rattle.std.specs.Prelude.{◌≡◌, ⊤};

    ghost is_clone = { λ own copy. copy ≡ own };

    ghost is_infallible = { λ _. ⊤ };

    fn clone(&self) -> Result<Self, AllocError> {
        Ok(match self {
            Key::Own(key) => Key::Own(*key),
            Key::Shared(key) => Key::Shared(*key),
        })
    }
}

impl<F: Copy, G: Copy> Copy for Key<F, G> {}

/// The kind of an option of the declaration's own.
pub(crate) fn own_kind<'a, F: Copy, V: Copy, M: Copy, S: Copy, G, W, N, T>(
    kind: &Kind<'a, F, V, M, S>,
) -> Kind<'a, Key<F, G>, Key<V, W>, Key<M, N>, Key<S, T>>
    ensures { result ≡ own_kind kind.now }
{
    match kind {
        Kind::Flag(key) => Kind::Flag(Key::Own(*key)),
        Kind::Value(key, placeholder) => Kind::Value(Key::Own(*key), placeholder),
        Kind::Maybe(key, placeholder) => Kind::Maybe(Key::Own(*key), placeholder),
        Kind::Values(key, placeholder) => Kind::Values(Key::Own(*key), placeholder),
        Kind::Help => Kind::Help,
        Kind::BriefHelp => Kind::BriefHelp,
        Kind::Version(text) => Kind::Version(text),
    }
}

/// The kind of an option of the group.
pub(crate) fn shared_kind<'a, F, V, M, S, G: Copy, W: Copy, N: Copy, T: Copy>(
    kind: &Kind<'a, G, W, N, T>,
) -> Kind<'a, Key<F, G>, Key<V, W>, Key<M, N>, Key<S, T>>
    ensures { result ≡ shared_kind kind.now }
{
    match kind {
        Kind::Flag(key) => Kind::Flag(Key::Shared(*key)),
        Kind::Value(key, placeholder) => Kind::Value(Key::Shared(*key), placeholder),
        Kind::Maybe(key, placeholder) => Kind::Maybe(Key::Shared(*key), placeholder),
        Kind::Values(key, placeholder) => Kind::Values(Key::Shared(*key), placeholder),
        Kind::Help => Kind::Help,
        Kind::BriefHelp => Kind::BriefHelp,
        Kind::Version(text) => Kind::Version(text),
    }
}

/// The same option with this kind, and so with other keys.
pub(crate) fn with_kind<'a, F, V, M, S, G, W, N, T>(
    option: &Declared<'a, F, V, M, S>,
    kind: Kind<'a, G, W, N, T>,
) -> Declared<'a, G, W, N, T>
    ensures { result ≡ with_kind option.now kind.entry }
{
    Declared {
        names: option.names,
        kind,
        help: option.help,
        details: option.details,
        heading: option.heading,
        hidden: option.hidden,
        required: option.required,
        default: option.default,
        exclusive: option.exclusive,
        words: option.words,
        hides_list: option.hides_list,
        aliases: option.aliases,
        beside: option.beside,
    }
}

/// The declaration without its options, for options with other keys.
pub(crate) fn frame_of<'a, F, V, P, M, S, G, W, N, T>(
    declaration: &Declaration<'a, F, V, P, M, S>,
) -> Declaration<'a, G, W, P, N, T>
    ensures view { declaration_view result ≡ record (declaration_view declaration.now) {
      options = [];
    } }
    ensures positionals { result.positionals.now ≡ declaration.now.positionals.now }
{
    Declaration {
        program: declaration.program,
        about: declaration.about,
        usage: declaration.usage,
        options: &[],
        positionals: declaration.positionals,
        epilogue: declaration.epilogue,
        short_equals: declaration.short_equals,
    }
}

// What was read, with the key that it has in the declaration or in the group.
fn sorted<F, V, P, M, S, G, W, N, T>(
    parsed: Parsed<Key<F, G>, Key<V, W>, P, Key<M, N>, Key<S, T>>,
) -> Key<Parsed<F, V, P, M, S>, Parsed<G, W, Infallible, N, T>>
    ensures { result ≡ sorted parsed }
{
    match parsed {
        Parsed::Flag(key) => match key {
            Key::Own(key) => Key::Own(Parsed::Flag(key)),
            Key::Shared(key) => Key::Shared(Parsed::Flag(key)),
        },
        Parsed::Value(key, value) => match key {
            Key::Own(key) => Key::Own(Parsed::Value(key, value)),
            Key::Shared(key) => Key::Shared(Parsed::Value(key, value)),
        },
        Parsed::Maybe(key, value) => match key {
            Key::Own(key) => Key::Own(Parsed::Maybe(key, value)),
            Key::Shared(key) => Key::Shared(Parsed::Maybe(key, value)),
        },
        Parsed::Values(key, values) => match key {
            Key::Own(key) => Key::Own(Parsed::Values(key, values)),
            Key::Shared(key) => Key::Shared(Parsed::Values(key, values)),
        },
        Parsed::Positional(key, word) => Key::Own(Parsed::Positional(key, word)),
    }
}

/// Returns the options of the declaration's own and the positionals of a line, and then those of
/// the group that it shares, each in the order of the line.
///
/// # Errors
///
/// Returns `AllocError` if an allocation fails.
///
/// # Examples
///
/// With the declaration of [`Combined::with_shared`](crate::Combined::with_shared):
///
/// ```rust
/// match options.answer(alloc, words, WIDTH)? {
///     Answer::Parsed(line) => {
///         // For `-v --count=3`, `own` is Value(Count, "3"), and `shared` is Flag(Verbose).
///         let (own, shared) = split_shared(alloc, line)?;
///     }
///     Answer::Text(text) => rt.print(text)?,
///     Answer::Refused(refused) => rt.eprintln(refused)?,
/// }
/// ```
pub fn split_shared<
    F: Copy,
    V: Copy,
    P: Copy,
    M: Copy,
    S: Copy,
    G: Copy,
    W: Copy,
    N: Copy,
    T: Copy,
>(
    alloc: Global,
    line: Vec<Parsed<Key<F, G>, Key<V, W>, P, Key<M, N>, Key<S, T>>>,
) -> Result<
    (
        Vec<Parsed<F, V, P, M, S>>,
        Vec<Parsed<G, W, Infallible, N, T>>,
    ),
    AllocError,
>
    ensures { IfOk result (λ split. (split.0.items ≡ flat_map own_part line.items)
        × (split.1.items ≡ flat_map shared_part line.items)) }
{
    let mut own = Vec::new(alloc);
    let mut shared = Vec::new(alloc);
    for parsed in line {
        match sorted(parsed) {
            Key::Own(parsed) => own.push(parsed)?,
            Key::Shared(parsed) => shared.push(parsed)?,
        }
    }
    Ok((own, shared))
}

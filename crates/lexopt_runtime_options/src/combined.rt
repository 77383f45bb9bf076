//! A declaration whose options are in several groups, or that shares a group with others.
ghost use Rattle.std.specs.Prelude.{◌≡◌, ◌++◌, IfOk, None, map, true};
ghost use Rattle.lexopt_options_spec.specs.Declarable.{first_fault};
ghost use Rattle.lexopt_options_spec.specs.Declaration.{are_clear, are_listable};
ghost use Rattle.lexopt_declaration.specs.Declarations.{declaration_view};
ghost use Rattle.lexopt_declaration.specs.Models.{option_view, positional_view};

use crate::shared::{Key, frame_of, own_kind, shared_kind, with_kind};
use lexopt_declaration::declaration::{Declaration, Declared, Group};
use std::alloc::{AllocError, Global};
use std::convert::Infallible;

/// A declaration with the options of several groups.
///
/// The prover goes through all of a static in each function that names it, at a cost that grows
/// with the square of its texts, and it stops at its step limit somewhere between 120 and 140
/// options. So a program with more than a hundred declares them in groups of some thirty, each a
/// static of its own. [`Combined::new`] puts the groups together, [`Combined::with_shared`] puts a
/// group that several declarations share behind the options of one, and [`Combined::declaration`]
/// returns a declaration with all of the options.
///
/// # Examples
///
/// With two groups of options, `SEARCH` and `OUTPUT`, and a declaration of what is not in a group:
///
/// ```rust
/// let combined = Combined::new(alloc, &DECLARATION, &[SEARCH, OUTPUT])?;
/// let declaration = combined.declaration();
/// let options = Options::new(&declaration);
/// ```
#[derive(Drop)]
pub struct Combined<'a, F, V = Infallible, P = Infallible, M = Infallible, S = Infallible> {
    // What is declared beside the options. Its own options are not read.
    frame: Declaration<'a, F, V, P, M, S>,
    options: Vec<Declared<'a, F, V, M, S>>,
    ghost sound: { first_fault (map option_view options.items) ≡ None },
    ghost clear: { are_clear (map positional_view frame.positionals.now) ≡ true },
    ghost listable: { are_listable (map positional_view frame.positionals.now) ≡ true },
}

impl<'a, F: Copy, V: Copy, P, M: Copy, S: Copy> Combined<'a, F, V, P, M, S> {
    ghost use Rattle.lexopt_runtime_options.specs.Combined.{all_options, declaration_of};
    ghost use Rattle.lexopt_runtime_options.specs.Combined.{options_of, positionals_of, with_options};
    ghost use Rattle.lexopt_runtime_options.specs.Shared as shared;

    /// Returns the declaration with its own options, and then those of each group, in order.
    ///
    /// The prover computes for statics and constants that all of this can be declared together. So
    /// `rt check` refuses a program with a faulty declaration. If an option is at fault, the
    /// message of `rt check` has its index among all options, counted from 0, and the reason.
    ///
    /// # Errors
    ///
    /// Returns `AllocError` if there is no memory for a list of the options.
    pub fn new(
        alloc: Global,
        declaration: &'a Declaration<'a, F, V, P, M, S>,
        groups: &[Group<'a, F, V, M, S>],
    ) -> Result<Combined<'a, F, V, P, M, S>, AllocError>
        requires options { first_fault (map option_view (all_options declaration.now groups.now))
            ≡ None }
        requires positionals { are_clear (map positional_view declaration.now.positionals.now)
            ≡ true }
        requires lists { are_listable (map positional_view declaration.now.positionals.now) ≡ true }
        ensures { IfOk result (λ made. (options_of made ≡ all_options declaration.now groups.now)
            × (positionals_of made ≡ declaration.now.positionals.now)
            × (declaration_of made
            ≡ with_options declaration.now (all_options declaration.now groups.now))) }
    {
        let mut options = Vec::new(alloc);
        options.extend_from_slice(declaration.options)?;
        for group in groups {
            options.extend_from_slice(group.options)?;
        }
        Ok(Combined {
            frame: *declaration,
            options,
        })
    }

    /// Returns the declaration with its own options, and then those of a group that it shares with
    /// other declarations, where the group has types of keys of its own.
    ///
    /// The options of the declaration have the keys `Key::Own(..)`, and those of the group
    /// `Key::Shared(..)`. [`split_shared`](crate::split_shared) takes what is read apart again, so
    /// that one function of the program can read the options of the group, whichever declaration
    /// shares it. The general options of a program that are to be accepted after the name of a
    /// command too are such a group of the general declaration and of that command's. To share two
    /// groups, share the second one with the declaration that the first call has made.
    ///
    /// The prover computes for statics and constants that all of this can be declared together. So
    /// `rt check` refuses a program with a faulty declaration. If an option is at fault, the
    /// message of `rt check` has its index among all options, counted from 0, and the reason.
    ///
    /// # Errors
    ///
    /// Returns `AllocError` if there is no memory for a list of the options.
    ///
    /// # Examples
    ///
    /// With a declaration `LOG` and a group `TELLING` of options:
    ///
    /// ```rust
    /// let combined = Combined::with_shared(alloc, &LOG, TELLING)?;
    /// let declaration = combined.declaration();
    /// let options = Options::new(&declaration);
    /// ```
    pub fn with_shared<G: Copy, W: Copy, N: Copy, T: Copy>(
        alloc: Global,
        declaration: &Declaration<'a, F, V, P, M, S>,
        group: Group<'a, G, W, N, T>,
    ) -> Result<Combined<'a, Key<F, G>, Key<V, W>, P, Key<M, N>, Key<S, T>>, AllocError>
        requires options { first_fault (map option_view declaration.now.options.now
            ++ map option_view group.options.now) ≡ None }
        requires positionals { are_clear (map positional_view declaration.now.positionals.now)
            ≡ true }
        requires lists { are_listable (map positional_view declaration.now.positionals.now) ≡ true }
        ensures { IfOk result (λ made. (options_of made ≡ shared.all_options declaration.now group.entry)
            × (positionals_of made ≡ declaration.now.positionals.now)
            × (declaration_of made
            ≡ with_options declaration.now (shared.all_options declaration.now group.entry))) }
    {
        let mut options = Vec::new(alloc);
        for option in declaration.options {
            options.push(with_kind(option, own_kind(&option.kind)))?;
        }
        for option in group.options {
            options.push(with_kind(option, shared_kind(&option.kind)))?;
        }
        Ok(Combined {
            frame: frame_of(declaration),
            options,
        })
    }

    /// Returns the whole declaration, for `Options::new`.
    pub fn declaration(&self) -> Declaration<'_, F, V, P, M, S>
        ensures view { declaration_view result ≡ declaration_of self.now }
        ensures options { result.options.now ≡ options_of self.now }
        ensures positionals { result.positionals.now ≡ positionals_of self.now }
        ensures sound { first_fault (map option_view result.options.now) ≡ None }
        ensures clear { are_clear (map positional_view result.positionals.now) ≡ true }
        ensures listable { are_listable (map positional_view result.positionals.now) ≡ true }
    {
        Declaration {
            options: &self.options,
            ..self.frame
        }
    }
}

//! A declaration that was checked, and what every reading of a line needs to know of it.
ghost use Rattle.std.specs.Prelude.{◌≡◌, true, map};
ghost use Rattle.std.specs.List.{list_any};
ghost use Rattle.std.specs.Option.{is_some};
ghost use Rattle.lexopt_options_spec.specs.Declaration.{are_clear, are_listable, is_sound};
ghost use Rattle.lexopt_options_spec.specs.Legal as legal;
ghost use Rattle.lexopt_options_spec.specs.Places as places;
ghost use Rattle.lexopt_options.specs.Taken.{has_list};
ghost use Rattle.lexopt_declaration.specs.Models.{option_view, positional_view};

use crate::taken::any_has_list;
use lexopt_declaration::declaration::{Declaration, Declared, Positional, are_text};
use lexopt_declaration::help;
use lexopt_declaration::help::Detail;
use lexopt_declaration::positionals::{least_of, most_of};
use std::alloc::{AllocError, Global};
use std::convert::Infallible;

/// A declaration whose options and positionals can all be declared together.
///
/// [`Options::new`] makes it, and so does `try_options` of `lexopt_runtime_options`. It borrows the
/// declaration and is `Copy`. The types of keys are those of [`Declaration`].
pub struct Options<'a, F, V = Infallible, P = Infallible, M = Infallible, S = Infallible> {
    declaration: &'a Declaration<'a, F, V, P, M, S>,
    // The name of the program: that of the declaration, or the path of a command.
    program: &'a str,
    // What the end of each line is checked for, computed once.
    least: usize,
    most: Option<usize>,
    has_lists: bool,
    has_required: bool,
    has_defaults: bool,
    has_exclusive: bool,
    ghost sound: { is_sound (map option_view declaration.now.options.now) ≡ true },
    ghost clear: { are_clear (map positional_view declaration.now.positionals.now) ≡ true },
    ghost listable: { are_listable (map positional_view declaration.now.positionals.now) ≡ true },
    ghost least_is: { least ≡ places.least (map positional_view declaration.now.positionals.now) },
    ghost most_is: { most ≡ legal.most (map positional_view declaration.now.positionals.now) },
    ghost lists: { has_lists
        ≡ list_any (λ p. has_list p) declaration.now.positionals.now },
    ghost required: { has_required
        ≡ list_any (λ o. o.required) declaration.now.options.now },
    ghost defaults: { has_defaults
        ≡ list_any (λ o. is_some o.default) declaration.now.options.now },
    ghost exclusive: { has_exclusive
        ≡ list_any (λ o. is_some o.exclusive) declaration.now.options.now },
}

// Whether this option is required.
fn is_required<F, V, M, S>(option: &Declared<'_, F, V, M, S>) -> bool
    ensures { result ≡ option.now.required }
{
    option.required
}

// Whether one of these options is required.
fn any_is_required<F, V, M, S>(options: &[Declared<'_, F, V, M, S>]) -> bool
    ensures { result ≡ list_any (λ o. o.required) options.now }
{
    options.iter().any(|option| is_required(option))
}

// Whether this option has a default.
fn has_default<F, V, M, S>(option: &Declared<'_, F, V, M, S>) -> bool
    ensures { result ≡ is_some option.now.default }
{
    option.default.is_some()
}

// Whether one of these options has a default.
fn any_has_default<F, V, M, S>(options: &[Declared<'_, F, V, M, S>]) -> bool
    ensures { result ≡ list_any (λ o. is_some o.default) options.now }
{
    options.iter().any(|option| has_default(option))
}

// Whether other options may exclude this one.
fn is_exclusive<F, V, M, S>(option: &Declared<'_, F, V, M, S>) -> bool
    ensures { result ≡ is_some option.now.exclusive }
{
    option.exclusive.is_some()
}

// Whether other options may exclude one of these.
fn any_is_exclusive<F, V, M, S>(options: &[Declared<'_, F, V, M, S>]) -> bool
    ensures { result ≡ list_any (λ o. is_some o.exclusive) options.now }
{
    options.iter().any(|option| is_exclusive(option))
}

// Makes `Options` of a declaration that can be declared. It is not inlined, so that the loops of
// `try_options`, which check each option before it, keep their registers.
#[inline(never)]
fn checked<'a, F, V, P, M, S>(
    declaration: &'a Declaration<'a, F, V, P, M, S>,
) -> Options<'a, F, V, P, M, S>
    requires sound { is_sound (map option_view declaration.now.options.now) ≡ true }
    requires clear { are_clear (map positional_view declaration.now.positionals.now) ≡ true }
    requires listable { are_listable (map positional_view declaration.now.positionals.now) ≡ true }
    ensures same { result.declaration.now ≡ declaration.now }
    ensures program { result.program.now ≡ declaration.now.program.now }
{
    Options {
        declaration,
        program: declaration.program,
        least: least_of(declaration.positionals),
        most: most_of(declaration.positionals),
        has_lists: any_has_list(declaration.positionals),
        has_required: any_is_required(declaration.options),
        has_defaults: any_has_default(declaration.options),
        has_exclusive: any_is_exclusive(declaration.options),
    }
}

impl<'a, F, V, P, M, S> Options<'a, F, V, P, M, S> {
    ghost use Rattle.std.specs.Prelude.{◌≡◌, IfOk, None, map, string_bytes, true};
    ghost use Rattle.std.specs.List.{list_any};
    ghost use Rattle.std.specs.Option.{is_some};
    ghost use Rattle.lexopt_options_spec.specs.Legal as legal;
    ghost use Rattle.lexopt_options_spec.specs.Places as places;
    ghost use Rattle.lexopt_options.specs.Taken.{has_list};
    ghost use Rattle.lexopt_options_spec.specs.Declarable.{first_fault};
    ghost use Rattle.lexopt_options_spec.specs.Declaration.{are_clear, are_listable};
    ghost use Rattle.lexopt_options_spec.specs.Declaration.{is_sound};
    ghost use Rattle.lexopt_options_spec.specs.Help.{IsHelp, IsUsage};
    ghost use Rattle.lexopt_declaration.specs.Models.{detail_view, option_view, positional_view};
    ghost use Rattle.lexopt_declaration.specs.Declarations.{declaration_view};
    ghost use Rattle.lexopt_options.specs.Declarations.{declaration_of, options_of, positionals_of};

    /// Returns the options of a declaration that is known when the program is built.
    ///
    /// The prover computes for a constant or a static that all of it can be declared together. So
    /// `rt check` refuses a program with a faulty declaration, and this call cannot fail when a
    /// proved program runs. `DeclarationError` and `Reason` of `lexopt_runtime_options` list the
    /// faults. If an option is at fault, the message of `rt check` has its index, counted from 0,
    /// and the reason.
    ///
    /// A program with more than a hundred options declares them in groups, and combines these by
    /// `Combined` of `lexopt_runtime_options`.
    ///
    /// # Examples
    ///
    /// With the declaration of [`declare!`](crate::declare):
    ///
    /// ```rust
    /// let options = Options::new(&DECLARATION);
    /// ```
    #[tactic(auto, using(lexopt_options_spec::proofs::Declarable::declarable_sound))]
    pub fn new(declaration: &'a Declaration<'a, F, V, P, M, S>) -> Options<'a, F, V, P, M, S>
        requires options { first_fault (map option_view declaration.now.options.now) ≡ None }
        requires positionals { are_clear (map positional_view declaration.now.positionals.now)
            ≡ true }
        requires lists { are_listable (map positional_view declaration.now.positionals.now) ≡ true }
        ensures declaration { declaration_of result ≡ declaration_view declaration.now }
        ensures options { options_of result ≡ declaration.now.options.now }
        ensures positionals { positionals_of result ≡ declaration.now.positionals.now }
    {
        are_text(declaration.options);
        checked(declaration)
    }

    /// Returns whether `=` in a cluster separates an option from its value, as in `-o=file`.
    pub fn has_short_equals(&self) -> bool
        ensures { result ≡ (declaration_of self.now).short_equals }
    {
        self.declaration.short_equals
    }

    /// Returns the same options, for a program of this name.
    ///
    /// Messages, the usage line, the variable by which shells ask and the scripts for shells have
    /// this name in place of the one in the declaration. It is for the options of a command: their
    /// name is the path by which the command was reached, such as `git remote add`.
    ///
    /// # Examples
    ///
    /// ```rust
    /// let options = Options::new(&DECLARATION).with_program("git remote add");
    /// ```
    pub fn with_program(&self, program: &'a str) -> Options<'a, F, V, P, M, S>
        ensures declaration { declaration_of result
            ≡ record (declaration_of self.now) { program = program.now } }
        ensures options { options_of result ≡ options_of self.now }
        ensures positionals { positionals_of result ≡ positionals_of self.now }
    {
        Options {
            declaration: self.declaration,
            program,
            least: self.least,
            most: self.most,
            has_lists: self.has_lists,
            has_required: self.has_required,
            has_defaults: self.has_defaults,
            has_exclusive: self.has_exclusive,
        }
    }

    /// Returns the name of the program.
    pub fn program(&self) -> &'a str
        ensures { result.now ≡ (declaration_of self.now).program }
    {
        self.program
    }

    // The declaration, with the name of the program.
    fn named(&self) -> Declaration<'a, F, V, P, M, S>
        ensures { declaration_view result ≡ declaration_of self.now }
    {
        Declaration {
            program: self.program,
            ..*self.declaration
        }
    }

    /// Returns what the program does, in a sentence or two; maybe the empty text.
    pub fn about(&self) -> &'a str
        ensures { result.now ≡ (declaration_of self.now).about }
    {
        self.declaration.about
    }

    /// Returns what comes after the name in each usage line; the empty slice if the usage line is
    /// generated.
    pub fn usage_texts(&self) -> &'a [&'a str]
        ensures { map (λ text. text.now) result.now ≡ (declaration_of self.now).usage }
    {
        self.declaration.usage
    }

    /// Returns the options, in the order of the declaration.
    pub fn options(&self) -> &'a [Declared<'a, F, V, M, S>]
        ensures same { result.now ≡ options_of self.now }
        ensures view { map option_view result.now ≡ (declaration_of self.now).options }
        ensures sound { is_sound (map option_view result.now) ≡ true }
    {
        self.declaration.options
    }

    /// Returns the positionals, in the order of the declaration.
    pub fn positionals(&self) -> &'a [Positional<'a, P>]
        ensures same { result.now ≡ positionals_of self.now }
        ensures view { map positional_view result.now ≡ (declaration_of self.now).positionals }
        ensures clear { are_clear (map positional_view result.now) ≡ true }
        ensures listable { are_listable (map positional_view result.now) ≡ true }
    {
        self.declaration.positionals
    }

    /// Returns the paragraphs at the end of the help.
    pub fn epilogue(&self) -> &'a [&'a str]
        ensures { map (λ paragraph. paragraph.now) result.now
            ≡ (declaration_of self.now).epilogue }
    {
        self.declaration.epilogue
    }

    // How many positionals a line has to have.
    pub(crate) fn least(&self) -> usize
        ensures { result ≡ places.least (declaration_of self.now).positionals }
    {
        self.least
    }

    // How many positionals a line may have; `None` if there is no limit.
    pub(crate) fn most(&self) -> Option<usize>
        ensures { result ≡ legal.most (declaration_of self.now).positionals }
    {
        self.most
    }

    // Whether one of the positionals has a list.
    pub(crate) fn has_lists(&self) -> bool
        ensures { result ≡ list_any (λ p. has_list p) (positionals_of self.now) }
    {
        self.has_lists
    }

    // Whether one of the options is required.
    pub(crate) fn has_required(&self) -> bool
        ensures { result ≡ list_any (λ o. o.required) (options_of self.now) }
    {
        self.has_required
    }

    // Whether one of the options has a default.
    pub(crate) fn has_defaults(&self) -> bool
        ensures { result ≡ list_any (λ o. is_some o.default) (options_of self.now) }
    {
        self.has_defaults
    }

    // Whether other options may exclude one of the options.
    pub(crate) fn has_exclusive(&self) -> bool
        ensures { result ≡ list_any (λ o. is_some o.exclusive) (options_of self.now) }
    {
        self.has_exclusive
    }

    /// Returns the usage, wrapped to `width` columns: a line, or several, each with a line feed at
    /// its end.
    ///
    /// The usage line has the name of the program; `[OPTION]...` if an option is declared that is
    /// not hidden and has no place of its own; `[--json | --xml]` for options that exclude each other
    /// and are not hidden; each required option that is not hidden; and each positional by its
    /// placeholder: `FILE` if it is required, `[FILE]` if it may be left out, `[FILE]...` for any
    /// number, `FILE...` for at least one. Options are there by their long name if they have one, with
    /// their value.
    ///
    /// If the declaration has texts for the usage, it has a usage line for each of them instead,
    /// with the name and the words of the text. Each but the first begins with `  or:  ` in place
    /// of `Usage: `.
    ///
    /// A usage line that does not fit into `width` columns goes on at column 7 of the next line,
    /// counted from 0. [`Options::help`] describes what a column is.
    ///
    /// # Errors
    ///
    /// Returns `AllocError` if an allocation fails.
    ///
    /// # Examples
    ///
    /// ```rust
    /// let usage = options.usage(alloc, WIDTH)?;
    /// ```
    ///
    /// For the declaration of `example_copy` that is
    ///
    /// ```text
    /// Usage: example_copy [OPTION]... --owner=USER SOURCE... DEST
    /// ```
    pub fn usage(&self, alloc: Global, width: usize) -> Result<String, AllocError>
        ensures { IfOk result
            (λ text. IsUsage width (declaration_of self.now) (string_bytes text)) }
    {
        help::usage(alloc, &self.named(), width)
    }

    /// Returns the help, wrapped to `width` columns: what a program prints for `--help`.
    ///
    /// It has these parts, in this order: the usage; what the program does; an entry for each
    /// positional that has a word in its help text, or a list that is not hidden; an entry for each
    /// option that is not hidden, after its heading if it has one; and, if it is the full help, the
    /// paragraphs of the epilogue that have a word. Entries are in the order of the declaration. An
    /// empty line comes before the first positional, before the first option, before each heading,
    /// and before each paragraph of the epilogue. Each line ends with a line feed.
    ///
    /// The full help has the longer help text of an option, if there is one, in place of the help
    /// text. A list comes after the text, and a default after both, as in `how many [default: 4]`. A
    /// flag or a negation that the label of another option shows has no entry of its own.
    ///
    /// The text of an entry begins at column 24, counted from 0, or at a third of `width` if that
    /// is less: on the line of its label if at least two blanks are between them, otherwise on the
    /// next line. A line takes as many words as fit into `width` columns. No word, no label and no
    /// heading is broken, so a wide word makes a wide line.
    ///
    /// A column is a grapheme cluster, which a person sees as one character. It counts once even if
    /// a terminal gives it two cells. [`WIDTH`](crate::WIDTH) is for a terminal whose width is not
    /// known. Any width gives a help, even 0.
    ///
    /// # Errors
    ///
    /// Returns `AllocError` if an allocation fails.
    ///
    /// # Examples
    ///
    /// ```rust
    /// rt.print(options.help(alloc, Detail::Full, WIDTH)?)?;
    /// ```
    ///
    /// For the declaration of `example_copy` that prints
    ///
    /// ```text
    /// Usage: example_copy [OPTION]... --owner=USER SOURCE... DEST
    /// Prints what it would copy.
    ///
    ///   SOURCE                what to copy
    ///   DEST                  where to
    ///
    ///   -v, --verbose         tell more; twice, still more
    ///   -f, --force           replace a file that is there
    ///   -j, --jobs=COUNT      how many at a time, from 1 to 64
    ///   -o, --owner=USER      who owns the copies
    ///       --backup=WHEN     one of always, never
    ///       --suffix=SUFFIX   what a backup ends with
    ///   -h, --help            print this help and exit
    ///       --version         print the version and exit
    ///
    /// A file is never copied onto itself.
    /// ```
    pub fn help(&self, alloc: Global, detail: Detail, width: usize) -> Result<String, AllocError>
        ensures { IfOk result (λ text.
            IsHelp (detail_view detail) (declaration_of self.now) width (string_bytes text)) }
    {
        help::help(alloc, detail, &self.named(), width)
    }
}

impl<F, V, P, M, S> Clone for Options<'_, F, V, P, M, S> {
    fn clone(&self) -> Result<Self, AllocError> {
        Ok(*self)
    }
}

impl<F, V, P, M, S> Copy for Options<'_, F, V, P, M, S> {}

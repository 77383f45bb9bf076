//! What a program declares: its options and its positionals.
ghost use Rattle.std.specs.Prelude.{◌≡◌, ◌∷◌, [], map};
ghost use Rattle.std.specs.Char.{IsScalar};
ghost use Rattle.std.specs.Str.{IsUtf8};
ghost use Rattle.lexopt_options_spec.specs.Completion.{AreText};
ghost use Rattle.lexopt_declaration.specs.Models.{AreAllText, names_list, option_view};

use crate::message::Escaped;
use lexopt_words::message::write_escaped;
use std::alloc::AllocError;
use std::convert::Infallible;
use std::fmt;

/// The names of an option, without their dashes.
#[derive(Debug, Clone, Copy, PartialEq, Eq)]
pub enum Names<'a> {
    /// A character: `v` for `-v`.
    Short(char),
    /// A name: `verbose` for `--verbose`.
    Long(&'a str),
    /// A character and a name: `v` and `verbose` for `-v` and `--verbose`.
    Both(char, &'a str),
}

impl fmt::Display for Names<'_> {
    ghost use Rattle.std.specs.Prelude.{Some};
    ghost use Rattle.lexopt_declaration.specs.Texts.{names_text};

    ghost output = { λ names. Some (names_text names) };

    /// Writes the option with its dashes: by its long name if it has one, otherwise by its
    /// character. Characters that a terminal may act on are escaped.
    fn fmt<W: fmt::Write>(&self, f: &mut fmt::Formatter<W>) -> fmt::Result {
        match self {
            Names::Short(character) => {
                f.write_str("-")?;
                write_escaped(*character, f)
            }
            Names::Long(name) | Names::Both(_, name) => {
                let name = Escaped(name);
                write!(f, "--{name}")
            }
        }
    }
}

impl<'a> Names<'a> {
    ghost use Rattle.std.specs.Prelude.{◌≡◌, Some, option_map};
    ghost use Rattle.lexopt_line_spec.specs.Table.{long, short};
    ghost use Rattle.lexopt_options_spec.specs.Declaration.{is_one_of, share};
    ghost use Rattle.lexopt_declaration.specs.Models.{long_name, names_list, short_name};

    /// Returns the character, if there is one.
    pub fn short(self) -> Option<char>
        ensures { result ≡ short_name self.entry }
    {
        match self {
            Names::Short(character) | Names::Both(character, _) => Some(character),
            Names::Long(_) => None,
        }
    }

    /// Returns the name, if there is one.
    pub fn long(self) -> Option<&'a str>
        ensures { option_map (λ name. name.now) result ≡ long_name self.entry }
    {
        match self {
            Names::Long(name) | Names::Both(_, name) => Some(name),
            Names::Short(_) => None,
        }
    }

    /// Returns whether this is its character.
    pub fn is_short(self, character: char) -> bool
        ensures { result ≡ is_one_of (names_list self.entry) (short character) }
    {
        match self {
            Names::Short(own) | Names::Both(own, _) => own == character,
            Names::Long(_) => false,
        }
    }

    /// Returns whether this is its name, without the dashes.
    #[inline(always)]
    pub fn is_long(self, name: &str) -> bool
        ensures { result ≡ is_one_of (names_list self.entry) (long name.now) }
    {
        match self {
            Names::Long(own) | Names::Both(_, own) => own == name,
            Names::Short(_) => false,
        }
    }

    /// Returns whether the others have its character or its name.
    pub fn shares(self, others: Names<'_>) -> bool
        ensures { result ≡ share (names_list self.entry) (names_list others.entry) }
    {
        match self {
            Names::Short(character) => others.is_short(character),
            Names::Long(name) => others.is_long(name),
            Names::Both(character, name) => others.is_short(character) || others.is_long(name),
        }
    }
}

/// How many values an option has, and the placeholder that messages and the help show for a value.
#[derive(Debug, Clone, Copy)]
pub enum Arity<'a> {
    /// No value.
    Zero,
    /// Always one value.
    One(&'a str),
    /// One value, or none.
    Optional(&'a str),
    /// At least one value.
    Several(&'a str),
}

/// What an option is: a flag or an option with values, each with the program's own key, or a
/// request for the help or the version.
///
/// Each kind has its own type of keys: `F` for flags, `V` for options of one value, `M` for those
/// whose value may be left out, `S` for those of several values. Two options may have the same key.
/// Then a program cannot tell them apart, and a message about a key names the first.
#[derive(Debug)]
pub enum Kind<'a, F, V = Infallible, M = Infallible, S = Infallible> {
    /// No value: `-v`, `--verbose`.
    Flag(F),
    /// Always one value, and its placeholder: `-o FILE`, `--output=FILE`.
    Value(V, &'a str),
    /// One value or none, and its placeholder: `-c[WHEN]`, `--color[=WHEN]`.
    Maybe(M, &'a str),
    /// At least one value, and the placeholder of each: `-x PATTERN...`.
    Values(S, &'a str),
    /// No value: asks for the full help.
    Help,
    /// No value: asks for the brief help.
    BriefHelp,
    /// No value: asks for the version, which is this text.
    Version(&'a str),
}

impl<F: Copy, V: Copy, M: Copy, S: Copy> Clone for Kind<'_, F, V, M, S> {
    ghost use Rattle.std.specs.Prelude.{◌≡◌, ⊤};

    ghost is_clone = { λ own copy. copy ≡ own };

    ghost is_infallible = { λ _. ⊤ };

    fn clone(&self) -> Result<Self, AllocError> {
        Ok(match self {
            Kind::Flag(key) => Kind::Flag(*key),
            Kind::Value(key, placeholder) => Kind::Value(*key, placeholder),
            Kind::Maybe(key, placeholder) => Kind::Maybe(*key, placeholder),
            Kind::Values(key, placeholder) => Kind::Values(*key, placeholder),
            Kind::Help => Kind::Help,
            Kind::BriefHelp => Kind::BriefHelp,
            Kind::Version(text) => Kind::Version(text),
        })
    }
}

impl<F: Copy, V: Copy, M: Copy, S: Copy> Copy for Kind<'_, F, V, M, S> {}

impl<'a, F, V, M, S> Kind<'a, F, V, M, S> {
    ghost use Rattle.std.specs.Prelude.{◌≡◌};
    ghost use Rattle.lexopt_declaration.specs.Models.{arity_kind, arity_placeholder, kind_of};
    ghost use Rattle.lexopt_declaration.specs.Models.{placeholder_of};

    /// Returns how many values the option has, and their placeholder.
    pub fn arity(&self) -> Arity<'a>
        ensures kind { arity_kind result ≡ kind_of self.now }
        ensures placeholder { arity_placeholder result ≡ placeholder_of self.now }
    {
        match self {
            Kind::Flag(_) | Kind::Help | Kind::BriefHelp | Kind::Version(_) => Arity::Zero,
            Kind::Value(_, placeholder) => Arity::One(placeholder),
            Kind::Maybe(_, placeholder) => Arity::Optional(placeholder),
            Kind::Values(_, placeholder) => Arity::Several(placeholder),
        }
    }

    /// Returns the placeholder of the value; the empty text for an option without values.
    pub fn placeholder(&self) -> &'a str
        ensures { result.now ≡ placeholder_of self.now }
    {
        match self {
            Kind::Flag(_) | Kind::Help | Kind::BriefHelp | Kind::Version(_) => "",
            Kind::Value(_, placeholder)
            | Kind::Maybe(_, placeholder)
            | Kind::Values(_, placeholder) => placeholder,
        }
    }
}

/// What the values of an option or the words of a positional may be, and how shells complete them.
#[derive(Debug, Clone, Copy)]
pub enum Words<'a> {
    /// Anything. Shells offer the names of files.
    Files,
    /// Anything. Shells offer the names of directories.
    Directories,
    /// Anything. Shells offer nothing.
    Text,
    /// What is in this list, and nothing else. Shells offer it.
    Listed(&'a [&'a str]),
}

/// What the label of an option in the help shows beside its own names.
#[derive(Debug, Clone, Copy, PartialEq, Eq)]
pub enum Beside {
    /// Nothing.
    Nothing,
    /// A flag before it, by this character, as in `-F, --classify[=WHEN]`.
    Flag(char),
    /// Its negation, as in `--[no-]color`: a flag before it, whose name is `no-` and then its own
    /// long name.
    Negation,
}

/// A declared option.
#[derive(Debug)]
pub struct Declared<'a, F, V = Infallible, M = Infallible, S = Infallible> {
    /// Its names.
    pub names: Names<'a>,
    /// What kind of option it is: a flag, an option with values, or a request for the help or the
    /// version.
    pub kind: Kind<'a, F, V, M, S>,
    /// Its help text. The help wraps it at spaces, of which several count as one. Shells show it as
    /// it is, with a space for each control character of ASCII.
    pub help: &'a str,
    /// A longer help text, if there is one, which the full help shows in place of `help`.
    pub details: Option<&'a str>,
    /// The heading in the help, if there is one, for this option and those after it, up to the next
    /// that has one. It is left out with an option that has no entry.
    pub heading: Option<&'a str>,
    /// Whether the help and its usage line leave it out, shells offer its names only where they are
    /// typed whole, and no hint has its long name. Lines may have it all the same.
    pub hidden: bool,
    /// Whether every legal line has it.
    pub required: bool,
    /// The value that it has where a line does not have it, if there is one. Only an option of one
    /// value that is not required may have a default, which has to be a value that it accepts. The
    /// help shows it.
    pub default: Option<&'a str>,
    /// The name of the exclusive group that it is in, if it is in one: a legal line has at most one
    /// of the options of a group. A required option cannot be in one.
    pub exclusive: Option<&'a str>,
    /// What its values may be. The help shows a list, even that of a flag, which has no values.
    pub words: Words<'a>,
    /// Whether the help leaves out the list.
    pub hides_list: bool,
    /// Further names, by which lines may have it too. The help, messages and hints show its own names
    /// only, and shells offer these only where they are typed whole.
    pub aliases: &'a [Names<'a>],
    /// What its label in the help shows beside its own names. An option that the label of another
    /// shows has no entry of its own in the help, unless the other is hidden.
    pub beside: Beside,
}

impl<F: Copy, V: Copy, M: Copy, S: Copy> Clone for Declared<'_, F, V, M, S> {
    ghost use Rattle.std.specs.Prelude.{◌≡◌, ⊤};

    ghost is_clone = { λ own copy. copy ≡ own };

    ghost is_infallible = { λ _. ⊤ };

    fn clone(&self) -> Result<Self, AllocError> {
        Ok(Declared {
            names: self.names,
            kind: self.kind.clone()?,
            help: self.help,
            details: self.details,
            heading: self.heading,
            hidden: self.hidden,
            required: self.required,
            default: self.default,
            exclusive: self.exclusive,
            words: self.words,
            hides_list: self.hides_list,
            aliases: self.aliases,
            beside: self.beside,
        })
    }
}

impl<F: Copy, V: Copy, M: Copy, S: Copy> Copy for Declared<'_, F, V, M, S> {}

/// How often a positional may occur.
#[derive(Debug, Clone, Copy, PartialEq, Eq)]
pub enum Count {
    /// Always once.
    Once,
    /// At most once.
    AtMostOnce,
    /// Any number of times.
    AnyNumber,
    /// At least once.
    AtLeastOnce,
}

/// A declared positional.
#[derive(Debug)]
pub struct Positional<'a, P> {
    /// The program's own key for it.
    pub key: P,
    /// Its placeholder in messages and in the help.
    pub placeholder: &'a str,
    /// How often it may occur.
    pub count: Count,
    /// Its help text, which may be empty. If it has no word, and the help shows no list of the
    /// positional, the help has no entry for it.
    pub help: &'a str,
    /// What its words may be. The help shows a list.
    pub words: Words<'a>,
    /// Whether the help leaves out the list.
    pub hides_list: bool,
}

impl<P: Copy> Clone for Positional<'_, P> {
    ghost use Rattle.std.specs.Prelude.{◌≡◌, ⊤};

    ghost is_clone = { λ own copy. copy ≡ own };

    ghost is_infallible = { λ _. ⊤ };

    fn clone(&self) -> Result<Self, AllocError> {
        Ok(Positional {
            key: self.key,
            placeholder: self.placeholder,
            count: self.count,
            help: self.help,
            words: self.words,
            hides_list: self.hides_list,
        })
    }
}

impl<P: Copy> Copy for Positional<'_, P> {}

/// What a program declares. The macro `declare!` of `lexopt_options` writes it with a line for each
/// option.
///
/// Each option and each positional has the program's own key for it. Each kind has its own type of
/// keys: `F` for flags, `V` for options of one value, `P` for positionals, `M` for options whose
/// value may be left out, `S` for options of several values. The type is `Infallible` if the
/// program has none of that kind.
#[derive(Debug)]
pub struct Declaration<'a, F, V = Infallible, P = Infallible, M = Infallible, S = Infallible> {
    /// The name under which the program is installed.
    ///
    /// Messages, the help, the environment variable by which shells ask and the scripts for shells
    /// have this name, whatever the name is by which the program is called. It should have only
    /// ASCII letters, digits, `-`, `_`, `.` and `+`, since the scripts have it unquoted and in
    /// names of functions. Nothing checks that. In the declaration of a command it is the name of
    /// the command, such as `add`. `Options::with_program` of `lexopt_options` puts the path by
    /// which the command was reached in its place, such as `git add`.
    pub program: &'a str,
    /// What the program does, in a sentence or two; maybe the empty text.
    pub about: &'a str,
    /// What comes after the name in each usage line of the help. If it is empty, the help has one
    /// usage line, which is generated.
    pub usage: &'a [&'a str],
    /// Its options. The help has them in this order.
    pub options: &'a [Declared<'a, F, V, M, S>],
    /// Its positionals, in the order in which lines have them.
    pub positionals: &'a [Positional<'a, P>],
    /// Paragraphs at the end of the help.
    pub epilogue: &'a [&'a str],
    /// Whether `=` in a cluster separates an option from its value, as in `-o=file`.
    pub short_equals: bool,
}

impl<F, V, P, M, S> Clone for Declaration<'_, F, V, P, M, S> {
    ghost use Rattle.std.specs.Prelude.{◌≡◌, ⊤};

    ghost is_clone = { λ own copy. copy ≡ own };

    ghost is_infallible = { λ _. ⊤ };

    fn clone(&self) -> Result<Self, AllocError> {
        Ok(*self)
    }
}

impl<F, V, P, M, S> Copy for Declaration<'_, F, V, P, M, S> {}

/// A group of options, for `Combined::new` of `lexopt_runtime_options`. `declare_group!` of
/// `lexopt_options` makes one.
#[derive(Debug)]
pub struct Group<'a, F, V = Infallible, M = Infallible, S = Infallible> {
    /// Its options.
    pub options: &'a [Declared<'a, F, V, M, S>],
}

impl<F, V, M, S> Clone for Group<'_, F, V, M, S> {
    ghost use Rattle.std.specs.Prelude.{◌≡◌, ⊤};

    ghost is_clone = { λ own copy. copy ≡ own };

    ghost is_infallible = { λ _. ⊤ };

    fn clone(&self) -> Result<Self, AllocError> {
        Ok(*self)
    }
}

impl<F, V, M, S> Copy for Group<'_, F, V, M, S> {}

// States that a character is a Unicode scalar value. This and the functions below do nothing: they
// are there for their clauses.
fn character_is_text(character: char)
    ensures { IsScalar character }
{}

// States that a text is UTF-8.
fn name_is_text(name: &str)
    ensures { IsUtf8 name.now }
{}

// States that these names are text.
fn names_are_text(names: Names<'_>)
    ensures { AreAllText (names_list names.entry) }
{
    match names {
        Names::Short(character) => character_is_text(character),
        Names::Long(name) => name_is_text(name),
        Names::Both(character, name) => {
            character_is_text(character);
            name_is_text(name);
        }
    }
}

// States that the names of an option are text.
#[tactic(auto, using(crate::proofs::OptionNames::all_texts))]
fn option_is_text<F, V, M, S>(option: &Declared<'_, F, V, M, S>)
    ensures { AreText (option_view option.now ∷ []) }
{
    names_are_text(option.names);
    for names in option.aliases {
        names_are_text(*names);
    }
}

/// States that the names of these options are text. It does nothing, and compiles to nothing.
pub fn are_text<F, V, M, S>(options: &[Declared<'_, F, V, M, S>])
    ensures { AreText (map option_view options.now) }
{
    for option in options {
        option_is_text(option);
    }
}

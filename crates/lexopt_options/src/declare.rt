//! `declare!`, `declare_group!` and `declare_option!`: a declaration, a group of options, or one
//! option, with a line for each option.

use lexopt_declaration::declaration::Names;

/// The [`aliases`](crate::Declared::aliases) of an option without any. Beside texts that are made
/// when the program runs, the borrow checker accepts it, but not `&[]`.
pub const NO_ALIASES: &[Names<'static>] = &[];

/// Makes a [`Declaration`](crate::Declaration), as the value of a constant, a static or a local.
///
/// `program` and `options` are required. `about`, `usage`, `positionals`, `epilogue` and
/// `short_equals` may be left out. All of them come in the order of this list:
///
/// - `program` is the name under which the program is installed
///   ([`Declaration::program`](crate::Declaration::program)), or the name of a command.
/// - `about` says what the program does, in a sentence or two.
/// - `usage: ["..", ".."]` has what comes after the name in each usage line of the help, in place
///   of the usage line that is generated.
/// - `options` has a line for each option, as described below.
/// - `positionals` has a line for each positional, as described below.
/// - `epilogue: ["..", ".."]` has paragraphs for the end of the help.
/// - `short_equals: false` makes `=` right after a short option part of its value, so that `-d=`
///   has the value `=`. Otherwise `=` separates a short option from its value, as in `-o=file`.
///
/// A line of `options` is one of these. The key is the program's own value for the option, the
/// names are [`Names`](crate::Names), and the placeholder is what the help shows for a value, such
/// as `FILE`.
///
/// - `flag(key, names, help text)`: an option without values.
/// - `value(key, names, placeholder, help text)`: an option of one value.
/// - `maybe(key, names, placeholder, help text)`: an option whose value may be left out.
/// - `values(key, names, placeholder, help text)`: an option of several values, at least one.
/// - `help(names)`: an option that asks for the full help.
/// - `brief_help(names)`: an option that asks for the brief help, which has neither the longer help
///   texts of options nor the epilogue.
/// - `version(names, text)`: an option that asks for the version, which is this text.
///
/// After that come any of these, in any order:
///
/// - `.hidden()` leaves the option out of the help. Shells offer its names only where they are typed
///   whole, and no hint has its long name.
/// - `.heading("Output options")` begins a group in the help with the line `Output options:`. The
///   group ends before the next option that has a heading. If the option has no entry, the heading is
///   left out with it.
/// - `.details("..")` gives it a longer help text, which the full help has in place of the help text.
/// - `.required()` makes it an option that every line has to have.
/// - `.default("4")` gives an option of one value, which is not required, the value that it has where
///   a line does not have it.
/// - `.exclusive("format")` puts it into the exclusive group of this name: a line has at most one of
///   the options of a group, and after one of them shells do not offer the others. It cannot be
///   required.
/// - `.alias(Names::Long("colour"))` gives it further names, which lines may have like its own. The
///   help, messages and hints show its own names only, and shells offer these only where they are
///   typed whole. Several of these may follow.
/// - `.with_flag('F')` shows a flag before it in its label: `-F, --classify[=WHEN]`, where
///   `flag(key, Names::Short('F'), help text)` comes before an option that has a long name only.
///   The flag then has no entry of its own in the help.
/// - `.with_negation()` shows its negation in its label: `--[no-]color`, where
///   `flag(key, Names::Long("no-color"), help text)` comes before the option `--color`. The negation
///   then has no entry of its own in the help.
/// - `.one_of(&["fast", "slow"])` lists the values that it accepts, which shells offer.
/// - `.hide_list()` leaves that list out of the help.
/// - `.directories()` has shells offer the names of directories for its values.
/// - `.text()` has shells offer nothing for its values.
///
/// Without `.one_of`, `.directories` and `.text`, shells offer the names of files for its values.
/// If there are several of these three, the last one counts.
///
/// A line of `positionals` has a key, a placeholder and a help text, which may be left out:
/// `once(key, placeholder, help text)`, `at_most_once(..)`, `any_number(..)` or
/// `at_least_once(..)`. At most one positional may be declared by `any_number` or `at_least_once`.
/// After it may come `.one_of(..)`, `.hide_list()`, `.directories()` or `.text()`.
///
/// The macro does not check the declaration; [`Options::new`](crate::Options::new) does.
///
/// # Examples
///
/// ```rust
/// use lexopt_options::{Declaration, Names, declare};
///
/// #[derive(Clone, Copy)]
/// enum Flag {
///     Verbose,
/// }
///
/// #[derive(Clone, Copy)]
/// enum Value {
///     Output,
///     Mode,
/// }
///
/// #[derive(Clone, Copy)]
/// enum Word {
///     File,
/// }
///
/// static DECLARATION: Declaration<'static, Flag, Value, Word> = declare! {
///     program: "pack",
///     about: "Packs files.",
///     options: [
///         flag(Flag::Verbose, Names::Both('v', "verbose"), "tell more"),
///         value(Value::Output, Names::Both('o', "output"), "FILE", "the archive").required(),
///         value(Value::Mode, Names::Long("mode"), "MODE", "how").one_of(&["fast", "slow"]),
///         help(Names::Both('h', "help")),
///         version(Names::Long("version"), "pack 1.0"),
///     ],
///     positionals: [at_least_once(Word::File, "FILE", "what to pack")],
/// };
/// ```
///
/// It declares lines such as `-vo out.zip --mode=fast a b`.
#[macro_export]
macro_rules! declare {
    (
        program: $program:expr
        $(, about: $about:expr)?
        $(, usage: [$($usage:expr),* $(,)?])?
        , options: [$($option:ident $given:tt $(.$mark:ident $marked:tt)*),* $(,)?]
        $(, positionals: [
            $($count:ident($key:expr, $placeholder:expr $(, $text:expr)? $(,)?)
                $(.$limit:ident $limited:tt)*),* $(,)?
        ])?
        $(, epilogue: [$($paragraph:expr),* $(,)?])?
        $(, short_equals: $short_equals:expr)?
        $(,)?
    ) => {
        $crate::Declaration {
            program: $program,
            about: $crate::declare!(@or "" $(, $about)?),
            usage: &[$($($usage),*)?],
            options: &[$($crate::declare!(@$option $given $(.$mark $marked)*)),*],
            positionals: &[$($($crate::Positional {
                key: $key,
                placeholder: $placeholder,
                count: $crate::declare!(@$count),
                help: $crate::declare!(@or "" $(, $text)?),
                words: $crate::declare!(@words $crate::Words::Files, $(.$limit $limited)*),
                hides_list: false $(|| $crate::declare!(@hides_list $limit))*,
            }),*)?],
            epilogue: &[$($($paragraph),*)?],
            short_equals: true $(&& $short_equals)?,
        }
    };
    (@flag($key:expr, $names:expr, $help:expr $(,)?) $($mark:tt)*) => {
        $crate::declare!(@option $names, $crate::Kind::Flag($key), $help, $($mark)*)
    };
    (@value($key:expr, $names:expr, $value:expr, $help:expr $(,)?) $($mark:tt)*) => {
        $crate::declare!(@option $names, $crate::Kind::Value($key, $value), $help, $($mark)*)
    };
    (@maybe($key:expr, $names:expr, $value:expr, $help:expr $(,)?) $($mark:tt)*) => {
        $crate::declare!(@option $names, $crate::Kind::Maybe($key, $value), $help, $($mark)*)
    };
    (@values($key:expr, $names:expr, $value:expr, $help:expr $(,)?) $($mark:tt)*) => {
        $crate::declare!(@option $names, $crate::Kind::Values($key, $value), $help, $($mark)*)
    };
    (@help($names:expr $(,)?) $($mark:tt)*) => {
        $crate::declare!(@option $names, $crate::Kind::Help, "print this help and exit", $($mark)*)
    };
    (@brief_help($names:expr $(,)?) $($mark:tt)*) => {
        $crate::declare!(
            @option $names, $crate::Kind::BriefHelp, "print a brief help and exit", $($mark)*
        )
    };
    (@version($names:expr, $version:expr $(,)?) $($mark:tt)*) => {
        $crate::declare!(
            @option $names, $crate::Kind::Version($version), "print the version and exit", $($mark)*
        )
    };
    (@option $names:expr, $kind:expr, $help:expr, $(.$mark:ident $marked:tt)*) => {
        $crate::Declared {
            names: $names,
            kind: $kind,
            help: $help,
            details: $crate::declare!(@details None, $(.$mark $marked)*),
            heading: $crate::declare!(@heading None, $(.$mark $marked)*),
            hidden: false $(|| $crate::declare!(@is_hidden $mark))*,
            required: false $(|| $crate::declare!(@is_required $mark))*,
            default: $crate::declare!(@default None, $(.$mark $marked)*),
            exclusive: $crate::declare!(@exclusive None, $(.$mark $marked)*),
            words: $crate::declare!(@option_words $crate::Words::Files, $(.$mark $marked)*),
            hides_list: false $(|| $crate::declare!(@hides_list $mark))*,
            aliases: $crate::declare!(@aliases [] $(.$mark $marked)*),
            beside: $crate::declare!(@beside $crate::Beside::Nothing, $(.$mark $marked)*),
        }
    };
    (@is_hidden hidden) => { true };
    (@is_hidden $mark:ident) => { false };
    (@is_required required) => { true };
    (@is_required $mark:ident) => { false };
    (@hides_list hide_list) => { true };
    (@hides_list $mark:ident) => { false };
    (@heading $heading:expr,) => { $heading };
    (@heading $heading:expr, .heading($given:expr $(,)?) $($mark:tt)*) => {
        $crate::declare!(@heading Some($given), $($mark)*)
    };
    (@heading $heading:expr, .$mark:ident $marked:tt $($marks:tt)*) => {
        $crate::declare!(@heading $heading, $($marks)*)
    };
    (@details $details:expr,) => { $details };
    (@details $details:expr, .details($given:expr $(,)?) $($mark:tt)*) => {
        $crate::declare!(@details Some($given), $($mark)*)
    };
    (@details $details:expr, .$mark:ident $marked:tt $($marks:tt)*) => {
        $crate::declare!(@details $details, $($marks)*)
    };
    (@default $default:expr,) => { $default };
    (@default $default:expr, .default($given:expr $(,)?) $($mark:tt)*) => {
        $crate::declare!(@default Some($given), $($mark)*)
    };
    (@default $default:expr, .$mark:ident $marked:tt $($marks:tt)*) => {
        $crate::declare!(@default $default, $($marks)*)
    };
    (@exclusive $exclusive:expr,) => { $exclusive };
    (@exclusive $exclusive:expr, .exclusive($given:expr $(,)?) $($mark:tt)*) => {
        $crate::declare!(@exclusive Some($given), $($mark)*)
    };
    (@exclusive $exclusive:expr, .$mark:ident $marked:tt $($marks:tt)*) => {
        $crate::declare!(@exclusive $exclusive, $($marks)*)
    };
    (@beside $beside:expr,) => { $beside };
    (@beside $beside:expr, .with_flag($given:expr $(,)?) $($mark:tt)*) => {
        $crate::declare!(@beside $crate::Beside::Flag($given), $($mark)*)
    };
    (@beside $beside:expr, .with_negation() $($mark:tt)*) => {
        $crate::declare!(@beside $crate::Beside::Negation, $($mark)*)
    };
    (@beside $beside:expr, .$mark:ident $marked:tt $($marks:tt)*) => {
        $crate::declare!(@beside $beside, $($marks)*)
    };
    (@aliases []) => { $crate::NO_ALIASES };
    (@aliases [$($alias:expr),+]) => { &[$($alias),+] };
    (@aliases [$($alias:expr),*] .alias($names:expr $(,)?) $($mark:tt)*) => {
        $crate::declare!(@aliases [$($alias,)* $names] $($mark)*)
    };
    (@aliases [$($alias:expr),*] .$mark:ident $marked:tt $($marks:tt)*) => {
        $crate::declare!(@aliases [$($alias),*] $($marks)*)
    };
    (@option_words $words:expr,) => { $words };
    (@option_words $words:expr, .hidden() $($mark:tt)*) => {
        $crate::declare!(@option_words $words, $($mark)*)
    };
    (@option_words $words:expr, .required() $($mark:tt)*) => {
        $crate::declare!(@option_words $words, $($mark)*)
    };
    (@option_words $words:expr, .heading $marked:tt $($mark:tt)*) => {
        $crate::declare!(@option_words $words, $($mark)*)
    };
    (@option_words $words:expr, .details $marked:tt $($mark:tt)*) => {
        $crate::declare!(@option_words $words, $($mark)*)
    };
    (@option_words $words:expr, .default $marked:tt $($mark:tt)*) => {
        $crate::declare!(@option_words $words, $($mark)*)
    };
    (@option_words $words:expr, .exclusive $marked:tt $($mark:tt)*) => {
        $crate::declare!(@option_words $words, $($mark)*)
    };
    (@option_words $words:expr, .with_flag $marked:tt $($mark:tt)*) => {
        $crate::declare!(@option_words $words, $($mark)*)
    };
    (@option_words $words:expr, .with_negation() $($mark:tt)*) => {
        $crate::declare!(@option_words $words, $($mark)*)
    };
    (@option_words $words:expr, .hide_list() $($mark:tt)*) => {
        $crate::declare!(@option_words $words, $($mark)*)
    };
    (@option_words $words:expr, .alias $names:tt $($mark:tt)*) => {
        $crate::declare!(@option_words $words, $($mark)*)
    };
    (@option_words $words:expr, .$limit:ident $limited:tt $($mark:tt)*) => {
        $crate::declare!(@option_words $crate::declare!(@$limit $limited), $($mark)*)
    };
    (@words $words:expr,) => { $words };
    (@words $words:expr, .hide_list() $($mark:tt)*) => {
        $crate::declare!(@words $words, $($mark)*)
    };
    (@words $words:expr, .$limit:ident $limited:tt $($mark:tt)*) => {
        $crate::declare!(@words $crate::declare!(@$limit $limited), $($mark)*)
    };
    (@directories()) => { $crate::Words::Directories };
    (@text()) => { $crate::Words::Text };
    (@one_of($values:expr $(,)?)) => { $crate::Words::Listed($values) };
    (@once) => { $crate::Count::Once };
    (@at_most_once) => { $crate::Count::AtMostOnce };
    (@any_number) => { $crate::Count::AnyNumber };
    (@at_least_once) => { $crate::Count::AtLeastOnce };
    (@or $default:expr) => { $default };
    (@or $default:expr, $given:expr) => { $given };
}

/// Makes a [`Group`](crate::Group) of options, as the value of a constant, a static or a local.
/// `options` has the lines that it has in [`declare!`](crate::declare).
///
/// # Examples
///
/// With the keys of the example for [`declare!`](crate::declare):
///
/// ```rust
/// use lexopt_options::{Group, Names, declare_group};
///
/// static PACKING: Group<'static, Flag, Value> = declare_group! {
///     options: [
///         flag(Flag::Verbose, Names::Both('v', "verbose"), "tell more"),
///         value(Value::Mode, Names::Long("mode"), "MODE", "how").one_of(&["fast", "slow"]),
///     ],
/// };
/// ```
#[macro_export]
macro_rules! declare_group {
    (options: [$($option:ident $given:tt $(.$mark:ident $marked:tt)*),* $(,)?] $(,)?) => {
        $crate::Group {
            options: &[$($crate::declare!(@$option $given $(.$mark $marked)*)),*],
        }
    };
}

/// Makes one [`Declared`](crate::Declared) of a line that `options` can have in
/// [`declare!`](crate::declare). It is for options that are known only when the program runs.
///
/// # Examples
///
/// With the keys of the example for [`declare!`](crate::declare):
///
/// ```rust
/// use lexopt_options::{Declared, Names, declare_option};
///
/// let name = String::from_str(alloc, "mode")?;
/// let option: Declared<'_, Flag, Value> =
///     declare_option!(value(Value::Mode, Names::Long(&name), "MODE", "how").text());
/// ```
#[macro_export]
macro_rules! declare_option {
    ($option:ident $given:tt $(.$mark:ident $marked:tt)*) => {
        $crate::declare!(@$option $given $(.$mark $marked)*)
    };
}

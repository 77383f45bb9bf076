//! The table of declared options, by which `read_items` and `spell` of the crate `lexopt` know how
//! many values each has. A program that calls `table_of` names `lexopt_options` and `lexopt` too.
//!
//! In the example `alloc` is `rt.alloc()`, where `rt` is the runtime that `main` gets; `Error`,
//! `Options` and `OsString` are those of `lexopt_options`.
#![tactic(auto)]

ghost use Rattle.std.specs.Prelude.{◌≡◌, IfOk, OnOk};
ghost use Rattle.lexopt_options_spec.specs.Declaration as spec;
ghost use Rattle.lexopt_items.specs.Items.{table_view};
ghost use Rattle.lexopt_declaration.specs.Models.{names_list, option_view};
ghost use Rattle.lexopt_option_table.specs.Tables.{AddsNames, AddsOption};
ghost use Rattle.lexopt_options.specs.Declarations.{declaration_of};

use lexopt_items::items::Table;
use lexopt_options::{Declared, Kind, Names, Options};
use std::alloc::{AllocError, Global};

// Adds a character, a long name, or both to these lists.
fn add_names(
    alloc: Global,
    names: Names<'_>,
    shorts: &mut Vec<char>,
    longs: &mut Vec<String>,
) -> Result<(), AllocError>
    ensures { OnOk result (AddsNames (names_list names.entry) shorts.old.items longs.old.items
        shorts.new.items longs.new.items) }
{
    match names {
        Names::Short(character) => shorts.push(character)?,
        Names::Long(name) => longs.push(String::from_str(alloc, name)?)?,
        Names::Both(character, name) => {
            shorts.push(character)?;
            longs.push(String::from_str(alloc, name)?)?;
        }
    }
    Ok(())
}

// Adds all names of an option to these lists.
fn add_all_names<F, V, M, S>(
    alloc: Global,
    option: &Declared<'_, F, V, M, S>,
    shorts: &mut Vec<char>,
    longs: &mut Vec<String>,
) -> Result<(), AllocError>
    ensures { OnOk result (AddsNames (spec.all_names (option_view option.now)) shorts.old.items
        longs.old.items shorts.new.items longs.new.items) }
{
    add_names(alloc, option.names, shorts, longs)?;
    for names in option.aliases {
        add_names(alloc, *names, shorts, longs)?;
    }
    Ok(())
}

// Adds an option to the table. One without values is in no list of it.
fn add_option<F, V, M, S>(
    alloc: Global,
    option: &Declared<'_, F, V, M, S>,
    table: &mut Table,
) -> Result<(), AllocError>
    ensures { OnOk result (AddsOption (option_view option.now) (table_view table.old)
        (table_view table.new)) }
{
    match option.kind {
        Kind::Flag(_) | Kind::Help | Kind::BriefHelp | Kind::Version(_) => Ok(()),
        Kind::Value(_, _) => add_all_names(alloc, option, &mut table.shorts, &mut table.longs),
        Kind::Maybe(_, _) => add_all_names(
            alloc,
            option,
            &mut table.optional_shorts,
            &mut table.optional_longs,
        ),
        Kind::Values(_, _) => add_all_names(
            alloc,
            option,
            &mut table.several_shorts,
            &mut table.several_longs,
        ),
    }
}

/// Returns the table of these options. A flag, and an option that asks for the help or the version,
/// is in no list of it.
///
/// # Errors
///
/// Returns `AllocError` if an allocation fails.
///
/// # Examples
///
/// ```rust
/// use lexopt::replay::{Item, read_items};
/// use lexopt_option_table::table_of;
/// use std::alloc::Global;
///
/// fn items_of<F, V, P, M, S>(
///     alloc: Global,
///     options: &Options<'_, F, V, P, M, S>,
///     words: Vec<OsString>,
/// ) -> Result<Vec<Item>, Error> {
///     let table = table_of(alloc, options)?;
///     read_items(alloc, words, options.has_short_equals(), &table)
/// }
/// ```
pub fn table_of<F, V, P, M, S>(
    alloc: Global,
    options: &Options<'_, F, V, P, M, S>,
) -> Result<Table, AllocError>
    ensures { IfOk result (λ made.
        table_view made ≡ spec.table (declaration_of options.now).options) }
{
    let mut table = Table::new(alloc);
    for option in options.options() {
        add_option(alloc, option, &mut table)?;
    }
    Ok(table)
}

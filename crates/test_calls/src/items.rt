//! The words of items, and a table.
use lexopt_base::OsString;
use lexopt_items::items::Table;
use std::alloc::{AllocError, Global};

/// Whether the words have these bytes, in order.
pub fn are_words(words: &[OsString], wanted: &[&[u8]]) -> bool {
    words.len() == wanted.len()
        && words
            .iter()
            .zip(wanted)
            .all(|(word, bytes)| word.as_bytes() == *bytes)
}

/// A table in which `o` and `out` have one value, `c` and `color` an optional value, and `d` and
/// `cmd` several values.
pub fn table_of_each_kind(alloc: Global) -> Result<Table, AllocError> {
    let mut table = Table::new(alloc);
    add_options(alloc, &mut table)?;
    Ok(table)
}

// Adds a short and a long option of each kind. It is a function of its own for a short proof.
fn add_options(alloc: Global, table: &mut Table) -> Result<(), AllocError> {
    table.shorts.push('o')?;
    table.longs.push(String::from_str(alloc, "out")?)?;
    table.optional_shorts.push('c')?;
    table
        .optional_longs
        .push(String::from_str(alloc, "color")?)?;
    table.several_shorts.push('d')?;
    table.several_longs.push(String::from_str(alloc, "cmd")?)?;
    Ok(())
}

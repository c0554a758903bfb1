//! Words one after the other, tested from left to right.

ghost use Rattle.std.specs.Prelude.{◌≡◌, ◌≤◌, ◌<◌, ◌∷◌, length};
ghost use Rattle.c5_rows.specs.Sizes.{max_columns, max_sum_keys};
ghost use Rattle.c5_definitions.specs.Places.{type_in, key_in, each_in, row_in};
ghost use Rattle.c5_definitions.specs.Steps.{Gives};
ghost use Rattle.c5_script.specs.Words.{held_word, held_words};

use crate::places::{cell, column_type, key};
use crate::word::Word;
use c5_definitions::{Keys, ScriptKind};
use c5_rows::{CellType, Columns, MAX_COLUMNS, Row};

/// The types of the columns of a table.
pub(crate) fn column_types(words: &[Word]) -> Result<Columns, ScriptKind>
    requires some { 1 ≤ length words.now }
    requires few { length words.now ≤ max_columns }
    ensures { result ≡ each_in type_in (held_words words.now) }
{
    let mut types = [CellType::Int; MAX_COLUMNS];
    for (column, word) in words.iter().enumerate() {
        let found = column_type(*word)?;
        types[column] = found;
    }
    match Columns::new(&types[..words.len()]) {
        Some(columns) => Ok(columns),
        None => unreachable!(),
    }
}

/// The keys of a sum.
pub(crate) fn keys(first: Word, others: &[Word]) -> Result<Keys, ScriptKind>
    requires { length others.now < max_sum_keys }
    ensures { result ≡ each_in key_in (held_word first.entry ∷ held_words others.now) }
{
    let first_key = key(first)?;
    let mut keys = Keys::one(first_key);
    for word in others {
        let next = key(*word)?;
        keys.push(next);
    }
    Ok(keys)
}

/// Reads the cells of a row, one for each column, to where the row lies: a row that is returned is
/// copied. What `row` is after an `Err` isn't said.
pub(crate) fn read_row(
    row: &mut Row,
    columns: &[CellType],
    words: &[Word],
) -> Result<(), ScriptKind>
    requires some { 1 ≤ length words.now }
    requires few { length columns.now ≤ max_columns }
    ensures { Gives (λ _. row.new) result (row_in columns.now (held_words words.now)) }
{
    if words.len() != columns.len() {
        return Err(ScriptKind::Count);
    }
    let first = cell(columns[0], words[0])?;
    *row = Row::one(first);
    for column in 1..words.len() {
        let next = cell(columns[column], words[column])?;
        row.push(next);
    }
    Ok(())
}

//! The lines of a read block.

ghost use Rattle.std.specs.Prelude.{◌+◌, ◌≡◌, ◌≤◌, ◌<◌, ◌∷◌, [], length, IfOk, OnOk};
ghost use Rattle.c5_rows.specs.Sizes.{max_tables, max_sum_keys, max_read_lines};
ghost use Rattle.c5_definitions.specs.FitsScript.{ReadLineFits};
ghost use Rattle.c5_definitions.specs.Statements.{row_words, sum_words, question_line};
ghost use Rattle.c5_script.specs.Words.{held_word, held_words};

use crate::lists::keys;
use crate::places::{columns, int_column, row_name, table};
use crate::word::Word;
use c5_definitions::{ReadLine, ScriptKind};
use c5_rows::{MAX_READ_LINES, MAX_SUM_KEYS, TableDef};

/// The most words of a sum after its first one: a table, a column and the keys.
const MAX_SUM_WORDS: usize = 2 + MAX_SUM_KEYS;

#[tactic(auto, unfolding(c5_definitions::specs::Statements::row_words))]
fn row(tables: &[TableDef], words: &[Word]) -> Result<ReadLine, ScriptKind>
    requires { length tables.now ≤ max_tables }
    ensures { result ≡ row_words tables.now (held_words words.now) }
{
    let [table, key] = words else {
        return Err(ScriptKind::Count);
    };
    let name = row_name(tables, *table, *key)?;
    Ok(ReadLine::OneRow { name })
}

#[tactic(auto, unfolding(c5_definitions::specs::Statements::sum_words))]
fn sum_of(
    tables: &[TableDef],
    table_word: Word,
    column: Word,
    first: Word,
    others: &[Word],
) -> Result<ReadLine, ScriptKind>
    requires tables { length tables.now ≤ max_tables }
    requires keys { length others.now < max_sum_keys }
    ensures { result ≡ sum_words tables.now
        (held_word table_word.entry ∷ held_word column.entry ∷ held_word first.entry
        ∷ held_words others.now) }
{
    let table = table(tables, table_word)?;
    let col = int_column(columns(tables, table), column)?;
    let keys = keys(first, others)?;
    Ok(ReadLine::SumOf { table, col, keys })
}

#[tactic(auto, unfolding(c5_definitions::specs::Statements::sum_words))]
fn sum(tables: &[TableDef], words: &[Word]) -> Result<ReadLine, ScriptKind>
    requires tables { length tables.now ≤ max_tables }
    requires few { length words.now ≤ 2 + max_sum_keys }
    ensures { result ≡ sum_words tables.now (held_words words.now) }
{
    match words {
        [] | [_] | [_, _] => Err(ScriptKind::Count),
        [table, column, first, others @ ..] => sum_of(tables, *table, *column, *first, others),
    }
}

/// The line of a read block that follows `count` others.
#[tactic(auto, unfolding(c5_definitions::specs::Statements::question_line))]
pub(crate) fn question(
    tables: &[TableDef],
    count: usize,
    first: &[u8],
    words: &[Word],
) -> Result<ReadLine, ScriptKind>
    requires { length tables.now ≤ max_tables }
    ensures value { result ≡ question_line tables.now count first.now (held_words words.now) }
    ensures fits { IfOk result (λ line. ReadLineFits tables.now line) }
    ensures room { OnOk result (count < max_read_lines) }
{
    if first == b"row".as_slice() {
        if count >= MAX_READ_LINES {
            return Err(ScriptKind::Limit);
        }
        row(tables, words)
    } else if first == b"sum".as_slice() {
        if count >= MAX_READ_LINES || words.len() > MAX_SUM_WORDS {
            return Err(ScriptKind::Limit);
        }
        sum(tables, words)
    } else {
        Err(ScriptKind::Word)
    }
}

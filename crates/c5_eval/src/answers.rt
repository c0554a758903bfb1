//! Read blocks.

ghost use Rattle.std.specs.Prelude.{◌≡◌, ◌≤◌, ◌++◌, List, IfOk, length, map};
ghost use Rattle.c5_definitions.specs.Effects.{int_in_column};
ghost use Rattle.c5_definitions.specs.Follows.{Read};
ghost use Rattle.c5_definitions.specs.Answers.{names_of_line, line_answer, sum_in, row_answer};
ghost use Rattle.c5_definitions.specs.Answers.{IsAnswered, table_names, or_zero};
ghost use Rattle.c5_rows.specs.Counts.{HasCause};
ghost use Rattle.c5_eval.specs.Faults.{HasRowCause, Grew};
ghost use Rattle.c5_rows.specs.Sizes.{max_sum_keys};

use crate::reading::{EvalFault, ReadRows};
use crate::steps::number_in;
use c5_rows::{Answer, AnswerLine, Key, Row, RowName};
use c5_script::{ReadBlock, ReadLine};
use std::alloc::Global;

// The number in a column of a row, or 0 if there is none.
fn number_or_zero(row: &Option<Row>, col: u8) -> i64
    ensures { result ≡ or_zero (int_in_column col row.now) }
{
    number_in(row, col).unwrap_or(0)
}

// The sum of a column over rows.
fn sum<R: ReadRows>(rows: &mut R, table: u8, col: u8, keys: &[Key]) -> Result<i128, R::Fault>
    requires { length keys.now ≤ max_sum_keys }
    ensures sum { IfOk result (λ sum. (reads : List Read)
        × (R.asked rows.new ≡ R.asked rows.old ++ reads)
        × (map (λ read. read.0) reads ≡ table_names table keys.now)
        × (sum ≡ sum_in col (map (λ read. read.1) reads))) }
    ensures asked { Grew (R.asked rows.old) (R.asked rows.new) }
    ensures base { R.base rows.new ≡ R.base rows.old }
    ensures cause { HasCause (R.refusals rows.old) (R.refusals rows.new) result }
{
    let mut sum: i128 = 0;
    for key in keys {
        let row = rows.row(&RowName { table, key: *key })?;
        sum += number_or_zero(&row, col) as i128;
    }
    Ok(sum)
}

// The answer that says what a row is.
fn row_answer(name: RowName, row: Option<Row>) -> AnswerLine
    ensures { result ≡ row_answer name row }
{
    match row {
        Some(row) => AnswerLine::Found { name, row },
        None => AnswerLine::Absent { name },
    }
}

// The answer to one line.
fn line_answer<R: ReadRows>(rows: &mut R, line: &ReadLine) -> Result<AnswerLine, R::Fault>
    ensures answered { IfOk result
        (λ answer. (reads : List Read) × (R.asked rows.new ≡ R.asked rows.old ++ reads)
        × (map (λ read. read.0) reads ≡ names_of_line line.now)
        × (answer ≡ line_answer line.now (map (λ read. read.1) reads))) }
    ensures asked { Grew (R.asked rows.old) (R.asked rows.new) }
    ensures base { R.base rows.new ≡ R.base rows.old }
    ensures cause { HasCause (R.refusals rows.old) (R.refusals rows.new) result }
{
    match line {
        ReadLine::OneRow { name } => Ok(row_answer(*name, rows.row(name)?)),
        ReadLine::SumOf { table, col, keys } => {
            Ok(AnswerLine::Sum(sum(rows, *table, *col, keys.as_slice())?))
        }
    }
}

/// Answers the lines of a read block, in order. A name that occurs twice is asked for twice.
/// Returns `Read` if the reader refuses a row, and `NoMemory` if memory runs out.
pub fn answer<R: ReadRows>(
    alloc: Global,
    read: &ReadBlock,
    rows: &mut R,
) -> Result<Answer, EvalFault<R::Fault>>
    // Exactly the rows of the block were asked for, in order, and these answers make the result.
    ensures answered { IfOk result
        (λ answer. (reads : List Read) × (R.asked rows.new ≡ R.asked rows.old ++ reads)
        × IsAnswered read.now.lines reads answer) }

    // For every result:
    ensures asked { Grew (R.asked rows.old) (R.asked rows.new) }
    ensures base { R.base rows.new ≡ R.base rows.old }
    ensures cause { HasRowCause (R.refusals rows.old) (R.refusals rows.new) result }
{
    let mut answer = Answer::new(alloc);
    for line in read.lines() {
        match line_answer(rows, line) {
            Ok(line) => answer.push(line)?,
            Err(fault) => return Err(EvalFault::Read(fault)),
        }
    }
    Ok(answer)
}

//! Single statements.

ghost use Rattle.std.specs.Prelude.{◌≡◌, ◌<◌, length, MatchOption, ◌++◌, ◌∷◌, List, Option, Some};
ghost use Rattle.std.specs.Prelude.{None, [], IfOk, OnErr, if◌then◌else◌};
ghost use Rattle.c5_definitions.specs.Eval.{change_to};
ghost use Rattle.c5_definitions.specs.Effects.{int_in_column, compares, add_effect, need_effect};
ghost use Rattle.c5_definitions.specs.Effects.{keeps, declines, sets};
ghost use Rattle.c5_definitions.specs.Follows.{Read, FindsRow};
ghost use Rattle.c5_rows.specs.declared.cells.Cell.{Cell};
ghost use Rattle.c5_rows.specs.declared.writes.RowName.{RowName};
ghost use Rattle.c5_rows.specs.Counts.{HasCause};
ghost use Rattle.c5_eval.specs.Faults.{HasRowCause, Grew};
ghost use Rattle.c5_eval.specs.Setting.{row_made};
ghost use Rattle.c5_eval.specs.Stepping.{Acts, Takes, set_cell_or_declined};

use crate::own::Own;
use crate::reading::{EvalFault, ReadRows};
use c5_rows::{Cell, Change, NoMemory, Row, RowName};
use c5_script::{Rel, Statement};

/// What comes after a statement.
#[derive(Drop)]
pub enum Step {
    /// The next one.
    GoesOn,
    /// Nothing: the statement declined.
    Declines,
}

// The number in a column of a row, or `None` if there is none.
fn number_of(row: &Row, col: u8) -> Option<i64>
    ensures { result ≡ int_in_column col (Some row.now) }
{
    match row.cells().get(col as usize) {
        Some(Cell::Int(n)) => Some(*n),
        Some(Cell::Txt(_)) | None => None,
    }
}

/// The number in a column of a row that may be absent, or `None` if there is none.
pub fn number_in(row: &Option<Row>, col: u8) -> Option<i64>
    ensures { result ≡ int_in_column col row.now }
{
    match row {
        Some(row) => number_of(row, col),
        None => None,
    }
}

// The number in a column of the row that a change makes, or `None` if there is none.
fn number_made(change: &Change, col: u8) -> Option<i64>
    ensures { result ≡ int_in_column col (row_made change.now) }
{
    match change {
        Change::Put(row) => number_of(row, col),
        Change::Gone => None,
    }
}

// Whether a number compares so with another.
fn compares(rel: Rel, a: i64, b: i64) -> bool
    ensures { result ≡ compares rel a b }
{
    match rel {
        Rel::Lt => a < b,
        Rel::Le => a <= b,
        Rel::Eq => a == b,
        Rel::Ge => a >= b,
        Rel::Gt => a > b,
    }
}

// Whether there is a number and it compares so with `n`.
fn meets(number: Option<i64>, rel: Rel, n: i64) -> bool
    ensures { need_effect number rel n ≡ (if result then keeps else declines) }
{
    match number {
        Some(cell) => compares(rel, cell, n),
        None => false,
    }
}

// The change that makes a row this one.
fn change_to(row: Option<Row>) -> Change
    ensures { result ≡ change_to row }
{
    match row {
        Some(row) => Change::Put(row),
        None => Change::Gone,
    }
}

// The number in a column of the row that the reader answers.
#[inline(never)]
fn asked_number<R: ReadRows>(rows: &mut R, name: &RowName, col: u8) -> Result<Option<i64>, R::Fault>
    ensures answered { IfOk result
        (λ number. (found : Option (List Cell))
        × (R.asked rows.new ≡ R.asked rows.old ++ (name.now, found) ∷ [])
        × (number ≡ int_in_column col found)) }
    ensures refused { OnErr result (R.asked rows.new ≡ R.asked rows.old) }
    ensures base { R.base rows.new ≡ R.base rows.old }
    ensures cause { HasCause (R.refusals rows.old) (R.refusals rows.new) result }
{
    let found = rows.row(name)?;
    Ok(number_in(&found, col))
}

// The number in a column of the row as the body has set it, or else as the reader answers.
fn number_at<R: ReadRows>(
    own: &Own,
    rows: &mut R,
    name: &RowName,
    col: u8,
) -> Result<Option<i64>, R::Fault>
    ensures found { IfOk result
        (λ number. (reads : List Read) × (R.asked rows.new ≡ R.asked rows.old ++ reads)
        × (found : Option (List Cell)) × FindsRow (Some name.now) own.now reads found []
        × (number ≡ int_in_column col found)) }
    ensures refused { OnErr result (R.asked rows.new ≡ R.asked rows.old) }
    ensures base { R.base rows.new ≡ R.base rows.old }
    ensures cause { HasCause (R.refusals rows.old) (R.refusals rows.new) result }
{
    match own.get(name) {
        Some(change) => Ok(number_made(change, col)),
        None => asked_number(rows, name, col),
    }
}

// The change that makes a row what the body has set it to, or else what the reader answers.
fn change_of<R: ReadRows>(own: &Own, rows: &mut R, name: &RowName) -> Result<Change, R::Fault>
    ensures found { IfOk result
        (λ change. (reads : List Read) × (R.asked rows.new ≡ R.asked rows.old ++ reads)
        × FindsRow (Some name.now) own.now reads (row_made change) []) }
    ensures refused { OnErr result (R.asked rows.new ≡ R.asked rows.old) }
    ensures base { R.base rows.new ≡ R.base rows.old }
    ensures cause { HasCause (R.refusals rows.old) (R.refusals rows.new) result }
{
    match own.get(name) {
        Some(change) => Ok(*change),
        None => Ok(change_to(rows.row(name)?)),
    }
}

// Sets a row without reading any.
#[inline(always)]
fn set(own: &mut Own, name: &RowName, change: Change) -> Result<Step, NoMemory>
    ensures { IfOk result (λ step. Acts (sets name.now (row_made change)) own.old own.new step) }
{
    own.set(name, change)?;
    Ok(Step::GoesOn)
}

// Sets a row to this one.
#[inline(never)]
fn put(own: &mut Own, name: &RowName, row: &Row) -> Result<Step, NoMemory>
    ensures { IfOk result (λ step. Acts (sets name.now (Some row.now)) own.old own.new step) }
{
    set(own, name, Change::Put(*row))
}

// Removes a row.
#[inline(never)]
fn remove(own: &mut Own, name: &RowName) -> Result<Step, NoMemory>
    ensures { IfOk result (λ step. Acts (sets name.now None) own.old own.new step) }
{
    set(own, name, Change::Gone)
}

// Declines unless the row's number compares so with `n`.
#[inline(never)]
fn need<R: ReadRows>(
    own: &mut Own,
    rows: &mut R,
    name: &RowName,
    col: u8,
    rel: Rel,
    n: i64,
) -> Result<Step, EvalFault<R::Fault>>
    ensures takes { IfOk result
        (λ step. (reads : List Read) × (R.asked rows.new ≡ R.asked rows.old ++ reads)
        × Takes (Statement.Need name.now col rel n) own.old own.new reads step) }
    ensures asked { Grew (R.asked rows.old) (R.asked rows.new) }
    ensures base { R.base rows.new ≡ R.base rows.old }
    ensures cause { HasRowCause (R.refusals rows.old) (R.refusals rows.new) result }
{
    let number = match number_at(own, rows, name, col) {
        Ok(number) => number,
        Err(fault) => return Err(EvalFault::Read(fault)),
    };
    if meets(number, rel, n) {
        Ok(Step::GoesOn)
    } else {
        Ok(Step::Declines)
    }
}

// The number in the column plus `n`, or `None` if there is no number or the sum overflows an i64.
fn sum_of(row: &Row, col: u8, n: i64) -> Option<i64>
    ensures effect { (name : RowName)
        → add_effect name col (Some row.now) (int_in_column col (Some row.now)) n
        ≡ set_cell_or_declined name row.now col result }
    ensures within { MatchOption result (Unit {0}) (λ _. col < length row.now) }
{
    number_of(row, col)?.checked_add(n)
}

// Sets the row with `n` added to the number in a column, or declines.
fn add_to(own: &mut Own, name: &RowName, row: &mut Row, col: u8, n: i64) -> Result<Step, NoMemory>
    ensures { IfOk result
        (λ step. Acts
        (add_effect name.now col (Some row.old) (int_in_column col (Some row.old)) n) own.old
        own.new step) }
{
    match sum_of(row, col, n) {
        Some(sum) => {
            row.set(col, Cell::Int(sum));
            put(own, name, row)
        }
        None => Ok(Step::Declines),
    }
}

// The same for the row that this change makes.
#[inline(never)]
fn add_again(
    own: &mut Own,
    name: &RowName,
    change: Change,
    col: u8,
    n: i64,
) -> Result<Step, NoMemory>
    ensures { IfOk result
        (λ step. Acts
        (add_effect name.now col (row_made change) (int_in_column col (row_made change)) n) own.old
        own.new step) }
{
    match change {
        Change::Put(mut row) => add_to(own, name, &mut row, col, n),
        Change::Gone => Ok(Step::Declines),
    }
}

// The same for the row that the reader answers.
#[inline(never)]
fn add_asked<R: ReadRows>(
    own: &mut Own,
    rows: &mut R,
    name: &RowName,
    col: u8,
    n: i64,
) -> Result<Step, EvalFault<R::Fault>>
    ensures takes { IfOk result
        (λ step. (found : Option (List Cell))
        × (R.asked rows.new ≡ R.asked rows.old ++ (name.now, found) ∷ [])
        × Acts (add_effect name.now col found (int_in_column col found) n) own.old own.new step) }
    ensures asked { Grew (R.asked rows.old) (R.asked rows.new) }
    ensures base { R.base rows.new ≡ R.base rows.old }
    ensures cause { HasRowCause (R.refusals rows.old) (R.refusals rows.new) result }
{
    match rows.row(name) {
        Ok(Some(mut row)) => Ok(add_to(own, name, &mut row, col, n)?),
        Ok(None) => Ok(Step::Declines),
        Err(fault) => Err(EvalFault::Read(fault)),
    }
}

// Adds `n` to the number in a column of a row, or declines.
fn add<R: ReadRows>(
    own: &mut Own,
    rows: &mut R,
    name: &RowName,
    col: u8,
    n: i64,
) -> Result<Step, EvalFault<R::Fault>>
    ensures takes { IfOk result
        (λ step. (reads : List Read) × (R.asked rows.new ≡ R.asked rows.old ++ reads)
        × Takes (Statement.Add name.now col n) own.old own.new reads step) }
    ensures asked { Grew (R.asked rows.old) (R.asked rows.new) }
    ensures base { R.base rows.new ≡ R.base rows.old }
    ensures cause { HasRowCause (R.refusals rows.old) (R.refusals rows.new) result }
{
    match own.get(name) {
        Some(change) => {
            let change = *change;
            Ok(add_again(own, name, change, col, n)?)
        }
        None => add_asked(own, rows, name, col, n),
    }
}

// Sets the row `to` to what the row `from` is.
#[inline(never)]
fn copy<R: ReadRows>(
    own: &mut Own,
    rows: &mut R,
    from: &RowName,
    to: &RowName,
) -> Result<Step, EvalFault<R::Fault>>
    ensures takes { IfOk result
        (λ step. (reads : List Read) × (R.asked rows.new ≡ R.asked rows.old ++ reads)
        × Takes (Statement.Copy from.now to.now) own.old own.new reads step) }
    ensures asked { Grew (R.asked rows.old) (R.asked rows.new) }
    ensures base { R.base rows.new ≡ R.base rows.old }
    ensures cause { HasRowCause (R.refusals rows.old) (R.refusals rows.new) result }
{
    match change_of(own, rows, from) {
        Ok(change) => Ok(set(own, to, change)?),
        Err(fault) => Err(EvalFault::Read(fault)),
    }
}

/// Performs one statement, which reads and changes the rows that the body has set.
pub fn perform<R: ReadRows>(
    statement: &Statement,
    own: &mut Own,
    rows: &mut R,
) -> Result<Step, EvalFault<R::Fault>>
    ensures takes { IfOk result
        (λ step. (reads : List Read) × (R.asked rows.new ≡ R.asked rows.old ++ reads)
        × Takes statement.now own.old own.new reads step) }
    ensures asked { Grew (R.asked rows.old) (R.asked rows.new) }
    ensures base { R.base rows.new ≡ R.base rows.old }
    ensures cause { HasRowCause (R.refusals rows.old) (R.refusals rows.new) result }
{
    match statement {
        Statement::Put { name, row } => Ok(put(own, name, row)?),
        Statement::Del { name } => Ok(remove(own, name)?),
        Statement::Need { name, col, rel, n } => need(own, rows, name, *col, *rel, *n),
        Statement::Add { name, col, n } => add(own, rows, name, *col, *n),
        Statement::Copy { from, to } => copy(own, rows, from, to),
    }
}

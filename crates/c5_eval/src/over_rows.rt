//! Bodies and read blocks over rows in memory.

ghost use Rattle.std.specs.Prelude.{◌≡◌, [], ◌∷◌, ◌++◌, IfOk, OnOk, OnErr};
ghost use Rattle.std.specs.Option.{option_copied};
ghost use Rattle.std.specs.FinMap as map;
ghost use Rattle.c5_rows.specs.State.{State};
ghost use Rattle.c5_definitions.specs.Eval.{eval};
ghost use Rattle.c5_definitions.specs.Follows.{AnsweredBy};
ghost use Rattle.c5_definitions.specs.Answers.{answer_of};
ghost use Rattle.c5_eval.specs.Reader.{rows_read, names_asked, refusals_of, answers_to};

use crate::answers::answer;
use crate::reading::ReadRows;
use crate::walking::{Outcome, evaluate};
use c5_rows::{Answer, NoMemory, Row, RowName, Rows};
use c5_script::{Body, ReadBlock};
use std::alloc::Global;

/// Rows in memory that are found by name.
pub trait LookUpRows {
    // The rows by their names.
    ghost state: { Self → State };

    /// The row of this name, or `None` if there is none.
    fn look_up(&self, name: &RowName) -> Option<&Row>
        ensures { option_copied result ≡ map.get (state self.now) name.now };
}

impl LookUpRows for Rows {
    ghost state = { λ rows. rows };

    fn look_up(&self, name: &RowName) -> Option<&Row> {
        self.get(name)
    }
}

/// A reader of rows in memory, which records the names that are asked for. A read fails only if the
/// memory for that runs out.
// The rows never change, so the names say what was answered too.
#[derive(Drop)]
pub struct RowsReader<'a, L> {
    rows: &'a L,
    asked: Vec<RowName>,
    refusals: u64,
}

// Records a name that was asked for.
fn record_name(asked: &mut Vec<RowName>, name: &RowName) -> Result<(), NoMemory>
    ensures ok { OnOk result (asked.new.items ≡ asked.old.items ++ name.now ∷ []) }
    ensures err { OnErr result (asked.new.items ≡ asked.old.items) }
{
    asked.push(*name)?;
    Ok(())
}

impl<'a, L: LookUpRows> RowsReader<'a, L> {
    /// A reader of these rows that was asked for nothing yet.
    pub fn new(alloc: Global, rows: &'a L) -> Self
        ensures rows { rows_read result ≡ rows.now }
        ensures asked { names_asked result ≡ [] }
        ensures refusals { refusals_of result ≡ 0 }
    {
        RowsReader {
            rows,
            asked: Vec::new(alloc),
            refusals: 0,
        }
    }
}

impl<L: LookUpRows> ReadRows for RowsReader<'_, L> {
    type Fault = NoMemory;

    type Base = Rows;

    ghost base = { λ r. L.state (rows_read r) };

    ghost asked = { λ r. answers_to (L.state (rows_read r)) (names_asked r) };

    ghost refusals = { λ r. refusals_of r };

    fn row(&mut self, name: &RowName) -> Result<Option<Row>, NoMemory> {
        if record_name(&mut self.asked, name).is_err() {
            self.refusals = self.refusals.saturating_add(1);
            return Err(NoMemory);
        }
        match self.rows.look_up(name) {
            Some(row) => Ok(Some(*row)),
            None => Ok(None),
        }
    }
}

/// What a body does on these rows.
#[inline(never)]
pub fn evaluate_rows<L: LookUpRows>(
    alloc: Global,
    body: &Body,
    rows: &L,
) -> Result<Outcome, NoMemory>
    ensures declined { IfOk result
        (λ outcome. outcome.declined ≡ (eval body.now (L.state rows.now)).declined) }
    ensures writes { IfOk result
        (λ outcome. outcome.writes ≡ (eval body.now (L.state rows.now)).writes) }
{
    let mut reader = RowsReader::new(alloc, rows);
    match evaluate(alloc, body, &mut reader) {
        Ok(outcome) => Ok(outcome),
        Err(_) => Err(NoMemory),
    }
}

/// What these rows answer to a read block.
pub fn answer_rows<L: LookUpRows>(
    alloc: Global,
    read: &ReadBlock,
    rows: &L,
) -> Result<Answer, NoMemory>
    ensures { IfOk result (λ answer. answer ≡ answer_of read.now (L.state rows.now)) }
{
    let mut reader = RowsReader::new(alloc, rows);
    match answer(alloc, read, &mut reader) {
        Ok(answer) => Ok(answer),
        Err(_) => Err(NoMemory),
    }
}

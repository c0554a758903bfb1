//! Whole bodies.

ghost use Rattle.std.specs.Prelude.{◌≡◌, ◌++◌, List, [], IfOk, if◌then◌else◌, length, filter};
ghost use Rattle.c5_definitions.specs.Follows.{Read, Follows, own_writes};
ghost use Rattle.c5_eval.specs.Setting.{may_set};
ghost use Rattle.c5_eval.specs.Faults.{HasRowCause, Grew};

use crate::own::Own;
use crate::reading::{EvalFault, ReadRows};
use crate::steps::{Step, perform};
use c5_rows::{NoMemory, Writes};
use c5_script::{Body, Statement};
use std::alloc::Global;

/// How a body ended.
#[derive(Drop)]
pub struct Outcome {
    /// A statement declined. Then there are no writes.
    pub declined: bool,
    /// One write for each row that was set, ascending by name.
    pub writes: Writes,
}

// How a body ends that has set these rows.
fn ending(alloc: Global, own: Own, declined: bool) -> Result<Outcome, NoMemory>
    ensures { IfOk result (λ outcome. outcome
        ≡ record { declined = declined; writes = (if declined then [] else own_writes own) }) }
{
    let writes = if declined {
        Writes::new(alloc)
    } else {
        own.into_writes()?
    };
    Ok(Outcome { declined, writes })
}

// Whether the statement may set a row.
fn may_set(statement: &Statement) -> bool
    ensures { result ≡ may_set statement.now }
{
    !matches!(statement, Statement::Need { .. })
}

// How many of the statements may set a row.
fn setting(statements: &[Statement]) -> usize
    ensures { result ≡ length (filter may_set statements.now) }
{
    statements
        .iter()
        .filter(|statement| may_set(statement))
        .count()
}

/// Evaluates a body from its first statement to its last. A row that it has set itself is not asked
/// for. Returns `Read` if the reader refuses a row, and `NoMemory` if memory runs out.
pub fn evaluate<R: ReadRows>(
    alloc: Global,
    body: &Body,
    rows: &mut R,
) -> Result<Outcome, EvalFault<R::Fault>>
    // The outcome follows from the answers of this call.
    ensures follows { IfOk result
        (λ outcome. (reads : List Read) × (R.asked rows.new ≡ R.asked rows.old ++ reads)
        × Follows body.now reads outcome.declined outcome.writes) }

    // For every result:
    ensures asked { Grew (R.asked rows.old) (R.asked rows.new) }
    ensures base { R.base rows.new ≡ R.base rows.old }
    ensures cause { HasRowCause (R.refusals rows.old) (R.refusals rows.new) result }
{
    // The memory for all writes is taken at once, so that they never move.
    let mut own = Own::with_capacity(alloc, setting(body.statements()))?;
    for statement in body.statements() {
        match perform(statement, &mut own, rows)? {
            Step::GoesOn => {}
            Step::Declines => return Ok(ending(alloc, own, true)?),
        }
    }
    Ok(ending(alloc, own, false)?)
}

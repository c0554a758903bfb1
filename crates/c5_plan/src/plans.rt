//! Which logs can be planned.

ghost use Rattle.std.specs.Prelude.{◌≡◌};
ghost use Rattle.c5_plan.specs.Plans.{planned};

use crate::planned::Plan;
use c5_frames::LogBuffer;
use c5_rows::{MAX_TRANSACTIONS, MAX_WRITES};

/// Which limit a log passes.
#[derive(Clone, Copy)]
pub enum PlanFault {
    /// It has more than 65,536 transactions.
    Transactions,
    /// It has more than 262,144 writes.
    Writes,
}

/// The plan of a log. `Transactions` if it has more than 65,536 transactions, else `Writes` if it
/// has more than 262,144 writes.
#[tactic(auto, using(crate::proofs::Sizing::sizes))]
pub fn plan(log: &LogBuffer) -> Result<Plan<'_>, PlanFault>
    ensures { result ≡ planned log.now }
{
    if log.transactions() as usize > MAX_TRANSACTIONS {
        return Err(PlanFault::Transactions);
    }
    if log.writes() as usize > MAX_WRITES {
        return Err(PlanFault::Writes);
    }
    Ok(Plan { log })
}

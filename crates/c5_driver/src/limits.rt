//! The limits of logs.

ghost use Rattle.std.specs.Prelude.{◌≡◌, ◌≤◌, None, Some, option_map, IfOk, IfErr, OnOk};
ghost use Rattle.c5_definitions.specs.WriteNumbers.{names_in};
ghost use Rattle.c5_plan.specs.Sizes.{IsPlanned};
ghost use Rattle.c5_plan.specs.Written.{AreWrittenRows};
ghost use Rattle.c5_driver.specs.Inputs.{IsRefusedBy};
ghost use Rattle.c5_driver.specs.LogLimits.{excess_of_log};
ghost use Rattle.c5_driver.specs.declared.refusal.Refusal.TheVariants.{Limit};

use crate::refusal::Refusal;
use c5_definitions::Excess;
use c5_frames::LogBuffer;
use c5_plan::{Plan, PlanFault, WrittenRow, plan, written_rows};
use c5_rows::{MAX_ROWS, NoMemory};
use std::alloc::Global;

/// The plan of a log, or the limit that its transactions or writes exceed.
pub fn plan_within(log: &LogBuffer) -> Result<Plan<'_>, Excess>
    ensures value { IfOk result (λ plan. plan ≡ log.now) }
    ensures planned { OnOk result (IsPlanned log.now) }
    ensures passed { IfErr result (λ excess. excess_of_log log.now.txns ≡ Some excess) }
{
    match plan(log) {
        Ok(plan) => Ok(plan),
        Err(PlanFault::Transactions) => Err(Excess::Transactions),
        Err(PlanFault::Writes) => Err(Excess::Writes),
    }
}

/// The rows that a log within the limits writes, ascending by name; or why the log is refused.
pub fn rows_within(alloc: Global, log: &LogBuffer) -> Result<Vec<WrittenRow>, Refusal>
    ensures rows { IfOk result (λ rows. AreWrittenRows rows.items (names_in log.now.txns)) }
    ensures within { OnOk result (excess_of_log log.now.txns ≡ None) }
    ensures refused { IfErr result
        (λ refusal. IsRefusedBy (option_map Limit (excess_of_log log.now.txns)) refusal) }
{
    match plan_within(log) {
        Ok(_) => {}
        Err(excess) => return Err(Refusal::Limit(excess)),
    }
    match written_rows(alloc, log, MAX_ROWS as u32) {
        Ok(Some(rows)) => Ok(rows),
        Ok(None) => Err(Refusal::Limit(Excess::Rows)),
        Err(NoMemory) => Err(Refusal::NoMemory),
    }
}

//! The bodies of a script, one after the other.

ghost use Rattle.std.specs.Prelude.{◌≡◌, ◌≤◌, ◌+◌, ◌++◌, ◌∷◌, [], length, IfOk, OnOk};
ghost use Rattle.std.specs.FinMap.{empty};
ghost use Rattle.std.specs.List.{range_with_len};
ghost use Rattle.c5_rows.specs.Order.{row_name_cmp};
ghost use Rattle.c5_rows.specs.Sizes.{max_transactions};
ghost use Rattle.c5_definitions.specs.SerialRun.{body_txn, serial_txns, SerialRun};
ghost use Rattle.c5_primary.specs.InOrder.{in_order};

use crate::latest::{LatestRows, note_writes};
use c5_eval::{LookUpRows, evaluate_rows};
use c5_rows::{NoMemory, Rows, Txn};
use c5_script::{Body, Script};
use std::alloc::Global;
use std::collections::BTreeMap;

// The transaction of the body of this number on these rows.
#[inline(never)]
fn body_txn<L: LookUpRows>(
    alloc: Global,
    number: u32,
    body: &Body,
    rows: &L,
) -> Result<Txn, NoMemory>
    ensures { IfOk result (λ txn. txn ≡ body_txn number (number + 1) body.now (L.state rows.now)) }
{
    let outcome = evaluate_rows(alloc, body, rows)?;
    Ok(Txn {
        script: number,
        stamp: number as u64 + 1,
        writes: outcome.writes,
    })
}

// Adds a transaction, also one without writes.
fn keep(txns: &mut Vec<Txn>, txn: Txn) -> Result<(), NoMemory>
    ensures { OnOk result (txns.new.items ≡ txns.old.items ++ txn ∷ []) }
{
    txns.push(txn)?;
    Ok(())
}

// The transactions of all bodies, in the order of their numbers, from these rows.
fn txns_in_order(alloc: Global, bodies: &[Body], start: &Rows) -> Result<Vec<Txn>, NoMemory>
    requires { length bodies.now ≤ max_transactions }
    ensures { IfOk result (λ txns. txns.items ≡ in_order 0 bodies.now start.now) }
{
    let mut places = BTreeMap::new(alloc);
    let mut txns = Vec::with_capacity(alloc, bodies.len())?;
    for (number, body) in bodies.iter().enumerate() {
        let rows = LatestRows::new(start, &txns, &places);
        let txn = body_txn(alloc, number as u32, body, &rows)?;
        note_writes(&mut places, txn.writes.as_slice(), number as u32)?;
        keep(&mut txns, txn)?;
    }
    Ok(txns)
}

/// Runs the bodies of a script one after the other, from no rows. The transaction of body i is at
/// place i, with the script number i and the stamp i + 1. One whose body declines has no writes.
pub fn run_serial(alloc: Global, script: &Script) -> Result<Vec<Txn>, NoMemory>
    requires { length script.now.bodies ≤ max_transactions }
    ensures exact { let bodies = script.now.bodies in
        IfOk result (λ txns. txns.items
        ≡ serial_txns bodies (empty {R = row_name_cmp}) (range_with_len 0 (length bodies))) }
    ensures serial { IfOk result
        (λ txns. SerialRun script.now.bodies (empty {R = row_name_cmp}) txns.items) }
{
    let start = Rows::new(alloc);
    let txns = txns_in_order(alloc, script.bodies(), &start)?;
    Ok(txns)
}

//! The law of rows at a place.

ghost use Rattle.std.specs.Prelude.{ℕ, List};
ghost use Rattle.c5_rows.specs.declared.writes.Txn.{Txn};
ghost use Rattle.c5_rows.specs.State.{State};
ghost use Rattle.c5_reads.specs.RowLaw.{RowsAreOfLastWrites};

/// After the first transactions of a log each row is what its last write up to there made of it,
/// and that of the start if it has none.
pub fn last_write_law()
    ensures { (start : State) (txns : List Txn) (place : ℕ) → RowsAreOfLastWrites start txns place }
{}

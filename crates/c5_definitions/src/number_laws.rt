//! Laws of the numbers of writes, and of the index of rows.

ghost use Rattle.std.specs.Prelude.{◌≤◌, ℕ, List};
ghost use Rattle.c5_rows.specs.declared.writes.RowName.{RowName};
ghost use Rattle.c5_rows.specs.declared.writes.Txn.{Txn};
ghost use Rattle.c5_definitions.specs.NumberLaws.{RowsAreNumbered, PredecessorsAreLast, PlacesEnd};
ghost use Rattle.c5_definitions.specs.NumberLaws.{NumbersAreOwned};

/// Rows, predecessors, places and owners are what their names say.
pub fn number_law()
    ensures rows { (names : List RowName) → RowsAreNumbered names }
    ensures predecessors { (names : List RowName) → PredecessorsAreLast names }
    ensures places { (txns : List Txn) → PlacesEnd txns }
    ensures owners { (workers : ℕ) → 1 ≤ workers → NumbersAreOwned workers }
{}

ghost use Rattle.c5_definitions.specs.IndexLaws.{BucketsSuffice, RowsAreIndexed};

/// Each bucket is free or the slot of one first write, each first write has a slot, to which its
/// path leads by slots of smaller ones alone, and each path comes to a free bucket.
pub fn index_law()
    ensures buckets { (writes : ℕ) → BucketsSuffice writes }
    ensures rows { (names : List RowName) → RowsAreIndexed names }
{}

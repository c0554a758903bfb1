//! Laws that check the definitions of an order book against histories that were worked by hand.

ghost use Rattle.std.specs.Prelude.{◌≡◌, [], ◌∷◌, Some, None, pos};
ghost use Rattle.std.specs.FinMap.{empty, get};
ghost use Rattle.c5_rows.specs.declared.cells.Cell.TheVariants as cells;
ghost use Rattle.c5_rows.specs.Order.{row_name_cmp};
ghost use Rattle.c5_rows.specs.State.{state_after};
ghost use Rattle.c5_definitions.specs.History.{open_txns, last_stamp, version_at, row_seen};
ghost use Rattle.c5_definitions.specs.OrderLog.{conflicts, committed, history_log, committed_stamp};
ghost use Rattle.c5_definitions.specs.OrderLog.{open_stamp, IsOrderHistory};
ghost use Rattle.c5_definitions.specs.WorkedOrder.{row_x, write_x, read_base, read_by_later};
ghost use Rattle.c5_definitions.specs.WorkedOrder.{later_cancelled, later_committed};
ghost use Rattle.c5_definitions.specs.WorkedOrder.{earlier_cancelled, write_base, later_first};
ghost use Rattle.c5_definitions.specs.WorkedOrder.{both_committed};

/// A later stamp has read the row that an earlier one would write.
pub fn worked_conflict()
    ensures allowed { IsOrderHistory read_base earlier_cancelled }
    ensures read { row_seen (empty {R = row_name_cmp}) read_by_later row_x 2 ≡ None }
    ensures conflict { conflicts read_by_later 1 (write_x 1 ∷ [])
        ≡ record { row = row_x; reader = 2 } ∷ [] }
    ensures cancelled { conflicts later_cancelled 1 (write_x 1 ∷ [])
        ≡ record { row = row_x; reader = 2 } ∷ [] }
    ensures itself { conflicts read_by_later 2 (write_x 1 ∷ []) ≡ [] }
    ensures still_open { open_stamp 0 (open_txns read_by_later) ≡ Some 1 }
    ensures waits { history_log later_committed ≡ [] }
    ensures log { history_log earlier_cancelled
        ≡ record { script = 1; stamp = 2; writes = [] } ∷ [] }
    ensures committed { committed_stamp 1 (committed earlier_cancelled) ≡ Some 2 }
    ensures closed { open_stamp 0 (open_txns earlier_cancelled) ≡ None }
    ensures last { last_stamp 0 earlier_cancelled ≡ 2 }
{}

/// The later of two stamps commits first.
pub fn worked_order()
    ensures allowed { IsOrderHistory write_base both_committed }
    ensures no_conflict { conflicts later_first 1 (write_x 1 ∷ []) ≡ [] }
    ensures waits { history_log later_first ≡ [] }
    ensures log { history_log both_committed
        ≡ record { script = 0; stamp = 1; writes = write_x 1 ∷ [] }
        ∷ record { script = 1; stamp = 2; writes = write_x 2 ∷ [] } ∷ [] }
    ensures first { version_at both_committed row_x 1 ≡ 0 }
    ensures second { row_seen (empty {R = row_name_cmp}) both_committed row_x 2
        ≡ Some (cells.Int (pos 1) ∷ []) }
    ensures third { row_seen (empty {R = row_name_cmp}) both_committed row_x 3
        ≡ Some (cells.Int (pos 2) ∷ []) }
    ensures after { get
        (state_after (empty {R = row_name_cmp}) (history_log both_committed) 2) row_x
        ≡ Some (cells.Int (pos 2) ∷ []) }
{}

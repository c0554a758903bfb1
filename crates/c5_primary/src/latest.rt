//! The rows after transactions, found in the last of them that wrote each. No row is copied.

ghost use Rattle.std.specs.Prelude.{◌≡◌, OnOk, length};
ghost use Rattle.std.specs.Option.{option_copied};
ghost use Rattle.std.specs.FinMap.{get};
ghost use Rattle.std.specs.BTreeMap.{IsOrdered};
ghost use Rattle.c5_rows.specs.declared.writes.RowName.{RowName as Name};
ghost use Rattle.c5_rows.specs.Order.{row_name_cmp};
ghost use Rattle.c5_rows.specs.State.{after_txns};
ghost use Rattle.c5_primary.specs.Latest.{row_kept, noted, place_at, LeadsToRows};

use c5_eval::LookUpRows;
use c5_rows::{Change, NoMemory, Row, RowName, Rows, Txn, Write};
use std::collections::BTreeMap;
use std::marker::Model;

// The row that a change leaves.
fn row_kept<'a>(change: Option<&'a Change>) -> Option<&'a Row>
    ensures { option_copied result ≡ row_kept (option_copied change.entry) }
{
    match change {
        Some(Change::Put(row)) => Some(row),
        Some(Change::Gone) | None => None,
    }
}

/// The rows after transactions, from the rows at the start, by the places of the transactions that
/// last wrote each.
#[derive(Drop)]
pub struct LatestRows<'a> {
    start: &'a Rows,
    txns: &'a [Txn],
    places: &'a BTreeMap<RowName, u32>,
}

impl<'a> Model for LatestRows<'a> {
    ghost use Rattle.std.specs.FinMap as map;
    ghost use Rattle.std.specs.Prelude.{List};
    ghost use Rattle.std.specs.Coded.{coded_list};
    ghost use Rattle.c5_rows.specs.declared.cells.Cell.{Cell};
    ghost use Rattle.c5_rows.specs.Cells.{coded_cell};
    ghost use Rattle.c5_rows.specs.Order.{row_name_cmp, coded_row_name};
    ghost use Rattle.c5_rows.specs.State.{after_txns};
    ghost use Rattle.c5_primary.specs.Latest.{LeadsToRows};

    ghost Value = { map.FinMap row_name_cmp (List Cell) };

    ghost coded = { map.code coded_row_name (coded_list coded_cell) };

    ghost view = { λ r. after_txns r.txns.now r.start.now };

    ghost invariant = { λ r. LeadsToRows r.start.now r.txns.now r.places.now.entries };
}

// The row of this name after the transactions.
fn row_after<'a>(
    start: &'a Rows,
    txns: &'a [Txn],
    places: &BTreeMap<RowName, u32>,
    name: &RowName,
) -> Option<&'a Row>
    requires { LeadsToRows start.now txns.now places.now.entries }
    ensures { option_copied result ≡ get (after_txns txns.now start.now) name.now }
{
    match places.get(name) {
        Some(place) => row_kept(txns[*place as usize].writes.find(name)),
        None => start.get(name),
    }
}

impl<'a> LatestRows<'a> {
    /// The rows after these transactions. A row that has a place was last written by the
    /// transaction there.
    pub fn new(start: &'a Rows, txns: &'a [Txn], places: &'a BTreeMap<RowName, u32>) -> Self
        requires { LeadsToRows start.now txns.now places.now.entries }
        ensures { result ≡ after_txns txns.now start.now }
    {
        LatestRows {
            start,
            txns,
            places,
        }
    }
}

impl LookUpRows for LatestRows<'_> {
    ghost state = { λ rows. rows };

    fn look_up(&self, name: &RowName) -> Option<&Row> {
        row_after(self.start, self.txns, self.places, name)
    }
}

/// Notes that the transaction at this place has these writes.
pub fn note_writes(
    places: &mut BTreeMap<RowName, u32>,
    writes: &[Write],
    place: u32,
) -> Result<(), NoMemory>
    requires { IsOrdered row_name_cmp places.old }
    ensures ordered { IsOrdered row_name_cmp places.new }
    ensures noted { OnOk result ((name : Name) → place_at places.new.entries name
        ≡ noted writes.now place name (place_at places.old.entries name)) }
{
    for write in writes {
        places.insert(write.name, place)?;
    }
    Ok(())
}

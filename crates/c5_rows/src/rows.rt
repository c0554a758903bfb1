//! Rows by their names.

ghost use Rattle.std.specs.Prelude.{◌≡◌, ◌<◌, List, length, take, map as mapped};
ghost use Rattle.std.specs.Prelude.{OnOk, OnErr, IfOk, IfErr};
ghost use Rattle.std.specs.Map.Iter.{ShowsInOrder, deref_pair};
ghost use Rattle.std.specs.Option.{option_copied, option_map};
ghost use Rattle.c5_rows.specs.declared.cells.Cell.{Cell};
ghost use Rattle.std.specs.FinMap as map;

use crate::cells::Row;
use crate::memory::NoMemory;
use crate::writes::{Change, RowName, Txn};
use std::alloc::Global;
use std::collections::BTreeMap;
use std::collections::btree_map::Iter;
use std::marker::Model;

/// A row and its name.
#[derive(Clone, Copy, Debug, PartialEq, Eq)]
pub struct RowEntry {
    pub name: RowName,
    pub row: Row,
}

/// Out of memory after the first `writes` writes of a transaction. The others were not made.
#[derive(Clone, Copy, Debug, PartialEq, Eq)]
pub struct Applied {
    pub writes: usize,
}

/// How a map holds a row: in a block of its own, or borrowed from where it is.
pub trait HeldRow: Drop {
    ghost row_held: { Self → List Cell };

    /// The row.
    fn to_row(&self) -> Row
        ensures { result ≡ row_held self.now };
}

// A block of its own: the nodes of the tree stay small, and no row moves when one comes or goes.
impl HeldRow for Box<Row> {
    ghost row_held = { λ block. block.value };

    fn to_row(&self) -> Row {
        **self
    }
}

/// Rows by their names: a finite map, generic over how it holds a row.
#[derive(Drop)]
pub struct RowMap<H: HeldRow> {
    alloc: Global,
    rows: BTreeMap<RowName, H>,
}

impl<H: HeldRow> Model for RowMap<H> {
    ghost use Rattle.std.specs.Prelude.{List};
    ghost use Rattle.std.specs.FinMap as map;
    ghost use Rattle.std.specs.BTreeMap.{IsOrdered};
    ghost use Rattle.std.specs.Coded.{coded_list};
    ghost use Rattle.c5_rows.specs.declared.cells.Cell.{Cell};
    ghost use Rattle.c5_rows.specs.Cells.{coded_cell};
    ghost use Rattle.c5_rows.specs.Order.{row_name_cmp, coded_row_name};
    ghost use Rattle.c5_rows.specs.Held.{rows_held};

    ghost Value = { map.FinMap row_name_cmp (List Cell) };

    ghost coded = { map.code coded_row_name (coded_list coded_cell) };

    ghost view = { λ r. map.from_entries (rows_held H.row_held r.rows.entries) };

    ghost invariant = { λ r. IsOrdered row_name_cmp r.rows };
}

ghost use Rattle.c5_rows.specs.State.{after_change, after_writes, entry_of, rows_of};
ghost use Rattle.c5_rows.specs.Order.{row_name_cmp};
ghost use Rattle.c5_rows.specs.Held.{rows_held};
ghost use Rattle.std.specs.BTreeMap.{IsOrdered, IsUnchanged};

impl<H: HeldRow> RowMap<H> {
    /// No rows.
    pub fn new(alloc: Global) -> Self
        ensures { result ≡ map.empty }
    {
        RowMap {
            alloc,
            rows: BTreeMap::new(alloc),
        }
    }

    /// The row of this name, as it is held; `None` if there is none.
    pub fn find(&self, name: &RowName) -> Option<&H>
        ensures { option_map H.row_held (option_copied result) ≡ map.get self.now name.now }
    {
        self.rows.get(name)
    }

    /// The number of rows.
    pub fn len(&self) -> usize
        ensures { result ≡ map.len self.now }
    {
        self.rows.len()
    }

    /// Each name and its row as it is held, ascending by name. Takes no memory.
    pub fn iter(&self) -> Iter<'_, RowName, H>
        ensures rows { mapped entry_of (rows_held H.row_held result) ≡ rows_of self.now }
        ensures runs { ShowsInOrder (deref_pair {K = RowName} {X = H}) }
    {
        self.rows.iter()
    }

    /// The rows, ascending by name.
    pub fn list(&self, alloc: Global) -> Result<Vec<RowEntry>, NoMemory>
        ensures { IfOk result (λ list. list.items ≡ rows_of self.now) }
    {
        let mut list = Vec::with_capacity(alloc, self.rows.len())?;
        for (name, held) in self.iter() {
            list.push(RowEntry {
                name: *name,
                row: held.to_row(),
            })?;
        }
        Ok(list)
    }

    /// Sets the row of this name. After `NoMemory` the rows are as they were.
    pub fn put(&mut self, name: &RowName, held: H) -> Result<(), NoMemory>
        ensures ok { OnOk result (self.new ≡ map.insert self.old name.now (H.row_held held)) }
        ensures err { OnErr result (self.new ≡ self.old) }
    {
        self.rows.insert(*name, held)?;
        Ok(())
    }

    /// Removes the row of this name, if there is one.
    pub fn remove(&mut self, name: &RowName)
        ensures { self.new ≡ map.remove self.old name.now }
    {
        self.rows.remove(name);
    }
}

// Sets a row. One that is there already is written over where it is.
fn set(
    alloc: Global,
    rows: &mut BTreeMap<RowName, Box<Row>>,
    name: &RowName,
    row: &Row,
) -> Result<(), NoMemory>
    requires { IsOrdered row_name_cmp rows.old }
    ensures ordered { IsOrdered row_name_cmp rows.new }
    ensures ok { OnOk result
        (map.from_entries {R = row_name_cmp} (rows_held (λ block. block.value) rows.new.entries)
        ≡ map.insert (map.from_entries (rows_held (λ block. block.value) rows.old.entries))
        name.now row.now) }
    ensures err { OnErr result (IsUnchanged rows.old rows.new) }
{
    match rows.get_mut(name) {
        Some(old) => **old = *row,
        None => {
            let block = Box::new(alloc, *row)?;
            rows.insert(*name, block)?;
        }
    }
    Ok(())
}

/// Rows by their names, each in a block of its own.
pub type Rows = RowMap<Box<Row>>;

impl RowMap<Box<Row>> {
    /// The row of this name; `None` if there is none.
    pub fn get(&self, name: &RowName) -> Option<&Row>
        ensures { option_copied result ≡ map.get self.now name.now }
    {
        match self.find(name) {
            Some(row) => Some(&**row),
            None => None,
        }
    }

    /// The same rows, with memory of their own.
    pub fn copied(&self) -> Result<Rows, NoMemory>
        ensures { IfOk result (λ copy. copy ≡ self.now) }
    {
        Ok(RowMap {
            alloc: self.alloc,
            rows: self.rows.clone()?,
        })
    }

    // Makes one change. After an error the rows are as they were.
    fn change(&mut self, name: &RowName, change: &Change) -> Result<(), NoMemory>
        ensures ok { OnOk result (self.new ≡ after_change name.now change.now self.old) }
        ensures err { OnErr result (self.new ≡ self.old) }
    {
        match change {
            Change::Put(row) => set(self.alloc, &mut self.rows, name, row),
            Change::Gone => {
                self.remove(name);
                Ok(())
            }
        }
    }

    /// Makes the changes of a transaction, by ascending name. After an error the first
    /// `Applied::writes` of them have been made, and no others.
    pub fn apply(&mut self, txn: &Txn) -> Result<(), Applied>
        ensures ok { OnOk result (self.new ≡ after_writes txn.now.writes self.old) }
        ensures err { IfErr result (λ applied.
            self.new ≡ after_writes (take applied.writes txn.now.writes) self.old) }
        ensures left { IfErr result (λ applied. applied.writes < length txn.now.writes) }
    {
        for (applied, write) in txn.writes.as_slice().iter().enumerate() {
            match self.change(&write.name, &write.change) {
                Ok(()) => {}
                Err(NoMemory) => return Err(Applied { writes: applied }),
            }
        }
        Ok(())
    }
}

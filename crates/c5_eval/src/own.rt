//! The rows that a body has set.

ghost use Rattle.std.specs.Prelude.{◌≡◌, OnOk, IfOk, Some, cond, option_map};
ghost use Rattle.std.specs.Option.{option_copied};
ghost use Rattle.std.specs.FinMap as map;
ghost use Rattle.std.specs.Map.{lookup};
ghost use Rattle.std.specs.BTreeMap.{IsOrdered, is_at};
ghost use Rattle.c5_rows.specs.declared.writes.RowName.{RowName as Name};
ghost use Rattle.c5_rows.specs.Order.{row_name_cmp};
ghost use Rattle.c5_definitions.specs.Follows.{own_writes};
ghost use Rattle.c5_eval.specs.Setting.{row_made, pairs_of, set_by};
ghost use Rattle.c5_eval.specs.Held.{held_by, IsOrderedIn};

use c5_rows::{Change, NoMemory, RowName, Write, Writes};
use std::alloc::Global;
use std::collections::BTreeMap;
use std::marker::Model;

/// The rows that a body has set, each by the change that makes it.
// While the names come nearly in order, the changes are kept as the writes that the body makes,
// which moves the writes after a new one. From the first name on that would move many, they are in
// a tree.
#[derive(Drop)]
pub struct Own {
    alloc: Global,
    writes: Writes,
    tree: Option<BTreeMap<RowName, Change>>,
}

impl Model for Own {
    ghost use Rattle.std.specs.Prelude.{List, Option};
    ghost use Rattle.std.specs.FinMap as map;
    ghost use Rattle.std.specs.Coded.{coded_list, coded_option};
    ghost use Rattle.c5_rows.specs.declared.cells.Cell.{Cell};
    ghost use Rattle.c5_rows.specs.Cells.{coded_cell};
    ghost use Rattle.c5_rows.specs.Order.{row_name_cmp, coded_row_name};
    ghost use Rattle.c5_eval.specs.Setting.{set_by};
    ghost use Rattle.c5_eval.specs.Held.{held_by, IsOrderedIn};

    ghost Value = { map.FinMap row_name_cmp (Option (List Cell)) };

    ghost coded = { map.code coded_row_name (coded_option (coded_list coded_cell)) };

    ghost view = { λ o. set_by (held_by o.writes o.tree) };

    ghost invariant = { λ o. IsOrderedIn o.tree };
}

// Sets the value of a name. An existing value is replaced in place.
#[inline(always)]
fn put<V: Drop>(values: &mut BTreeMap<RowName, V>, name: &RowName, value: V) -> Result<(), NoMemory>
    requires { IsOrdered row_name_cmp values.old }
    ensures ordered { IsOrdered row_name_cmp values.new }
    ensures set { OnOk result ((q : Name)
        → lookup (is_at (row_name_cmp q)) values.new.entries
        ≡ cond (is_at (row_name_cmp name.now) q) (Some value)
        (lookup (is_at (row_name_cmp q)) values.old.entries)) }
{
    match values.get_mut(name) {
        Some(old) => *old = value,
        None => {
            values.insert(*name, value)?;
        }
    }
    Ok(())
}

// The changes of the writes, as a tree.
fn tree_of(alloc: Global, writes: &[Write]) -> Result<BTreeMap<RowName, Change>, NoMemory>
    ensures ordered { IfOk result (λ tree. IsOrdered row_name_cmp tree) }
    ensures same { IfOk result (λ tree. set_by tree.entries ≡ set_by (pairs_of writes.now)) }
{
    let mut tree = BTreeMap::new(alloc);
    for done in 0..writes.len() {
        let write = writes[writes.len() - 1 - done];
        put(&mut tree, &write.name, write.change)?;
    }
    Ok(tree)
}

// The writes of the changes of a tree.
fn writes_of(alloc: Global, tree: &BTreeMap<RowName, Change>) -> Result<Writes, NoMemory>
    requires { IsOrdered row_name_cmp tree.now }
    ensures { IfOk result (λ writes. writes ≡ own_writes (set_by tree.now.entries)) }
{
    let mut writes = Writes::with_capacity(alloc, tree.len())?;
    for (name, change) in tree.iter() {
        writes.set(*name, *change)?;
    }
    Ok(writes)
}

// How many writes may move when one is added.
const FEW: usize = 16;

// Whether at most `FEW` writes come after the place of this name.
fn is_near_end(writes: &[Write], name: &RowName) -> bool {
    writes.len() <= FEW || writes[writes.len() - 1 - FEW].name < *name
}

// Sets a row, in the writes or in the tree.
#[inline(always)]
fn set_in(
    writes: &mut Writes,
    tree: &mut Option<BTreeMap<RowName, Change>>,
    name: &RowName,
    change: Change,
) -> Result<(), NoMemory>
    requires { IsOrderedIn tree.old }
    ensures ordered { IsOrderedIn tree.new }
    ensures set { OnOk result (set_by (held_by writes.new tree.new)
        ≡ map.insert (set_by (held_by writes.old tree.old)) name.now (row_made change)) }
{
    match tree {
        Some(tree) => put(tree, name, change)?,
        None => {
            // Makes it known that the writes ascend.
            let _writes = writes.as_slice();
            writes.set(*name, change)?;
        }
    }
    Ok(())
}

impl Own {
    /// No rows, with memory for `count` of them.
    pub fn with_capacity(alloc: Global, count: usize) -> Result<Self, NoMemory>
        ensures { IfOk result (λ own. own ≡ map.empty) }
    {
        Ok(Own {
            alloc,
            writes: Writes::with_capacity(alloc, count)?,
            tree: None,
        })
    }

    /// What the body does to the row, or `None` if it has not set it.
    pub fn get(&self, name: &RowName) -> Option<&Change>
        ensures { option_map row_made (option_copied result) ≡ map.get self.now name.now }
    {
        match &self.tree {
            Some(tree) => tree.get(name),
            None => self.writes.find(name),
        }
    }

    // Moves the changes to a tree if a new one of this name would move many.
    fn make_room(&mut self, name: &RowName) -> Result<(), NoMemory>
        ensures { self.new ≡ self.old }
    {
        if self.tree.is_none() && !is_near_end(self.writes.as_slice(), name) {
            let tree = tree_of(self.alloc, self.writes.as_slice())?;
            self.tree = Some(tree);
        }
        Ok(())
    }

    /// Sets the row by this change.
    pub fn set(&mut self, name: &RowName, change: Change) -> Result<(), NoMemory>
        ensures { OnOk result (self.new ≡ map.insert self.old name.now (row_made change)) }
    {
        self.make_room(name)?;
        set_in(&mut self.writes, &mut self.tree, name, change)
    }

    /// One write for each row that was set, ascending by name.
    pub fn into_writes(self) -> Result<Writes, NoMemory>
        ensures { IfOk result (λ writes. writes ≡ own_writes self) }
    {
        let Own {
            alloc,
            writes,
            tree,
        } = self;
        match tree {
            Some(tree) => writes_of(alloc, &tree),
            None => {
                // Makes it known that the writes ascend.
                let _writes = writes.as_slice();
                Ok(writes)
            }
        }
    }
}

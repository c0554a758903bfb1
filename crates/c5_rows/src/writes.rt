//! Names of rows, writes and transactions.

ghost use Rattle.std.specs.Prelude.{◌≡◌, ◌<◌, ◌≤◌, [], OnOk, OnErr, IfOk, insert, length};
ghost use Rattle.std.specs.Prelude.{MatchResult};
ghost use Rattle.std.specs.Option.{option_copied};

use crate::cells::Row;
use crate::memory::NoMemory;
use crate::names::Key;
use std::alloc::Global;
use std::cmp::Ordering;
use std::marker::Model;

/// The name of a row: the number of its table, which counts from 0, and its key.
/// Names are ordered by table, then by key.
#[derive(Clone, Copy, Debug, PartialEq, Eq, PartialOrd, Ord)]
pub struct RowName {
    pub table: u8,
    pub key: Key,
}

/// What a write does to its row.
#[derive(Clone, Copy, Debug, PartialEq, Eq)]
pub enum Change {
    /// The row becomes this one.
    Put(Row),
    /// The row becomes absent.
    Gone,
}

/// A change of one row.
#[derive(Clone, Copy, Debug, PartialEq, Eq)]
pub struct Write {
    pub name: RowName,
    pub change: Change,
}

/// The writes of a transaction, at most one a row, strictly ascending by name.
#[derive(Drop)]
pub struct Writes {
    writes: Vec<Write>,
}

impl Model for Writes {
    ghost use Rattle.std.specs.Prelude.{List};
    ghost use Rattle.c5_rows.specs.declared.writes.Write.{Write};
    ghost use Rattle.c5_rows.specs.Writes.{IsAscending};

    ghost Value = { List Write };

    ghost view = { λ w. w.writes.items };

    ghost invariant = { λ w. IsAscending w.writes.items };
}

ghost use Rattle.c5_rows.specs.Writes.{IsAscending, change_of, put_write};
ghost use Rattle.c5_rows.specs.Order.{row_name_cmp};
ghost use Rattle.std.specs.List.Sorted.{IsPartitionPoint};
ghost use Rattle.std.specs.List.{HoldsAt};

// Where the write of this name is, or where it would be.
fn place_of(writes: &[Write], name: &RowName) -> Result<usize, usize>
    requires { IsAscending writes.now }
    ensures bound { MatchResult result (λ i. i < length writes.now) (λ i. i ≤ length writes.now) }
    ensures place { MatchResult result
        (HoldsAt (λ w. row_name_cmp w.name name.now ≡ Ordering.Equal) writes.now)
        (IsPartitionPoint (λ w. row_name_cmp w.name name.now ≡ Ordering.Less)
        (λ w. row_name_cmp w.name name.now ≡ Ordering.Greater) writes.now) }
{
    let Some(last) = writes.last() else {
        return Err(0);
    };
    // A log has its writes in order, so the end is tried first.
    if name.cmp(&last.name).is_gt() {
        return Err(writes.len());
    }
    writes.binary_search_by_key(name, |write| write.name)
}

// Adds an item before the one at this place, or at the end.
#[inline(always)]
fn add_at<T: Drop>(items: &mut Vec<T>, at: usize, item: T) -> Result<(), NoMemory>
    requires { at ≤ length items.old.items }
    ensures ok { OnOk result (items.new.items ≡ insert items.old.items at item) }
    ensures err { OnErr result (items.new.items ≡ items.old.items) }
{
    if at == items.len() {
        items.push(item)?;
    } else {
        items.insert(at, item)?;
    }
    Ok(())
}

// Puts a write in its place.
#[inline(always)]
fn put(writes: &mut Vec<Write>, name: RowName, change: Change) -> Result<(), NoMemory>
    requires { IsAscending writes.old.items }
    ensures ok { OnOk result
        (writes.new.items ≡ put_write (record { name = name; change = change }) writes.old.items) }
    ensures err { OnErr result (writes.new.items ≡ writes.old.items) }
    ensures ascending { IsAscending writes.new.items }
{
    match place_of(writes, &name) {
        Ok(at) => writes[at] = Write { name, change },
        Err(at) => add_at(writes, at, Write { name, change })?,
    }
    Ok(())
}

fn look_up<'a>(writes: &'a [Write], name: &RowName) -> Option<&'a Change>
    requires { IsAscending writes.now }
    ensures { option_copied result ≡ change_of name.now writes.now }
{
    match place_of(writes, name) {
        Ok(at) => Some(&writes[at].change),
        Err(_) => None,
    }
}

impl Writes {
    /// No writes.
    pub fn new(alloc: Global) -> Self
        ensures { result ≡ [] }
    {
        Writes {
            writes: Vec::new(alloc),
        }
    }

    /// No writes. `count` is a hint: how many writes are expected. `set` may run out of memory all
    /// the same.
    pub fn with_capacity(alloc: Global, count: usize) -> Result<Self, NoMemory>
        ensures { IfOk result (λ writes. writes ≡ []) }
    {
        Ok(Writes {
            writes: Vec::with_capacity(alloc, count)?,
        })
    }

    /// Replaces the write of that name, or adds one in its place. After `NoMemory` nothing has
    /// changed.
    pub fn set(&mut self, name: RowName, change: Change) -> Result<(), NoMemory>
        ensures ok { OnOk result
            (self.new ≡ put_write (record { name = name; change = change }) self.old) }
        ensures err { OnErr result (self.new ≡ self.old) }
    {
        put(&mut self.writes, name, change)
    }

    /// The change of the row of this name; `None` if no write has the name.
    pub fn find(&self, name: &RowName) -> Option<&Change>
        ensures { option_copied result ≡ change_of name.now self.now }
    {
        look_up(&self.writes, name)
    }

    /// The writes, ascending by name.
    pub fn as_slice(&self) -> &[Write]
        ensures value { result.now ≡ self.now }
        ensures ascending { IsAscending self.now }
    {
        &self.writes
    }
}

/// A transaction of a log.
#[derive(Drop)]
pub struct Txn {
    /// The number of its body in the primary's script; in a log any number.
    pub script: u32,
    /// Its timestamp, at least 1 in a log.
    pub stamp: u64,
    pub writes: Writes,
}

//! How much a script may hold.

ghost use Rattle.std.specs.Prelude.{◌≡◌, ◌≤◌, ◌<◌, ◌||◌, ◌↔◌, List, Err, length, IfOk, OnOk};
ghost use Rattle.std.specs.List.{filter_map};
ghost use Rattle.std.specs.Set.{distinct_count};
ghost use Rattle.std.specs.Ordering.{eq_by_cmp};
ghost use Rattle.c5_rows.specs.Sizes.{max_transactions};
ghost use Rattle.c5_rows.specs.Order.{row_name_cmp};
ghost use Rattle.c5_script.specs.Rows.{is_row};
ghost use Rattle.c5_rows.specs.declared.writes.RowName.{RowName};
ghost use Rattle.c5_definitions.specs.Limits.{written_name, written_names, write_statements};
ghost use Rattle.c5_definitions.specs.Limits.{written_row_count, excess_of};
ghost use Rattle.c5_script.specs.Slots.{slots};

use crate::bodies::Body;
use crate::script::Script;
use c5_definitions::{Excess, Statement};
use c5_rows::{MAX_ROWS, MAX_TRANSACTIONS, MAX_WRITES, NoMemory, RowName};
use std::alloc::Global;

// The name of the row that a statement writes.
fn written_by(statement: &Statement) -> Option<RowName>
    ensures { result ≡ written_name statement.now }
{
    match statement {
        Statement::Put { name, .. } => Some(*name),
        Statement::Del { name } => Some(*name),
        Statement::Need { .. } => None,
        Statement::Add { name, .. } => Some(*name),
        Statement::Copy { to, .. } => Some(*to),
    }
}

// How many statements write.
fn writes_of(statements: &[Statement]) -> usize
    ensures count { result ≡ length (filter_map written_name statements.now) }
    ensures few { result ≤ length statements.now }
{
    let mut count = 0;
    for statement in statements {
        if written_by(statement).is_some() {
            count += 1;
        }
    }
    count
}

// How many statements of all bodies write.
fn writes_in(bodies: &[Body]) -> usize
    requires { length bodies.now ≤ max_transactions }
    ensures { result ≡ write_statements bodies.now }
{
    let mut count = 0;
    for body in bodies {
        count += writes_of(body.statements());
    }
    count
}

// How many places are kept of names that were met.
const SLOTS: usize = 131_072;

// Where the place of the name is kept.
fn slot_of(name: &RowName) -> usize
    ensures { result < slots }
{
    let mut slot = name.table as usize;
    for byte in name.key.bytes() {
        slot = (slot * 31 + *byte as usize) % SLOTS;
    }
    slot
}

fn is_same(a: &RowName, b: &RowName) -> bool
    ensures { result ≡ eq_by_cmp row_name_cmp a.now b.now }
{
    a == b
}

// Adds the name if it isn't held, and maybe if it is: `places` has places of some names that
// are held. A row that is written often is then only a few times among the names.
fn push_name(names: &mut Vec<RowName>, places: &mut [usize], name: RowName) -> Result<(), NoMemory>
    requires { length places.old ≡ slots }
    ensures same_length { length places.new ≡ slots }
    ensures names { OnOk result
        ((q : RowName) → is_row names.new.items q
        ≡ (is_row names.old.items q || eq_by_cmp row_name_cmp q name)) }
{
    let slot = slot_of(&name);
    let place = places[slot];
    if place < names.len() && is_same(&names[place], &name) {
        return Ok(());
    }
    places[slot] = names.len();
    names.push(name)?;
    Ok(())
}

// Adds the names of the rows that the statements write.
fn push_names(
    names: &mut Vec<RowName>,
    places: &mut [usize],
    statements: &[Statement],
) -> Result<(), NoMemory>
    requires { length places.old ≡ slots }
    ensures same_length { length places.new ≡ slots }
    ensures names { OnOk result
        ((q : RowName) → is_row names.new.items q
        ≡ (is_row names.old.items q || is_row (filter_map written_name statements.now) q)) }
{
    for statement in statements {
        if let Some(name) = written_by(statement) {
            push_name(names, places, name)?;
        }
    }
    Ok(())
}

// Adds the names of the rows that the bodies write.
fn push_all_names(
    names: &mut Vec<RowName>,
    places: &mut [usize],
    bodies: &[Body],
) -> Result<(), NoMemory>
    requires { length places.old ≡ slots }
    ensures { OnOk result ((q : RowName) → is_row names.new.items q
        ≡ (is_row names.old.items q || is_row (written_names bodies.now) q)) }
{
    for body in bodies {
        push_names(names, places, body.statements())?;
    }
    Ok(())
}

// The names of the rows that the bodies write with `count` statements.
fn names_in(alloc: Global, bodies: &[Body], count: usize) -> Result<Vec<RowName>, NoMemory>
    ensures { IfOk result (λ names. (q : RowName)
        → is_row names.items q ≡ is_row (written_names bodies.now) q) }
{
    let mut names = Vec::with_capacity(alloc, count)?;
    let mut places = vec![in alloc; 0; SLOTS]?;
    push_all_names(&mut names, &mut places, bodies)?;
    Ok(names)
}

// How many different names there are, here and in each list that has the same ones.
fn different(names: Vec<RowName>) -> usize
    ensures { (all : List RowName) → ((q : RowName) → is_row names.items q ≡ is_row all q)
        → result ≡ distinct_count (eq_by_cmp row_name_cmp) all }
{
    let mut names = names;
    names.sort_unstable();
    names.dedup();
    names.len()
}

impl Script {
    /// The first limit that the script exceeds, in the order of `Excess`; `None` if it exceeds
    /// none.
    pub fn check_limits(&self, alloc: Global) -> Result<Option<Excess>, NoMemory>
        ensures { IfOk result (λ excess. excess ≡ excess_of self.now) }
    {
        let bodies = self.bodies();
        if bodies.len() > MAX_TRANSACTIONS {
            return Ok(Some(Excess::Transactions));
        }
        let count = writes_in(bodies);
        if count > MAX_WRITES {
            return Ok(Some(Excess::Writes));
        }
        // There are no more rows than writes.
        if count <= MAX_ROWS {
            return Ok(None);
        }
        let names = names_in(alloc, bodies, count)?;
        // There are no more rows than names.
        if names.len() <= MAX_ROWS {
            return Ok(None);
        }
        if different(names) > MAX_ROWS {
            return Ok(Some(Excess::Rows));
        }
        Ok(None)
    }
}

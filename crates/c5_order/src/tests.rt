ghost use Rattle.std.specs.Prelude.{◌≡◌, ◌<◌, ◌++◌, ◌∷◌, [], length, IfOk, pos};
ghost use Rattle.c5_rows.specs.declared.cells.Cell.TheVariants as cells;
ghost use Rattle.c5_rows.specs.declared.writes.Change.TheVariants as changes;
ghost use Rattle.c5_definitions.specs.declared.script.Statement.TheVariants as statements;
ghost use Rattle.c5_definitions.specs.declared.history.Event.TheVariants as events;
ghost use Rattle.c5_definitions.specs.WorkedOrder.{row_x as name_x};
ghost use Rattle.c5_definitions.specs.WorkedOrder.{read_base, read_by_later, later_committed};
ghost use Rattle.c5_definitions.specs.WorkedOrder.{earlier_cancelled, write_base, later_first};
ghost use Rattle.c5_definitions.specs.WorkedOrder.{both_committed};

use super::*;
use c5_rows::{Cell, Change, Key, Row, RowName, Rows, Writes};
use c5_script::{Body, Rel, Statement};
use std::alloc::Global;
use std::process::Abort;
use std::test::Fail;
use turn_slot::{Take, TurnSlot};

fn row_x() -> Result<RowName, Fail>
    ensures { IfOk result (λ name. name ≡ name_x) }
{
    Ok(RowName {
        table: 0,
        key: Key::new(b"x")?,
    })
}

// A row of one number.
fn one_cell(n: i64) -> Result<Row, Fail>
    ensures { IfOk result (λ row. row ≡ cells.Int n ∷ []) }
{
    Ok(Row::new(&[Cell::Int(n)]).ok_or("one cell")?)
}

// The body of one statement.
fn one(alloc: Global, statement: Statement) -> Result<Body, Fail>
    ensures { IfOk result (λ body. body ≡ statement ∷ []) }
{
    let mut body = Body::new(alloc);
    body.push(statement)?;
    Ok(body)
}

// A put of a number into the row.
fn put_x(n: i64) -> Result<Statement, Fail>
    ensures { IfOk result (λ s. s ≡ statements.Put name_x (cells.Int n ∷ [])) }
{
    Ok(Statement::Put {
        name: row_x()?,
        row: one_cell(n)?,
    })
}

// A write of a number to the row.
fn write_x(alloc: Global, n: i64) -> Result<Writes, Fail>
    ensures { IfOk result (λ writes.
        writes ≡ record { name = name_x; change = changes.Put (cells.Int n ∷ []) } ∷ []) }
{
    let mut writes = Writes::new(alloc);
    writes.set(row_x()?, Change::Put(one_cell(n)?))?;
    Ok(writes)
}

// Two bodies of one statement each.
fn two(alloc: Global, first: Statement, second: Statement) -> Result<Vec<Body>, Fail>
    ensures { IfOk result (λ bodies. bodies.items ≡ (first ∷ []) ∷ (second ∷ []) ∷ []) }
{
    let mut bodies = Vec::new(alloc);
    bodies.push(one(alloc, first)?)?;
    bodies.push(one(alloc, second)?)?;
    Ok(bodies)
}

// A body that puts 1 into the row, and one that needs it to be at least 0.
fn reading_bodies(alloc: Global) -> Result<Vec<Body>, Fail>
    ensures { IfOk result (λ bodies. bodies.items ≡ read_base.bodies) }
{
    let need = Statement::Need {
        name: row_x()?,
        col: 0,
        rel: Rel::Ge,
        n: 0,
    };
    two(alloc, put_x(1)?, need)
}

// Two bodies that put 1 and 2 into the row.
fn writing_bodies(alloc: Global) -> Result<Vec<Body>, Fail>
    ensures { IfOk result (λ bodies. bodies.items ≡ write_base.bodies) }
{
    two(alloc, put_x(1)?, put_x(2)?)
}

// Begins a transaction, whose stamp is the expected one.
fn begin(
    rt: &impl Abort,
    order: &mut Order,
    caller: u64,
    script: u32,
    stamp: u64,
) -> Result<(), Fail>
    requires { script < length order.old.base.bodies }
    ensures { IfOk result (λ _. order.new
        ≡ record order.old {
          history = order.old.history
              ++ record { caller = caller; stamp = stamp; event = events.Begin script } ∷ [];
        }) }
{
    let begun = order.begin(caller, script)?;
    assert_eq!(rt; begun, stamp);
    Ok(())
}

// A begin is refused.
fn refuses(rt: &impl Abort, order: &mut Order, script: u32, fault: BeginFault) -> Result<(), Fail>
    requires { script < length order.old.base.bodies }
    ensures { IfOk result (λ _. order.new ≡ order.old) }
{
    match order.begin(1, script) {
        Ok(_) => panic!(rt; "it is refused"),
        Err(found) => assert_eq!(rt; found, fault),
    }
    Ok(())
}

// Stamp 2 has read the row, so that stamp 1 can't write it.
fn conflicts(rt: &impl Abort, alloc: Global, order: &mut Order) -> Result<(), Fail>
    requires { order.old ≡ record { base = read_base; history = read_by_later } }
    ensures { IfOk result (λ _. order.new ≡ order.old) }
{
    let writes = write_x(alloc, 1)?;
    let Decision::Conflict { row, reader } = order.commit(1, &writes)? else {
        panic!(rt; "a later stamp has read the row")
    };
    assert_eq!(rt; row, row_x()?);
    assert_eq!(rt; reader, 2);
    Ok(())
}

// The need of stamp 2 isn't met, so that it commits no writes.
fn declines(rt: &impl Abort, alloc: Global, order: &mut Order) -> Result<(), Fail>
    requires { order.old ≡ record { base = read_base; history = read_by_later } }
    ensures { IfOk result (λ _. order.new
        ≡ record { base = read_base; history = later_committed }) }
{
    let none = Writes::new(alloc);
    let Decision::Committed = order.commit(2, &none)? else {
        panic!(rt; "it writes nothing")
    };
    Ok(())
}

fn cancels(order: &mut Order)
    requires { order.old ≡ record { base = read_base; history = later_committed } }
    ensures { order.new ≡ record { base = read_base; history = earlier_cancelled } }
{
    order.cancel(1);
}

// Stamps 1 and 2 are begun, and stamp 2 reads the row.
fn read_by_second<'s>(rt: &impl Abort, alloc: Global, bodies: &'s [Body]) -> Result<Order<'s>, Fail>
    requires { bodies.now ≡ read_base.bodies }
    ensures { IfOk result (λ order. order
        ≡ record { base = read_base; history = read_by_later }) }
{
    let mut order = Order::new(alloc, bodies, Rows::new(alloc), 0)?;
    begin(rt, &mut order, 1, 0, 1)?;
    begin(rt, &mut order, 2, 1, 2)?;
    let name = row_x()?;
    let row = order.read(2, &name)?;
    assert!(rt; row.is_none());
    Ok(order)
}

// The log is one transaction of script 1, with stamp 2 and no writes.
fn logs_second(rt: &impl Abort, order: &Order) -> Result<(), Fail> {
    let log = order.log()?;
    assert_eq!(rt; log.len(), 1);
    assert!(rt; log[0].script == 1 && log[0].stamp == 2);
    assert!(rt; log[0].writes.as_slice().is_empty());
    Ok(())
}

#[test]
fn a_later_reader_is_a_conflict(rt: HostRuntime) -> Result<(), Fail> {
    let alloc = rt.alloc();
    let bodies = reading_bodies(alloc)?;
    let mut order = read_by_second(&rt, alloc, &bodies)?;
    conflicts(&rt, alloc, &mut order)?;
    refuses(&rt, &mut order, 0, BeginFault::Began { stamp: 1 })?;
    declines(&rt, alloc, &mut order)?;
    assert!(rt; order.log()?.is_empty());
    assert_eq!(rt; order.first_begun(), Some(1));
    cancels(&mut order);
    logs_second(&rt, &order)?;
    refuses(&rt, &mut order, 1, BeginFault::Committed { stamp: 2 })?;
    begin(&rt, &mut order, 1, 0, 3)?;
    Ok(())
}

// Stamps 1 and 2 are begun, and stamp 2 commits.
fn second_commits<'s>(rt: &impl Abort, alloc: Global, bodies: &'s [Body]) -> Result<Order<'s>, Fail>
    requires { bodies.now ≡ write_base.bodies }
    ensures { IfOk result (λ order. order
        ≡ record { base = write_base; history = later_first }) }
{
    let mut order = Order::new(alloc, bodies, Rows::new(alloc), 0)?;
    begin(rt, &mut order, 1, 0, 1)?;
    begin(rt, &mut order, 2, 1, 2)?;
    let writes = write_x(alloc, 2)?;
    let Decision::Committed = order.commit(2, &writes)? else {
        panic!(rt; "no later stamp has read the row")
    };
    Ok(order)
}

fn first_commits(rt: &impl Abort, alloc: Global, order: &mut Order) -> Result<(), Fail>
    requires { order.old ≡ record { base = write_base; history = later_first } }
    ensures { IfOk result (λ _. order.new
        ≡ record { base = write_base; history = both_committed }) }
{
    let writes = write_x(alloc, 1)?;
    let Decision::Committed = order.commit(1, &writes)? else {
        panic!(rt; "stamp 2 has only written the row")
    };
    Ok(())
}

// The row after the whole log.
fn row_of_log(alloc: Global, order: &Order) -> Result<Option<Row>, Fail> {
    let mut rows = Rows::new(alloc);
    for txn in &order.log()? {
        rows.apply(txn).ok().ok_or("memory")?;
    }
    Ok(rows.get(&row_x()?).copied())
}

#[test]
fn the_later_stamp_may_commit_first(rt: HostRuntime) -> Result<(), Fail> {
    let alloc = rt.alloc();
    let bodies = writing_bodies(alloc)?;
    let mut order = second_commits(&rt, alloc, &bodies)?;
    first_commits(&rt, alloc, &mut order)?;
    let log = order.log()?;
    assert_eq!(rt; log.len(), 2);
    assert!(rt; log[0].stamp == 1 && log[1].stamp == 2);
    assert!(rt; row_of_log(alloc, &order)? == Some(one_cell(2)?));
    Ok(())
}

#[test]
fn no_stamp_follows_the_last_one(rt: HostRuntime) -> Result<(), Fail> {
    let alloc = rt.alloc();
    let bodies = writing_bodies(alloc)?;
    let mut order = Order::new(alloc, &bodies, Rows::new(alloc), u64::MAX)?;
    refuses(&rt, &mut order, 0, BeginFault::Stamps { last: u64::MAX })?;
    Ok(())
}

#[test]
fn a_slot_keeps_the_book(rt: HostRuntime) -> Result<(), Fail> {
    let alloc = rt.alloc();
    let bodies = writing_bodies(alloc)?;
    let order = Order::new(alloc, &bodies, Rows::new(alloc), 0)?;
    let (slot, mut passes) = TurnSlot::new(alloc, order, 2)?;
    let (Some(second), Some(first)) = (passes.pop(), passes.pop()) else {
        panic!(rt; "two passes")
    };
    let Take::Took { value, turn } = slot.try_take(first) else {
        panic!(rt; "no pass has the turn")
    };
    let Take::Busy {
        holder,
        pass: second,
    } = slot.try_take(second)
    else {
        panic!(rt; "the first pass has the turn")
    };
    assert_eq!(rt; holder, 1);
    let first = slot.give(turn, value);
    let Take::Took { value, turn } = slot.try_take(second) else {
        panic!(rt; "the turn was given back")
    };
    let second = slot.give(turn, value);
    let both = slot.join(first, second);
    let Take::Took { value, turn: _ } = slot.try_take(both) else {
        panic!(rt; "one pass has all numbers")
    };
    assert!(rt; value.last() == 0 && value.bodies().len() == 2);
    Ok(())
}

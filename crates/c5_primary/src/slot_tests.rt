ghost use Rattle.std.specs.Prelude.{◌≡◌, ◌<◌, [], length, IfOk};
ghost use Rattle.turn_slot.specs.Passes.{IsPassOf, slot_base};
ghost use Rattle.c5_primary.specs.Sessions.{IsOutcomeOf};

use super::*;
use crate::running::{RoleGate, Runner, begin, evaluated};
use crate::tests::{name_of, one};
use c5_io::{OpenGate, Role};
use c5_order::Order;
use c5_rows::{Cell, NoMemory, Row, Rows, Writes};
use c5_script::{Body, Statement};
use std::alloc::Global;
use std::process::Abort;
use std::test::Fail;
use turn_slot::{Pass, Take, TurnSlot};

// The body that puts one cell into a row.
fn put(alloc: Global, key: &[u8], n: i64) -> Result<Body, Fail> {
    let name = name_of(key)?;
    let row = Row::new(&[Cell::Int(n)]).ok_or("one cell")?;
    one(alloc, Statement::Put { name, row })
}

// Two bodies, each of which puts a row of its own.
fn two_puts(alloc: Global) -> Result<Vec<Body>, Fail>
    ensures { IfOk result (λ bodies. length bodies.items ≡ 2) }
{
    let mut bodies = Vec::new(alloc);
    bodies.push(put(alloc, b"a", 1)?)?;
    bodies.push(put(alloc, b"b", 2)?)?;
    Ok(bodies)
}

// One transaction is open, and no body is committed.
#[test]
fn what_is_left_runs_at_the_end(rt: HostRuntime) -> Result<(), Fail> {
    let alloc = rt.alloc();
    let bodies = two_puts(alloc)?;
    let mut order = Order::new(alloc, &bodies, Rows::new(alloc), 0)?;
    let begun = order.begin(1, 0)?;
    assert_eq!(rt; begun, 1);
    assert_eq!(rt; order.last(), 1);
    finish(alloc, &mut order)?;
    assert!(rt; order.first_begun().is_none());
    assert_eq!(rt; order.committed(0), Some(2));
    assert_eq!(rt; order.committed(1), Some(3));
    let log = order.log()?;
    assert_eq!(rt; log.len(), 2);
    assert!(rt; log[0].script == 0 && log[1].script == 1);
    Ok(())
}

// Body 0 is open, with stamp 1.
fn begins_the_other(rt: &impl Abort, session: &mut Session<'_, '_>)
    requires { length session.old.base.bodies ≡ 2 }
{
    match session.begin(0) {
        Ok(_) => panic!(rt; "the body is open"),
        Err(fault) => assert!(rt; fault == SessionFault::Began { stamp: 1 }),
    }
    match session.begin(1) {
        Ok(stamp) => assert_eq!(rt; stamp, 2),
        Err(_) => panic!(rt; "the body is free"),
    }
}

// The session's commit finds that pass 3 has the turn.
fn finds_the_holder(rt: &impl Abort, session: &mut Session<'_, '_>, writes: &Writes)
    requires { IsOutcomeOf session.old writes.now }
{
    match session.commit(writes) {
        Ok(_) => panic!(rt; "another pass has the turn"),
        Err(fault) => assert!(rt; fault == SessionFault::Busy { holder: 3 }),
    }
    assert_eq!(rt; session.begun(), Some(1));
}

type Three<'s> = (
    TurnSlot<Order<'s>>,
    Pass<Order<'s>>,
    Pass<Order<'s>>,
    Pass<Order<'s>>,
);

// An order book of the bodies in a slot of three passes.
fn three_passes(alloc: Global, bodies: &[Body]) -> Result<Three<'_>, Fail>
    requires { length bodies.now ≡ 2 }
    ensures first { IfOk result (λ r. IsPassOf r.0 r.1) }
    ensures second { IfOk result (λ r. IsPassOf r.0 r.2) }
    ensures third { IfOk result (λ r. IsPassOf r.0 r.3) }
    ensures base { IfOk result (λ r. (slot_base (λ o. o.base) r.0).bodies ≡ bodies.now) }
{
    let order = Order::new(alloc, bodies, Rows::new(alloc), 0)?;
    let (slot, mut passes) = TurnSlot::new(alloc, order, 3)?;
    let (Some(third), Some(second), Some(first)) = (passes.pop(), passes.pop(), passes.pop()) else {
        return Err(NoMemory.into());
    };
    Ok((slot, first, second, third))
}

#[test]
fn a_session_finds_the_turn_taken(rt: HostRuntime) -> Result<(), Fail> {
    let alloc = rt.alloc();
    let bodies = two_puts(alloc)?;
    let (slot, first, second, third) = three_passes(alloc, &bodies)?;
    let mut runner = Runner {
        session: Session::new(&slot, first),
        gate: RoleGate {
            gate: &OpenGate,
            role: Role::Primary(1),
        },
        turn: 1,
        refusals: 0,
    };
    let Ok(()) = begin(&mut runner, 0) else {
        panic!(rt; "the turn is free")
    };
    let mut other = Session::new(&slot, second);
    begins_the_other(&rt, &mut other);
    let Ok(writes) = evaluated(&mut runner, alloc, &bodies[0]) else {
        panic!(rt; "the body reads nothing")
    };
    let Take::Took {
        value: _value,
        turn: _turn,
    } = slot.try_take(third)
    else {
        panic!(rt; "the turn is free")
    };
    finds_the_holder(&rt, &mut runner.session, &writes);
    Ok(())
}

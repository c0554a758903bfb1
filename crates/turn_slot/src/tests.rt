ghost use Rattle.std.specs.Prelude.{◌≡◌, [], ◌∷◌, ◌++◌, IfOk, MatchBool};
ghost use Rattle.turn_slot.specs.Passes.{passes, numbers, IsPassOf};

use super::*;
use c5_rows::NoMemory;
use std::alloc::Global;
use std::test::Fail;
use std::thread::{join, yield_now};

// A counter: who added to it, in order.
#[derive(Drop)]
struct Counter {
    start: u64,
    added: Vec<u64>,
}

impl Kept for Counter {
    type Base = u64;

    type Entry = u64;

    ghost base = { λ c. c.start };

    ghost history = { λ c. c.added.items };

    ghost caller = { λ e. e };

    fn entries(&self) -> u64 {
        self.added.len() as u64
    }
}

impl Counter {
    fn add(&mut self, by: u64) -> bool
        ensures start { self.new.start ≡ self.old.start }
        ensures added { MatchBool result (self.new.added.items ≡ self.old.added.items ++ by ∷ [])
            (self.new.added.items ≡ self.old.added.items) }
    {
        match self.added.push(by) {
            Ok(()) => true,
            Err(_) => false,
        }
    }
}

type Opened = (TurnSlot<Counter>, Pass<Counter>, Pass<Counter>);

fn opened(alloc: Global) -> Result<Opened, NoMemory>
    ensures slot { IfOk result (λ r. passes r.0 ≡ 2) }
    ensures passes { IfOk result (λ r. IsPassOf r.0 r.1 × IsPassOf r.0 r.2) }
    ensures numbers { IfOk result (λ r. (numbers r.1 ≡ 1 ∷ []) × (numbers r.2 ≡ 2 ∷ [])) }
{
    let counter = Counter {
        start: 7,
        added: Vec::new(alloc),
    };
    let (slot, mut list) = TurnSlot::new(alloc, counter, 2)?;
    let (Some(second), Some(first)) = (list.pop(), list.pop()) else {
        return Err(NoMemory);
    };
    Ok((slot, first, second))
}

#[test]
fn busy_reports_the_holder_and_give_ends_the_turn(rt: HostRuntime) -> Result<(), Fail> {
    let (slot, first, second) = opened(rt.alloc())?;
    assert!(rt; first.number() == 1 && second.number() == 2);
    let Take::Took { mut value, turn } = slot.try_take(first) else {
        panic!(rt; "the turn is free")
    };
    let Take::Busy {
        holder,
        pass: second,
    } = slot.try_take(second)
    else {
        panic!(rt; "the first pass has the turn")
    };
    assert_eq!(rt; holder, 1);
    assert!(rt; value.add(1));
    let first = slot.give(turn, value);
    let Take::Took { mut value, turn } = slot.try_take(second) else {
        panic!(rt; "the turn was given back")
    };
    assert!(rt; value.add(2));
    let second = slot.give(turn, value);
    let both = slot.join(first, second);
    let Take::Took { value, turn } = slot.try_take(both) else {
        panic!(rt; "one pass has all numbers")
    };
    let both = slot.give(turn, value);
    let value = slot.close(both);
    assert!(rt; value.start == 7 && value.added.as_slice() == [1, 2].as_slice());
    Ok(())
}

// Adds some entries, and gives up after many tries. Answers how many were added.
fn add_some(slot: &TurnSlot<Counter>, mut pass: Pass<Counter>) -> (Pass<Counter>, usize)
    requires { IsPassOf slot.now pass }
    ensures { IsPassOf slot.now result.0 × (numbers result.0 ≡ numbers pass) }
{
    let number = pass.number();
    let mut added = 0;
    for _ in 0..100_000u32 {
        match slot.try_take(pass) {
            Take::Took { mut value, turn } => {
                if value.add(number) {
                    added += 1;
                }
                pass = slot.give(turn, value);
            }
            Take::Busy {
                holder: _,
                pass: same,
            } => {
                pass = same;
                yield_now();
            }
        }
        if added >= 100 {
            break;
        }
    }
    (pass, added)
}

#[test]
fn two_threads_take_turns(rt: HostRuntime) -> Result<(), Fail> {
    let (slot, first, second) = opened(rt.alloc())?;
    let shared = &slot;
    let ((first, a), (second, b)) = join(
        &rt,
        move || -> (Pass<Counter>, usize)
            requires { IsPassOf shared.now first }
            ensures { IsPassOf shared.entry.now result.0 × (numbers result.0 ≡ numbers first) }
        { add_some(shared, first) },
        move || -> (Pass<Counter>, usize)
            requires { IsPassOf shared.now second }
            ensures { IsPassOf shared.entry.now result.0 × (numbers result.0 ≡ numbers second) }
        { add_some(shared, second) },
    );
    let both = slot.join(first, second);
    let value = slot.close(both);
    let ones = value.added.iter().filter(|by| **by == 1).count();
    assert!(rt; a > 0 && b > 0);
    assert!(rt; ones == a && a.checked_add(b) == Some(value.added.len()));
    Ok(())
}

ghost use Rattle.std.specs.Prelude.{◌≡◌, ◌≤◌, ◌+◌, ◌∷◌, [], length, MatchOption, slice_get, IfOk};
ghost use Rattle.std.specs.Prelude.{OnOk};
ghost use Rattle.c5_rows.specs.declared.cells.CellType.TheVariants as types;

use crate::tests::{name_of, one, one_table};
use crate::{run, run_serial};
use c5_io::{Gate, OpenGate, Role};
use c5_rows::{Cell, CellType, Row, Txn};
use c5_script::{Script, Statement};
use std::alloc::Global;
use std::process::Abort;
use std::sync::atomic::{AtomicBool, AtomicU64, Ordering};
use std::test::Fail;
use std::thread::yield_now;

// A hold ends after so many looks at whether it may.
const MAX_HOLD: u32 = 10_000_000;

// Adds a body that puts one cell into a row of the first table.
fn add_put(alloc: Global, script: &mut Script, key: &[u8], n: i64) -> Result<(), Fail>
    requires { MatchOption (slice_get script.old.tables 0) ⊥
        (λ table. table.columns ≡ types.Int ∷ []) }
    ensures tables { script.new.tables ≡ script.old.tables }
    ensures count { OnOk result (length script.new.bodies ≡ length script.old.bodies + 1) }
{
    let name = name_of(key)?;
    let row = Row::new(&[Cell::Int(n)]).ok_or("one cell")?;
    script.push_body(one(alloc, Statement::Put { name, row })?)?;
    Ok(())
}

// Four bodies, each of which puts a row of its own.
fn four_puts(alloc: Global) -> Result<Script, Fail>
    ensures { IfOk result (λ script. length script.bodies ≤ 4) }
{
    let mut script = Script::new(alloc, one_table(b"acct", &[CellType::Int])?);
    add_put(alloc, &mut script, b"a", 1)?;
    add_put(alloc, &mut script, b"b", 2)?;
    add_put(alloc, &mut script, b"c", 3)?;
    add_put(alloc, &mut script, b"d", 4)?;
    Ok(script)
}

// Threads 1 and 2 wait for each other before their second and third calls.
#[derive(Drop)]
struct InTurn {
    first: AtomicU64,
    second: AtomicU64,
    late: AtomicBool,
}

impl InTurn {
    // Holds its caller until the other has reached this turn.
    fn hold(&self, other: &AtomicU64, turn: u64) {
        for _ in 0..MAX_HOLD {
            if other.load(Ordering::SeqCst) >= turn {
                return;
            }
            yield_now();
        }
        self.late.store(true, Ordering::SeqCst);
    }
}

impl Gate for InTurn {
    fn pass(&self, role: Role, turn: u64) {
        match role {
            Role::Primary(1) => self.first.store(turn, Ordering::SeqCst),
            Role::Primary(_) => self.second.store(turn, Ordering::SeqCst),
            _ => {}
        }
        match (role, turn) {
            (Role::Primary(1), 1) => self.hold(&self.second, 2),
            (Role::Primary(2), 2) => self.hold(&self.first, 2),
            (Role::Primary(1), 2) => self.hold(&self.second, 3),
            (Role::Primary(2), 3) => self.hold(&self.first, 3),
            _ => {}
        }
    }
}

fn expect(rt: &impl Abort, txn: &Txn, script: u32, stamp: u64) {
    assert_eq!(rt; txn.script, script);
    assert_eq!(rt; txn.stamp, stamp);
}

// Each thread's transaction begins and commits between two calls of the other one.
#[test]
fn two_threads_take_turns(rt: HostRuntime) -> Result<(), Fail> {
    let alloc = rt.alloc();
    let script = four_puts(alloc)?;
    let gate = InTurn {
        first: AtomicU64::new(0),
        second: AtomicU64::new(0),
        late: AtomicBool::new(false),
    };
    let txns = run(&rt, alloc, &script, 2, &gate)?;
    assert!(rt; !gate.late.load(Ordering::SeqCst));
    assert!(rt; gate.first.load(Ordering::SeqCst) >= 3);
    assert!(rt; gate.second.load(Ordering::SeqCst) >= 3);
    assert_eq!(rt; txns.len(), 4);
    expect(&rt, &txns[0], 1, 1);
    expect(&rt, &txns[1], 0, 2);
    let serial = run_serial(alloc, &script)?;
    assert_eq!(rt; serial.len(), 4);
    expect(&rt, &serial[0], 0, 1);
    expect(&rt, &serial[1], 1, 2);
    Ok(())
}

#[test]
fn four_threads_run_each_body_once(rt: HostRuntime) -> Result<(), Fail> {
    let alloc = rt.alloc();
    let script = four_puts(alloc)?;
    let txns = run(&rt, alloc, &script, 4, &OpenGate)?;
    assert_eq!(rt; txns.len(), 4);
    for number in 0..4u32 {
        assert!(rt; txns.iter().any(|txn| txn.script == number));
    }
    Ok(())
}

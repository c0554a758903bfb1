ghost use Rattle.std.specs.Prelude.{◌≡◌, ◌+◌, ◌*◌, ℕ, List};
ghost use Rattle.c5_rows.specs.Sizes.{max_transactions};
ghost use Rattle.c5_rows.specs.State.{rows_of};
ghost use Rattle.c5_definitions.specs.Generated.{draw, generated_script};
ghost use Rattle.c5_definitions.specs.Limits.{excess_of};
ghost use Rattle.c5_definitions.specs.Summaries.{generated_state, rows_total, summary_at};
ghost use Rattle.c5_gen.specs.Laws.{ArePlaces};

use crate::draws::{FIRST_DRAW, draw_after};
use crate::{limits_law, money_law, script_of, summary_law, worked_summaries};
use c5_definitions::{Excess, worked_draws};
use c5_rows::{Cell, Key, Row, RowName};
use c5_script::{Rel, Statement};
use std::test::Fail;

// The number in a row's first column.
fn balance_of(row: &Row) -> i64 {
    match row.cells().first() {
        Some(Cell::Int(n)) => *n,
        _ => 0,
    }
}

fn row_of(key: &[u8]) -> Result<RowName, Fail> {
    Ok(RowName {
        table: 0,
        key: Key::new(key)?,
    })
}

// What the first draw moves: account 27 pays 96 to account 9.
#[test]
fn the_first_transfer(rt: HostRuntime) -> Result<(), Fail> {
    let script = script_of(rt.alloc(), 2)?;
    let want = [
        Statement::Need {
            name: row_of(b"a27")?,
            col: 0,
            rel: Rel::Ge,
            n: 96,
        },
        Statement::Add {
            name: row_of(b"a27")?,
            col: 0,
            n: -96,
        },
        Statement::Add {
            name: row_of(b"a09")?,
            col: 0,
            n: 96,
        },
    ];
    assert_eq!(rt; script.bodies().len(), 2);
    assert_eq!(rt; script.bodies()[1].statements(), want.as_slice());
    Ok(())
}

#[test]
fn a_script_of_one_transaction(rt: HostRuntime) -> Result<(), Fail> {
    let script = script_of(rt.alloc(), 1)?;
    assert_eq!(rt; script.bodies().len(), 1);
    assert_eq!(rt; script.bodies()[0].statements().len(), 64);
    assert_eq!(rt; script.reads().len(), 16);
    assert_eq!(rt; script.reads()[0].session(), 1);
    assert_eq!(rt; script.reads()[15].session(), 4);
    assert_eq!(rt; script.turns().len(), 0);
    Ok(())
}

#[test]
fn the_longest_script(rt: HostRuntime) -> Result<(), Fail> {
    let script = script_of(rt.alloc(), 65_536)?;
    assert_eq!(rt; script.bodies().len(), 65_536);
    assert_eq!(rt; script.check_limits(rt.alloc()), Ok(longest_excess()));
    Ok(())
}

// The first draw after `FIRST_DRAW`, as it was computed by hand.
fn worked_draw() -> u64
    ensures { draw 1 ≡ result }
{
    worked_draws();
    7806831264735756412
}

#[test]
fn the_first_draw(rt: HostRuntime) {
    assert_eq!(rt; draw_after(FIRST_DRAW), worked_draw());
}

// The writes of the first two transactions, as they were computed by hand, and as the law of
// summaries has them with those of transfers that are declined.
fn worked_writes() -> u32
    ensures worked { (places : List ℕ) → (summary_at 2 places).writes ≡ result }
    ensures law { (places : List ℕ) → ArePlaces 2 places
        → (summary_at 2 places).writes + 2 * (summary_at 2 places).declined ≡ result }
{
    worked_summaries();
    summary_law();
    66
}

// The balances of all accounts after the first transaction.
fn money() -> i64
    ensures { rows_total (rows_of (generated_state 2 1)) ≡ result }
{
    money_law();
    64_000
}

#[test]
fn the_first_writes_and_balances(rt: HostRuntime) -> Result<(), Fail> {
    let script = script_of(rt.alloc(), 2)?;
    let mut writes: u32 = 0;
    let mut opened: i64 = 0;
    for body in script.bodies() {
        for statement in body.statements() {
            match statement {
                Statement::Need { .. } => {}
                Statement::Put { row, .. } => {
                    writes = writes.saturating_add(1);
                    opened = opened.saturating_add(balance_of(row));
                }
                _ => writes = writes.saturating_add(1),
            }
        }
    }
    assert_eq!(rt; writes, worked_writes());
    assert_eq!(rt; opened, money());
    Ok(())
}

// The first limit that the longest script exceeds: none.
fn longest_excess() -> Option<Excess>
    ensures { excess_of (generated_script max_transactions) ≡ result }
{
    limits_law();
    None
}

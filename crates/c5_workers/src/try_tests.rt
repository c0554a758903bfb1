ghost use Rattle.std.specs.Prelude.{◌≡◌, ◌≤◌, ◌∷◌, length, true, false};
ghost use Rattle.c5_rows.specs.Numbers.{is_among};
ghost use Rattle.c5_definitions.specs.WriteNumbers.{owner_of};

use super::*;
use crate::tests::{ONE_ROW, cell_at, finished, log, row_name, scheduled};
use c5_board::{Board, BoardPass};
use c5_chains::{Install, try_install};
use c5_plan::plan;
use c5_rows::Cell;
use c5_snapshot::advance;
use std::alloc::Global;
use std::process::Abort;
use std::test::Fail;

// Write w, which one of two workers owns, is installed by a pass with the worker's role.
fn installs(rt: &impl Abort, board: &Board<'_>, pass: &mut BoardPass, w: u32)
    requires pass { pass.old.board ≡ board.now }
    requires workers { board.now.workers ≡ 2 }
    requires role { is_among (owner_of 2 w) pass.old.roles ≡ true }
    requires write { (1 ≤ w) × (w ≤ pass.old.scheduled) }
    requires not_installed { is_among w pass.old.installed ≡ false }
    ensures { pass.new
        ≡ record pass.old { installed = w ∷ pass.old.installed; looks = pass.new.looks } }
{
    match try_install(board, pass, w) {
        Install::Installed => {}
        Install::PutOff { .. } => panic!(rt; "its predecessor is installed"),
    }
}

// Write w is put off, since no write of its row is installed.
fn puts_off(rt: &impl Abort, board: &Board<'_>, pass: &mut BoardPass, w: u32)
    requires pass { pass.old.board ≡ board.now }
    requires workers { board.now.workers ≡ 2 }
    requires role { is_among (owner_of 2 w) pass.old.roles ≡ true }
    requires write { (1 ≤ w) × (w ≤ pass.old.scheduled) }
    requires not_installed { is_among w pass.old.installed ≡ false }
    ensures { pass.new ≡ record pass.old { looks = pass.new.looks } }
{
    match try_install(board, pass, w) {
        Install::Installed => panic!(rt; "its predecessor isn't installed"),
        Install::PutOff { seen } => assert_eq!(rt; seen, 0),
    }
}

#[test]
#[tactic(auto, unfolding(c5_definitions::specs::WriteNumbers::owner_of))]
fn a_write_is_put_off_until_its_predecessor_is_installed(rt: HostRuntime) -> Result<(), Fail> {
    let log = log(rt.alloc(), ONE_ROW)?;
    let plan = plan(&log).ok().ok_or("a plan")?;
    let (board, mut pass) = scheduled(rt.alloc(), &plan)?;
    assert_eq!(rt; board.writes(), 3);
    puts_off(&rt, &board, &mut pass, 2);
    installs(&rt, &board, &mut pass, 1);
    installs(&rt, &board, &mut pass, 2);
    let advanced = advance(&board, &mut pass);
    assert!(rt; advanced.place == 0 && advanced.least == 1);
    Ok(())
}

#[test]
#[tactic(auto, unfolding(c5_definitions::specs::WriteNumbers::owner_of))]
fn two_passes_install_a_row_in_turn(rt: HostRuntime) -> Result<(), Fail> {
    let log = log(rt.alloc(), ONE_ROW)?;
    let plan = plan(&log).ok().ok_or("a plan")?;
    let (board, pass) = scheduled(rt.alloc(), &plan)?;
    assert_eq!(rt; board.writes(), 3);
    let (rest, mut first) = board.split_worker(pass, 1);
    let (_rest, mut second) = board.split_worker(rest, 2);
    installs(&rt, &board, &mut first, 1);
    installs(&rt, &board, &mut second, 2);
    installs(&rt, &board, &mut first, 3);
    Ok(())
}

// Adds a transaction that puts its number into the row of this key.
fn add_put(bytes: &mut Vec<u8>, number: u8, key: &[u8]) -> Result<(), Fail>
    requires number { 1 ≤ number }
    requires key { length key.now ≤ 2 }
{
    let len = key.len() as u8;
    bytes.extend_from_slice(b"\0\0\0")?;
    bytes.push(12 + len)?;
    bytes.extend_from_slice(b"W\0")?;
    bytes.push(len)?;
    bytes.extend_from_slice(key)?;
    bytes.push(0)?;
    bytes.extend_from_slice(&u64::from(number).to_be_bytes())?;
    bytes.extend_from_slice(b"\0\0\0\x11C")?;
    bytes.extend_from_slice(&u32::from(number - 1).to_be_bytes())?;
    bytes.extend_from_slice(&u64::from(number).to_be_bytes())?;
    bytes.extend_from_slice(b"\0\0\0\x01")?;
    Ok(())
}

// Adds the transaction of this number: the even ones and the first put into `a`, the last two into
// `b`, and each other one into a row of its own.
fn add_hot(bytes: &mut Vec<u8>, number: u8) -> Result<(), Fail>
    requires { (1 ≤ number) × (number ≤ 130) }
{
    if number > 128 {
        return add_put(bytes, number, b"b");
    }
    if number == 1 || number % 2 == 0 {
        return add_put(bytes, number, b"a");
    }
    add_put(bytes, number, &[b'n', b'0' + number / 2])
}

// 130 transactions of one put each: 65 put into `a`, two into `b`, and 63 into other rows.
fn hot_rows(alloc: Global) -> Result<Vec<u8>, Fail> {
    let mut bytes = Vec::new(alloc);
    bytes.extend_from_slice(b"C5L1\x01\x04acct\x01\x01")?;
    for number in 1..131 {
        add_hot(&mut bytes, number)?;
    }
    bytes.extend_from_slice(b"\0\0\0\x05E\0\0\0\x82")?;
    Ok(bytes)
}

// No worker has made a turn.
#[test]
fn all_that_is_left_is_installed(rt: HostRuntime) -> Result<(), Fail> {
    let bytes = hot_rows(rt.alloc())?;
    assert_eq!(rt; bytes.len(), 5_024);
    let log = log(rt.alloc(), &bytes)?;
    let plan = plan(&log).ok().ok_or("a plan")?;
    let (board, pass) = scheduled(rt.alloc(), &plan)?;
    assert_eq!(rt; board.writes(), 130);
    let mut pass = finished(rt.alloc(), &board, pass)?;
    let advanced = advance(&board, &mut pass);
    assert!(rt; advanced.place == 130 && advanced.least == 131);
    let name = row_name(b"a")?;
    assert!(rt; cell_at(&board, &mut pass, &name, 130) == Some(Cell::Int(128)));
    Ok(())
}

//! The pass of a new board is split into the parts of a replay.

ghost use Rattle.std.specs.Prelude.{◌≡◌, ◌++◌, ◌∷◌, [], IfOk, OnOk, map};
ghost use Rattle.c5_rows.specs.State.{State};
ghost use Rattle.c5_rows.specs.Numbers.{numbers_from};
ghost use Rattle.c5_board.specs.First.{first_pass};
ghost use Rattle.c5_workers.specs.Schedules.{FitsNew};
ghost use Rattle.c5_replay.specs.Parts.{IsPassWith, ArePlaying, role_of, all_roles, worker_roles};
ghost use Rattle.c5_replay.specs.Parts.{session_roles};

use crate::part::Part;
use c5_board::{Board, BoardPass};
use c5_rows::NoMemory;
use c5_workers::{Scheduler, Worker};
use std::alloc::Global;

// Adds a part at the end.
fn add(parts: &mut Vec<Part>, part: Part) -> Result<(), NoMemory>
    ensures { OnOk result (parts.new.items ≡ parts.old.items ++ part ∷ []) }
{
    parts.push(part)?;
    Ok(())
}

// Adds the parts of so many sessions.
fn add_sessions(
    alloc: Global,
    board: &Board<'_>,
    mut pass: BoardPass,
    parts: &mut Vec<Part>,
    sessions: u32,
) -> Result<BoardPass, NoMemory>
    requires pass { pass.board ≡ board.now }
    ensures rest { IfOk result (λ rest. rest ≡ pass) }
    ensures parts { OnOk result ((start : State) → ArePlaying board.now start parts.old.items
        → ArePlaying board.now start parts.new.items) }
    ensures roles { OnOk result (map role_of parts.new.items
        ≡ map role_of parts.old.items ++ session_roles sessions) }
{
    for before in 0..sessions {
        let (rest, own) = board.split_reader(pass);
        pass = rest;
        add(
            parts,
            Part::Session {
                session: before + 1,
                pass: own,
                replies: Vec::new(alloc),
            },
        )?;
    }
    Ok(pass)
}

// Adds the parts of all workers.
fn add_workers(
    alloc: Global,
    board: &Board<'_>,
    mut pass: BoardPass,
    parts: &mut Vec<Part>,
) -> Result<BoardPass, NoMemory>
    requires pass { IsPassWith board.now (numbers_from 1 board.now.workers) pass }
    requires none { pass.installed ≡ [] }
    ensures rest { IfOk result (λ rest. IsPassWith board.now [] rest) }
    ensures parts { OnOk result ((start : State) → ArePlaying board.now start parts.old.items
        → ArePlaying board.now start parts.new.items) }
    ensures roles { OnOk result (map role_of parts.new.items
        ≡ map role_of parts.old.items ++ worker_roles board.now.workers) }
{
    let workers = board.workers();
    for before in 0..workers {
        let i = before + 1;
        let worker = Worker::new(alloc, i, workers)?;
        let (rest, own) = board.split_worker(pass, i);
        pass = rest;
        add(
            parts,
            Part::Worker {
                i,
                pass: own,
                worker,
            },
        )?;
    }
    Ok(pass)
}

/// The parts of a replay on a new board: the scheduler, the snapshotter, so many sessions and the
/// workers; and what is left of its pass, which holds no role.
pub fn split_all(
    alloc: Global,
    board: &Board<'_>,
    pass: BoardPass,
    scheduler: Scheduler,
    sessions: u32,
) -> Result<(BoardPass, Vec<Part>), NoMemory>
    requires pass { pass ≡ first_pass board.now }
    requires scheduler { FitsNew scheduler board.now }
    ensures rest { IfOk result (λ split. IsPassWith board.now [] split.0) }
    ensures parts { IfOk result
        (λ split. (start : State) → ArePlaying board.now start split.1.items) }
    ensures roles { IfOk result
        (λ split. map role_of split.1.items ≡ all_roles sessions board.now.workers) }
{
    let mut parts = Vec::new(alloc);
    let (rest, own) = board.split_scheduler(pass);
    add(
        &mut parts,
        Part::Scheduler {
            pass: own,
            scheduler,
        },
    )?;
    let (rest, own) = board.split_snapshot(rest);
    add(&mut parts, Part::Snapshot { pass: own })?;
    let rest = add_sessions(alloc, board, rest, &mut parts, sessions)?;
    let rest = add_workers(alloc, board, rest, &mut parts)?;
    Ok((rest, parts))
}

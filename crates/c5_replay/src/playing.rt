//! The parts run, each in a thread of its own.

ghost use Rattle.std.specs.Prelude.{◌≡◌, [], IfOk, map};
ghost use Rattle.c5_replay.specs.Parts.{Plays, ArePlaying, HaveEnded, role_of};

use crate::answering::answer_all;
use crate::part::Part;
use crate::scheduling::schedule;
use crate::shared::Shared;
use crate::showing::show;
use crate::working::work;
use c5_io::Gate;
use c5_rows::NoMemory;
use std::alloc::Global;
use std::thread;
use std::thread::Threads;

// Runs a part to its end.
fn play<G: Gate>(alloc: Global, shared: &Shared<'_>, gate: &G, part: Part) -> Result<Part, NoMemory>
    requires plays { Plays shared.now.board.now shared.now.start.now [] part }
    ensures role { IfOk result (λ end. role_of end ≡ role_of part) }
    ensures plays { IfOk result
        (Plays shared.now.board.now shared.now.start.now shared.now.reads.now) }
{
    match part {
        Part::Scheduler {
            mut pass,
            mut scheduler,
        } => {
            schedule(shared.board, gate, &mut pass, &mut scheduler);
            Ok(Part::Scheduler { pass, scheduler })
        }
        Part::Worker {
            i,
            mut pass,
            mut worker,
        } => {
            work(shared.board, gate, i, &mut pass, &mut worker);
            Ok(Part::Worker { i, pass, worker })
        }
        Part::Snapshot { mut pass } => {
            show(shared.board, gate, &mut pass);
            Ok(Part::Snapshot { pass })
        }
        Part::Session {
            session,
            mut pass,
            ..
        } => {
            let replies = answer_all(alloc, shared, gate, session, &mut pass)?;
            Ok(Part::Session {
                session,
                pass,
                replies,
            })
        }
    }
}

/// Runs all parts to their ends, each in a thread of its own if one can be made. The ends are in
/// the order of the parts.
pub fn play_all<G: Gate, R: Threads + Sync>(
    rt: &R,
    alloc: Global,
    shared: Shared<'_>,
    gate: &G,
    parts: Vec<Part>,
) -> Result<Vec<Result<Part, NoMemory>>, NoMemory>
    requires plays { ArePlaying shared.board.now shared.start.now parts.items }
    ensures { IfOk result
        (λ ends. HaveEnded shared.entry.board.now shared.entry.start.now shared.entry.reads.now
        (map role_of parts.items) ends.items) }
{
    let ends = thread::map_vec(
        rt,
        parts,
        &move |part: Part| -> Result<Part, NoMemory>
            requires { Plays shared.board.now shared.start.now [] part }
            ensures { IfOk result (λ end. (role_of end ≡ role_of part)
                × Plays shared.entry.board.now shared.entry.start.now shared.entry.reads.now end) }
        { play(alloc, &shared, gate, part) },
    )?;
    Ok(ends)
}

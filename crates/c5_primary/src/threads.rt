//! Threads that take turns on one order book.

ghost use Rattle.std.specs.Prelude.{◌≡◌, ◌<◌, ◌≤◌, length, map, All};
ghost use Rattle.std.specs.Prelude.{IfOk};
ghost use Rattle.c5_rows.specs.Sizes.{max_transactions};
ghost use Rattle.turn_slot.specs.Passes.{numbers, IsNew};
ghost use Rattle.c5_primary.specs.Running.{IsSameCaller};
ghost use Rattle.c5_primary.specs.Jobs.{AreSessionsOf, AreDone, session_numbers};

use crate::running::{RoleGate, Runner, Stop, run_body};
use crate::session::Session;
use c5_io::{Gate, Role};
use c5_order::Order;
use c5_rows::NoMemory;
use c5_script::Body;
use std::alloc::Global;
use std::thread::{Threads, map_vec};
use turn_slot::{Pass, TurnSlot};

/// A thread's session, and its number from 1 on.
#[derive(Drop)]
pub struct Job<'a, 's> {
    pub number: u32,
    pub session: Session<'a, 's>,
}

// Runs the bodies of one thread: every `threads`th, from that of its number on.
fn work<'a, 's, G: Gate>(
    job: Job<'a, 's>,
    alloc: Global,
    bodies: &[Body],
    threads: u32,
    gate: &G,
) -> Result<Session<'a, 's>, NoMemory>
    requires threads { 1 ≤ threads }
    requires few { length bodies.now ≤ max_transactions }
    requires bodies { job.session.base.bodies ≡ bodies.now }
    ensures { IfOk result (λ s. IsSameCaller job.entry.session s) }
{
    let Job { number, session } = job;
    let mut runner = Runner {
        session,
        gate: RoleGate {
            gate,
            role: Role::Primary(number),
        },
        turn: 1,
        refusals: 0,
    };
    for script in 0..bodies.len() as u32 {
        if script % threads + 1 == number {
            match run_body(&mut runner, alloc, script, &bodies[script as usize]) {
                Ok(()) | Err(Stop::Left) => {}
                Err(Stop::NoMemory) => return Err(NoMemory),
            }
        }
    }
    let Runner { session, .. } = runner;
    Ok(session)
}

/// A session for each pass.
pub fn jobs_of<'a, 's>(
    alloc: Global,
    slot: &'a TurnSlot<Order<'s>>,
    passes: Vec<Pass<Order<'s>>>,
) -> Result<Vec<Job<'a, 's>>, NoMemory>
    requires { All (IsNew slot.now) passes.items }
    ensures sessions { IfOk result (λ jobs. AreSessionsOf slot.now jobs.items) }
    ensures numbers { IfOk result
        (λ jobs. map session_numbers jobs.items ≡ map numbers passes.entry.items) }
{
    let mut jobs = Vec::new(alloc);
    let mut number = 0u32;
    for pass in passes {
        number = number.saturating_add(1);
        jobs.push(Job {
            number,
            session: Session::new(slot, pass),
        })?;
    }
    Ok(jobs)
}

/// Runs the jobs, each in a thread of its own.
pub fn run_all<'a, 's, G: Gate, R: Threads + Sync>(
    rt: &R,
    alloc: Global,
    jobs: Vec<Job<'a, 's>>,
    bodies: &[Body],
    threads: u32,
    gate: &G,
) -> Result<Vec<Result<Session<'a, 's>, NoMemory>>, NoMemory>
    requires threads { 1 ≤ threads }
    requires few { length bodies.now ≤ max_transactions }
    requires bodies { All (λ job. job.session.base.bodies ≡ bodies.now) jobs.items }
    ensures { IfOk result (λ done. AreDone jobs.entry.items done.items) }
{
    let done = map_vec(
        rt,
        jobs,
        &move |job: Job| -> Result<Session, NoMemory>
            requires { (1 ≤ threads) × (length bodies.now ≤ max_transactions)
                × (job.session.base.bodies ≡ bodies.now) }
            ensures { IfOk result (λ s. IsSameCaller job.entry.session s) }
        { work(job, alloc, bodies, threads, gate) },
    )?;
    Ok(done)
}

//! The bodies that a thread runs.

ghost use Rattle.std.specs.Prelude.{◌≡◌, ◌<◌, ◌++◌, ◌∷◌, [], length, IsSome, IfOk, OnErr, OnOk};
ghost use Rattle.std.specs.Prelude.{MatchBool};
ghost use Rattle.c5_definitions.specs.SerialRun.{body_at};
ghost use Rattle.c5_primary.specs.Sessions.{answers_of, IsOutcomeOf};
ghost use Rattle.c5_primary.specs.Running.{settled, IsSameCaller, HasScript, HasBegun};

use crate::session::Session;
use crate::state::{SessionFault, SessionState};
use c5_eval::{EvalFault, ReadRows, evaluate};
use c5_io::{Gate, Role};
use c5_rows::{NoMemory, Row, RowName, Writes};
use c5_script::Body;
use std::alloc::Global;
use std::thread::yield_now;

// How often a call is made again that found the turn taken.
const AGAIN: u32 = 1_000;

/// Why a body isn't run to its end.
#[derive(Clone, Copy)]
pub enum Stop {
    /// It is left to the end of the run.
    Left,
    /// Memory was refused.
    NoMemory,
}

/// Holds a caller up before its calls.
// A gate is shared between threads; what runs a body needs less.
pub trait Hold {
    /// Returns once the caller may make the call with this number.
    fn hold(&self, turn: u64);
}

/// A gate for one role.
#[derive(Drop)]
pub struct RoleGate<'g, G> {
    pub gate: &'g G,
    pub role: Role,
}

impl<G: Gate> Hold for RoleGate<'_, G> {
    fn hold(&self, turn: u64) {
        self.gate.pass(self.role, turn);
    }
}

/// A session, and how many of its calls have had their turns.
#[derive(Drop)]
pub struct Runner<'a, 's, H> {
    pub session: Session<'a, 's>,
    pub gate: H,
    /// The number of the next call: one more than the calls so far that found the turn free.
    pub turn: u64,
    pub refusals: u64,
}

// The row that the open transaction sees.
fn read<H: Hold>(
    session: &mut Session<'_, '_>,
    gate: &H,
    turn: u64,
    name: &RowName,
) -> Result<Option<Row>, Stop>
    requires begun { IsSome session.old.begun }
    ensures settled { settled session.new ≡ settled session.old }
    ensures answers { IfOk result
        (λ row. answers_of session.new ≡ answers_of session.old ++ (name.now, row) ∷ []) }
    ensures kept { OnErr result (answers_of session.new ≡ answers_of session.old) }
{
    for _ in 0..AGAIN + 1 {
        gate.hold(turn);
        match session.read(name) {
            Ok(row) => return Ok(row),
            Err(SessionFault::Busy { .. }) => yield_now(),
            Err(_) => return Err(Stop::NoMemory),
        }
    }
    Err(Stop::Left)
}

impl<H: Hold> ReadRows for Runner<'_, '_, H> {
    type Fault = Stop;

    type Base = SessionState;

    ghost base = { λ r. settled r.session };

    ghost asked = { λ r. answers_of r.session };

    ghost refusals = { λ r. r.refusals };

    fn row(&mut self, name: &RowName) -> Result<Option<Row>, Stop> {
        if self.session.begun().is_none() {
            self.refusals = self.refusals.saturating_add(1);
            return Err(Stop::Left);
        }
        match read(&mut self.session, &self.gate, self.turn, name) {
            Ok(row) => {
                self.turn = self.turn.saturating_add(1);
                Ok(row)
            }
            Err(stop) => {
                self.refusals = self.refusals.saturating_add(1);
                Err(stop)
            }
        }
    }
}

/// The writes that the body of the open transaction gives.
pub fn evaluated<H: Hold>(
    runner: &mut Runner<'_, '_, H>,
    alloc: Global,
    body: &Body,
) -> Result<Writes, Stop>
    requires begun { IsSome runner.old.session.begun }
    requires unread { answers_of runner.old.session ≡ [] }
    requires body { HasBegun runner.old.session body.now }
    ensures settled { settled runner.new.session ≡ settled runner.old.session }
    ensures outcome { IfOk result (λ writes. IsOutcomeOf runner.new.session writes) }
{
    match evaluate(alloc, body, runner) {
        Ok(outcome) => Ok(outcome.writes),
        Err(EvalFault::Read(stop)) => Err(stop),
        Err(EvalFault::NoMemory) => Err(Stop::NoMemory),
    }
}

/// Begins a transaction of the body of this number.
pub fn begin<H: Hold>(runner: &mut Runner<'_, '_, H>, script: u32) -> Result<(), Stop>
    requires known { script < length runner.old.session.base.bodies }
    ensures caller { IsSameCaller runner.old.session runner.new.session }
    ensures unread { OnOk result (answers_of runner.new.session ≡ []) }
    ensures script { OnOk result (HasScript runner.new.session script) }
{
    for _ in 0..AGAIN + 1 {
        runner.gate.hold(runner.turn);
        match runner.session.begin(script) {
            Ok(_) => {
                runner.turn = runner.turn.saturating_add(1);
                return Ok(());
            }
            Err(SessionFault::Busy { .. }) => yield_now(),
            Err(SessionFault::NoMemory) => return Err(Stop::NoMemory),
            Err(_) => {
                runner.turn = runner.turn.saturating_add(1);
                return Err(Stop::Left);
            }
        }
    }
    Err(Stop::Left)
}

// Commits the open transaction. Returns whether it is committed.
fn commit<H: Hold>(runner: &mut Runner<'_, '_, H>, writes: &Writes) -> Result<bool, Stop>
    requires outcome { IsOutcomeOf runner.old.session writes.now }
    ensures caller { IsSameCaller runner.old.session runner.new.session }
    ensures begun { IfOk result
        (λ done. MatchBool done (Unit {0}) (IsSome runner.new.session.begun)) }
{
    for _ in 0..AGAIN + 1 {
        runner.gate.hold(runner.turn);
        match runner.session.commit(writes) {
            Ok(_) => {
                runner.turn = runner.turn.saturating_add(1);
                return Ok(runner.session.begun().is_none());
            }
            Err(SessionFault::Busy { .. }) => yield_now(),
            Err(_) => return Err(Stop::NoMemory),
        }
    }
    Err(Stop::Left)
}

// Cancels the open transaction.
fn cancel<H: Hold>(runner: &mut Runner<'_, '_, H>)
    requires begun { IsSome runner.old.session.begun }
    ensures caller { IsSameCaller runner.old.session runner.new.session }
{
    for _ in 0..AGAIN + 1 {
        runner.gate.hold(runner.turn);
        match runner.session.cancel() {
            Ok(()) => {
                runner.turn = runner.turn.saturating_add(1);
                return;
            }
            Err(_) => yield_now(),
        }
    }
}

/// Runs the body of this number, unless it is left to the end of the run.
pub fn run_body<H: Hold>(
    runner: &mut Runner<'_, '_, H>,
    alloc: Global,
    script: u32,
    body: &Body,
) -> Result<(), Stop>
    requires known { script < length runner.old.session.base.bodies }
    requires body { body.now ≡ body_at runner.old.session.base.bodies script }
    ensures caller { IsSameCaller runner.old.session runner.new.session }
{
    begin(runner, script)?;
    let writes = evaluated(runner, alloc, body)?;
    if !commit(runner, &writes)? {
        cancel(runner);
    }
    Ok(())
}

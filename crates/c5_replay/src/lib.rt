//! A log is replayed by a scheduler, workers, a snapshotter and sessions, each in a thread of its
//! own, or by a schedule.
#![tactic(auto)]

mod answering;
mod closing;
mod fault;
mod finishing;
mod joining;
mod left_reads;
mod part;
mod playing;
mod replaying;
mod replaying_turns;
mod rounds;
mod scheduling;
mod session_turns;
mod shared;
mod showing;
mod splitting;
mod turn_opening;
mod turning;
mod waiting;
mod working;

pub use fault::ReplayFault;
pub use replaying::{Replayed, replay};
pub use replaying_turns::{TurnReport, replay_turns};
pub use rounds::rounds_law;

#[cfg(test)]
mod tests;

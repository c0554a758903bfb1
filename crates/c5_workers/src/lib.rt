//! The scheduler numbers the rows of a log and records each write's predecessor; workers install
//! the writes.
#![tactic(auto)]

mod finishing;
mod retrying;
mod schedule_turn;
mod scheduler;
mod scheduling;
mod work_turn;
mod worker;

pub use finishing::finish;
pub use schedule_turn::{ScheduleEnd, ScheduleTurn};
pub use scheduler::Scheduler;
pub use scheduling::{first_write_law, schedule_all};
pub use work_turn::WorkTurn;
pub use worker::Worker;

#[cfg(test)]
mod tests;
#[cfg(test)]
mod try_tests;

//! The words that the scheduler, the workers, the snapshot and the readers of a log share, under a
//! rule that is true between any two steps of any threads.
#![tactic(auto)]

mod board;
mod getters;
mod known;
mod law;
mod loads;
mod opening;
mod parts;
mod pass;
mod rule;
mod stores;
mod words;

pub use board::Board;
pub use known::{Known, Look, Record};
pub use law::board_law;
pub use pass::BoardPass;

#[cfg(test)]
mod tests;

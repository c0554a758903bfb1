//! A value that one pass at a time holds, with a history that only grows.
#![tactic(auto)]

mod calls;
mod kept;
mod known;
mod law;
mod opening;
mod pass;
mod rule;
mod slot;

pub use kept::Kept;
pub use law::turn_law;
pub use pass::{Pass, Take, Turn};
pub use slot::TurnSlot;

#[cfg(test)]
mod tests;

//! Multiversion timestamp ordering.
#![tactic(auto)]

mod answers;
mod beginning;
mod book;
mod committing;
mod ending;
mod law;
mod logging;
mod marks;
mod order;
mod reading;

pub use answers::{BeginFault, Decision};
pub use law::{order_law, transaction_law};
pub use order::{Order, OrderState};

#[cfg(test)]
mod tests;

//! A log within its limits, with its writes by number and its places, and which rows a log writes.
#![tactic(auto)]

mod planned;
mod plans;
mod written;

pub use planned::Plan;
pub use plans::{PlanFault, plan};
pub use written::{WrittenRow, count_rows, written_rows};

#[cfg(test)]
mod tests;

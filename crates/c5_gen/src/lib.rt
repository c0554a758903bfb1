//! The script that a count determines, and the laws of its run.
#![tactic(auto)]

mod accounts;
mod bodies;
mod draws;
mod laws;
mod reads;
mod script;

pub use laws::{limits_law, money_law, summary_law, worked_summaries};
pub use script::script_of;

#[cfg(test)]
mod tests;

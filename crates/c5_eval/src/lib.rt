//! Evaluates bodies of transactions, and answers read blocks, over any reader of rows.
#![tactic(auto)]

mod answers;
mod law;
mod over_rows;
mod own;
mod reading;
mod steps;
#[cfg(test)]
mod tests;
mod walking;

pub use answers::answer;
pub use law::evaluation_law;
pub use over_rows::{LookUpRows, RowsReader, answer_rows, evaluate_rows};
pub use reading::{EvalFault, ReadRows};
pub use walking::{Outcome, evaluate};

//! The versions of one row: who wrote each, and who read it.
#![tactic(auto)]

mod versions;

pub use versions::{Version, Versions};

#[cfg(test)]
mod tests;

//! The visible place moves over whole transactions.
#![tactic(auto)]

mod advancing;
mod found;

pub use advancing::advance;
pub use found::Advance;

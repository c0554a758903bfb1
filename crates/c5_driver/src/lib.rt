//! The commands of the program, and its top call.
#![tactic(auto)]

mod apply;
mod backup;
mod clone;
mod command;
mod decoding;
mod figures;
mod generating;
mod limits;
mod logs;
mod orders;
mod primary;
mod printing;
mod reading;
mod refusal;
mod replaying;
mod run;
mod scripts;
mod status;
mod turns;

pub use refusal::Refusal;
pub use run::c5;
pub use status::Status;

#[cfg(test)]
mod device_tests;
#[cfg(test)]
mod tests;

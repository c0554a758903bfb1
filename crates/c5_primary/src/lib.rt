//! The primary, which runs the bodies of a script.
#![tactic(auto)]

mod finishing;
mod held;
mod joining;
mod latest;
mod law;
mod on_threads;
mod parts;
mod running;
mod serial;
mod session;
mod state;
mod threads;
mod turns;

pub use finishing::finish;
pub use law::serial_run_law;
pub use on_threads::run;
pub use serial::run_serial;
pub use session::Session;
pub use state::{Opened, SessionFault, SessionState, SlotId};

#[cfg(test)]
mod slot_tests;
#[cfg(test)]
mod tests;
#[cfg(test)]
mod thread_tests;

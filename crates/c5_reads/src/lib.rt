//! Read sessions: each reads whole transactions, without waiting for the workers.
#![tactic(auto)]

mod answering;
mod finding;
mod law;
mod rows_after;
mod session;
#[cfg(test)]
mod tests;
mod view;

pub use law::last_write_law;
pub use rows_after::rows_at;
pub use session::ReadSession;
pub use view::View;

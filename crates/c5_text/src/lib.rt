//! The printed texts of rows, orders, replies and counts of writes put off, and the readers of the
//! lines of the first three.
#![tactic(auto)]

mod cells;
mod lines;
mod listing;
mod order;
mod put_off;
mod reading;
mod replies;
#[cfg(test)]
mod tests;
mod words;

pub use listing::{push_rows, rows_text};
pub use order::{TextFault, order_text, read_order};
pub use put_off::put_off_text;
pub use reading::read_row;
pub use replies::{ReplyHead, read_head, reply_text};

//! Decodes a log that comes in pieces, however it is cut, and spells one. A log has one spelling,
//! and bytes that aren't a log have a first fault: where it is, and which test fails there. What is
//! decoded lies in the bytes that were taken, and its writes are borrowed from them.
//!
//! | part | bytes |
//! |---|---|
//! | header | `43 35 4C 31`; u8 number of tables, 1 to 16; each table |
//! | table | u8 length, 1 to 16; the name; u8 number of columns, 1 to 8; each `01` Int or `02` Text |
//! | frame | u32 length of the payload, 5 to 300; the payload |
//! | write | `57`; u8 table; u8 length of the key, 1 to 32; the key; `00` and the cells, or `01` |
//! | Int cell | 8 bytes of two's complement |
//! | Text cell | u8 length, 0 to 32; the bytes |
//! | commit mark | `43`; u32 script number; u64 stamp; u32 number of writes since the last mark |
//! | end mark | `45`; u32 number of commit marks; nothing follows |
//!
//! Numbers have their highest byte first.
#![tactic(auto)]

mod buffer;
mod cells;
mod decoder;
mod decoder_state;
mod encoding;
mod frames;
mod header;
mod index;
mod laws;
mod numbers;
mod payload;
mod refs;
mod stage;
mod steps;

pub use buffer::LogBuffer;
pub use c5_definitions::{LogFault, LogKind};
pub use decoder::{Decoder, FeedFault};
pub use encoding::encode;
pub use index::TxnRef;
pub use laws::one_log;
pub use refs::{RowRef, WriteRef};

#[cfg(test)]
mod ref_tests;
#[cfg(test)]
mod tests;

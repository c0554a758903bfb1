//! Typed rows: keys, texts, tables, writes, transactions and the state that they leave.
#![tactic(auto)]

mod answer;
mod byte_order;
mod cells;
mod fitting;
mod memory;
mod names;
mod padded;
mod rows;
mod sizes;
mod tables;
mod writes;

pub use answer::{Answer, AnswerLine, Replies, Reply};
pub use cells::{Cell, CellType, Row};
pub use memory::NoMemory;
pub use names::{Bad, Key, TableName, TextCell, are_key_bytes, are_text_bytes};
pub use padded::{Blank, Padded};
pub use rows::{Applied, HeldRow, RowEntry, RowMap, Rows};
pub use sizes::{
    MAX_COLUMNS, MAX_KEY_BYTES, MAX_LOG_BYTES, MAX_NAME_BYTES, MAX_PAYLOAD_BYTES, MAX_PUT_OFF,
    MAX_READ_LINES, MAX_READS, MAX_ROWS, MAX_SCRIPT_BYTES, MAX_SESSIONS, MAX_STATEMENTS,
    MAX_SUM_KEYS, MAX_TABLES, MAX_TEXT_BYTES, MAX_THREADS, MAX_TRANSACTIONS, MAX_TURN_WORDS,
    MAX_WORKERS, MAX_WRITES, MIN_PAYLOAD_BYTES,
};
pub use tables::{BadSchema, Columns, Schema, TableDef, find_table};
pub use writes::{Change, RowName, Txn, Write, Writes};

#[cfg(test)]
mod tests;

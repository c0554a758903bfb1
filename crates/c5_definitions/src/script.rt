//! What a script is made of, and its faults.

use crate::keys::Keys;
use c5_rows::{Row, RowName};

/// How a cell is compared with a number.
#[derive(Clone, Copy, Debug, PartialEq, Eq)]
pub enum Rel {
    /// Below it.
    Lt,
    /// At most it.
    Le,
    /// Equal to it.
    Eq,
    /// At least it.
    Ge,
    /// Above it.
    Gt,
}

/// A statement of a transaction. Columns count from 0.
#[derive(Clone, Copy, Debug, PartialEq, Eq)]
pub enum Statement {
    /// Sets the row.
    Put {
        name: RowName,
        row: Row,
    },
    /// Removes the row; if there is none, it stays absent.
    Del {
        name: RowName,
    },
    /// Declines the transaction unless the row is there and its cell compares so with `n`.
    Need {
        name: RowName,
        col: u8,
        rel: Rel,
        n: i64,
    },
    /// Adds `n` to a cell. Declines the transaction if the row is absent or the sum isn't an
    /// i64.
    Add {
        name: RowName,
        col: u8,
        n: i64,
    },
    /// Sets the row `to` to what the row `from` is, absent if that is.
    Copy {
        from: RowName,
        to: RowName,
    },
}

/// A line of a read block. Columns count from 0.
#[derive(Clone, Copy)]
pub enum ReadLine {
    /// Asks for a row.
    OneRow { name: RowName },
    /// Asks for the sum of a column over rows; an absent row counts 0, and a repeated key counts
    /// again.
    SumOf { table: u8, col: u8, keys: Keys },
}

/// A step of a schedule. Workers and sessions count from 1, to 16.
#[derive(Clone, Copy, Debug, PartialEq, Eq)]
pub enum TurnWord {
    /// A turn of this worker.
    Worker(u32),
    /// The visible place advances.
    Visible,
    /// The next read of this session.
    Session(u32),
}

/// Which test the first faulty line of a script fails.
#[derive(Clone, Copy, Debug, PartialEq, Eq)]
pub enum ScriptKind {
    /// Each byte of a line is `20` to `7E`.
    Byte,
    /// A quoted text is closed and a space or the line's end follows it; no quote is in a bare
    /// word.
    Quote,
    /// The first word is known at its place; a relation is known.
    Word,
    /// A count is within its limit.
    Limit,
    /// The line has the number of words, or of cells, that it needs.
    Count,
    /// The name of a table is allowed and new.
    Name,
    /// A table has the name.
    Table,
    /// A key is a bare word of 1 to 32 bytes.
    Key,
    /// The table has the column.
    Column,
    /// A type is known; a cell and a column have the type that is needed.
    WrongType,
    /// A number is written as one, and within its range.
    Number,
    /// Every block is closed, and there is a table.
    Unclosed,
}

/// The first fault of a script.
#[derive(Clone, Copy, Debug)]
pub struct ScriptFault {
    /// The faulty line; lines count from 1. What is missing at the end is missing on the line after
    /// the last.
    pub line: u32,
    /// The first test that the line fails.
    pub kind: ScriptKind,
}

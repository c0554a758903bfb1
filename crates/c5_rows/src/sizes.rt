//! The limits of the formats. `specs/Sizes.antt` has the same numbers for contracts, each with its
//! reason.

/// Tables of a schema.
pub const MAX_TABLES: usize = 16;
/// Columns of a table, and cells of a row.
pub const MAX_COLUMNS: usize = 8;
/// Bytes of a key.
pub const MAX_KEY_BYTES: usize = 32;
/// Bytes of a text.
pub const MAX_TEXT_BYTES: usize = 32;
/// Bytes of a table's name.
pub const MAX_NAME_BYTES: usize = 16;
/// The fewest bytes of a frame's payload.
pub const MIN_PAYLOAD_BYTES: u32 = 5;
/// The most bytes of a frame's payload.
pub const MAX_PAYLOAD_BYTES: u32 = 300;
/// Bytes of a log.
pub const MAX_LOG_BYTES: usize = 88_080_384;
/// Bytes of a script.
pub const MAX_SCRIPT_BYTES: usize = 4_194_304;
/// Transactions of a script.
pub const MAX_TRANSACTIONS: usize = 65_536;
/// Statements of a script that write.
pub const MAX_WRITES: usize = 262_144;
/// Different rows that the statements of a script write.
pub const MAX_ROWS: usize = 65_536;
/// Statements of a transaction.
pub const MAX_STATEMENTS: usize = 256;
/// Read blocks of a script.
pub const MAX_READS: usize = 256;
/// Lines of a read block.
pub const MAX_READ_LINES: usize = 16;
/// Keys of a sum.
pub const MAX_SUM_KEYS: usize = 16;
/// Words of all schedules of a script.
pub const MAX_TURN_WORDS: usize = 65_536;
/// Workers, which are numbered from 1.
pub const MAX_WORKERS: u32 = 16;
/// Sessions, which are numbered from 1.
pub const MAX_SESSIONS: u32 = 16;
/// Numbers that a worker puts off.
pub const MAX_PUT_OFF: usize = 64;
/// Threads that run a script.
pub const MAX_THREADS: u32 = 16;

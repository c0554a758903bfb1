//! The faults of a log.

/// Which test the first faulty item of a log fails.
#[derive(Clone, Copy, Debug, PartialEq, Eq)]
pub enum LogKind {
    /// The first four bytes are `43 35 4C 31`.
    Magic,
    /// A number of the header is in its range, a name is allowed and new, a type is known.
    Header,
    /// A payload has 5 to 300 bytes, that of a commit mark 17 and that of an end mark 5.
    Length,
    /// A payload begins with `57`, `43` or `45`.
    Kind,
    /// The table of a write is below the number of tables.
    Table,
    /// The key of a write has 1 to 32 bytes of its payload, each of them allowed.
    Key,
    /// The op byte is `00` or `01`, and exactly its cells follow.
    Cell,
    /// The name of a write is above that of the write before it since the last commit mark.
    Order,
    /// A stamp is above the one before it, and the first is above 0.
    Stamp,
    /// A commit mark has the number of writes since the last one.
    Count,
    /// No write is between the last commit mark and the end mark, which has the number of
    /// commit marks.
    End,
    /// The end mark is complete.
    Cut,
    /// Nothing follows the end mark.
    After,
}

/// The first fault of a log.
#[derive(Clone, Copy, Debug, PartialEq, Eq)]
pub struct LogFault {
    /// Where the faulty item begins, counted in bytes from the first byte of the log. A frame
    /// begins with its length.
    pub offset: u32,
    /// The first test that the item fails.
    pub kind: LogKind,
}

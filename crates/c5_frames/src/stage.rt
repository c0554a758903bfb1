//! The items of a log.

ghost use Rattle.std.specs.Prelude.{◌≡◌};
ghost use Rattle.c5_definitions.specs.Items.{size_of, begin_of};
ghost use Rattle.c5_frames.specs.Stages.{item_of, is_end};

use c5_rows::TableName;

/// The item that comes next, with what the ones before it say of it: how many tables are still to
/// come, the name of the table whose columns come, how many bytes the item has.
#[derive(Clone, Copy)]
pub enum Stage {
    Magic,
    TableCount,
    NameLength {
        missing: u8,
    },
    NameBytes {
        missing: u8,
        size: u8,
    },
    ColumnCount {
        missing: u8,
        name: TableName,
    },
    ColumnTypes {
        missing: u8,
        name: TableName,
        size: u8,
    },
    FrameLength,
    Payload {
        size: u32,
    },
    NothingMore,
}

/// The number of bytes of the item.
pub fn size_of_item(stage: &Stage) -> u32
    ensures { result ≡ size_of (item_of stage.now) }
{
    match stage {
        Stage::Magic | Stage::FrameLength => 4,
        Stage::TableCount
        | Stage::NameLength { .. }
        | Stage::ColumnCount { .. }
        | Stage::NothingMore => 1,
        Stage::NameBytes { size, .. } | Stage::ColumnTypes { size, .. } => *size as u32,
        Stage::Payload { size } => *size,
    }
}

/// Where an item begins of these bytes: a frame begins with its length.
pub fn begin_of_item(stage: &Stage, at: u32) -> u32
    ensures { result ≡ begin_of (item_of stage.now) at }
{
    match stage {
        Stage::Payload { .. } => at.saturating_sub(4),
        _ => at,
    }
}

/// Whether the end mark has been read.
pub fn is_end(stage: &Stage) -> bool
    ensures { result ≡ is_end (item_of stage.now) }
{
    matches!(stage, Stage::NothingMore)
}

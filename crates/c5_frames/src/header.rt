//! The items that aren't payloads.

ghost use Rattle.std.specs.Prelude.{◌≡◌, ◌≤◌, ◌<◌, ◌-◌, ◌==◌, ◌++◌, ◌∷◌, ℕ, List, [], None};
ghost use Rattle.std.specs.Prelude.{is_some, length, if◌then◌else◌};
ghost use Rattle.c5_rows.specs.Sizes.{max_columns, max_tables};
ghost use Rattle.c5_rows.specs.Tables.{table_number};
ghost use Rattle.c5_rows.specs.declared.tables.TableDef as the_table;
ghost use Rattle.c5_definitions.specs.Items.{the_magic, table_count, name_length, table_name};
ghost use Rattle.c5_definitions.specs.Items.{column_count, column_types, frame_length};
ghost use Rattle.c5_definitions.specs.Items.{frame_payload, header_count, new_table_name};
ghost use Rattle.c5_definitions.specs.Items.{type_of_byte, types_of_bytes, size_of};
ghost use Rattle.c5_definitions.specs.Steps.{Gives};
ghost use Rattle.c5_frames.specs.Stages.{item_of};
ghost use Rattle.c5_frames.specs.DecoderStates.{tables_of, tables_after, AreComing, IsDue, IsPlain};

use crate::numbers::u32_in;
use crate::stage::Stage;
use c5_definitions::LogKind;
use c5_rows::{
    CellType, Columns, MAX_COLUMNS, MAX_NAME_BYTES, MAX_PAYLOAD_BYTES, MAX_TABLES,
    MIN_PAYLOAD_BYTES, Schema, TableDef, TableName,
};

const MAGIC: [u8; 4] = *b"C5L1";

#[tactic(auto, unfolding(c5_definitions::specs::Items::header_count))]
fn number_in(low: u8, high: u8, item: &[u8]) -> Result<u8, LogKind>
    ensures { result ≡ header_count low high item.now }
{
    match item {
        [] => Err(LogKind::Header),
        [number, ..] if *number < low || *number > high => Err(LogKind::Header),
        [number, ..] => Ok(*number),
    }
}

/// The tables that have come.
pub fn tables_in(schema: &Option<Schema>) -> &[TableDef]
    ensures { result.now ≡ tables_of schema.now }
{
    match schema {
        None => &[],
        Some(schema) => schema.tables(),
    }
}

// Whether a table has the name.
fn is_taken(schema: &Option<Schema>, name: &TableName) -> bool
    ensures { result ≡ is_some (table_number name.now (tables_of schema.now)) }
{
    match schema {
        None => false,
        Some(schema) => schema.find(name).is_some(),
    }
}

#[tactic(auto, unfolding(c5_definitions::specs::Items::new_table_name))]
fn name_in(schema: &Option<Schema>, item: &[u8]) -> Result<TableName, LogKind>
    ensures { result ≡ new_table_name (tables_of schema.now) item.now }
{
    match TableName::new(item) {
        Ok(name) => {
            if is_taken(schema, &name) {
                Err(LogKind::Header)
            } else {
                Ok(name)
            }
        }
        Err(_) => Err(LogKind::Header),
    }
}

#[tactic(auto, unfolding(c5_definitions::specs::Items::type_of_byte))]
fn type_in(byte: u8) -> Result<CellType, LogKind>
    ensures { result ≡ type_of_byte byte }
{
    match byte {
        1 => Ok(CellType::Int),
        2 => Ok(CellType::Text),
        _ => Err(LogKind::Header),
    }
}

// The columns of the types that these bytes encode.
fn columns_in(item: &[u8]) -> Result<Columns, LogKind>
    requires some { 1 ≤ length item.now }
    requires few { length item.now ≤ max_columns }
    ensures { result ≡ types_of_bytes item.now }
{
    let mut types = [CellType::Int; MAX_COLUMNS];
    for (column, byte) in item.iter().enumerate() {
        let cell_type = type_in(*byte)?;
        types[column] = cell_type;
    }
    match Columns::new(&types[..item.len()]) {
        Some(columns) => Ok(columns),
        None => unreachable!(),
    }
}

// Adds a table, whose name is new.
fn add_table(schema: &mut Option<Schema>, table: TableDef)
    requires new { table_number table.name (tables_of schema.old) ≡ None }
    requires room { length (tables_of schema.old) < max_tables }
    ensures { tables_of schema.new ≡ tables_of schema.old ++ table ∷ [] }
{
    match schema {
        None => *schema = Some(Schema::one(table)),
        Some(tables) => match tables.push(table) {
            Ok(()) => {}
            Err(_) => unreachable!(),
        },
    }
}

#[tactic(auto, unfolding(c5_definitions::specs::Items::after_item))]
fn after_magic(item: &[u8]) -> Result<Stage, LogKind>
    ensures { (tables : List the_table.TableDef)
        → Gives (λ stage. (tables, item_of stage)) result (tables_after the_magic tables item.now) }
{
    if item != MAGIC.as_slice() {
        return Err(LogKind::Magic);
    }
    Ok(Stage::TableCount)
}

#[tactic(auto, unfolding(c5_definitions::specs::Items::after_item))]
fn after_table_count(item: &[u8]) -> Result<Stage, LogKind>
    ensures { (tables : List the_table.TableDef)
        → Gives (λ stage. (tables, item_of stage)) result
        (tables_after table_count tables item.now) }
{
    match number_in(1, MAX_TABLES as u8, item) {
        Ok(missing) => Ok(Stage::NameLength { missing }),
        Err(kind) => Err(kind),
    }
}

#[tactic(auto, unfolding(c5_definitions::specs::Items::after_item))]
fn after_name_length(missing: u8, item: &[u8]) -> Result<Stage, LogKind>
    ensures { (tables : List the_table.TableDef)
        → Gives (λ stage. (tables, item_of stage)) result
        (tables_after (name_length missing) tables item.now) }
{
    match number_in(1, MAX_NAME_BYTES as u8, item) {
        Ok(size) => Ok(Stage::NameBytes { missing, size }),
        Err(kind) => Err(kind),
    }
}

#[tactic(auto, unfolding(c5_definitions::specs::Items::after_item))]
fn after_name(schema: &Option<Schema>, missing: u8, item: &[u8]) -> Result<Stage, LogKind>
    ensures { (size : ℕ) → Gives (λ stage. (tables_of schema.now, item_of stage)) result
        (tables_after (table_name missing size) (tables_of schema.now) item.now) }
{
    match name_in(schema, item) {
        Ok(name) => Ok(Stage::ColumnCount { missing, name }),
        Err(kind) => Err(kind),
    }
}

#[tactic(auto, unfolding(c5_definitions::specs::Items::after_item))]
fn after_column_count(missing: u8, name: TableName, item: &[u8]) -> Result<Stage, LogKind>
    ensures { (tables : List the_table.TableDef)
        → Gives (λ stage. (tables, item_of stage)) result
        (tables_after (column_count missing name) tables item.now) }
{
    match number_in(1, MAX_COLUMNS as u8, item) {
        Ok(size) => Ok(Stage::ColumnTypes {
            missing,
            name,
            size,
        }),
        Err(kind) => Err(kind),
    }
}

#[tactic(auto, unfolding(c5_definitions::specs::Items::after_item))]
fn after_column_types(
    schema: &mut Option<Schema>,
    missing: u8,
    name: TableName,
    item: &[u8],
) -> Result<Stage, LogKind>
    requires some { 1 ≤ length item.now }
    requires few { length item.now ≤ max_columns }
    requires coming { AreComing (tables_of schema.old) missing }
    requires new { table_number name (tables_of schema.old) ≡ None }
    ensures { (size : ℕ) → Gives (λ stage. (tables_of schema.new, item_of stage)) result
        (tables_after (column_types missing name size) (tables_of schema.old) item.now) }
{
    match columns_in(item) {
        Ok(columns) => {
            add_table(schema, TableDef { name, columns });
            Ok(stage_after_table(missing))
        }
        Err(kind) => Err(kind),
    }
}

// The frames begin after the last table.
fn stage_after_table(missing: u8) -> Stage
    requires { 1 ≤ missing }
    ensures { item_of result ≡ (if missing == 1 then frame_length else name_length (missing - 1)) }
{
    if missing == 1 {
        Stage::FrameLength
    } else {
        Stage::NameLength {
            missing: missing - 1,
        }
    }
}

/// The number of bytes of the payload that follows a length.
#[tactic(auto, unfolding(c5_definitions::specs::Items::after_item))]
pub fn after_frame_length(item: &[u8]) -> Result<u32, LogKind>
    requires { 4 ≤ length item.now }
    ensures { (tables : List the_table.TableDef)
        → Gives (λ size. (tables, frame_payload size)) result
        (tables_after frame_length tables item.now) }
{
    let size = u32_in(item);
    if size < MIN_PAYLOAD_BYTES || size > MAX_PAYLOAD_BYTES {
        return Err(LogKind::Length);
    }
    Ok(size)
}

/// The item after one that isn't a payload. A table that is complete is added.
pub fn after_plain(schema: &mut Option<Schema>, stage: Stage, item: &[u8]) -> Result<Stage, LogKind>
    requires plain { IsPlain (item_of stage) }
    requires due { IsDue (item_of stage) (tables_of schema.old) }
    requires whole { length item.now ≡ size_of (item_of stage) }
    ensures { Gives (λ next. (tables_of schema.new, item_of next)) result
        (tables_after (item_of stage) (tables_of schema.old) item.now) }
{
    match stage {
        Stage::Magic => after_magic(item),
        Stage::TableCount => after_table_count(item),
        Stage::NameLength { missing } => after_name_length(missing, item),
        Stage::NameBytes { missing, .. } => after_name(schema, missing, item),
        Stage::ColumnCount { missing, name } => after_column_count(missing, name, item),
        Stage::ColumnTypes { missing, name, .. } => {
            after_column_types(schema, missing, name, item)
        }
        Stage::FrameLength => match after_frame_length(item) {
            Ok(size) => Ok(Stage::Payload { size }),
            Err(kind) => Err(kind),
        },
        Stage::Payload { .. } => unreachable!(),
        Stage::NothingMore => Err(LogKind::After),
    }
}

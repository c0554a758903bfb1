//! The spelling of a log.

ghost use Rattle.std.specs.Prelude.{◌≡◌, ◌≤◌, ◌<◌, ◌^◌, ◌++◌, All, IfOk, OnOk, length, map};
ghost use Rattle.std.specs.List.{flat_map};
ghost use Rattle.c5_definitions.specs.Lawful.{IsLawfulLog, Spells};
ghost use Rattle.c5_definitions.specs.Spelling.{spelled_u32, spelled_u64, spelled_type};
ghost use Rattle.c5_definitions.specs.Spelling.{spelled_table, spelled_header, spelled_cell};
ghost use Rattle.c5_definitions.specs.Spelling.{spelled_change, write_payload, mark_payload};
ghost use Rattle.c5_definitions.specs.Spelling.{end_payload, spelled_frame, spelled_txn};
ghost use Rattle.c5_definitions.specs.Spelling.{spelled_log};
ghost use Rattle.c5_rows.specs.Sizes.{max_tables};

use c5_rows::{Cell, CellType, Change, NoMemory, Schema, TableDef, Txn, Write};
use std::alloc::Global;

#[tactic(auto, unfolding(c5_definitions::specs::Spelling::spelled_u32))]
fn push_u32(out: &mut Vec<u8>, number: u32) -> Result<(), NoMemory>
    ensures { OnOk result (out.new.items ≡ out.old.items ++ spelled_u32 number) }
{
    out.extend_from_slice(&number.to_be_bytes())?;
    Ok(())
}

#[tactic(auto, unfolding(c5_definitions::specs::Spelling::spelled_u64))]
fn push_u64(out: &mut Vec<u8>, number: u64) -> Result<(), NoMemory>
    ensures { OnOk result (out.new.items ≡ out.old.items ++ spelled_u64 number) }
{
    out.extend_from_slice(&number.to_be_bytes())?;
    Ok(())
}

fn byte_of(cell_type: CellType) -> u8
    ensures { result ≡ spelled_type cell_type }
{
    match cell_type {
        CellType::Int => 1,
        CellType::Text => 2,
    }
}

fn push_types(out: &mut Vec<u8>, types: &[CellType]) -> Result<(), NoMemory>
    ensures { OnOk result (out.new.items ≡ out.old.items ++ map spelled_type types.now) }
{
    for cell_type in types {
        out.push(byte_of(*cell_type))?;
    }
    Ok(())
}

fn push_table(out: &mut Vec<u8>, table: &TableDef) -> Result<(), NoMemory>
    ensures { OnOk result (out.new.items ≡ out.old.items ++ spelled_table table.now) }
{
    let name = table.name.bytes();
    let types = table.columns.types();
    out.push(name.len() as u8)?;
    out.extend_from_slice(name)?;
    out.push(types.len() as u8)?;
    push_types(out, types)
}

#[tactic(auto, unfolding(c5_definitions::specs::Spelling::spelled_header))]
fn push_header(out: &mut Vec<u8>, tables: &[TableDef]) -> Result<(), NoMemory>
    requires { length tables.now ≤ max_tables }
    ensures { OnOk result (out.new.items ≡ out.old.items ++ spelled_header tables.now) }
{
    out.extend_from_slice(b"C5L1")?;
    out.push(tables.len() as u8)?;
    for table in tables {
        push_table(out, table)?;
    }
    Ok(())
}

// The number of bytes of a cell.
#[tactic(auto, unfolding(c5_definitions::specs::Spelling::spelled_cell, c5_definitions::specs::Spelling::spelled_u64))]
fn cell_length(cell: &Cell) -> u32
    ensures value { result ≡ length (spelled_cell cell.now) }
    ensures at_most { result ≤ 33 }
{
    match cell {
        Cell::Int(_) => 8,
        Cell::Txt(text) => 1 + text.bytes().len() as u32,
    }
}

// The number of bytes of the cells.
fn cells_length(cells: &[Cell]) -> u32
    requires { length cells.now ≤ 8 }
    ensures value { result ≡ length (flat_map spelled_cell cells.now) }
    ensures at_most { result ≤ 264 }
{
    let mut sum = 0;
    for cell in cells {
        sum += cell_length(cell);
    }
    sum
}

// The number of bytes of a change.
#[tactic(auto, unfolding(c5_definitions::specs::Spelling::spelled_change))]
fn change_length(change: &Change) -> u32
    ensures value { result ≡ length (spelled_change change.now) }
    ensures at_most { result ≤ 265 }
{
    match change {
        Change::Put(row) => 1 + cells_length(row.cells()),
        Change::Gone => 1,
    }
}

// The number of bytes of a write's payload.
#[tactic(auto, unfolding(c5_definitions::specs::Spelling::write_payload))]
fn payload_length(write: &Write) -> u32
    ensures { result ≡ length (write_payload write.now) }
{
    3 + write.name.key.bytes().len() as u32 + change_length(&write.change)
}

#[tactic(auto, unfolding(c5_definitions::specs::Spelling::spelled_cell))]
fn push_cell(out: &mut Vec<u8>, cell: &Cell) -> Result<(), NoMemory>
    ensures { OnOk result (out.new.items ≡ out.old.items ++ spelled_cell cell.now) }
{
    match cell {
        Cell::Int(number) => push_u64(out, number.cast_unsigned()),
        Cell::Txt(text) => {
            let bytes = text.bytes();
            out.push(bytes.len() as u8)?;
            out.extend_from_slice(bytes)?;
            Ok(())
        }
    }
}

fn push_cells(out: &mut Vec<u8>, cells: &[Cell]) -> Result<(), NoMemory>
    ensures { OnOk result (out.new.items ≡ out.old.items ++ flat_map spelled_cell cells.now) }
{
    for cell in cells {
        push_cell(out, cell)?;
    }
    Ok(())
}

#[tactic(auto, unfolding(c5_definitions::specs::Spelling::spelled_change))]
fn push_change(out: &mut Vec<u8>, change: &Change) -> Result<(), NoMemory>
    ensures { OnOk result (out.new.items ≡ out.old.items ++ spelled_change change.now) }
{
    match change {
        Change::Put(row) => {
            out.push(0)?;
            push_cells(out, row.cells())
        }
        Change::Gone => {
            out.push(1)?;
            Ok(())
        }
    }
}

#[tactic(auto, unfolding(c5_definitions::specs::Spelling::write_payload))]
fn push_payload(out: &mut Vec<u8>, write: &Write) -> Result<(), NoMemory>
    ensures { OnOk result (out.new.items ≡ out.old.items ++ write_payload write.now) }
{
    let key = write.name.key.bytes();
    out.push(b'W')?;
    out.push(write.name.table)?;
    out.push(key.len() as u8)?;
    out.extend_from_slice(key)?;
    push_change(out, &write.change)
}

#[tactic(auto, unfolding(c5_definitions::specs::Spelling::spelled_frame))]
fn push_write(out: &mut Vec<u8>, write: &Write) -> Result<(), NoMemory>
    ensures { OnOk result (out.new.items ≡ out.old.items
        ++ spelled_frame (write_payload write.now)) }
{
    push_u32(out, payload_length(write))?;
    push_payload(out, write)
}

fn push_writes(out: &mut Vec<u8>, writes: &[Write]) -> Result<(), NoMemory>
    ensures { OnOk result (out.new.items ≡ out.old.items
        ++ flat_map (λ write. spelled_frame (write_payload write)) writes.now) }
{
    for write in writes {
        push_write(out, write)?;
    }
    Ok(())
}

// The commit mark, whose payload has 17 bytes.
#[tactic(auto, unfolding(c5_definitions::specs::Spelling::spelled_frame, c5_definitions::specs::Spelling::mark_payload, c5_definitions::specs::Spelling::spelled_u32, c5_definitions::specs::Spelling::spelled_u64))]
fn push_mark(out: &mut Vec<u8>, txn: &Txn) -> Result<(), NoMemory>
    requires { length txn.now.writes < 2 ^ 32 }
    ensures { OnOk result (out.new.items ≡ out.old.items ++ spelled_frame (mark_payload txn.now)) }
{
    push_u32(out, 17)?;
    out.push(b'C')?;
    push_u32(out, txn.script)?;
    push_u64(out, txn.stamp)?;
    push_u32(out, txn.writes.as_slice().len() as u32)
}

#[tactic(auto, unfolding(c5_definitions::specs::Spelling::spelled_txn))]
fn push_txn(out: &mut Vec<u8>, txn: &Txn) -> Result<(), NoMemory>
    requires { length txn.now.writes < 2 ^ 32 }
    ensures { OnOk result (out.new.items ≡ out.old.items ++ spelled_txn txn.now) }
{
    push_writes(out, txn.writes.as_slice())?;
    push_mark(out, txn)
}

// The end mark, whose payload has 5 bytes.
#[tactic(auto, unfolding(c5_definitions::specs::Spelling::spelled_frame, c5_definitions::specs::Spelling::end_payload, c5_definitions::specs::Spelling::spelled_u32))]
fn push_end(out: &mut Vec<u8>, count: u32) -> Result<(), NoMemory>
    ensures { OnOk result (out.new.items ≡ out.old.items ++ spelled_frame (end_payload count)) }
{
    push_u32(out, 5)?;
    out.push(b'E')?;
    push_u32(out, count)
}

fn push_txns(out: &mut Vec<u8>, txns: &[Txn]) -> Result<(), NoMemory>
    requires { All (λ txn. length txn.writes < 2 ^ 32) txns.now }
    ensures { OnOk result (out.new.items ≡ out.old.items ++ flat_map spelled_txn txns.now) }
{
    for txn in txns {
        push_txn(out, txn)?;
    }
    Ok(())
}

/// The one spelling of a log: the header, for each transaction a frame for each write and one for
/// its commit mark, and a frame for the end mark.
#[tactic(auto, unfolding(c5_definitions::specs::Spelling::spelled_log))]
pub fn encode(alloc: Global, schema: &Schema, txns: &[Txn]) -> Result<Vec<u8>, NoMemory>
    requires txns { length txns.now < 2 ^ 32 }
    requires writes { All (λ txn. length txn.writes < 2 ^ 32) txns.now }
    ensures spelled { IfOk result (λ bytes. bytes.items ≡ spelled_log schema.now txns.now) }
    ensures log { IfOk result (λ bytes. IsLawfulLog schema.now txns.now
        → Spells bytes.items schema.now txns.now) }
{
    let mut out = Vec::new(alloc);
    push_header(&mut out, schema.tables())?;
    push_txns(&mut out, txns)?;
    push_end(&mut out, txns.len() as u32)?;
    Ok(out)
}

//! The log that the program decodes.

use c5_rows::NoMemory;
use std::alloc::Global;

const TRANSACTIONS: u32 = 65_536;

const ROWS: u32 = 65_536;

// Adds the frame of a put into a row, whose key is its number in three digits of base 64.
fn add_put(bytes: &mut Vec<u8>, row: u32) -> Result<(), NoMemory> {
    let key = [
        b'(' + (row / 4096 % 64) as u8,
        b'(' + (row / 64 % 64) as u8,
        b'(' + (row % 64) as u8,
    ];
    bytes.extend_from_slice(b"\0\0\0\x0fW\0\x03")?;
    bytes.extend_from_slice(&key)?;
    bytes.push(0)?;
    bytes.extend_from_slice(&u64::from(row).to_be_bytes())?;
    Ok(())
}

// Adds the commit mark of a transaction of four writes.
fn add_mark(bytes: &mut Vec<u8>, before: u32) -> Result<(), NoMemory> {
    bytes.extend_from_slice(b"\0\0\0\x11C")?;
    bytes.extend_from_slice(&before.to_be_bytes())?;
    bytes.extend_from_slice(&(u64::from(before) + 1).to_be_bytes())?;
    bytes.extend_from_slice(b"\0\0\0\x04")?;
    Ok(())
}

// Adds the transaction after so many: puts into four rows.
fn add_transaction(bytes: &mut Vec<u8>, before: u32) -> Result<(), NoMemory> {
    let row = before % (ROWS / 4) * 4;
    add_put(bytes, row)?;
    add_put(bytes, row + 1)?;
    add_put(bytes, row + 2)?;
    add_put(bytes, row + 3)?;
    add_mark(bytes, before)
}

/// A log of one table, of 65,536 transactions with four writes each, to 65,536 rows.
pub fn generated_log(alloc: Global) -> Result<Vec<u8>, NoMemory> {
    let mut bytes = Vec::new(alloc);
    bytes.extend_from_slice(b"C5L1\x01\x04acct\x01\x01")?;
    for before in 0..TRANSACTIONS {
        add_transaction(&mut bytes, before)?;
    }
    bytes.extend_from_slice(b"\0\0\0\x05E")?;
    bytes.extend_from_slice(&TRANSACTIONS.to_be_bytes())?;
    Ok(bytes)
}

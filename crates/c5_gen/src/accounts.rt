//! The accounts of generated scripts: their table, their keys and their first rows.

ghost use Rattle.std.specs.Prelude.{◌≡◌, ◌<◌, ◌∷◌, [], codes};
ghost use Rattle.c5_definitions.specs.Generated.{account, account_key, account_count};
ghost use Rattle.c5_definitions.specs.Generated.{balance_row, opening_balance, generated_tables};

use c5_rows::{Cell, CellType, Columns, Key, Row, RowName, Schema, TableDef, TableName};

/// How many accounts there are; they are numbered from 0.
pub(crate) const ACCOUNT_COUNT: u32 = 64;

/// What each account has at first.
const OPENING_BALANCE: i64 = 1_000;

/// The key of an account: `a` and two digits.
pub(crate) fn key_of_account(number: u32) -> Key
    requires { number < account_count }
    ensures { result ≡ account_key number }
{
    let tens = b'0' + (number / 10) as u8;
    let ones = b'0' + (number % 10) as u8;
    match Key::new(&[b'a', tens, ones]) {
        Ok(key) => key,
        Err(_) => unreachable!(),
    }
}

/// The name of an account's row.
pub(crate) fn account_row(number: u32) -> RowName
    requires { number < account_count }
    ensures { result ≡ account number }
{
    RowName {
        table: 0,
        key: key_of_account(number),
    }
}

/// The row that each account has at first.
pub(crate) fn opening_row() -> Row
    ensures { result ≡ balance_row opening_balance }
{
    match Row::new(&[Cell::Int(OPENING_BALANCE)]) {
        Some(row) => row,
        None => unreachable!(),
    }
}

// The name of the table.
fn table_name() -> TableName
    ensures { result ≡ codes "acct" }
{
    match TableName::new(b"acct") {
        Ok(name) => name,
        Err(_) => unreachable!(),
    }
}

// One Int column.
fn one_number() -> Columns
    ensures { result ≡ CellType.Int ∷ [] }
{
    match Columns::new(&[CellType::Int]) {
        Some(columns) => columns,
        None => unreachable!(),
    }
}

/// The table of accounts.
pub(crate) fn accounts() -> Schema
    ensures { result ≡ generated_tables }
{
    Schema::one(TableDef {
        name: table_name(),
        columns: one_number(),
    })
}

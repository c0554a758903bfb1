//! Tables, and the schemas that they make.

ghost use Rattle.std.specs.Prelude.{◌≡◌, ◌≤◌, ◌<◌, ◌++◌, ◌∷◌, ◌↔◌, [], None, Some, length};
ghost use Rattle.std.specs.Prelude.{option_map, IsTrue, IfErr, OnOk, OnErr};
ghost use Rattle.c5_rows.specs.Cells.{row_or_none};
ghost use Rattle.c5_rows.specs.Sizes.{max_columns, max_tables};
ghost use Rattle.c5_rows.specs.Tables.{table_number};
ghost use Rattle.std.specs.Str.{bytes_eq};

use crate::cells::CellType;
use crate::names::TableName;
use crate::padded::{Blank, Padded};
use crate::sizes::{MAX_COLUMNS, MAX_TABLES};
use std::marker::Model;

/// The types of a table's columns: 1 to 8, held in the value itself.
#[derive(Clone, Copy, Debug, PartialEq, Eq)]
pub struct Columns {
    types: Padded<CellType, MAX_COLUMNS>,
}

impl Model for Columns {
    ghost use Rattle.std.specs.Prelude.{◌≤◌, List, length};
    ghost use Rattle.c5_rows.specs.declared.cells.CellType.{CellType};

    ghost Value = { List CellType };

    ghost view = { λ c. c.types };

    ghost invariant = { λ c. 1 ≤ length c.types };

    ghost inverse = { λ items. record { types = items } };
}

impl Columns {
    /// The columns of these types; `None` if there are fewer than 1 or more than 8.
    pub fn new(types: &[CellType]) -> Option<Self>
        ensures { result ≡ row_or_none types.now }
    {
        if types.is_empty() || types.len() > MAX_COLUMNS {
            return None;
        }
        Some(Columns {
            types: Padded::copied(types),
        })
    }

    /// The types, in the order of the columns.
    pub fn types(&self) -> &[CellType]
        ensures value { result.now ≡ self.now }
        ensures some { 1 ≤ length self.now }
        ensures few { length self.now ≤ max_columns }
    {
        self.types.as_slice()
    }
}

/// A table: its name, and the types of its columns.
#[derive(Clone, Copy, PartialEq, Eq)]
pub struct TableDef {
    pub name: TableName,
    pub columns: Columns,
}

impl Blank for TableDef {
    ghost use Rattle.std.specs.Prelude.{[], ◌∷◌};
    ghost use Rattle.c5_rows.specs.declared.cells.CellType.TheVariants.{Int};

    ghost blank_value = { record { name = 48 ∷ []; columns = Int ∷ [] } };

    fn blank() -> Self {
        TableDef {
            name: TableName::blank(),
            columns: Columns {
                types: Padded::copied(&[CellType::Int]),
            },
        }
    }
}

/// Why a table was not added to a schema.
#[derive(Clone, Copy, Debug, PartialEq, Eq)]
pub enum BadSchema {
    /// The schema has 16 tables.
    Full,
    /// The table of this number, counted from 0, has the name.
    Repeated { table: u8 },
}

/// 1 to 16 tables of different names, held in the value itself. Tables are numbered from 0.
#[derive(Clone, Copy, PartialEq, Eq)]
pub struct Schema {
    tables: Padded<TableDef, MAX_TABLES>,
}

impl Model for Schema {
    ghost use Rattle.std.specs.Prelude.{List};
    ghost use Rattle.c5_rows.specs.declared.tables.TableDef.{TableDef};
    ghost use Rattle.c5_rows.specs.Tables.{IsSchema};

    ghost Value = { List TableDef };

    ghost view = { λ s. s.tables };

    ghost invariant = { λ s. IsSchema s.tables };

    ghost inverse = { λ items. record { tables = items } };
}

impl Schema {
    ghost use Rattle.c5_rows.specs.Tables.{IsSchema, refusal_of};

    /// The schema of one table.
    pub fn one(table: TableDef) -> Self
        ensures { result ≡ table ∷ [] }
    {
        let mut tables = Padded::new();
        tables.push(table);
        Schema { tables }
    }

    /// Adds a table at the end. `Full` if there are 16 tables; otherwise `Repeated` if a table
    /// has the name. After an error the schema is as it was.
    pub fn push(&mut self, table: TableDef) -> Result<(), BadSchema>
        ensures added { OnOk result (self.new ≡ self.old ++ table ∷ []) }
        ensures allowed { OnOk result (refusal_of self.old table ≡ None) }
        ensures refused { IfErr result (λ cause. refusal_of self.old table ≡ Some cause) }
        ensures unchanged { OnErr result (self.new ≡ self.old) }
    {
        if self.tables.as_slice().len() == MAX_TABLES {
            return Err(BadSchema::Full);
        }
        if let Some(number) = self.find(&table.name) {
            return Err(BadSchema::Repeated { table: number });
        }
        self.tables.push(table);
        Ok(())
    }

    /// The tables, by their numbers.
    pub fn tables(&self) -> &[TableDef]
        ensures value { result.now ≡ self.now }
        ensures schema { IsSchema self.now }
    {
        self.tables.as_slice()
    }

    /// The number of the table of this name; `None` if no table has it.
    pub fn find(&self, name: &TableName) -> Option<u8>
        ensures { result ≡ table_number name.now self.now }
    {
        find_table(self.tables(), name.bytes())
    }
}

// Names of one length that begin alike mostly differ in their last byte.
fn has_name(table: &TableDef, name: &[u8]) -> bool
    ensures { result ≡ bytes_eq table.now.name name.now }
{
    let own = table.name.bytes();
    let last = own.len() - 1;
    own.len() == name.len() && own[last] == name[last] && own == name
}

/// The number of the first table with this name, counted from 0; `None` if no table has it.
pub fn find_table(tables: &[TableDef], name: &[u8]) -> Option<u8>
    requires { length tables.now ≤ max_tables }
    ensures { result ≡ table_number name.now tables.now }
{
    for (number, table) in tables.iter().enumerate() {
        if has_name(table, name) {
            return Some(number as u8);
        }
    }
    None
}

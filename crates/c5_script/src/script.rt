//! Whole scripts.

ghost use Rattle.std.specs.Prelude.{◌≡◌, ◌<◌, ◌++◌, ◌∷◌, [], None, length, OnOk, OnErr};
ghost use Rattle.c5_rows.specs.Sizes.{max_tables, max_reads, max_turn_words};
ghost use Rattle.c5_rows.specs.Tables.{table_number, IsSchema};
ghost use Rattle.std.specs.List.{AllByRecursion};
ghost use Rattle.c5_definitions.specs.Lawful.{IsLawfulTable};
ghost use Rattle.c5_definitions.specs.FitsScript.{IsScript, IsTurn, BodyFits, ReadFits};

use crate::blocks::ReadBlock;
use crate::bodies::Body;
use c5_definitions::TurnWord;
use c5_rows::{NoMemory, Schema, TableDef};
use std::alloc::Global;
use std::marker::Model;

/// Tables, bodies of transactions, read blocks and a schedule. Every name, row and column fits the
/// tables.
#[derive(Drop)]
pub struct Script {
    schema: Schema,
    bodies: Vec<Body>,
    reads: Vec<ReadBlock>,
    turns: Vec<TurnWord>,
}

impl Model for Script {
    ghost use Rattle.c5_definitions.specs.ScriptParts.{ScriptParts};
    ghost use Rattle.c5_definitions.specs.FitsScript.{IsScript};

    ghost Value = { ScriptParts };

    ghost view = { λ s. record {
      tables = s.schema;
      bodies = s.bodies.items;
      reads = s.reads.items;
      turns = s.turns.items;
    } };

    ghost invariant = { λ s. IsScript
        (record {
          tables = s.schema;
          bodies = s.bodies.items;
          reads = s.reads.items;
          turns = s.turns.items;
        }) };
}

// What the types of its parts say of a table.
fn know_table(table: &TableDef)
    ensures { IsLawfulTable table.now }
{
    let _name = table.name.bytes();
    let _types = table.columns.types();
}

fn know_tables(tables: &[TableDef])
    ensures { AllByRecursion IsLawfulTable tables.now }
{
    for table in tables {
        know_table(table);
    }
}

// What the type of a schema says of it.
fn know_schema(schema: &Schema)
    ensures schema { IsSchema schema.now }
    ensures each_table { AllByRecursion IsLawfulTable schema.now }
{
    know_tables(schema.tables());
}

impl Script {
    /// A script of these tables, without bodies, read blocks and turn words.
    pub fn new(alloc: Global, schema: Schema) -> Self
        ensures { result ≡ record { tables = schema; bodies = []; reads = []; turns = [] } }
    {
        know_schema(&schema);
        Script {
            schema,
            bodies: Vec::new(alloc),
            reads: Vec::new(alloc),
            turns: Vec::new(alloc),
        }
    }

    /// Adds a table at the end.
    pub(crate) fn push_table(&mut self, table: TableDef)
        requires no_bodies { self.old.bodies ≡ [] }
        requires no_reads { self.old.reads ≡ [] }
        requires room { length self.old.tables < max_tables }
        requires new_name { table_number table.name self.old.tables ≡ None }
        ensures { self.new
            ≡ record {
              tables = self.old.tables ++ table ∷ [];
              bodies = [];
              reads = [];
              turns = self.old.turns;
            } }
    {
        match self.schema.push(table) {
            Ok(()) => know_schema(&self.schema),
            Err(_) => unreachable!(),
        }
    }

    /// Adds a body at the end. After `NoMemory` nothing has changed, and the body is dropped.
    pub fn push_body(&mut self, body: Body) -> Result<(), NoMemory>
        requires fits { BodyFits self.old.tables body }
        ensures ok { OnOk result
            (self.new
            ≡ record {
              tables = self.old.tables;
              bodies = self.old.bodies ++ body ∷ [];
              reads = self.old.reads;
              turns = self.old.turns;
            }) }
        ensures err { OnErr result (self.new ≡ self.old) }
    {
        let mut body = body;
        body.shrink();
        self.bodies.push(body)?;
        Ok(())
    }

    /// Adds a read block at the end. After `NoMemory` nothing has changed, and the block is
    /// dropped.
    pub fn push_read(&mut self, read: ReadBlock) -> Result<(), NoMemory>
        requires room { length self.old.reads < max_reads }
        requires fits { ReadFits self.old.tables read }
        ensures ok { OnOk result
            (self.new
            ≡ record {
              tables = self.old.tables;
              bodies = self.old.bodies;
              reads = self.old.reads ++ read ∷ [];
              turns = self.old.turns;
            }) }
        ensures err { OnErr result (self.new ≡ self.old) }
    {
        let _lines = read.lines();
        self.reads.push(read)?;
        Ok(())
    }

    /// Adds a turn word at the end. After `NoMemory` nothing has changed.
    pub(crate) fn push_turn(&mut self, word: TurnWord) -> Result<(), NoMemory>
        requires range { IsTurn word }
        requires room { length self.old.turns < max_turn_words }
        ensures ok { OnOk result
            (self.new
            ≡ record {
              tables = self.old.tables;
              bodies = self.old.bodies;
              reads = self.old.reads;
              turns = self.old.turns ++ word ∷ [];
            }) }
        ensures err { OnErr result (self.new ≡ self.old) }
    {
        self.turns.push(word)?;
        Ok(())
    }

    /// The tables.
    pub fn schema(&self) -> &Schema
        ensures value { result.now ≡ self.now.tables }
        ensures script { IsScript self.now }
    {
        &self.schema
    }

    /// The bodies, by their numbers.
    pub fn bodies(&self) -> &[Body]
        ensures value { result.now ≡ self.now.bodies }
        ensures script { IsScript self.now }
    {
        &self.bodies
    }

    /// The read blocks, in order.
    pub fn reads(&self) -> &[ReadBlock]
        ensures value { result.now ≡ self.now.reads }
        ensures script { IsScript self.now }
    {
        &self.reads
    }

    /// The schedule.
    pub fn turns(&self) -> &[TurnWord]
        ensures value { result.now ≡ self.now.turns }
        ensures script { IsScript self.now }
    {
        &self.turns
    }
}

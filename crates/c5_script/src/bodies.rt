//! Bodies of transactions.

ghost use Rattle.std.specs.Prelude.{◌≡◌, ◌<◌, ◌++◌, ◌∷◌, [], length, IfOk, OnOk, OnErr};
ghost use Rattle.std.specs.List.{AllByRecursion};
ghost use Rattle.c5_rows.specs.Sizes.{max_statements};
ghost use Rattle.c5_rows.specs.Bytes.{IsKey};
ghost use Rattle.c5_definitions.specs.Lawful.{IsLawfulCell};
ghost use Rattle.c5_definitions.specs.FitsScript.{IsStatement, IsBody};

use c5_definitions::Statement;
use c5_rows::{Cell, Key, NoMemory};
use std::alloc::Global;
use std::marker::Model;

/// The statements of a transaction, in order: 0 to 256.
#[derive(Drop)]
pub struct Body {
    statements: Vec<Statement>,
}

impl Model for Body {
    ghost use Rattle.std.specs.Prelude.{List};
    ghost use Rattle.c5_definitions.specs.declared.script.Statement.{Statement};
    ghost use Rattle.c5_definitions.specs.FitsScript.{IsBody};

    ghost Value = { List Statement };

    ghost view = { λ b. b.statements.items };

    ghost invariant = { λ b. IsBody b.statements.items };
}

// What the type of a key says of it.
pub(crate) fn know_key(key: &Key)
    ensures { IsKey key.now }
{
    let _bytes = key.bytes();
}

// What the type of a cell says of it.
fn know_cell(cell: &Cell)
    ensures { IsLawfulCell cell.now }
{
    match cell {
        Cell::Int(n) => {
            let _n = *n;
        }
        Cell::Txt(text) => {
            let _bytes = text.bytes();
        }
    }
}

fn know_cells(cells: &[Cell])
    ensures { AllByRecursion IsLawfulCell cells.now }
{
    for cell in cells {
        know_cell(cell);
    }
}

// What the types of its parts say of a statement.
fn know_parts(statement: &Statement)
    ensures { IsStatement statement.now }
{
    match statement {
        Statement::Put { name, row } => {
            know_key(&name.key);
            know_cells(row.cells());
        }
        Statement::Del { name } => know_key(&name.key),
        Statement::Need { name, .. } => know_key(&name.key),
        Statement::Add { name, .. } => know_key(&name.key),
        Statement::Copy { from, to } => {
            know_key(&from.key);
            know_key(&to.key);
        }
    }
}

impl Body {
    /// No statements.
    pub fn new(alloc: Global) -> Self
        ensures { result ≡ [] }
    {
        Body {
            statements: Vec::new(alloc),
        }
    }

    /// No statements, and room for so many.
    pub(crate) fn with_capacity(alloc: Global, count: usize) -> Result<Self, NoMemory>
        ensures { IfOk result (λ body. body ≡ []) }
    {
        let statements = Vec::with_capacity(alloc, count)?;
        Ok(Body { statements })
    }

    /// Adds a statement at the end. After `NoMemory` nothing has changed.
    pub fn push(&mut self, statement: Statement) -> Result<(), NoMemory>
        requires room { length self.old < max_statements }
        ensures ok { OnOk result (self.new ≡ self.old ++ statement ∷ []) }
        ensures err { OnErr result (self.new ≡ self.old) }
    {
        know_parts(&statement);
        // Room is made first: a push that may fail gives the statement back, and each way costs a
        // copy of it.
        self.statements.reserve(1)?;
        self.statements.push_reserved(statement);
        Ok(())
    }

    /// Gives back the memory that no statement takes.
    pub(crate) fn shrink(&mut self)
        ensures same { self.new ≡ self.old }
        ensures body { IsBody self.new }
    {
        self.statements.shrink_to_fit();
    }

    /// The statements, in order.
    pub fn statements(&self) -> &[Statement]
        ensures value { result.now ≡ self.now }
        ensures body { IsBody self.now }
    {
        &self.statements
    }
}

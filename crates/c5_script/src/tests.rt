ghost use Rattle.std.specs.Prelude.{◌≡◌, ◌∷◌, [], pos, IfOk, MatchOption, slice_get};
ghost use Rattle.c5_rows.specs.declared.cells.CellType.TheVariants as types;

use super::*;
use c5_definitions::Excess;
use c5_rows::{Cell, CellType, Columns, Key, Row, RowName, Schema, TableDef, TableName};
use std::alloc::Global;
use std::test::Fail;

fn name_of(bytes: &[u8]) -> Result<RowName, Fail>
    ensures { IfOk result (λ name. name.table ≡ 0) }
{
    Ok(RowName {
        table: 0,
        key: Key::new(bytes)?,
    })
}

// The table `acct` of one Int column.
fn accounts() -> Result<Schema, Fail>
    ensures { IfOk result
        (λ tables. MatchOption (slice_get tables 0) ⊥ (λ table. types.Int ∷ [] ≡ table.columns)) }
{
    Ok(Schema::one(TableDef {
        name: TableName::new(b"acct")?,
        columns: Columns::new(&[CellType::Int]).ok_or("one column")?,
    }))
}

fn one_put(alloc: Global, name: RowName) -> Result<Body, Fail>
    ensures { IfOk result (λ body. body ≡ Statement.Put name (Cell.Int (pos 5) ∷ []) ∷ []) }
{
    let mut body = Body::new(alloc);
    body.push(Statement::Put {
        name,
        row: Row::new(&[Cell::Int(5)]).ok_or("one cell")?,
    })?;
    Ok(body)
}

#[test]
fn a_script_has_what_was_pushed(rt: HostRuntime) -> Result<(), Fail> {
    let name = name_of(b"a")?;
    let mut script = Script::new(rt.alloc(), accounts()?);
    script.push_body(one_put(rt.alloc(), name)?)?;
    let mut read = ReadBlock::new(rt.alloc(), 16, ReadLine::OneRow { name })?;
    read.push(ReadLine::OneRow { name })?;
    assert_eq!(rt; read.session(), 16);
    assert_eq!(rt; read.lines().len(), 2);
    script.push_read(read)?;
    script.push_turn(TurnWord::Visible)?;
    assert_eq!(rt; script.schema().tables().len(), 1);
    assert_eq!(rt; script.reads().len(), 1);
    assert_eq!(rt; script.turns(), [TurnWord::Visible].as_slice());
    assert_eq!(rt; script.bodies().len(), 1);
    let row = Row::new(&[Cell::Int(5)]).ok_or("one cell")?;
    assert_eq!(rt;
        script.bodies()[0].statements(),
        [Statement::Put { name, row }].as_slice()
    );
    assert_eq!(rt; script.check_limits(rt.alloc()), Ok(None));
    Ok(())
}

#[test]
fn a_body_too_many_is_reported(rt: HostRuntime) -> Result<(), Fail> {
    let mut script = Script::new(rt.alloc(), accounts()?);
    for _ in 0..65_536 {
        script.push_body(Body::new(rt.alloc()))?;
    }
    assert_eq!(rt; script.check_limits(rt.alloc()), Ok(None));
    script.push_body(Body::new(rt.alloc()))?;
    assert_eq!(rt;
        script.check_limits(rt.alloc()),
        Ok(Some(Excess::Transactions))
    );
    Ok(())
}

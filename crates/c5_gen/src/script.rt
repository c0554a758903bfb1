//! The script that a count determines.

ghost use Rattle.std.specs.Prelude.{◌≡◌, ◌≤◌, [], IfOk, OnOk};
ghost use Rattle.c5_rows.specs.Sizes.{max_transactions};
ghost use Rattle.c5_definitions.specs.Generated.{generated_tables, generated_bodies};
ghost use Rattle.c5_definitions.specs.Generated.{generated_reads, generated_script};

use crate::accounts::accounts;
use crate::bodies::{opening, transfer};
use crate::draws::{FIRST_DRAW, draw_after, move_of};
use crate::reads::read_by;
use c5_rows::NoMemory;
use c5_script::Script;
use std::alloc::Global;

/// How many reads there are, and by how many sessions.
const READ_COUNT: u32 = 16;

const SESSION_COUNT: u32 = 4;

// Adds so many bodies: the opening, and a transfer for each draw.
fn push_bodies(alloc: Global, script: &mut Script, count: u32) -> Result<(), NoMemory>
    requires empty { script.old
        ≡ record { tables = generated_tables; bodies = []; reads = []; turns = [] } }
    requires some { 1 ≤ count }
    ensures { OnOk result
        (script.new
        ≡ record {
          tables = generated_tables;
          bodies = generated_bodies count;
          reads = [];
          turns = [];
        }) }
{
    script.push_body(opening(alloc)?)?;
    let mut draw = FIRST_DRAW;
    for number in 1..count {
        draw = draw_after(draw);
        script.push_body(transfer(alloc, move_of(draw))?)?;
    }
    Ok(())
}

// Adds the reads.
fn push_reads(alloc: Global, script: &mut Script) -> Result<(), NoMemory>
    requires tables { script.old.tables ≡ generated_tables }
    requires none { script.old.reads ≡ [] }
    ensures { OnOk result
        (script.new
        ≡ record {
          tables = generated_tables;
          bodies = script.old.bodies;
          reads = generated_reads;
          turns = script.old.turns;
        }) }
{
    for block in 0..READ_COUNT {
        let read = read_by(alloc, 1 + block % SESSION_COUNT)?;
        script.push_read(read)?;
    }
    Ok(())
}

/// The script of so many transactions, 1 to 65,536: the first one opens 64 accounts with 1,000
/// each, and each later one moves 1 to 100 between two of them, drawn from its number. 16 reads sum
/// over all accounts. Only out of memory is an error.
pub fn script_of(alloc: Global, count: u32) -> Result<Script, NoMemory>
    requires some { 1 ≤ count }
    requires few { count ≤ max_transactions }
    ensures { IfOk result (λ script. script ≡ generated_script count) }
{
    let mut script = Script::new(alloc, accounts());
    push_bodies(alloc, &mut script, count)?;
    push_reads(alloc, &mut script)?;
    Ok(script)
}

//! The line with the order of a run.

ghost use Rattle.std.specs.Prelude.{◌≡◌, ◌++◌, IfOk};
ghost use Rattle.c5_definitions.specs.Outputs.{order_text};
ghost use Rattle.c5_definitions.specs.SerialRun.{script_numbers};

use c5_rows::{NoMemory, Txn};
use c5_text::order_text;
use std::alloc::Global;

// The script numbers of the transactions.
fn scripts_of(alloc: Global, txns: &[Txn]) -> Result<Vec<u32>, NoMemory>
    ensures { IfOk result (λ scripts. scripts.items ≡ script_numbers txns.now) }
{
    let mut scripts = Vec::with_capacity(alloc, txns.len())?;
    for txn in txns {
        scripts.push(txn.script)?;
    }
    Ok(scripts)
}

/// The text of the transactions' order.
pub fn order_of(alloc: Global, txns: &[Txn]) -> Result<Vec<u8>, NoMemory>
    ensures { IfOk result (λ text. text.items ≡ order_text (script_numbers txns.now)) }
{
    let scripts = scripts_of(alloc, txns)?;
    let text = order_text(alloc, &scripts)?;
    Ok(text)
}

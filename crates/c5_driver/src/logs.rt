//! The log of a script's run.

ghost use Rattle.std.specs.Prelude.{◌≡◌, ◌≤◌, List, length, None, IfOk};
ghost use Rattle.c5_rows.specs.Sizes.{max_threads};
ghost use Rattle.c5_rows.specs.declared.tables.TableDef.{TableDef};
ghost use Rattle.c5_rows.specs.declared.writes.Txn.{Txn as Transaction};
ghost use Rattle.c5_definitions.specs.Lawful.{Spells};
ghost use Rattle.c5_definitions.specs.Limits.{excess_of};
ghost use Rattle.c5_definitions.specs.Outputs.{no_rows};
ghost use Rattle.c5_definitions.specs.SerialRun.{SerialRun};
ghost use Rattle.c5_definitions.specs.TurnTexts.{txns_in_number_order};
ghost use Rattle.c5_primary.specs.Serial.{IsLogWithin};
ghost use Rattle.c5_driver.specs.LogLimits.{excess_of_log};

use crate::decoding::decoder_of;
use c5_frames::{LogBuffer, encode, one_log};
use c5_io::OpenGate;
use c5_primary::{run, run_serial, serial_run_law};
use c5_rows::{NoMemory, Txn};
use c5_script::Script;
use std::alloc::Global;
use std::thread::Threads;

// What a serial run of a script within the limits is.
fn know_run(script: &Script, txns: &[Txn])
    requires within { excess_of script.now ≡ None }
    requires run { SerialRun script.now.bodies no_rows txns.now }
    ensures log { IsLogWithin script.now txns.now }
    ensures limits { excess_of_log txns.now ≡ None }
{
    let _schema = script.schema();
    serial_run_law();
}

// What a spelled log is read as.
fn know_log(log: &LogBuffer)
    ensures { (tables : List TableDef) (txns : List Transaction) → Spells log.now.bytes tables txns
        → (tables ≡ log.now.tables) × (txns ≡ log.now.txns) }
{
    let _bytes = log.bytes();
    one_log();
}

/// The transactions of a script's bodies, each once, from no rows, run by so many threads.
pub fn run_of<R: Threads + Sync>(
    rt: &R,
    alloc: Global,
    script: &Script,
    threads: u32,
) -> Result<Vec<Txn>, NoMemory>
    requires within { excess_of script.now ≡ None }
    requires threads { (1 ≤ threads) × (threads ≤ max_threads) }
    ensures run { IfOk result (λ txns. SerialRun script.now.bodies no_rows txns.items) }
    ensures log { IfOk result (λ txns. IsLogWithin script.now txns.items) }
    ensures limits { IfOk result (λ txns. excess_of_log txns.items ≡ None) }
{
    let txns = run(rt, alloc, script, threads, &OpenGate)?;
    know_run(script, &txns);
    Ok(txns)
}

/// The transactions of a script's bodies, run in the order of their numbers, from no rows.
pub fn serial_run_of(alloc: Global, script: &Script) -> Result<Vec<Txn>, NoMemory>
    requires within { excess_of script.now ≡ None }
    ensures exact { IfOk result (λ txns. txns.items ≡ txns_in_number_order script.now) }
    ensures run { IfOk result (λ txns. SerialRun script.now.bodies no_rows txns.items) }
    ensures log { IfOk result (λ txns. IsLogWithin script.now txns.items) }
    ensures limits { IfOk result (λ txns. excess_of_log txns.items ≡ None) }
{
    let txns = run_serial(alloc, script)?;
    know_run(script, &txns);
    Ok(txns)
}

/// The bytes of a run's log.
pub fn bytes_of(alloc: Global, script: &Script, txns: &[Txn]) -> Result<Vec<u8>, NoMemory>
    requires { IsLogWithin script.now txns.now }
    ensures { IfOk result (λ bytes. Spells bytes.items script.now.tables txns.now) }
{
    let bytes = encode(alloc, script.schema(), txns)?;
    Ok(bytes)
}

/// The log of a run, decoded from its bytes.
pub fn decoded_run(alloc: Global, script: &Script, txns: &[Txn]) -> Result<LogBuffer, NoMemory>
    requires { IsLogWithin script.now txns.now }
    ensures tables { IfOk result (λ log. log.tables ≡ script.now.tables) }
    ensures txns { IfOk result (λ log. log.txns ≡ txns.now) }
{
    let bytes = bytes_of(alloc, script, txns)?;
    let decoder = match decoder_of(alloc, bytes) {
        Ok(decoder) => decoder,
        Err(_) => return Err(NoMemory),
    };
    match decoder.finish() {
        Ok(log) => {
            know_log(&log);
            Ok(log)
        }
        Err(_) => unreachable!(),
    }
}

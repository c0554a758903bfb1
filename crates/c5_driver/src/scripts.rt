//! A script that is read from bytes.

ghost use Rattle.std.specs.Prelude.{◌≡◌, ◌≤◌, length, None, Ok, IfOk, IfErr};
ghost use Rattle.c5_definitions.specs.Script.{script_of};
ghost use Rattle.c5_definitions.specs.Limits.{excess_of};
ghost use Rattle.c5_rows.specs.Sizes.{max_script_bytes};
ghost use Rattle.c5_driver.specs.Inputs.{IsRefusedBy, ReadsInput};
ghost use Rattle.c5_driver.specs.Meanings.{IsScriptWithin, script_refusal};
ghost use Rattle.c5_driver.specs.Uses.{source_use};

use crate::reading::read_bytes;
use crate::refusal::Refusal;
use c5_io::Source;
use c5_rows::NoMemory;
use c5_script::{ParseFault, Script, parse};
use std::alloc::Global;

// The script of these bytes, if its counts are within the limits.
fn script_in(alloc: Global, bytes: &[u8]) -> Result<Script, Refusal>
    requires { length bytes.now ≤ max_script_bytes }
    ensures ok { IfOk result (λ script. script_of bytes.now ≡ Ok script) }
    ensures within { IfOk result (λ script. excess_of script ≡ None) }
    ensures refused { IfErr result (λ refusal. IsRefusedBy (script_refusal bytes.now) refusal) }
{
    let script = match parse(alloc, bytes) {
        Ok(script) => script,
        Err(ParseFault::Bad(fault)) => return Err(Refusal::BadScript(fault)),
        Err(ParseFault::NoMemory) => return Err(Refusal::NoMemory),
    };
    match script.check_limits(alloc) {
        Ok(None) => Ok(script),
        Ok(Some(excess)) => Err(Refusal::Limit(excess)),
        Err(NoMemory) => Err(Refusal::NoMemory),
    }
}

/// The script that the source gives, or why there is none: a read failed, the input is longer than
/// the limit, the script has a fault, or it exceeds a limit of counts.
pub fn script_from<S: Source>(
    alloc: Global,
    source: &mut S,
    limit: usize,
) -> Result<Script, Refusal>
    requires { limit ≤ max_script_bytes }
    ensures { ReadsInput limit script_refusal IsScriptWithin
        (source_use S.left S.faults source.old source.new) result }
{
    let bytes = read_bytes(alloc, source, limit)?;
    script_in(alloc, &bytes)
}

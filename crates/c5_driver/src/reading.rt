//! An input that is read to its end, up to a limit.

ghost use Rattle.std.specs.Prelude.{◌≡◌, ◌<◌};
ghost use Rattle.c5_driver.specs.Inputs.{ReadsInput, none_refused};
ghost use Rattle.c5_driver.specs.Uses.{source_use};

use crate::refusal::Refusal;
use c5_io::{InFault, Source, read_all};
use std::alloc::Global;

/// All bytes that the source gives, up to `limit`.
pub fn read_bytes<S: Source>(
    alloc: Global,
    source: &mut S,
    limit: usize,
) -> Result<Vec<u8>, Refusal>
    requires { limit < usize.MAX }
    ensures { ReadsInput limit none_refused (λ input bytes. bytes.items ≡ input)
        (source_use S.left S.faults source.old source.new) result }
{
    match read_all(alloc, source, limit) {
        Ok(bytes) => Ok(bytes),
        Err(InFault::Failed) => Err(Refusal::ReadFault),
        Err(InFault::TooLong) => Err(Refusal::TooLong),
        Err(InFault::NoMemory) => Err(Refusal::NoMemory),
    }
}

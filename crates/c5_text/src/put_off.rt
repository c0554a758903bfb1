//! The line with the number of writes that were put off.

ghost use Rattle.std.specs.Prelude.{◌≡◌, IfOk};
ghost use Rattle.c5_definitions.specs.TurnTexts.{put_off_text};

use c5_rows::NoMemory;
use itoa::Buffer;
use std::alloc::Global;

/// The text of how many writes were put off: the word `put_off`, the number after one space, and a
/// line end.
pub fn put_off_text(alloc: Global, count: u64) -> Result<Vec<u8>, NoMemory>
    ensures { IfOk result (λ text. text.items ≡ put_off_text count) }
{
    let mut text = Vec::from_slice(alloc, b"put_off ")?;
    text.extend_from_slice(Buffer::new().format(count).as_bytes())?;
    text.push(b'\n')?;
    Ok(text)
}

//! Numbers in lines: each has a space before it.

ghost use Rattle.std.specs.Prelude.{◌≡◌, ◌++◌, ℕ, List, [], OnOk, IfSome, IfNone};
ghost use Rattle.c5_definitions.specs.Outputs.{number_text};
ghost use Rattle.c5_text.specs.Readers.{IsNumber, IsAfter};

use crate::reading::{after_byte, count_before};
use c5_rows::NoMemory;
use itoa::Buffer;

// Appends a space and the number.
pub(crate) fn push_number(out: &mut Vec<u8>, number: u32) -> Result<(), NoMemory>
    ensures { OnOk result (out.new.items ≡ out.old.items ++ number_text number) }
{
    out.push(b' ')?;
    out.extend_from_slice(Buffer::new().format(number).as_bytes())?;
    Ok(())
}

// The number that is written so, and in no other way.
fn number_in(bytes: &[u8]) -> Option<u32>
    ensures found { IfSome result (λ n. IsNumber bytes.now n) }
    ensures none { IfNone result ((n : ℕ) → IsNumber bytes.now n → ⊥) }
{
    let Ok(text) = std::str::from_utf8(bytes) else {
        return None;
    };
    let Ok(number) = text.parse::<u32>() else {
        return None;
    };
    if Buffer::new().format(number).as_bytes() != bytes {
        return None;
    }
    Some(number)
}

// The number after a space, up to the next one, and the bytes after it.
pub(crate) fn number_at(bytes: &[u8]) -> Option<(u32, &[u8])>
    ensures found { IfSome result (λ x. IsAfter [] bytes.now x.0 x.1.now) }
    ensures none { IfNone result ((n : ℕ) (rest : List ℕ) → IsAfter [] bytes.now n rest → ⊥) }
{
    let Some(rest) = after_byte(b' ', bytes) else {
        return None;
    };
    let (digits, rest) = rest.split_at(count_before(b' ', rest));
    match number_in(digits) {
        Some(number) => Some((number, rest)),
        None => None,
    }
}

// The bytes after a label.
pub(crate) fn after_label<'a>(label: &[u8], bytes: &'a [u8]) -> Option<&'a [u8]>
    ensures found { IfSome result (λ rest. bytes.now ≡ label.now ++ rest.now) }
    ensures none { IfNone result ((rest : List ℕ) → bytes.now ≡ label.now ++ rest → ⊥) }
{
    bytes.strip_prefix(label)
}

// The number after a label and a space, and the bytes after it.
pub(crate) fn number_after<'a>(label: &[u8], bytes: &'a [u8]) -> Option<(u32, &'a [u8])>
    ensures found { IfSome result (λ x. IsAfter label.now bytes.now x.0 x.1.now) }
    ensures none { IfNone result
        ((n : ℕ) (rest : List ℕ) → IsAfter label.now bytes.now n rest → ⊥) }
{
    match after_label(label, bytes) {
        Some(rest) => number_at(rest),
        None => None,
    }
}

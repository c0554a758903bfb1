//! The line with the order of the transactions.

ghost use Rattle.std.specs.Prelude.{◌≡◌, ℕ, List, IfOk};
ghost use Rattle.c5_definitions.specs.Outputs.{order_text};
ghost use Rattle.c5_text.specs.Readers.{AreNumbers, IsOrder, OrNoMemory};

use crate::words::{after_label, number_at, push_number};
use c5_rows::NoMemory;
use std::alloc::{AllocFailed, Global};

/// Why a line isn't read.
#[derive(Clone, Copy, Debug)]
pub enum TextFault {
    /// The line isn't such a text.
    NotOne,
    /// Out of memory.
    NoMemory,
}

impl<T: Drop> From<AllocFailed<T>> for TextFault {
    ghost use Rattle.std.specs.Prelude.{◌≡◌};
    ghost use Rattle.c5_text.specs.declared.order.TextFault.TheVariants.{NoMemory};

    ghost from_gives = { λ _ e. e ≡ NoMemory };

    fn from(_error: AllocFailed<T>) -> Self {
        TextFault::NoMemory
    }
}

/// The text of an order: the word `order`, the script numbers, each after one space, and a line
/// end.
pub fn order_text(alloc: Global, scripts: &[u32]) -> Result<Vec<u8>, NoMemory>
    ensures { IfOk result (λ text. text.items ≡ order_text scripts.now) }
{
    let mut text = Vec::from_slice(alloc, b"order")?;
    for script in scripts {
        push_number(&mut text, *script)?;
    }
    text.push(b'\n')?;
    Ok(text)
}

// The numbers, each after one space, up to the end.
fn numbers_in(alloc: Global, bytes: &[u8]) -> Result<Vec<u32>, TextFault>
    ensures found { IfOk result (λ read. AreNumbers bytes.now read.items) }
    ensures only { (ns : List ℕ) → AreNumbers bytes.now ns → OrNoMemory result (λ r. r.items ≡ ns) }
{
    let mut numbers = Vec::new(alloc);
    let mut rest = bytes;
    while !rest.is_empty() {
        let Some((number, after)) = number_at(rest) else {
            return Err(TextFault::NotOne);
        };
        numbers.push(number)?;
        rest = after;
    }
    Ok(numbers)
}

/// Reads the line of an order, without its line end: the script numbers.
///
/// `NotOne` if and only if the line isn't one that `order_text` writes: a leading zero, a space at
/// the end and a number of more than 32 bits are `NotOne`.
pub fn read_order(alloc: Global, line: &[u8]) -> Result<Vec<u32>, TextFault>
    ensures found { IfOk result (λ scripts. IsOrder line.now scripts.items) }
    ensures only { (ns : List ℕ) → IsOrder line.now ns → OrNoMemory result (λ r. r.items ≡ ns) }
{
    match after_label(b"order", line) {
        Some(numbers) => numbers_in(alloc, numbers),
        None => Err(TextFault::NotOne),
    }
}

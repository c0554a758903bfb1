//! Short lists held in the value itself.

ghost use Rattle.std.specs.Prelude.{◌≡◌, ◌≤◌, ◌<◌, [], ◌∷◌, ◌++◌, length, slice_set};

use std::alloc::AllocError;
use std::marker::Model;

/// A value that fills the unused places of a short list.
pub trait Blank: Copy {
    ghost blank_value: { Self };

    /// The value.
    fn blank() -> Self
        ensures { result ≡ blank_value };
}

impl Blank for u8 {
    ghost blank_value = { 0 };

    fn blank() -> Self {
        0
    }
}

/// A list of at most `N` items, held in the value itself. `N` is at most 255.
// Past the length every place is blank, so that equal lists have equal arrays.
#[derive(Copy, Debug)]
pub struct Padded<T: Blank, const N: usize> {
    pub(crate) items: [T; N],
    pub(crate) len: u8,
}

impl<T: Blank, const N: usize> Model for Padded<T, N> {
    ghost use Rattle.std.specs.Prelude.{List, length, take};
    ghost use Rattle.c5_rows.specs.Padded.{IsPadded, padded, padded-take, length-of_padded};

    ghost Value = { List T };

    ghost view = { λ s. take s.len s.items };

    ghost invariant = { λ s. IsPadded T.blank_value N s.len s.items };

    ghost inverse = { λ items. record {
      items = padded T.blank_value N items;
      len = length items;
    } };

    ghost inverse_ok = { λ a h i. record {
      items = padded-take T.blank_value N a.len a.items h i;
      len = length-of_padded T.blank_value N a.len a.items h i;
    } };
}

impl<T: Blank, const N: usize> Padded<T, N> {
    /// The empty list.
    pub fn new() -> Self
        ensures { result ≡ [] }
    {
        Padded {
            items: [T::blank(); N],
            len: 0,
        }
    }

    /// The items of a slice.
    pub fn copied(items: &[T]) -> Self
        requires fits { length items.now ≤ N }
        requires small { N ≤ 255 }
        ensures { result ≡ items.now }
    {
        let mut padded = [T::blank(); N];
        padded[..items.len()].copy_from_slice(items);
        Padded {
            items: padded,
            len: items.len() as u8,
        }
    }

    /// Adds an item at the end.
    pub fn push(&mut self, item: T)
        requires room { length self.old < N }
        requires small { N ≤ 255 }
        ensures { self.new ≡ self.old ++ item ∷ [] }
    {
        self.items[self.len as usize] = item;
        self.len += 1;
    }

    /// Replaces an item.
    pub fn set(&mut self, at: u8, item: T)
        requires { at < length self.old }
        ensures { self.new ≡ slice_set self.old at item }
    {
        self.items[..self.len as usize][at as usize] = item;
    }

    /// The items, in order.
    pub fn as_slice(&self) -> &[T]
        ensures value { result.now ≡ self.now }
        ensures fits { length self.now ≤ N }
    {
        &self.items[..self.len as usize]
    }
}

impl<T: Blank, const N: usize> Clone for Padded<T, N> {
    ghost is_clone = { λ value copy. copy ≡ value };

    ghost is_infallible = { λ _. Unit {0} };

    fn clone(&self) -> Result<Self, AllocError> {
        Ok(*self)
    }
}

impl<T: Blank + PartialEq, const N: usize> PartialEq for Padded<T, N> {
    ghost use Rattle.std.proofs.Common.{rules};
    ghost use Rattle.std.specs.Cmp.Rules.{comparing};
    ghost use lib.Pointwise.{pointwise};

    ghost eq = { pointwise T.eq };

    ghost laws = { Prim.search (comparing, rules) };

    fn eq(&self, other: &Self) -> bool {
        self.as_slice() == other.as_slice()
    }
}

impl<T: Blank + Eq, const N: usize> Eq for Padded<T, N> {
    ghost use Rattle.std.proofs.Common.{rules};
    ghost use Rattle.std.specs.Cmp.Rules.{comparing};

    ghost laws = { Prim.search (comparing, rules) };
}

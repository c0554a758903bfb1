//! The order of short lists of bytes.

ghost use Rattle.std.specs.Prelude.{◌≡◌, ◌≤◌, ◌+◌, ℕ, List, length, take, drop};
ghost use Rattle.std.specs.Cmp.Lexicographic.{slice_cmp};
ghost use Rattle.std.specs.Ordering.{nat_cmp, ordering_then};
ghost use Rattle.std.specs.Slice.Scan.{big_endian};

use crate::padded::Padded;
use std::cmp::Ordering;

// The number that the eight bytes from `at` on spell, the first byte the highest.
#[inline(always)]
fn word(bytes: &[u8], at: usize) -> u64
    requires { at + 8 ≤ length bytes.now }
    ensures { result ≡ big_endian 0 (take 8 (drop at bytes.now)) }
{
    u64::from_be_bytes([
        bytes[at],
        bytes[at + 1],
        bytes[at + 2],
        bytes[at + 3],
        bytes[at + 4],
        bytes[at + 5],
        bytes[at + 6],
        bytes[at + 7],
    ])
}

// The order of the arrays, and that of the lengths if the arrays are the same. Words of eight
// bytes are ordered as their bytes are, so the first word that differs decides.
#[inline(always)]
fn order(a: &[u8], b: &[u8], a_len: u8, b_len: u8) -> Ordering
    requires { length a.now ≡ length b.now }
    ensures { result ≡ ordering_then (slice_cmp nat_cmp a.now b.now) (nat_cmp a_len b_len) }
{
    let words = a.len() / 8;
    for place in 0..words {
        let (x, y) = (word(a, 8 * place), word(b, 8 * place));
        if x != y {
            return x.cmp(&y);
        }
    }
    a[8 * words..].cmp(&b[8 * words..]).then(a_len.cmp(&b_len))
}

impl<const N: usize> Ord for Padded<u8, N> {
    ghost use Rattle.std.proofs.Common.{rules};
    ghost use Rattle.std.specs.Cmp.Rules.{comparing};
    ghost use Rattle.std.specs.Cmp.Lexicographic.{slice_cmp};
    ghost use Rattle.std.specs.Ordering.{nat_cmp};

    ghost cmp = { slice_cmp nat_cmp };

    ghost total = { Prim.search (comparing, rules) };

    ghost matches_partial_cmp = { Prim.search (comparing, rules) };

    ghost matches_eq = { Prim.search (comparing, rules) };

    // The places past the length are 0, so the lengths count only if the arrays are the same.
    #[inline(always)]
    fn cmp(&self, other: &Self) -> Ordering {
        order(&self.items, &other.items, self.len, other.len)
    }
}

impl<const N: usize> PartialOrd for Padded<u8, N> {
    ghost use Rattle.std.proofs.Common.{rules};
    ghost use Rattle.std.specs.Cmp.{partial_order_from_own_ties};
    ghost use Rattle.std.specs.Cmp.Rules.{comparing};
    ghost use Rattle.std.specs.Cmp.Lexicographic.{slice_cmp};
    ghost use Rattle.std.specs.Ordering.{nat_cmp, as_partial_cmp};

    ghost partial_cmp = { as_partial_cmp (slice_cmp nat_cmp) };

    ghost laws = { partial_order_from_own_ties (Prim.search (comparing, rules))
        (Prim.search (comparing, rules)) };

    fn partial_cmp(&self, other: &Self) -> Option<Ordering> {
        Some(self.cmp(other))
    }
}

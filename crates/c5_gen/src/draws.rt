//! The draws of generated scripts, and what they move.

ghost use Rattle.std.specs.Prelude.{◌≡◌, ◌<◌, ◌≤◌};
ghost use Rattle.c5_definitions.specs.Generated.{next_draw, transfer_of, account_count};

use crate::accounts::ACCOUNT_COUNT;

/// The number from which draws start.
pub(crate) const FIRST_DRAW: u64 = 1;

// The factor and the summand of the linear congruence, modulo 2^64.
const DRAW_FACTOR: u64 = 6364136223846793005;

const DRAW_SUMMAND: u64 = 1442695040888963407;

// Where the parts of a draw begin: the account that pays in its highest 6 bits.
const FROM_SHIFT: u32 = 58;

const STEPS_SHIFT: u32 = 40;

const AMOUNT_SHIFT: u32 = 20;

// The greatest amount.
const MAX_AMOUNT: u64 = 100;

/// The draw after another one.
pub(crate) fn draw_after(x: u64) -> u64
    ensures { result ≡ next_draw x }
{
    x.wrapping_mul(DRAW_FACTOR).wrapping_add(DRAW_SUMMAND)
}

/// An amount from one account to another.
#[derive(Clone, Copy)]
pub(crate) struct Move {
    pub(crate) from: u32,
    pub(crate) to: u32,
    pub(crate) amount: u32,
}

/// What a draw moves.
pub(crate) fn move_of(x: u64) -> Move
    ensures from { result.from ≡ (transfer_of x).from }
    ensures to { result.to ≡ (transfer_of x).to }
    ensures amount { result.amount ≡ (transfer_of x).amount }
    ensures from_few { result.from < account_count }
    ensures to_few { result.to < account_count }
    ensures amount_few { result.amount ≤ 100 }
{
    let from = (x >> FROM_SHIFT) as u32;
    let steps = ((x >> STEPS_SHIFT) % (ACCOUNT_COUNT as u64 - 1)) as u32;
    let amount = 1 + ((x >> AMOUNT_SHIFT) % MAX_AMOUNT) as u32;
    Move {
        from,
        to: (from + 1 + steps) % ACCOUNT_COUNT,
        amount,
    }
}

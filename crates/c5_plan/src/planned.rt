//! A log within its limits.

ghost use Rattle.std.specs.Prelude.{◌≡◌, ◌≤◌, length};
ghost use Rattle.c5_definitions.specs.WriteNumbers.{end_of, place_below};
ghost use Rattle.c5_plan.specs.Sizes.{IsPlanned};

use c5_frames::LogBuffer;
use std::marker::Model;

/// A log within its limits. Its writes are numbered from 1, in order.
#[derive(Drop)]
pub struct Plan<'a> {
    pub(crate) log: &'a LogBuffer,
}

impl<'a> Model for Plan<'a> {
    ghost use Rattle.c5_frames.specs.Log.{Log};
    ghost use Rattle.c5_plan.specs.Sizes.{IsPlanned};

    ghost Value = { Log };

    ghost view = { λ p. p.log.now };

    ghost invariant = { λ p. IsPlanned p.log.now };
}

// The number of writes of the first `p` transactions.
fn end(log: &LogBuffer, p: u32) -> u32
    requires { p ≤ length log.now.txns }
    ensures { result ≡ end_of log.now.txns p }
{
    if p == 0 {
        return 0;
    }
    // The log's number of writes bounds the sum.
    let _writes = log.writes();
    let last = log.txn(p - 1);
    last.first - 1 + last.count
}

// The greatest place whose writes are all below `least`: the first place is, and ends don't fall.
fn place_below(log: &LogBuffer, least: u64) -> u32
    requires planned { IsPlanned log.now }
    requires some { 1 ≤ least }
    ensures { result ≡ place_below log.now.txns least }
{
    let mut below = 0;
    let mut above = log.transactions() + 1;
    while above - below > 1 {
        let middle = below + (above - below) / 2;
        if (end(log, middle) as u64) < least {
            below = middle;
        } else {
            above = middle;
        }
    }
    below
}

impl<'a> Plan<'a> {
    /// The log.
    pub fn log(&self) -> &'a LogBuffer
        ensures value { result.now ≡ self.now }
        ensures planned { IsPlanned self.now }
    {
        self.log
    }

    /// The number of writes of the first `p` transactions. Takes constant time.
    pub fn end(&self, p: u32) -> u32
        requires { p ≤ length self.now.txns }
        ensures { result ≡ end_of self.now.txns p }
    {
        end(self.log, p)
    }

    /// The greatest place whose writes all have numbers below `least`. Takes logarithmic time.
    pub fn place_below(&self, least: u64) -> u32
        requires { 1 ≤ least }
        ensures { result ≡ place_below self.now.txns least }
    {
        place_below(self.log, least)
    }
}

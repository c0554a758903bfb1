//! Numbers of a log, the highest byte first.

ghost use Rattle.std.specs.Prelude.{◌≡◌, ◌≤◌, length};
ghost use Rattle.c5_definitions.specs.Numbers.{number_32, number_64, signed_64};

use byteorder::{BigEndian, ByteOrder};

#[tactic(auto, unfolding(c5_definitions::specs::Numbers::number_32))]
pub fn u32_in(bytes: &[u8]) -> u32
    requires { 4 ≤ length bytes.now }
    ensures { result ≡ number_32 bytes.now }
{
    BigEndian::read_u32(bytes)
}

#[tactic(auto, unfolding(c5_definitions::specs::Numbers::number_64))]
pub fn u64_in(bytes: &[u8]) -> u64
    requires { 8 ≤ length bytes.now }
    ensures { result ≡ number_64 bytes.now }
{
    BigEndian::read_u64(bytes)
}

#[tactic(auto, unfolding(c5_definitions::specs::Numbers::signed_64))]
pub fn i64_in(bytes: &[u8]) -> i64
    requires { 8 ≤ length bytes.now }
    ensures { result ≡ signed_64 bytes.now }
{
    u64_in(bytes).cast_signed()
}

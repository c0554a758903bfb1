//! Numbers that are written in words.

ghost use Rattle.std.specs.Prelude.{◌≡◌, ◌≤◌, length, IfSome, IsTrue};
ghost use Rattle.std.specs.List.{list_all};
ghost use Rattle.c5_rows.specs.Sizes.{max_workers, max_sessions};
ghost use Rattle.c5_definitions.specs.Numerals.{is_digit, digits_after, magnitude_of, as_positive};
ghost use Rattle.c5_definitions.specs.Numerals.{as_negative, int_of_digits, turn_number_of};

fn are_digits(bytes: &[u8]) -> bool
    ensures { result ≡ list_all is_digit bytes.now }
{
    bytes.iter().all(|byte| *byte >= b'0' && *byte <= b'9')
}

// The number that digits write.
fn value_of(digits: &[u8]) -> u64
    requires few { length digits.now ≤ 19 }
    requires digits { IsTrue (list_all is_digit digits.now) }
    ensures { result ≡ digits_after 0 digits.now }
{
    let mut n: u64 = 0;
    for digit in digits {
        n = n * 10 + u64::from(*digit - b'0');
    }
    n
}

// The number that 1 to 19 digits write.
#[tactic(auto, unfolding(c5_definitions::specs::Numerals::magnitude_of))]
fn magnitude_in(digits: &[u8]) -> Option<u64>
    ensures { result ≡ magnitude_of digits.now }
{
    if digits.is_empty() || digits.len() > 19 || !are_digits(digits) {
        return None;
    }
    Some(value_of(digits))
}

fn positive(n: u64) -> Option<i64>
    ensures { result ≡ as_positive n }
{
    0_i64.checked_add_unsigned(n)
}

fn negative(n: u64) -> Option<i64>
    ensures { result ≡ as_negative n }
{
    0_i64.checked_sub_unsigned(n)
}

/// The number that an optional minus and 1 to 19 digits write. `None` if and only if `bytes` are
/// nothing of the kind, or the number has more than 64 bits with its sign.
#[tactic(auto, unfolding(c5_definitions::specs::Numerals::int_of_digits))]
pub(crate) fn number_of(bytes: &[u8]) -> Option<i64>
    ensures { result ≡ int_of_digits bytes.now }
{
    match bytes {
        [] => None,
        [b'-', digits @ ..] => negative(magnitude_in(digits)?),
        [_, ..] => positive(magnitude_in(bytes)?),
    }
}

/// The number from 1 to 16 that one or two digits write, the first of them not 0.
#[tactic(auto, unfolding(c5_definitions::specs::Numerals::turn_number_of))]
pub(crate) fn turn_number_of(digits: &[u8]) -> Option<u32>
    ensures value { result ≡ turn_number_of digits.now }
    ensures range { IfSome result (λ n. (1 ≤ n) × (n ≤ max_workers) × (n ≤ max_sessions)) }
{
    match digits {
        [digit] if *digit >= b'1' && *digit <= b'9' => Some(u32::from(*digit - b'0')),
        [b'1', digit] if *digit >= b'0' && *digit <= b'6' => Some(10 + u32::from(*digit - b'0')),
        _ => None,
    }
}

//! Signed powers of two, and the least number of them that sum to a number.

ghost use Rattle.std.specs.Prelude.{◌≡◌, ◌<◌, ◌≤◌, ◌*◌, ◌^◌, length, sum_by};
ghost use Rattle.mr_values.specs.Digit.{total, AreApart, IsWeight, non_adjacent, digit_count, positive_count, rest_of};
ghost use Rattle.mr_values.specs.Sequence.{phase as taps_of_phase};

use crate::digit_list::Digits;

/// A signed power of two: `2^place`, or `-2^place` where `negative`.
#[derive(Clone, Copy, Debug, PartialEq, Eq)]
pub struct Digit {
    pub place: u8,
    pub negative: bool,
}

/// The non-adjacent form of `c`, lowest digit first. It takes no memory.
pub fn digits(c: i64) -> Digits
    ensures value { result ≡ non_adjacent c }
    ensures sum { total result ≡ c }
    ensures apart { AreApart result }
    ensures least { IsWeight c (length result) }
{
    let negative = c.is_negative();
    let mut digits = Digits::new();
    let mut rest = c.unsigned_abs();
    for place in 0..64 {
        if rest % 2 == 1 {
            digits.push(Digit {
                place,
                negative: negative != (rest % 4 == 3),
            });
        }
        rest = above_digit(rest);
    }
    digits
}

/// How many digits of `c` are positive.
pub fn positive_digits(c: i64) -> usize
    ensures value { result ≡ positive_count c }
    ensures small { result ≤ 64 }
{
    let digits = digits(c);
    digits
        .as_slice()
        .iter()
        .filter(|digit| !digit.negative)
        .count()
}

/// The least number of signed powers of two that sum to `c`.
pub fn weight(c: i64) -> u8
    ensures least { IsWeight c result }
    ensures value { result ≡ digit_count c }
{
    let digits = digits(c);
    digits.as_slice().len() as u8
}

// What is left of `n` above the lowest digit of its non-adjacent form.
fn above_digit(n: u64) -> u64
    ensures { result ≡ rest_of n }
{
    if n % 4 == 3 { n / 2 + 1 } else { n / 2 }
}

/// How many terms the taps `h[phase]`, `h[phase + up]`, .. have.
pub fn count_terms(taps: &[i64], up: u32, phase: u32) -> u64
    requires in_range { phase < up }
    requires few { length taps.now < 2 ^ 32 }
    ensures value { result ≡ sum_by digit_count (taps_of_phase up phase taps.now) }
    ensures small { result ≤ 255 * length taps.now }
{
    let mut count = 0;
    let mut wait = phase;
    for tap in taps {
        if wait == 0 {
            count += u64::from(weight(*tap));
            wait = up;
        }
        wait -= 1;
    }
    count
}

/// How many positive terms the taps `h[phase]`, `h[phase + up]`, .. have.
pub fn count_positive_terms(taps: &[i64], up: u32, phase: u32) -> u64
    requires in_range { phase < up }
    requires few { length taps.now < 2 ^ 32 }
    ensures value { result ≡ sum_by positive_count (taps_of_phase up phase taps.now) }
    ensures small { result ≤ 255 * length taps.now }
{
    let mut count = 0;
    let mut wait = phase;
    for tap in taps {
        if wait == 0 {
            count += positive_digits(*tap) as u64;
            wait = up;
        }
        wait -= 1;
    }
    count
}

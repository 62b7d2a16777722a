//! One value, rounded to even or clipped.

ghost use Rattle.std.specs.Prelude.{◌≡◌, ◌+◌, ◌-◌, ◌^◌, ◌≤◌, ◌-ℤ◌, ◌≤ℤ◌, pos};
ghost use Rattle.mr_values.specs.Width.{floor_quotient, floor_remainder};
ghost use Rattle.mr_values.specs.Rounding.{half_even, clip_value};
ghost use Rattle.mr_values.specs.RoundingLaws.{FloorLaw, HalfEvenRisesLaw, NearLaw, TieLaw, HalfEvenPeakLaw, HalfEvenZeroLaw, ClipLaw, ClipFitsLaw, ClipRisesLaw, ClipSmallLaw, ClipZeroLaw};

use crate::width::{floor_modulo, floor_shift, power};

/// The value over `2^shift`, to the nearest whole number, and halves to the even one.
pub fn rounded_to_even(value: i128, shift: u8) -> i128
    requires least { 1 ≤ shift }
    requires greatest { shift ≤ 64 }
    requires small { value ≤ℤ pos (2 ^ 126) }
    ensures { result ≡ half_even shift value }
{
    floor_shift(value + addend(value, shift), shift)
}

// One less than a half of `2^shift`, and one more where the value over `2^shift`, rounded down, is odd.
fn addend(value: i128, shift: u8) -> i128
    requires least { 1 ≤ shift }
    requires greatest { shift ≤ 64 }
    ensures value { result ≡ pos (2 ^ (shift - 1) - 1 + floor_remainder (floor_quotient value (2 ^ shift)) 2) }
    ensures small { result ≤ℤ pos (2 ^ 63) }
{
    below(power(shift - 1)) + parity(floor_shift(value, shift))
}

// 0 for an even number, 1 for an odd one.
fn parity(v: i128) -> i128
    ensures value { result ≡ pos (floor_remainder v 2) }
    ensures small { result ≤ℤ pos 1 }
{
    i128::from(floor_modulo(v, 2))
}

// One less.
fn below(v: i128) -> i128
    requires least { pos 1 ≤ℤ v }
    ensures { result ≡ v -ℤ pos 1 }
{
    v - 1
}

/// The nearest number of so many bits.
pub fn clipped(value: i128, bits: u8) -> i128
    requires least { 1 ≤ bits }
    requires greatest { bits ≤ 64 }
    ensures { result ≡ clip_value bits value }
{
    let half = power(bits - 1);
    if value < -half {
        -half
    } else if half <= value {
        half - 1
    } else {
        value
    }
}

/// The laws of rounding to the nearest number, halves to the even one.
pub fn law_of_half_even()
    ensures floor { FloorLaw }
    ensures rises { HalfEvenRisesLaw }
    ensures near { NearLaw }
    ensures tie { TieLaw }
    ensures peak { HalfEvenPeakLaw }
    ensures zero { HalfEvenZeroLaw }
{}

/// The laws of clipping to a number of bits.
pub fn law_of_clip()
    ensures cases { ClipLaw }
    ensures fits { ClipFitsLaw }
    ensures rises { ClipRisesLaw }
    ensures small { ClipSmallLaw }
    ensures zero { ClipZeroLaw }
{}

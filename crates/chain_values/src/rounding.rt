//! Rounded values, and clipped ones.

ghost use Rattle.std.specs.Prelude.{◌≡◌, ◌++◌, ◌≤◌, ◌^◌, pos, neg_ℤ, ◌+ℤ◌, ◌≤ℤ◌, ◌<ℤ◌, map, OnOk};
ghost use Rattle.mr_values.specs.Width.{floor_quotient};
ghost use Rattle.mr_values.specs.Rounding.{half_even, clip_value};
ghost use Rattle.mr_values.specs.Value.{round_value};

use mr_values::{Mode, clipped, floor_shift, power, rounded_to_even};
use std::alloc::AllocError;

/// Rounds each value.
#[derive(Drop)]
pub struct Rounding {
    shift: u8,
    mode: Mode,
    ghost some: { 1 ≤ shift },
    ghost few: { shift ≤ 64 },
}

impl Rounding {
    pub fn new(shift: u8, mode: Mode) -> Rounding
        requires some { 1 ≤ shift }
        requires few { shift ≤ 64 }
        ensures shift { result.shift ≡ shift }
        ensures mode { result.mode ≡ mode }
    {
        Rounding { shift, mode }
    }

    /// Gives each value rounded.
    pub fn push_all(&self, values: &[i64], out: &mut Vec<i64>) -> Result<(), AllocError>
        ensures { OnOk result (out.new.items ≡ out.old.items ++ map (round_value self.now.mode self.now.shift) values.now) }
    {
        for value in values {
            let rounded = rounded(*value, self.shift, self.mode);
            out.push(rounded)?;
        }
        Ok(())
    }
}

// The value divided by `2^shift` and rounded.
fn rounded(value: i64, shift: u8, mode: Mode) -> i64
    requires some { 1 ≤ shift }
    requires few { shift ≤ 64 }
    ensures { result ≡ round_value mode shift value }
{
    match mode {
        Mode::HalfUp => floored(raised(value, shift - 1), shift),
        Mode::HalfEven => to_even(value, shift),
        Mode::Floor => floored(i128::from(value), shift),
    }
}

// `value + 2^k`.
fn raised(value: i64, k: u8) -> i128
    requires { k ≤ 63 }
    ensures value { result ≡ value +ℤ pos (2 ^ k) }
    ensures low { neg_ℤ (pos (2 ^ 63)) ≤ℤ result }
    ensures high { result <ℤ pos (2 ^ 64) }
{
    i128::from(value) + power(k)
}

// `value / 2^shift`, rounded down.
fn floored(value: i128, shift: u8) -> i64
    requires some { 1 ≤ shift }
    requires few { shift ≤ 64 }
    requires low { neg_ℤ (pos (2 ^ 63)) ≤ℤ value }
    requires high { value <ℤ pos (2 ^ 64) }
    ensures { result ≡ floor_quotient value (2 ^ shift) }
{
    floor_shift(value, shift) as i64
}

// `value / 2^shift`, a half to the even number.
fn to_even(value: i64, shift: u8) -> i64
    requires some { 1 ≤ shift }
    requires few { shift ≤ 64 }
    ensures { result ≡ half_even shift value }
{
    rounded_to_even(i128::from(value), shift) as i64
}

/// Clips each value to a number of bits.
#[derive(Drop)]
pub struct Clipping {
    bits: u8,
    ghost some: { 1 ≤ bits },
    ghost few: { bits ≤ 64 },
}

impl Clipping {
    pub fn new(bits: u8) -> Clipping
        requires some { 1 ≤ bits }
        requires few { bits ≤ 64 }
        ensures { result.bits ≡ bits }
    {
        Clipping { bits }
    }

    /// Gives each value clipped.
    pub fn push_all(&self, values: &[i64], out: &mut Vec<i64>) -> Result<(), AllocError>
        ensures { OnOk result (out.new.items ≡ out.old.items ++ map (clip_value self.now.bits) values.now) }
    {
        for value in values {
            let nearest = nearest(*value, self.bits);
            out.push(nearest)?;
        }
        Ok(())
    }
}

// The nearest number of so many bits.
fn nearest(value: i64, bits: u8) -> i64
    requires some { 1 ≤ bits }
    requires few { bits ≤ 64 }
    ensures { result ≡ clip_value bits value }
{
    clipped(i128::from(value), bits) as i64
}

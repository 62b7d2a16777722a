// Operations on the bits of a value, as natural numbers below a power of two.

ghost use Rattle.std.specs.Prelude.{◌≡◌, ◌+◌, ◌-◌, ◌*◌, ◌/◌, ◌%◌, ◌^◌, ◌<◌, ◌≤◌, true};
ghost use Rattle.verilog_tree.specs.Meaning.{bit_of, extension, is_comparison, order_place, operation, shifted};

use crate::tree::{Op, ShiftOp};

/// All of so many bits.
pub(crate) fn all_ones(length: u32) -> u128
    requires { length ≤ 128 }
    ensures { result + 1 ≡ 2 ^ length }
{
    if length == 128 {
        u128::MAX
    } else {
        (1 << length) - 1
    }
}

/// The lowest bits.
#[tactic(auto, using(crate::proofs::Powers::powers))]
pub(crate) fn low_bits(bits: u128, length: u32) -> u128
    requires { length ≤ 128 }
    ensures value { result ≡ bits % 2 ^ length }
    ensures small { result < 2 ^ length }
{
    bits & all_ones(length)
}

/// From a length to one that is not less.
#[tactic(auto, using(crate::proofs::Powers::powers))]
pub(crate) fn extend(from: u32, length: u32, signed: bool, bits: u128) -> u128
    requires least { 1 ≤ from }
    requires order { from ≤ length }
    requires limit { length ≤ 128 }
    requires within { bits < 2 ^ from }
    ensures value { result ≡ extension from length signed bits }
    ensures small { result < 2 ^ length }
{
    if signed && all_ones(from - 1) < bits {
        bits + (all_ones(length) - all_ones(from))
    } else {
        bits
    }
}

/// The sum, modulo `2^length`.
pub(crate) fn add(a: u128, b: u128, length: u32) -> u128
    requires limit { length ≤ 128 }
    requires first { a < 2 ^ length }
    requires second { b < 2 ^ length }
    ensures value { result ≡ (a + b) % 2 ^ length }
    ensures small { result < 2 ^ length }
{
    let room = all_ones(length) - b;
    if a <= room { a + b } else { a - room - 1 }
}

/// The difference, modulo `2^length`.
pub(crate) fn subtract(a: u128, b: u128, length: u32) -> u128
    requires limit { length ≤ 128 }
    requires first { a < 2 ^ length }
    requires second { b < 2 ^ length }
    ensures value { result ≡ (a + (2 ^ length - b)) % 2 ^ length }
    ensures small { result < 2 ^ length }
{
    if b <= a {
        a - b
    } else {
        a + (all_ones(length) - b) + 1
    }
}

/// `2^exponent`.
fn power(exponent: u32) -> u128
    requires { exponent < 128 }
    ensures { result ≡ 2 ^ exponent }
{
    1 << exponent
}

// 1 or 0.
pub(crate) fn flag(holds: bool) -> u128
    ensures value { result ≡ bit_of holds }
    ensures small { result < 2 }
{
    u128::from(holds)
}

// Where the bits stand in the order of the numbers, from 0.
#[tactic(auto, using(crate::proofs::Powers::powers))]
fn place(signed: bool, length: u32, bits: u128) -> u128
    requires least { 1 ≤ length }
    requires limit { length ≤ 128 }
    requires within { bits < 2 ^ length }
    ensures { result ≡ order_place signed length bits }
{
    if signed {
        add(bits, power(length - 1), length)
    } else {
        bits
    }
}

/// An operator on bits of one length.
#[tactic(auto, using(crate::proofs::Powers::operators))]
pub(crate) fn operate(op: Op, signed: bool, length: u32, a: u128, b: u128) -> u128
    requires least { 1 ≤ length }
    requires limit { length ≤ 128 }
    requires first { a < 2 ^ length }
    requires second { b < 2 ^ length }
    ensures value { result ≡ operation op signed length a b }
    ensures small { result < 2 ^ length }
    ensures bit { is_comparison op ≡ true → result < 2 }
{
    match op {
        Op::Add => add(a, b, length),
        Op::Sub => subtract(a, b, length),
        Op::And => a & b,
        Op::Xor => a ^ b,
        Op::Or => a | b,
        Op::Less => flag(place(signed, length, a) < place(signed, length, b)),
        Op::LessEqual => flag(place(signed, length, a) <= place(signed, length, b)),
        Op::Greater => flag(place(signed, length, b) < place(signed, length, a)),
        Op::GreaterEqual => flag(place(signed, length, b) <= place(signed, length, a)),
        Op::Equal => flag(a == b),
        Op::NotEqual => flag(a != b),
    }
}

/// A shift of bits of one length.
#[tactic(auto, using(crate::proofs::Powers::shifts))]
pub(crate) fn shift(op: ShiftOp, signed: bool, length: u32, amount: u8, a: u128) -> u128
    requires least { 1 ≤ length }
    requires limit { length ≤ 128 }
    requires amount { amount ≤ 127 }
    requires within { a < 2 ^ length }
    ensures value { result ≡ shifted op signed length amount a }
    ensures small { result < 2 ^ length }
{
    let amount = u32::from(amount);
    match op {
        ShiftOp::Left | ShiftOp::ArithLeft => low_bits(a << amount, length),
        ShiftOp::Right => a >> amount,
        ShiftOp::ArithRight => {
            if signed && all_ones(length - 1) < a {
                let filled = all_ones(length) - all_ones(length.saturating_sub(amount));
                (a >> amount) + filled
            } else {
                a >> amount
            }
        }
    }
}

/// Further bits below.
pub(crate) fn append(bits: u128, width: u32, more: u128) -> u128
    requires fits { bits * 2 ^ width + more < 2 ^ 128 }
    requires within { more < 2 ^ width }
    ensures { result ≡ bits * 2 ^ width + more }
{
    if width < 128 {
        bits * power(width) + more
    } else {
        more
    }
}

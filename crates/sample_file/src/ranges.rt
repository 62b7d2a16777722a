// Rows as samples and as cycles of a stimulus.
ghost use Rattle.std.specs.Prelude.{◌≡◌, ◌≤◌, ◌<◌, ◌^◌, ◌-◌, unsigned_abs, pos, true, IfOk, IfSome};
ghost use Rattle.mr_values.specs.Width.{pattern};
ghost use Rattle.sample_file.specs.Fields.{is_held};
ghost use Rattle.sample_file.specs.Ranges.{sample_of, stimulus_of, flag_of, pattern_of, is_unsigned};

use crate::fault::LineFault;
use crate::row::Row;
use mr_values::fits;

/// The inputs of one cycle. `in_data` is the pattern at its port.
#[derive(Clone, Copy, Debug, PartialEq, Eq)]
pub struct Stimulus {
    pub rst: bool,
    pub ce: bool,
    pub in_data: u128,
}

// Whether so many bits of two's complement hold a number.
fn is_held(width: u8, number: i128) -> bool
    requires least { 1 ≤ width }
    requires most { width ≤ 128 }
    ensures { result ≡ is_held width number }
{
    fits(number, width)
}

// `2^width`.
fn span(width: u8) -> u128
    requires { width ≤ 127 }
    ensures { result ≡ 2 ^ width }
{
    1 << width
}

fn is_unsigned(width: u8, number: i128) -> bool
    requires { width ≤ 127 }
    ensures { result ≡ is_unsigned width number }
{
    number >= 0 && number.unsigned_abs() < span(width)
}

/// A number modulo `2^width`, which is greater than its magnitude: the pattern of that many bits, at most 127.
pub fn pattern(width: u8, number: i128) -> u128
    requires most { width ≤ 127 }
    requires small { unsigned_abs number < 2 ^ width }
    ensures value { result ≡ pattern width number }
    ensures small { result < 2 ^ width }
{
    if number < 0 {
        span(width) - number.unsigned_abs()
    } else {
        number.unsigned_abs()
    }
}

/// The sample of a row. It fails with the row's line where `width` bits of two's complement, of which there are 1 to 64, don't hold it.
pub fn sample_of(row: &Row, width: u8) -> Result<i64, LineFault>
    requires least { 1 ≤ width }
    requires most { width ≤ 64 }
    ensures { result ≡ sample_of width row.now }
{
    let number = row.values[0];
    if is_held(width, number) {
        Ok(number as i64)
    } else {
        Err(LineFault::OutOfRange { line: row.line })
    }
}

// 0 or 1.
fn flag_of(number: i128) -> Option<bool>
    ensures { result ≡ flag_of number }
{
    match number {
        0 => Some(false),
        1 => Some(true),
        _ => None,
    }
}

fn pattern_of(width: u8, signed: bool, number: i128) -> Option<u128>
    requires least { 1 ≤ width }
    requires most { width ≤ 127 }
    ensures value { result ≡ pattern_of width signed number }
    ensures small { IfSome result (λ bits. bits < 2 ^ width) }
{
    let fits = if signed {
        is_held(width, number)
    } else {
        is_unsigned(width, number)
    };
    if fits {
        Some(pattern(width, number))
    } else {
        None
    }
}

/// The inputs that a row gives: `rst` and `ce`, each 0 or 1, and `in_data`, for a port of `width` bits, of which there are 1 to 127.
/// It fails with the row's line where one of them is out of its range.
pub fn stimulus_of(row: &Row, width: u8, signed: bool) -> Result<Stimulus, LineFault>
    requires least { 1 ≤ width }
    requires most { width ≤ 127 }
    ensures value { result ≡ stimulus_of width signed row.now }
    ensures small { IfOk result (λ stimulus. stimulus.in_data < 2 ^ width) }
{
    let [rst, ce, in_data] = row.values;
    match (
        flag_of(rst),
        flag_of(ce),
        pattern_of(width, signed, in_data),
    ) {
        (Some(rst), Some(ce), Some(in_data)) => Ok(Stimulus { rst, ce, in_data }),
        _ => Err(LineFault::OutOfRange { line: row.line }),
    }
}

// The ends of the numbers of so many bits, and the bits of a range.

ghost use Rattle.std.specs.Prelude.{◌≡◌, ◌-◌, ◌^◌, ◌≤◌, pos};
ghost use Rattle.mr_values.specs.Width.{IsLeastWidth};
ghost use Rattle.rounding_stage.specs.Bits.{least_of};

use mr_values::{least_width, power};
use stage_law::Range;

pub(crate) fn least_number(bits: u8) -> i128
    requires some { 1 ≤ bits }
    requires most { bits ≤ 64 }
    ensures { result ≡ least_of bits }
{
    -power(bits - 1)
}

pub(crate) fn greatest_number(bits: u8) -> i128
    requires some { 1 ≤ bits }
    requires most { bits ≤ 64 }
    ensures { result ≡ pos (2 ^ (bits - 1) - 1) }
{
    power(bits - 1) - 1
}

// The least number of bits that holds the range.
pub(crate) fn width_of(range: Range) -> u8
    ensures { IsLeastWidth range.lo range.hi result }
{
    least_width(range.lo, range.hi)
}

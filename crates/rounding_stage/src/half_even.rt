// Rounding to the nearest multiple of a power of two, a half to the even one.

ghost use Rattle.std.specs.Prelude.{◌≡◌, ◌<◌, ◌≤◌, ◌^◌, pos, ◌≤ℤ◌, length, IfOk};
ghost use Rattle.mr_values.specs.Rounding.{half_even};
ghost use Rattle.mr_values.specs.Width.{FitsWidth, IsLeastWidth};
ghost use Rattle.net_graph.specs.Cells.{cell_at};
ghost use Rattle.net_graph.specs.Grow.{Extends};
ghost use Rattle.rounding_stage.specs.Bits.{raising_bit};
ghost use Rattle.rounding_stage.specs.Made.{Makes};
ghost use Rattle.rounding_stage.specs.Map.{IsMap};

use crate::ends::{least_number, width_of};
use mr_values::{Memory, least_width, rounded_to_even};
use net_graph::{Net, Node};
use stage_law::Range;

/// A node over `2^shift`, a half to the even number, where the node lies in the range: as wide as the rounded range needs. One difference is added.
pub(crate) fn even_node(net: &mut Net, node: Node, shift: u8, range: Range) -> Result<Node, Memory>
    requires within { node.place < length net.old.cells }
    requires data_group { 1 ≤ net.old.group }
    requires low { 1 ≤ shift }
    requires high { shift ≤ 64 }
    requires range_low { range.lo ≤ℤ pos (2 ^ 125) }
    requires range_high { range.hi ≤ℤ pos (2 ^ 125) }
    ensures ok { IfOk result (λ to. IsMap net.old net.new node range (half_even shift) 1 to) }
    ensures extends { Extends net.old.cells net.new.cells }
    ensures group { net.new.group ≡ net.old.group }
{
    let wide = wide_for(range, shift);
    let width = rounded_width(range, shift);
    let value = net.shl(node, 0, wide)?;
    let quotient = net.shr(value, shift, wide)?;
    let up = raising(net, value, shift)?;
    let to = net.sub(quotient, up, width)?;
    Ok(to)
}

// A width that holds the range, and has the bit above those that are rounded away.
fn wide_for(range: Range, shift: u8) -> u8
    requires { shift ≤ 64 }
    ensures low { FitsWidth result range.lo }
    ensures high { FitsWidth result range.hi }
    ensures deep { shift < result }
    ensures most { result ≤ 128 }
{
    let least = width_of(range);
    if least <= shift { shift + 1 } else { least }
}

// How wide the rounded range is.
fn rounded_width(range: Range, shift: u8) -> u8
    requires low { 1 ≤ shift }
    requires high { shift ≤ 64 }
    requires range_low { range.lo ≤ℤ pos (2 ^ 125) }
    requires range_high { range.hi ≤ℤ pos (2 ^ 125) }
    ensures { IsLeastWidth (half_even shift range.lo) (half_even shift range.hi) result }
{
    least_width(
        rounded_to_even(range.lo, shift),
        rounded_to_even(range.hi, shift),
    )
}

// The bit by which the quotient of a node is raised: at a tie its lowest bit, else the highest of the bits that are rounded away.
fn raising(net: &mut Net, value: Node, shift: u8) -> Result<Node, Memory>
    requires within { value.place < length net.old.cells }
    requires low { 1 ≤ shift }
    requires high { shift ≤ 64 }
    requires wide { shift < (cell_at net.old.cells value.place).width }
    ensures ok { IfOk result (λ to. Makes net.old net.new value to (raising_bit shift)) }
    ensures extends { Extends net.old.cells net.new.cells }
    ensures group { net.new.group ≡ net.old.group }
{
    let low = net.bits(value, shift - 1, 0)?;
    let half = net.constant(least_number(shift), shift)?;
    let tie = net.equal(low, half)?;
    let odd = net.bits(value, shift, shift)?;
    let above = net.bits(value, shift - 1, shift - 1)?;
    let up = net.mux(tie, odd, above, 1)?;
    Ok(up)
}

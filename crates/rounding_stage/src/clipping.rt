// Clipping to a number of bits, as a stage of a chain.

ghost use Rattle.std.specs.Prelude.{◌≡◌, ◌<◌, ◌≤◌, ◌^◌, length, IfOk};
ghost use Rattle.mr_values.specs.Rounding.{clip_value};
ghost use Rattle.mr_values.specs.Width.{IsLeastWidth};
ghost use Rattle.net_graph.specs.Grow.{Extends};
ghost use Rattle.net_graph.specs.WellFormed.{IsWidth};
ghost use Rattle.rounding_stage.specs.Bits.{fits_bit, end_of};
ghost use Rattle.rounding_stage.specs.Clipping.{clipping_facts, clipping_takes};
ghost use Rattle.rounding_stage.specs.Made.{Makes};
ghost use Rattle.rounding_stage.specs.Map.{IsMap};

use crate::ends::{greatest_number, least_number, width_of};
use crate::register::held;
use mr_values::{Memory, clipped, least_width};
use net_graph::{Net, Node, Stream};
use stage_law::{Class, Cost, Emitted, Kind, Range, Ranges, Rates, Stage, WeightedSum};
use std::alloc::Global;

/// Clips to the nearest number of so many bits.
#[derive(Clone, Copy, Debug, PartialEq, Eq)]
pub struct Clipping {
    pub bits: u8,
    ghost some: { 1 ≤ bits },
    ghost most: { bits ≤ 64 },
}

impl Clipping {
    pub fn new(bits: u8) -> Clipping
        requires some { 1 ≤ bits }
        requires most { bits ≤ 64 }
        ensures { result.bits ≡ bits }
    {
        Clipping { bits }
    }
}

// The least width of the range after it is clipped.
fn clipped_width(range: Range, bits: u8) -> u8
    requires some { 1 ≤ bits }
    requires most { bits ≤ 64 }
    ensures { IsLeastWidth (clip_value bits range.lo) (clip_value bits range.hi) result }
{
    least_width(clipped(range.lo, bits), clipped(range.hi, bits))
}

// A node that is clipped, where it lies in the range: as wide as the clipped range needs.
fn clip_node(net: &mut Net, node: Node, bits: u8, range: Range) -> Result<Node, Memory>
    requires within { node.place < length net.old.cells }
    requires data_group { 1 ≤ net.old.group }
    requires some { 1 ≤ bits }
    requires most { bits ≤ 64 }
    ensures ok { IfOk result (λ to. IsMap net.old net.new node range (clip_value bits) 0 to) }
    ensures extends { Extends net.old.cells net.new.cells }
    ensures group { net.new.group ≡ net.old.group }
{
    let wide = width_of(range);
    let width = clipped_width(range, bits);
    let value = net.shl(node, 0, wide)?;
    let fits = fitting(net, value, bits, wide)?;
    let end = end_node(net, value, bits, wide)?;
    let to = net.mux(fits, value, end, width)?;
    Ok(to)
}

// Whether a node of this width fits so many bits: whether its bits from the highest of them on are all 0 or all set.
fn fitting(net: &mut Net, value: Node, bits: u8, wide: u8) -> Result<Node, Memory>
    requires within { value.place < length net.old.cells }
    requires some { 1 ≤ bits }
    requires most { bits ≤ 64 }
    requires wide { IsWidth wide }
    ensures ok { IfOk result (λ to. Makes net.old net.new value to (fits_bit bits wide)) }
    ensures extends { Extends net.old.cells net.new.cells }
    ensures group { net.new.group ≡ net.old.group }
{
    let top = net.shr(value, bits - 1, wide)?;
    let zero = net.constant(0, 1)?;
    let zeros = net.equal(top, zero)?;
    let ones = net.constant(-1, 1)?;
    let all = net.equal(top, ones)?;
    let to = net.mux(zeros, zeros, all, 1)?;
    Ok(to)
}

// The least number of so many bits where a node of this width is negative, else the greatest.
fn end_node(net: &mut Net, value: Node, bits: u8, wide: u8) -> Result<Node, Memory>
    requires within { value.place < length net.old.cells }
    requires some { 1 ≤ bits }
    requires most { bits ≤ 64 }
    requires wide { IsWidth wide }
    ensures ok { IfOk result (λ to. Makes net.old net.new value to (end_of bits wide)) }
    ensures extends { Extends net.old.cells net.new.cells }
    ensures group { net.new.group ≡ net.old.group }
{
    let sign = net.shr(value, wide - 1, 1)?;
    let least = net.constant(least_number(bits), bits)?;
    let greatest = net.constant(greatest_number(bits), bits)?;
    let to = net.mux(sign, least, greatest, bits)?;
    Ok(to)
}

impl Stage for Clipping {
    ghost facts = { λ s. clipping_facts s.bits };

    ghost takes = { λ s period. clipping_takes period };

    ghost admits = { λ s streams. Unit {0} };

    fn kind(&self) -> Kind {
        Kind::Clipping
    }

    fn rates(&self) -> Rates {
        Rates { up: 1, down: 1 }
    }

    fn delay(&self, _period: u64) -> u64 {
        1
    }

    fn cost(&self) -> Cost {
        Cost {
            adders: 0,
            windows: 0,
            tables: 0,
        }
    }

    fn emit<R: Ranges>(
        &self,
        alloc: Global,
        net: &mut Net,
        from: Stream,
        ranges: &R,
    ) -> Result<Emitted, Memory> {
        let every = Class {
            modulus: 1,
            residue: 0,
        };
        let value = WeightedSum::value(alloc, 0)?;
        let range = ranges.range(&value, every);
        let node = clip_node(net, from.node, self.bits, range)?;
        let clipped = Stream {
            node,
            period: from.period,
            offset: from.offset,
        };
        let register = held(alloc, net, clipped)?;
        Ok(Emitted {
            stream: Stream {
                node: register,
                period: from.period,
                offset: from.offset + 1,
            },
            peaks: Vec::new(alloc),
        })
    }
}

// Rounding to a multiple of a power of two.

ghost use Rattle.std.specs.Prelude.{◌≡◌, ℕ, ◌+◌, ◌-◌, ◌<◌, ◌≤◌, ◌^◌, ℤ, pos, neg_ℤ, ◌≤ℤ◌, ◌+ℤ◌, length, IfOk};
ghost use Rattle.mr_values.specs.Value.{round_value};
ghost use Rattle.mr_values.specs.Width.{floor_quotient};
ghost use Rattle.net_graph.specs.Grow.{Extends};
ghost use Rattle.rounding_stage.specs.Map.{IsMap};
ghost use Rattle.rounding_stage.specs.Rounding.{rounding_facts, rounding_adders, rounding_takes};

use crate::ends::width_of;
use crate::half_even::even_node;
use crate::register::held;
use mr_values::{Memory, Mode, floor_shift, least_width, power};
use net_graph::{Net, Node, Stream};
use stage_law::{Class, Cost, Emitted, Kind, Range, Ranges, Rates, Stage, WeightedSum};
use std::alloc::Global;

/// Divides by `2^shift` and rounds.
#[derive(Clone, Copy, Debug, PartialEq, Eq)]
pub struct Rounding {
    pub shift: u8,
    pub mode: Mode,
    ghost some: { 1 ≤ shift },
    ghost most: { shift ≤ 64 },
}

impl Rounding {
    pub fn new(shift: u8, mode: Mode) -> Rounding
        requires some { 1 ≤ shift }
        requires most { shift ≤ 64 }
        ensures shift { result.shift ≡ shift }
        ensures mode { result.mode ≡ mode }
    {
        Rounding { shift, mode }
    }
}

// The range over `2^shift`, rounded down.
fn floor_range(range: Range, shift: u8) -> Range
    requires { shift ≤ 64 }
    ensures lo { result.lo ≡ floor_quotient range.lo (2 ^ shift) }
    ensures hi { result.hi ≡ floor_quotient range.hi (2 ^ shift) }
{
    Range {
        lo: floor_shift(range.lo, shift),
        hi: floor_shift(range.hi, shift),
    }
}

// The range plus `half`.
fn raised(range: Range, half: i128) -> Range
    requires low { neg_ℤ (pos (2 ^ 125)) ≤ℤ range.lo }
    requires high { range.hi ≤ℤ pos (2 ^ 125) }
    requires ordered { range.lo ≤ℤ range.hi }
    requires positive { pos 0 ≤ℤ half }
    requires small { half ≤ℤ pos (2 ^ 64) }
    ensures { result ≡ record { lo = range.lo +ℤ half; hi = range.hi +ℤ half } }
{
    Range {
        lo: range.lo + half,
        hi: range.hi + half,
    }
}

// A node over `2^shift`, rounded down, where the node lies in the range: as wide as the rounded range needs.
fn floor_node(net: &mut Net, node: Node, shift: u8, range: Range) -> Result<Node, Memory>
    requires within { node.place < length net.old.cells }
    requires data_group { 1 ≤ net.old.group }
    requires shift { shift ≤ 64 }
    ensures ok { IfOk result (λ to. IsMap net.old net.new node range (λ v. floor_quotient v (2 ^ shift)) 0 to) }
    ensures extends { Extends net.old.cells net.new.cells }
    ensures group { net.new.group ≡ net.old.group }
{
    let rounded = floor_range(range, shift);
    let width = width_of(rounded);
    let to = net.shr(node, shift, width)?;
    Ok(to)
}

// A node plus `half`, where the node lies in the range; `more` is the range plus `half`.
fn sum_node(
    net: &mut Net,
    node: Node,
    half: i128,
    range: Range,
    more: Range,
) -> Result<Node, Memory>
    requires within { node.place < length net.old.cells }
    requires data_group { 1 ≤ net.old.group }
    requires more { more ≡ record { lo = range.lo +ℤ half; hi = range.hi +ℤ half } }
    ensures ok { IfOk result (λ to. IsMap net.old net.new node range (λ v. v +ℤ half) 1 to) }
    ensures extends { Extends net.old.cells net.new.cells }
    ensures group { net.new.group ≡ net.old.group }
{
    let narrow = least_width(half, half);
    let constant = net.constant(half, narrow)?;
    let width = width_of(more);
    let to = net.add(node, constant, width)?;
    Ok(to)
}

// A node, rounded, where it lies in the range.
fn rounded(net: &mut Net, node: Node, mode: Mode, shift: u8, range: Range) -> Result<Node, Memory>
    requires within { node.place < length net.old.cells }
    requires data_group { 1 ≤ net.old.group }
    requires low { 1 ≤ shift }
    requires high { shift ≤ 64 }
    requires range_low { neg_ℤ (pos (2 ^ 125)) ≤ℤ range.lo }
    requires range_high { range.hi ≤ℤ pos (2 ^ 125) }
    requires ordered { range.lo ≤ℤ range.hi }
    ensures ok { IfOk result (λ to. IsMap net.old net.new node range (round_value mode shift) (rounding_adders mode) to) }
    ensures extends { Extends net.old.cells net.new.cells }
    ensures group { net.new.group ≡ net.old.group }
{
    match mode {
        Mode::HalfEven => {
            let to = even_node(net, node, shift, range)?;
            Ok(to)
        }
        Mode::Floor => {
            let to = floor_node(net, node, shift, range)?;
            Ok(to)
        }
        Mode::HalfUp => {
            let half = power(shift - 1);
            let more = raised(range, half);
            let sum = sum_node(net, node, half, range, more)?;
            let to = floor_node(net, sum, shift, more)?;
            Ok(to)
        }
    }
}

impl Stage for Rounding {
    ghost facts = { λ s. rounding_facts s.shift s.mode };

    ghost takes = { λ s period. rounding_takes period };

    ghost admits = { λ s streams. Unit {0} };

    fn kind(&self) -> Kind {
        Kind::Rounding
    }

    fn rates(&self) -> Rates {
        Rates { up: 1, down: 1 }
    }

    fn delay(&self, _period: u64) -> u64 {
        1
    }

    fn cost(&self) -> Cost {
        let adders = match self.mode {
            Mode::Floor => 0,
            Mode::HalfUp => 1,
            Mode::HalfEven => 1,
        };
        Cost {
            adders,
            windows: 0,
            tables: 0,
        }
    }

    fn emit<R: Ranges>(
        &self,
        alloc: Global,
        net: &mut Net,
        from: Stream,
        ranges: &R,
    ) -> Result<Emitted, Memory> {
        let every = Class {
            modulus: 1,
            residue: 0,
        };
        let value = WeightedSum::value(alloc, 0)?;
        let range = ranges.range(&value, every);
        let node = rounded(net, from.node, self.mode, self.shift, range)?;
        let sum = Stream {
            node,
            period: from.period,
            offset: from.offset,
        };
        let register = held(alloc, net, sum)?;
        Ok(Emitted {
            stream: Stream {
                node: register,
                period: from.period,
                offset: from.offset + 1,
            },
            peaks: Vec::new(alloc),
        })
    }
}

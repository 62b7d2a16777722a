// Cascades as stages of a chain.

ghost use Rattle.std.specs.Prelude.{◌≡◌, ℕ, ◌<◌, ◌≤◌, ◌^◌, length, IfOk};
ghost use Rattle.mr_values.specs.Width.{IsLeastWidth};
ghost use Rattle.net_graph.specs.Grow.{Extends};
ghost use Rattle.stage_law.specs.Realises.{IsUnused};
ghost use Rattle.stage_law.specs.Streams.{HasRoom};
ghost use Rattle.cic_chain.specs.Facts.{cic_down_facts, cic_up_facts, TakesDown, TakesUp};
ghost use Rattle.cic_chain.specs.Registers.{IsCascadeOf};

use crate::decimator::decimate;
use crate::interpolator::interpolate;
use crate::phases::phase_range;
use mr_values::{Memory, least_width};
use net_graph::{Net, Stream};
use running_sums::cic_weights;
use stage_law::{Class, Cost, Emitted, Kind, Range, Ranges, Rates, Stage, WeightedSum};
use std::alloc::Global;

/// A decimator by `factor` of N integrators and N combs, each comb over D values.
#[derive(Clone, Copy, Debug, PartialEq, Eq)]
pub struct CicDown<const N: usize, const D: usize> {
    pub factor: u32,
    ghost factor_low: { 1 ≤ factor },
    ghost factor_high: { factor ≤ 4096 },
    ghost some: { 1 ≤ N },
    ghost few: { N ≤ 8 },
    ghost late: { 1 ≤ D },
    ghost close: { D ≤ 2 },
}

impl<const N: usize, const D: usize> CicDown<N, D> {
    /// The decimator by this factor.
    pub fn new(factor: u32) -> Self
        requires factor_low { 1 ≤ factor }
        requires factor_high { factor ≤ 4096 }
        requires some { 1 ≤ N }
        requires few { N ≤ 8 }
        requires late { 1 ≤ D }
        requires close { D ≤ 2 }
        ensures { result.factor ≡ factor }
    {
        CicDown { factor }
    }

    /// Adds the stage's nodes, which read the stream, in the net's group: N integrators, N combs and D registers more for each comb, all of
    /// the least width for what the stage gives. After want of memory there may be more nodes.
    pub fn cascade<R: Ranges>(
        &self,
        alloc: Global,
        net: &mut Net,
        from: Stream,
        ranges: &R,
    ) -> Result<Stream, Memory>
        requires within { from.node.place < length net.old.cells }
        requires group { 1 ≤ net.old.group }
        requires unused { IsUnused net.old.cells net.old.group }
        requires early { from.offset < 2 ^ 31 }
        requires takes { TakesDown from.period }
        requires room { HasRoom (R.streams ranges.now) (cic_down_facts self.now.factor N D).gain }
        ensures stream { IfOk result (IsCascadeOf (cic_down_facts self.now.factor N D) (R.streams ranges.now) net.old net.new from) }
        ensures extends { Extends net.old.cells net.new.cells }
        ensures same_group { net.new.group ≡ net.old.group }
    {
        let weights = cic_weights(alloc, N, self.factor as usize * D)?;
        let sum = WeightedSum::of(alloc, 0, weights.as_slice())?;
        let kept = Class {
            modulus: self.factor,
            residue: 0,
        };
        let range = ranges.range(&sum, kept);
        let width = width_of(range);
        let stream = decimate::<N, D>(alloc, net, from, self.factor, width)?;
        Ok(stream)
    }
}

// The least number of bits that holds the range.
fn width_of(range: Range) -> u8
    ensures { IsLeastWidth range.lo range.hi result }
{
    least_width(range.lo, range.hi)
}

impl<const N: usize, const D: usize> Stage for CicDown<N, D> {
    ghost facts = { λ s. cic_down_facts s.factor N D };

    ghost takes = { λ s period. TakesDown period };

    ghost admits = { λ s streams. Unit {0} };

    fn kind(&self) -> Kind {
        Kind::CicDown
    }

    fn rates(&self) -> Rates {
        Rates {
            up: 1,
            down: self.factor,
        }
    }

    fn delay(&self, period: u64) -> u64 {
        (N as u64 - 1) * period + 1 + N as u64
    }

    fn cost(&self) -> Cost {
        Cost {
            adders: 2 * N as u64,
            windows: 0,
            tables: 0,
        }
    }

    fn emit<R: Ranges>(
        &self,
        alloc: Global,
        net: &mut Net,
        from: Stream,
        ranges: &R,
    ) -> Result<Emitted, Memory> {
        let stream = self.cascade(alloc, net, from, ranges)?;
        Ok(Emitted {
            stream,
            peaks: Vec::new(alloc),
        })
    }
}

/// An interpolator by `factor` of N combs and N integrators, each comb over D values.
#[derive(Clone, Copy, Debug, PartialEq, Eq)]
pub struct CicUp<const N: usize, const D: usize> {
    pub factor: u32,
    ghost factor_low: { 1 ≤ factor },
    ghost factor_high: { factor ≤ 4096 },
    ghost some: { 1 ≤ N },
    ghost few: { N ≤ 8 },
    ghost late: { 1 ≤ D },
    ghost close: { D ≤ 2 },
}

impl<const N: usize, const D: usize> CicUp<N, D> {
    /// The interpolator by this factor.
    pub fn new(factor: u32) -> Self
        requires factor_low { 1 ≤ factor }
        requires factor_high { factor ≤ 4096 }
        requires some { 1 ≤ N }
        requires few { N ≤ 8 }
        requires late { 1 ≤ D }
        requires close { D ≤ 2 }
        ensures { result.factor ≡ factor }
    {
        CicUp { factor }
    }

    /// Adds the stage's nodes, which read the stream, in the net's group: N integrators, N combs and D registers more for each comb, all of
    /// the least width for what the stage gives. After want of memory there may be more nodes.
    pub fn cascade<R: Ranges>(
        &self,
        alloc: Global,
        net: &mut Net,
        from: Stream,
        ranges: &R,
    ) -> Result<Stream, Memory>
        requires within { from.node.place < length net.old.cells }
        requires group { 1 ≤ net.old.group }
        requires unused { IsUnused net.old.cells net.old.group }
        requires early { from.offset < 2 ^ 31 }
        requires takes { TakesUp self.now.factor from.period }
        requires room { HasRoom (R.streams ranges.now) (cic_up_facts self.now.factor N D).gain }
        ensures stream { IfOk result (IsCascadeOf (cic_up_facts self.now.factor N D) (R.streams ranges.now) net.old net.new from) }
        ensures extends { Extends net.old.cells net.new.cells }
        ensures same_group { net.new.group ≡ net.old.group }
    {
        let weights = cic_weights(alloc, N, self.factor as usize * D)?;
        let range = phase_range(alloc, weights.as_slice(), self.factor, ranges)?;
        let width = width_of(range);
        let stream = interpolate::<N, D>(alloc, net, from, self.factor, width)?;
        Ok(stream)
    }
}

impl<const N: usize, const D: usize> Stage for CicUp<N, D> {
    ghost facts = { λ s. cic_up_facts s.factor N D };

    ghost takes = { λ s period. TakesUp s.factor period };

    ghost admits = { λ s streams. Unit {0} };

    fn kind(&self) -> Kind {
        Kind::CicUp
    }

    fn rates(&self) -> Rates {
        Rates {
            up: self.factor,
            down: 1,
        }
    }

    fn delay(&self, period: u64) -> u64 {
        let fast = period / u64::from(self.factor);
        N as u64 + (N as u64 - 1) * fast + 1
    }

    fn cost(&self) -> Cost {
        Cost {
            adders: 2 * N as u64,
            windows: 0,
            tables: 0,
        }
    }

    fn emit<R: Ranges>(
        &self,
        alloc: Global,
        net: &mut Net,
        from: Stream,
        ranges: &R,
    ) -> Result<Emitted, Memory> {
        let stream = self.cascade(alloc, net, from, ranges)?;
        Ok(Emitted {
            stream,
            peaks: Vec::new(alloc),
        })
    }
}

// The law of a stage.

ghost use Rattle.std.specs.Prelude.{◌≡◌, ℕ, ◌<◌, ◌≤◌, ◌^◌, length, IfOk};
ghost use Rattle.net_graph.specs.Grow.{Extends};
ghost use Rattle.net_graph.specs.declared.cell.Stream.{Stream};
ghost use Rattle.stage_law.specs.Facts.{StageFacts};
ghost use Rattle.stage_law.specs.Streams.{Streams, HasRoom};
ghost use Rattle.stage_law.specs.Realises.{Realises, IsUnused};

use crate::ranges::{Class, Ranges};
use crate::weights::WeightedSum;
use mr_values::Memory;
use net_graph::{Net, Node, Stream};
use std::alloc::Global;

/// The form in which a group of elements is built.
#[derive(Clone, Copy, Debug, PartialEq, Eq)]
pub enum Kind {
    Parallel,
    Symmetric,
    HalfBand,
    Folded,
    Distributed,
    CicDown,
    CicUp,
    Rounding,
    Clipping,
}

/// A stage takes `down` values for each `up` that it gives.
#[derive(Clone, Copy, Debug, PartialEq, Eq)]
pub struct Rates {
    pub up: u32,
    pub down: u32,
}

/// What a stage adds to a net: sums and differences, window registers and tables.
#[derive(Clone, Copy, Debug, PartialEq, Eq)]
pub struct Cost {
    pub adders: u64,
    pub windows: u64,
    pub tables: u64,
}

/// What needs a register's width: `lag` ticks after value k of the stream, k of the class, it holds the sum there. Where `high`,
/// the greatest of these does not fit one bit less, else the least does not.
#[derive(Drop)]
pub struct Peak {
    pub register: Node,
    pub sum: WeightedSum,
    pub class: Class,
    pub lag: u64,
    pub high: bool,
}

/// The stream that a stage gives, and the peaks of its registers.
#[derive(Drop)]
pub struct Emitted {
    pub stream: Stream,
    pub peaks: Vec<Peak>,
}

/// A part of a chain that adds nodes to a net.
pub trait Stage {
    /// What the stage is.
    ghost facts: { Self → StageFacts };

    /// Which streams the stage takes, by their period.
    ghost takes: { Self → ℕ → Type 0 };

    /// Which streams it admits, by their values.
    ghost admits: { Self → Streams → Type 0 };

    fn kind(&self) -> Kind
        ensures { result ≡ (facts self.now).kind };

    fn rates(&self) -> Rates
        ensures up { result.up ≡ (facts self.now).up }
        ensures down { result.down ≡ (facts self.now).down };

    /// The ticks from a value of the stream, whose values stand so many ticks apart, to that of the stage.
    fn delay(&self, period: u64) -> u64
        requires takes { takes self.now period }
        ensures { result ≡ (facts self.now).delay period };

    fn cost(&self) -> Cost
        ensures adders { result.adders ≡ (facts self.now).adders }
        ensures windows { result.windows ≡ (facts self.now).windows }
        ensures tables { result.tables ≡ (facts self.now).tables };

    /// Adds the stage's nodes, which read the stream, in the net's group. After want of memory there may be more nodes.
    fn emit<R: Ranges>(
        &self,
        alloc: Global,
        net: &mut Net,
        from: Stream,
        ranges: &R,
    ) -> Result<Emitted, Memory>
        requires within { from.node.place < length net.old.cells }
        requires group { 1 ≤ net.old.group }
        requires unused { IsUnused net.old.cells net.old.group }
        requires early { from.offset < 2 ^ 31 }
        requires takes { takes self.now from.period }
        requires admits { admits self.now (R.streams ranges.now) }
        requires room { HasRoom (R.streams ranges.now) (facts self.now).gain }
        ensures realises { IfOk result (λ e. Realises (facts self.now) (R.streams ranges.now) net.old net.new from e) }
        ensures extends { Extends net.old.cells net.new.cells }
        ensures group { net.new.group ≡ net.old.group };
}

// The filter as a stage.

ghost use Rattle.std.specs.Prelude.{◌≡◌, ℕ, ◌^◌, ◌<◌, ◌≤◌, length, slice_get, Some, IfOk};
ghost use Rattle.net_graph.specs.declared.cell.Node.{Node};
ghost use Rattle.net_graph.specs.Grow.{Extends};
ghost use Rattle.polyphase_fir.specs.Facts.{TakesPeriod};
ghost use Rattle.polyphase_fir.specs.Roots.{IsShown};
ghost use Rattle.polyphase_fir.specs.Stage.{facts_of};

use crate::phases::shown_root;
use crate::polyphase::Polyphase;
use crate::roots::{Trees, phase_trees};
use fir_pieces::{Shown, ages, cut_window, push_peaks, window_held};
use mr_values::Memory;
use net_graph::{Net, Node, Stream};
use stage_law::{Cost, Emitted, Kind, Ranges, Rates, Stage};
use std::alloc::Global;

impl Polyphase {
    // The stream of the phases' roots, each at its ticks.
    fn shown(
        &self,
        alloc: Global,
        net: &mut Net,
        roots: &[Node],
        from: Stream,
    ) -> Result<Stream, Memory>
        requires data_group { 1 ≤ net.old.group }
        requires within { (r : ℕ) (root : Node) → slice_get roots.now r ≡ Some root → root.place < length net.old.cells }
        requires all { length roots.now ≡ self.now.rates.up }
        requires takes { TakesPeriod self.now.rates.up self.now.rates.down from.period }
        requires early { from.offset < 2 ^ 31 }
        ensures ok { IfOk result (IsShown net.old net.new roots.now self.now.rates.up self.now.rates.down from self.now.levels) }
        ensures extends { Extends net.old.cells net.new.cells }
        ensures group { net.new.group ≡ net.old.group }
    {
        let period = from.period * u64::from(self.rates.down) / u64::from(self.rates.up);
        let offset = from.offset + 1 + u64::from(self.levels);
        let node = shown_root(alloc, net, roots, self.rates, period, offset)?;
        Ok(Stream {
            node,
            period,
            offset,
        })
    }
}

impl Stage for Polyphase {
    ghost facts = { facts_of };

    ghost takes = { λ p period. TakesPeriod p.rates.up p.rates.down period };

    ghost admits = { λ p streams. Unit {0} };

    fn kind(&self) -> Kind {
        Kind::Parallel
    }

    fn rates(&self) -> Rates {
        self.rates
    }

    fn delay(&self, _period: u64) -> u64 {
        1 + u64::from(self.levels)
    }

    fn cost(&self) -> Cost {
        Cost {
            adders: self.adders,
            windows: u64::from(self.depth),
            tables: 0,
        }
    }

    fn emit<R: Ranges>(
        &self,
        alloc: Global,
        net: &mut Net,
        from: Stream,
        ranges: &R,
    ) -> Result<Emitted, Memory> {
        let nodes = cut_window(alloc, net, from, self.depth, ranges)?;
        let readings = ages(alloc, self.depth)?;
        let window = Shown {
            nodes,
            readings,
            ticks: 0,
        };
        let values = window_held(alloc, self.depth, ranges)?;
        let Trees {
            roots,
            registers,
            held,
        } = phase_trees(alloc, net, &window, self, ranges)?;
        let stream = self.shown(alloc, net, roots.as_slice(), from)?;
        let mut peaks = Vec::new(alloc);
        push_peaks(&mut peaks, window.nodes.as_slice(), values)?;
        push_peaks(&mut peaks, registers.as_slice(), held)?;
        Ok(Emitted { stream, peaks })
    }
}

// The filter as a stage.

ghost use Rattle.std.specs.Prelude.{◌≡◌, ℕ, ◌^◌, ◌<◌, ◌≤◌, length, IfOk};
ghost use Rattle.distributed_table.specs.Facts.{HaveBits, TakesBits, distributed_facts};

use crate::distributed::Distributed;
use mr_values::Memory;
use net_graph::{Net, Stream};
use stage_law::{Cost, Emitted, Kind, Ranges, Rates, Stage};
use std::alloc::Global;

impl<const G: usize> Stage for Distributed<G> {
    ghost facts = { λ d. distributed_facts G d.taps.items d.down d.bits };

    ghost takes = { λ d period. TakesBits d.down d.bits period };

    ghost admits = { λ d streams. HaveBits streams d.bits };

    fn kind(&self) -> Kind {
        Kind::Distributed
    }

    fn rates(&self) -> Rates {
        Rates {
            up: 1,
            down: self.down,
        }
    }

    fn delay(&self, _period: u64) -> u64 {
        2 + u64::from(self.bits) + u64::from(self.levels)
    }

    fn cost(&self) -> Cost {
        let runs = self.taps.len().div_ceil(G) as u64;
        Cost {
            adders: 3 * runs - 1,
            windows: self.taps.len() as u64,
            tables: runs,
        }
    }

    fn emit<R: Ranges>(
        &self,
        alloc: Global,
        net: &mut Net,
        from: Stream,
        ranges: &R,
    ) -> Result<Emitted, Memory> {
        let root = self.root(alloc, net, from, ranges)?;
        let later = 2 + u64::from(self.bits) + u64::from(self.levels);
        let stream = Stream {
            node: root,
            period: from.period * u64::from(self.down),
            offset: from.offset + later,
        };
        let peaks = Vec::new(alloc);
        Ok(Emitted { stream, peaks })
    }
}

// The filter as a stage.

ghost use Rattle.std.specs.Prelude.{◌≡◌, ℕ, ◌^◌, ◌<◌, ◌≤◌, length, IfOk};
ghost use Rattle.symmetric_fir.specs.Facts.{mirror_facts, TakesPeriod};

use crate::mirror::Mirror;
use crate::sums::Sums;
use fir_pieces::{cut_window, push_peaks, window_held};
use mr_values::Memory;
use net_graph::{Net, Stream};
use stage_law::{Cost, Emitted, Kind, Ranges, Rates, Stage};
use std::alloc::Global;

impl<const ANTI: usize> Stage for Mirror<ANTI> {
    ghost facts = { λ m. mirror_facts ANTI m.taps.items m.down };

    ghost takes = { λ m period. TakesPeriod period };

    ghost admits = { λ m streams. Unit {0} };

    fn kind(&self) -> Kind {
        Kind::Symmetric
    }

    fn rates(&self) -> Rates {
        Rates {
            up: 1,
            down: self.down,
        }
    }

    fn delay(&self, _period: u64) -> u64 {
        2 + u64::from(self.levels)
    }

    fn cost(&self) -> Cost {
        Cost {
            adders: self.adders,
            windows: self.taps.len() as u64,
            tables: 0,
        }
    }

    fn emit<R: Ranges>(
        &self,
        alloc: Global,
        net: &mut Net,
        from: Stream,
        ranges: &R,
    ) -> Result<Emitted, Memory> {
        let depth = self.taps.len() as u32;
        let window = cut_window(alloc, net, from, depth, ranges)?;
        let values = window_held(alloc, depth, ranges)?;
        let Sums {
            root,
            pair_nodes,
            pair_held,
            registers,
            held,
        } = self.sums(alloc, net, window.as_slice(), ranges)?;
        let stream = Stream {
            node: root,
            period: from.period * u64::from(self.down),
            offset: from.offset + 2 + u64::from(self.levels),
        };
        let mut peaks = Vec::new(alloc);
        push_peaks(&mut peaks, window.as_slice(), values)?;
        push_peaks(&mut peaks, pair_nodes.as_slice(), pair_held)?;
        push_peaks(&mut peaks, registers.as_slice(), held)?;
        Ok(Emitted { stream, peaks })
    }
}

// A filter between an Up and a Down.

ghost use Rattle.std.specs.Prelude.{◌≡◌, ◌≤◌, ◌^◌, length};
ghost use Rattle.mr_values.specs.Value.{AreTaps};
ghost use Rattle.mr_values.specs.Timing.{terms, greatest};
ghost use Rattle.polyphase_fir.specs.Facts.{adders_below, depth_of, levels_of};

use crate::counts::{count_adders, greatest_terms};
use crate::numbers::ceil_div;
use fir_pieces::ceil_log;
use mr_values::Memory;
use stage_law::Rates;
use std::alloc::Global;

/// A filter between an Up and a Down, built as one window and a tree of sums for each phase.
#[derive(Drop)]
pub struct Polyphase {
    pub(crate) taps: Vec<i64>,
    pub(crate) rates: Rates,
    pub(crate) depth: u32,
    pub(crate) levels: u32,
    pub(crate) adders: u64,
    ghost limits: { AreTaps taps.items },
    ghost up_low: { 1 ≤ rates.up },
    ghost up_high: { rates.up ≤ 4096 },
    ghost down_low: { 1 ≤ rates.down },
    ghost down_high: { rates.down ≤ 4096 },
    ghost few: { greatest terms rates.up taps.items ≤ 2 ^ 18 },
    ghost is_depth: { depth ≡ depth_of taps.items rates.up },
    ghost is_levels: { levels ≡ levels_of taps.items rates.up },
    ghost is_adders: { adders ≡ adders_below rates.up taps.items rates.up },
}

impl Polyphase {
    ghost use Rattle.std.specs.Prelude.{IfOk};
    ghost use Rattle.polyphase_fir.specs.Facts.{polyphase_facts};
    ghost use Rattle.polyphase_fir.specs.Stage.{facts_of};

    /// The filter with these taps, behind an Up and before a Down of these factors.
    pub fn new(alloc: Global, taps: &[i64], rates: Rates) -> Result<Polyphase, Memory>
        requires taps { AreTaps taps.now }
        requires up_low { 1 ≤ rates.up }
        requires up_high { rates.up ≤ 4096 }
        requires down_low { 1 ≤ rates.down }
        requires down_high { rates.down ≤ 4096 }
        ensures { IfOk result (λ p. facts_of p ≡ polyphase_facts taps.now rates.up rates.down) }
    {
        let depth = ceil_div(taps.len() as u32, rates.up);
        let levels = ceil_log(greatest_terms(taps, rates.up));
        let adders = count_adders(alloc, taps, rates.up)?;
        let taps = Vec::from_slice(alloc, taps)?;
        Ok(Polyphase {
            taps,
            rates,
            depth,
            levels,
            adders,
        })
    }
}

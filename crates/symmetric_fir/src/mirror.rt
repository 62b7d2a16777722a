// A filter with mirrored taps before a Down.

ghost use Rattle.std.specs.Prelude.{◌≡◌, ◌+◌, ◌≤◌, ◌^◌, length};
ghost use Rattle.mr_values.specs.Value.{AreTaps};
ghost use Rattle.fir_pieces.specs.Placed.{term_adders};
ghost use Rattle.symmetric_fir.specs.Facts.{levels_of};
ghost use Rattle.symmetric_fir.specs.Pairs.{IsMirrored, pair_places, mirror_terms};

use crate::counts::counts_of;
use mr_values::Memory;
use std::alloc::Global;

/// A filter before a Down whose taps are the same from both ends, where ANTI is 0, or each the negation of that of the other end, where
/// ANTI is 1.
#[derive(Drop)]
pub struct Mirror<const ANTI: usize> {
    pub(crate) taps: Vec<i64>,
    pub(crate) down: u32,
    pub(crate) levels: u32,
    pub(crate) adders: u64,
    ghost limits: { AreTaps taps.items },
    ghost mirrored: { IsMirrored ANTI taps.items },
    ghost down_low: { 1 ≤ down },
    ghost down_high: { down ≤ 4096 },
    ghost is_levels: { levels ≡ levels_of taps.items },
    ghost is_adders: { adders ≡ length (pair_places taps.items) + term_adders (mirror_terms taps.items) },
    ghost few: { length (mirror_terms taps.items) ≤ 2 ^ 18 },
}

impl<const ANTI: usize> Mirror<ANTI> {
    ghost use Rattle.std.specs.Prelude.{IfOk};
    ghost use Rattle.symmetric_fir.specs.Facts.{mirror_facts};

    /// The filter with these taps before a Down of this factor. Fails only for want of memory.
    pub fn new(alloc: Global, taps: &[i64], down: u32) -> Result<Mirror<ANTI>, Memory>
        requires taps { AreTaps taps.now }
        requires mirrored { IsMirrored ANTI taps.now }
        requires down_low { 1 ≤ down }
        requires down_high { down ≤ 4096 }
        ensures { IfOk result (λ m. mirror_facts ANTI m.taps.items m.down ≡ mirror_facts ANTI taps.now down) }
    {
        let counts = counts_of(alloc, ANTI, taps)?;
        let taps = Vec::from_slice(alloc, taps)?;
        Ok(Mirror {
            taps,
            down,
            levels: counts.levels,
            adders: counts.adders,
        })
    }
}

// The levels and the adders of a filter with mirrored taps.

ghost use Rattle.std.specs.Prelude.{◌≡◌, ◌+◌, ◌^◌, ◌≤◌, length, IfOk};
ghost use Rattle.fir_pieces.specs.Placed.{term_adders};
ghost use Rattle.symmetric_fir.specs.Facts.{levels_of};
ghost use Rattle.symmetric_fir.specs.Pairs.{pair_places, mirror_terms};

use crate::pairs::pairs_of;
use fir_pieces::{adders_for, all_minus, ceil_log};
use mr_values::{Memory, count_terms};
use signed_digit::terms;
use std::alloc::Global;

/// The levels of a tree, and all adders.
#[derive(Clone, Copy, Debug, PartialEq, Eq)]
pub(crate) struct Counts {
    pub(crate) levels: u32,
    pub(crate) adders: u64,
}

/// The levels and the adders of a filter with these taps.
pub(crate) fn counts_of(alloc: Global, anti: usize, taps: &[i64]) -> Result<Counts, Memory>
    requires { length taps.now ≤ 1024 }
    ensures levels { IfOk result (λ counts. counts.levels ≡ levels_of taps.now) }
    ensures adders { IfOk result (λ counts. counts.adders ≡ length (pair_places taps.now) + term_adders (mirror_terms taps.now)) }
    ensures few { IfOk result (λ _. length (mirror_terms taps.now) ≤ 2 ^ 18) }
{
    let found = pairs_of(alloc, anti, taps)?;
    let terms = terms(alloc, found.firsts.as_slice(), 1, 0)?;
    let many = count_terms(found.firsts.as_slice(), 1, 0);
    let levels = ceil_log(many);
    let pair_adders = found.pairs.len() as u64;
    let adders = pair_adders + adders_for(many, all_minus(terms.as_slice()));
    Ok(Counts { levels, adders })
}

// What the trees of all phases need.

ghost use Rattle.std.specs.Prelude.{◌≡◌, ◌^◌, ◌≤◌, length, IfOk};
ghost use Rattle.mr_values.specs.Timing.{terms, greatest};
ghost use Rattle.polyphase_fir.specs.Facts.{adders_below};

use fir_pieces::{adders_for, all_minus};
use mr_values::{Memory, count_terms};
use signed_digit::terms;
use std::alloc::Global;

/// The greatest number of terms of a phase.
pub(crate) fn greatest_terms(taps: &[i64], up: u32) -> u64
    requires few { length taps.now ≤ 1024 }
    requires low { 1 ≤ up }
    requires high { up ≤ 4096 }
    ensures value { result ≡ greatest terms up taps.now }
    ensures small { result ≤ 2 ^ 18 }
{
    let mut most = 0;
    for phase in 0..up {
        most = count_terms(taps, up, phase).max(most);
    }
    most
}

/// The adders of the trees of all phases.
pub(crate) fn count_adders(alloc: Global, taps: &[i64], up: u32) -> Result<u64, Memory>
    requires few { length taps.now ≤ 1024 }
    requires low { 1 ≤ up }
    requires high { up ≤ 4096 }
    ensures { IfOk result (λ adders. adders ≡ adders_below up taps.now up) }
{
    let mut adders = 0;
    for phase in 0..up {
        let terms = terms(alloc, taps, up, phase)?;
        let many = count_terms(taps, up, phase);
        adders += adders_for(many, all_minus(terms.as_slice()));
    }
    Ok(adders)
}

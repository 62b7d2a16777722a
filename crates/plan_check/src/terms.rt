// The terms of the filters of a plan: the digits of their taps.
ghost use Rattle.std.specs.Prelude.{◌≡◌, ◌≤◌, ◌<◌, ◌+◌, ◌-◌, ◌*◌, ◌/◌, ◌^◌, length};
ghost use Rattle.mr_values.specs.Sequence.{phase as taps_of_phase};
ghost use Rattle.mr_values.specs.Timing.{ceil_div, ceil_log, terms, plus_terms, minus_terms, greatest, greatest_below, accumulators};
ghost use Rattle.mr_values.specs.TimingLaws.{IsLeastLog};
ghost use Rattle.plan_check.specs.Groups.{IsFactor};

use mr_values::{count_positive_terms, count_terms};

/// `n / d`, rounded up.
pub(crate) fn ceil_div(n: u64, d: u64) -> u64
    requires some { 1 ≤ d }
    requires room { n + d ≤ 2 ^ 64 }
    ensures value { result ≡ ceil_div n d }
    ensures small { result ≤ n }
{
    (n + (d - 1)) / d
}

/// The least `k` with `n ≤ 2^k`.
#[tactic(auto, using(mr_values::proofs::Logarithm::ceil_log_more, mr_values::proofs::Logarithm::ceil_log_end, mr_values::proofs::Logarithm::ceil_log_small))]
pub(crate) fn ceil_log(n: u64) -> u64
    requires { n < 2 ^ 32 }
    ensures value { result ≡ ceil_log n }
    ensures least { IsLeastLog n result }
    ensures small { result ≤ n }
{
    let mut level = 0;
    let mut left = n;
    'halve: while left > 1 {
        left = (left + 1) / 2;
        level += 1;
    }
    level
}

/// The terms of taps.
#[tactic(auto, using(crate::proofs::TermSums::terms_whole))]
pub(crate) fn count_all(taps: &[i64]) -> u64
    requires { length taps.now ≤ 1024 }
    ensures value { result ≡ terms taps.now }
    ensures small { result ≤ 2 ^ 18 }
{
    count_terms(taps, 1, 0)
}

/// The greatest number of terms of a phase.
pub(crate) fn greatest_terms(taps: &[i64], up: u32) -> u64
    requires few { length taps.now ≤ 1024 }
    requires up { IsFactor up }
    ensures value { result ≡ greatest terms up taps.now }
    ensures small { result ≤ 2 ^ 18 }
{
    let mut most = 0;
    for phase in 0..up {
        most = count_terms(taps, up, phase).max(most);
    }
    most
}

fn greatest_positive_terms(taps: &[i64], up: u32) -> u64
    requires few { length taps.now ≤ 1024 }
    requires up { IsFactor up }
    ensures value { result ≡ greatest plus_terms up taps.now }
    ensures small { result ≤ 2 ^ 18 }
{
    let mut most = 0;
    for phase in 0..up {
        most = count_positive_terms(taps, up, phase).max(most);
    }
    most
}

fn greatest_negative_terms(taps: &[i64], up: u32) -> u64
    requires few { length taps.now ≤ 1024 }
    requires up { IsFactor up }
    ensures value { result ≡ greatest minus_terms up taps.now }
    ensures small { result ≤ 2 ^ 18 }
{
    let mut most = 0;
    for phase in 0..up {
        most = count_negative_terms(taps, up, phase).max(most);
    }
    most
}

#[tactic(auto, using(crate::proofs::TermSums::terms_signs))]
fn count_negative_terms(taps: &[i64], up: u32, phase: u32) -> u64
    requires few { length taps.now ≤ 1024 }
    requires in_range { phase < up }
    ensures value { result ≡ minus_terms (taps_of_phase up phase taps.now) }
    ensures small { result ≤ 2 ^ 18 }
{
    count_terms(taps, up, phase) - count_positive_terms(taps, up, phase)
}

/// The accumulators of a folded filter.
pub(crate) fn count_accumulators(slots: u64, up: u32, taps: &[i64]) -> u64
    requires slots_low { 1 ≤ slots }
    requires slots_high { slots ≤ 65536 }
    requires few { length taps.now ≤ 1024 }
    requires up { IsFactor up }
    ensures value { result ≡ accumulators slots up taps.now }
    ensures small { result < 2 ^ 32 }
{
    ceil_div(greatest_positive_terms(taps, up), slots)
        + ceil_div(greatest_negative_terms(taps, up), slots)
}

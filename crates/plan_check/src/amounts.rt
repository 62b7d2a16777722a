// How great the values of a plan and their rounding errors become.
ghost use Rattle.std.specs.Prelude.{◌≡◌, ◌≤◌, ◌<◌, ◌+◌, ◌-◌, ◌*◌, ◌/◌, ◌^◌, length, All, None, Some, MatchResult, MatchOption};
ghost use Rattle.std.specs.Result.{result_err};
ghost use Rattle.mr_values.specs.Value.{IsWithinLimits, AreTaps, has_clip};
ghost use Rattle.mr_values.specs.Timing.{groups};
ghost use Rattle.plan_check.specs.Groups.{group_of, IsGroup, IsCic};
ghost use Rattle.plan_check.specs.Amounts.{rises, falls, magnitude, gain, round_peak, round_error, peak_after, peak_test, error_after, error_after_all, no_error, own_shift, shifts_of, bound_test};
ghost use Rattle.plan_check.specs.Views.{as_error};
ghost use Rattle.plan_check.specs.Accepted.{peaks_test, errors_test, bounds_test, bound_of};

use crate::fault::PlanFault;
use crate::group::{PlanGroup, split_group};
use mr_values::{Element, Mode};

/// The greatest peak, and the greatest bound of the rounding error.
const GREATEST: u128 = 1 << 125;

/// The sum of the taps above 0, and of the magnitudes of those below 0.
#[derive(Clone, Copy)]
pub(crate) struct Sums {
    pub(crate) rises: u128,
    pub(crate) falls: u128,
}

pub(crate) fn sums_of(taps: &[i64]) -> Sums
    requires { AreTaps taps.now }
    ensures rises { result.rises ≡ rises taps.now }
    ensures falls { result.falls ≡ falls taps.now }
    ensures small { result.rises + result.falls ≤ 2 ^ 74 }
{
    let mut rises = 0;
    let mut falls = 0;
    for tap in taps {
        let magnitude = u128::from(tap.unsigned_abs());
        if *tap < 0 {
            falls += magnitude;
        } else {
            rises += magnitude;
        }
    }
    Sums { rises, falls }
}

/// How much a group can magnify a value.
#[tactic(auto, using(crate::proofs::Sums::magnitude_sums))]
pub(crate) fn gain_of(group: &PlanGroup) -> u128
    requires { IsGroup (group_of group.now) }
    ensures { result ≡ gain (group_of group.now) }
{
    match *group {
        PlanGroup::Fir {
            filter: Some(filter),
            ..
        } => {
            let sums = sums_of(filter.taps);
            sums.rises + sums.falls
        }
        PlanGroup::CicDown {
            factor,
            stages,
            delay,
        } => cic_gain(factor, stages, delay),
        PlanGroup::CicUp {
            factor,
            stages,
            delay,
        } => cic_gain(factor, stages, delay),
        _ => 1,
    }
}

/// How much a CIC magnifies a value.
#[tactic(auto, using(crate::proofs::Sums::cic_gain_small))]
pub(crate) fn cic_gain(factor: u32, stages: u32, delay: u32) -> u128
    requires { IsCic factor stages delay }
    ensures value { result ≡ (factor * delay) ^ stages }
    ensures small { result ≤ 2 ^ 104 }
{
    let length = u128::from(factor) * u128::from(delay);
    length.pow(stages)
}

/// Tests that the peak stays small enough.
pub(crate) fn check_peaks(elements: &[Element], width: u32) -> Result<(), PlanFault>
    requires limits { All IsWithinLimits elements.now }
    requires few { length elements.now ≤ 32 }
    requires width_low { 2 ≤ width }
    requires width_high { width ≤ 64 }
    ensures { result_err result ≡ peaks_test width (groups elements.now) }
{
    let mut rest = elements;
    let mut first = 1;
    let mut peak = 1 << (width - 1);
    'walk: while let Some((group, others)) = split_group(rest) {
        peak = peak_past(&group, first, peak)?;
        first += group.size();
        rest = others;
    }
    Ok(())
}

// The peak after a group.
fn peak_past(group: &PlanGroup, first: u32, peak: u128) -> Result<u128, PlanFault>
    requires group { IsGroup (group_of group.now) }
    requires first { first ≤ 32 }
    requires small { peak ≤ 2 ^ 125 }
    ensures { MatchResult result (λ after. (peak_test first peak (group_of group.now) ≡ None) × (after ≡ peak_after (group_of group.now) peak) × (after ≤ 2 ^ 125)) (λ fault. peak_test first peak (group_of group.now) ≡ Some fault) }
{
    let after = match *group {
        PlanGroup::Round { shift, mode } => Some(rounded_peak(peak, shift, mode)),
        PlanGroup::Clip { bits } => Some(peak.min(1 << (bits - 1))),
        _ => peak.checked_mul(gain_of(group)),
    };
    match after {
        Some(after) if after <= GREATEST => Ok(after),
        _ => Err(PlanFault::TooWide {
            element: group.middle(first),
        }),
    }
}

fn rounded_peak(peak: u128, shift: u32, mode: Mode) -> u128
    requires least { 1 ≤ shift }
    requires greatest { shift ≤ 64 }
    requires small { peak ≤ 2 ^ 125 }
    ensures { result ≡ round_peak mode shift peak }
{
    match mode {
        Mode::HalfUp => nearest_peak(peak, shift),
        Mode::HalfEven => nearest_peak(peak, shift),
        Mode::Floor => (peak + (power_of_two(shift) - 1)) / power_of_two(shift),
    }
}

// The peak after a rounding to the nearest number.
fn nearest_peak(peak: u128, shift: u32) -> u128
    requires least { 1 ≤ shift }
    requires greatest { shift ≤ 64 }
    requires small { peak ≤ 2 ^ 125 }
    ensures { result ≡ (peak + 2 ^ (shift - 1)) / 2 ^ shift }
{
    (peak + power_of_two(shift - 1)) / power_of_two(shift)
}

/// How far `2^shift` times a value is at most from the value without roundings.
#[derive(Clone, Copy)]
pub(crate) struct RoundingError {
    pub(crate) bound: u128,
    pub(crate) shift: u32,
}

/// How far off the roundings are together, where nothing is clipped, and the bits that they shift together.
#[derive(Clone, Copy)]
pub(crate) struct PlanError {
    pub(crate) bound: Option<u128>,
    pub(crate) shift: u32,
}

/// Tests that the bound of the rounding error stays small enough, and gives it after all groups. A plan that clips has
/// none, and passes.
#[tactic(auto, using(crate::proofs::Shifts::total_shift_is))]
pub(crate) fn check_bounds(elements: &[Element]) -> Result<PlanError, PlanFault>
    requires limits { All IsWithinLimits elements.now }
    requires few { length elements.now ≤ 32 }
    ensures { MatchResult result
        (λ error. (bounds_test elements.now ≡ None) × (error.bound ≡ bound_of elements.now) × (error.shift ≡ (error_after_all (groups elements.now) no_error).shift))
        (λ fault. bounds_test elements.now ≡ Some fault) }
{
    if has_clip(elements) {
        return Ok(PlanError {
            bound: None,
            shift: total_shift(elements),
        });
    }
    let error = check_errors(elements)?;
    Ok(PlanError {
        bound: Some(error.bound),
        shift: error.shift,
    })
}

// Whether an element clips.
fn has_clip(elements: &[Element]) -> bool
    ensures { result ≡ has_clip elements.now }
{
    elements
        .iter()
        .any(|element| matches!(element, Element::Clip { .. }))
}

// The bits that all roundings shift together.
fn total_shift(elements: &[Element]) -> u32
    requires limits { All IsWithinLimits elements.now }
    requires few { length elements.now ≤ 32 }
    ensures { result ≡ shifts_of (groups elements.now) }
{
    let mut rest = elements;
    let mut total = 0;
    'walk: while let Some((group, others)) = split_group(rest) {
        total += shift_of(&group);
        rest = others;
    }
    total
}

fn shift_of(group: &PlanGroup) -> u32
    requires { IsGroup (group_of group.now) }
    ensures value { result ≡ own_shift (group_of group.now) }
    ensures small { result ≤ 64 }
{
    match *group {
        PlanGroup::Round { shift, .. } => shift,
        _ => 0,
    }
}

// Tests the rounding error of each group, and gives it after all of them.
fn check_errors(elements: &[Element]) -> Result<RoundingError, PlanFault>
    requires limits { All IsWithinLimits elements.now }
    requires few { length elements.now ≤ 32 }
    ensures { MatchResult result (λ error. (errors_test (groups elements.now) ≡ None) × (as_error error ≡ error_after_all (groups elements.now) no_error)) (λ fault. errors_test (groups elements.now) ≡ Some fault) }
{
    let mut rest = elements;
    let mut first = 1;
    let mut error = RoundingError { bound: 0, shift: 0 };
    'walk: while let Some((group, others)) = split_group(rest) {
        error = error_past(&group, first, error)?;
        first += group.size();
        rest = others;
    }
    Ok(error)
}

// The rounding error after a group.
fn error_past(
    group: &PlanGroup,
    first: u32,
    error: RoundingError,
) -> Result<RoundingError, PlanFault>
    requires group { IsGroup (group_of group.now) }
    requires first { first ≤ 32 }
    requires small { error.bound ≤ 2 ^ 125 }
    requires shift { error.shift ≤ 126 }
    ensures { MatchResult result (λ after. (bound_test first (as_error error) (group_of group.now) ≡ None) × (as_error after ≡ error_after (group_of group.now) (as_error error)) × (after.bound ≤ 2 ^ 125) × (after.shift ≤ 126)) (λ fault. bound_test first (as_error error) (group_of group.now) ≡ Some fault) }
{
    let after = match *group {
        PlanGroup::Round { shift, mode } => with_rounding(error, shift, mode),
        PlanGroup::Clip { .. } => Some(error),
        _ => with_gain(error, gain_of(group)),
    };
    match after {
        Some(after) if after.bound <= GREATEST => Ok(after),
        _ => Err(PlanFault::BoundTooWide {
            element: group.middle(first),
        }),
    }
}

fn with_gain(error: RoundingError, gain: u128) -> Option<RoundingError>
    requires { error.shift ≤ 126 }
    ensures { MatchOption result (2 ^ 125 < error.bound * gain) (λ after. (after.bound ≡ error.bound * gain) × (after.shift ≡ error.shift)) }
{
    Some(RoundingError {
        bound: error.bound.checked_mul(gain)?,
        shift: error.shift,
    })
}

// One more rounding; `None` where the bound is far too great.
#[tactic(auto, using(crate::proofs::Sums::rounding_large, crate::proofs::Sums::rounding_small))]
fn with_rounding(error: RoundingError, shift: u32, mode: Mode) -> Option<RoundingError>
    requires least { 1 ≤ shift }
    requires greatest { shift ≤ 64 }
    requires small { error.bound ≤ 2 ^ 125 }
    requires error { error.shift ≤ 126 }
    ensures { MatchOption result (2 ^ 125 < error.bound + 2 ^ error.shift * round_error mode shift) (λ after. (after.bound ≡ error.bound + 2 ^ error.shift * round_error mode shift) × (after.shift ≡ error.shift + shift) × (after.shift ≤ 126)) }
{
    if error.shift + shift > 126 {
        return None;
    }
    Some(RoundingError {
        bound: error.bound + power_of_two(error.shift) * error_of_rounding(shift, mode),
        shift: error.shift + shift,
    })
}

// How far one rounding is off.
fn error_of_rounding(shift: u32, mode: Mode) -> u128
    requires least { 1 ≤ shift }
    requires greatest { shift ≤ 64 }
    ensures { result ≡ round_error mode shift }
{
    match mode {
        Mode::HalfUp => power_of_two(shift - 1),
        Mode::HalfEven => power_of_two(shift - 1),
        Mode::Floor => power_of_two(shift) - 1,
    }
}

#[tactic(auto, using(crate::proofs::Sums::power_shift))]
fn power_of_two(exponent: u32) -> u128
    requires { exponent ≤ 126 }
    ensures { result ≡ 2 ^ exponent }
{
    1 << exponent
}

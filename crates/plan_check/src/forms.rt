// Which filters a form fits.
ghost use Rattle.std.specs.Prelude.{◌≡◌, ◌≤◌, ◌-◌, ◌^◌, length, All, None, Some};
ghost use Rattle.std.specs.Result.{result_err};
ghost use Rattle.mr_values.specs.Value.{IsWithinLimits, AreTaps, IsForm};
ghost use Rattle.mr_values.specs.Timing.{groups, wide};
ghost use Rattle.plan_check.specs.Groups.{group_of, IsGroup};
ghost use Rattle.plan_check.specs.Forms.{is_symmetric, is_antisymmetric, is_half_band, is_zero_between, form_fits, group_fits, fit_test};
ghost use Rattle.plan_check.specs.Views.{as_flow};
ghost use Rattle.plan_check.specs.Accepted.{rates_test, peaks_test, fits_test};

use crate::fault::PlanFault;
use crate::flow::{PlanFlow, flow_past, period_past};
use crate::group::{FirFilter, PlanGroup, split_group};
use mr_values::{Element, Form, least_width};

/// Tests that each form fits its filter.
pub(crate) fn check_fits(elements: &[Element], width: u32, ticks: u64) -> Result<(), PlanFault>
    requires limits { All IsWithinLimits elements.now }
    requires few { length elements.now ≤ 32 }
    requires width_low { 2 ≤ width }
    requires width_high { width ≤ 64 }
    requires ticks { ticks ≤ 65536 }
    requires rates { rates_test ticks (groups elements.now) ≡ None }
    requires peaks { peaks_test width (groups elements.now) ≡ None }
    ensures { result_err result ≡ fits_test width ticks (groups elements.now) }
{
    let mut rest = elements;
    let mut first = 1;
    let mut flow = PlanFlow::of_samples(width, ticks);
    'walk: while let Some((group, others)) = split_group(rest) {
        check_fit(&group, first, flow)?;
        flow = flow_past(&group, flow);
        first += group.size();
        rest = others;
    }
    Ok(())
}

fn check_fit(group: &PlanGroup, first: u32, flow: PlanFlow) -> Result<(), PlanFault>
    requires group { IsGroup (group_of group.now) }
    requires first { first ≤ 32 }
    requires long { flow.period ≤ 2 ^ 31 - 1 }
    ensures { result_err result ≡ fit_test first (as_flow flow) (group_of group.now) }
{
    if is_fitting(group, flow) {
        Ok(())
    } else {
        Err(PlanFault::FormNotFit {
            element: group.middle(first),
        })
    }
}

fn is_fitting(group: &PlanGroup, flow: PlanFlow) -> bool
    requires group { IsGroup (group_of group.now) }
    requires long { flow.period ≤ 2 ^ 31 - 1 }
    ensures { result ≡ group_fits (group_of group.now) (as_flow flow) }
{
    match group {
        PlanGroup::Fir {
            up,
            filter: Some(filter),
            down,
        } => is_form_fitting(filter, *up, *down, period_past(group, flow.period), flow),
        _ => true,
    }
}

fn is_form_fitting(
    filter: &FirFilter,
    up: Option<u32>,
    down: Option<u32>,
    period: u64,
    flow: PlanFlow,
) -> bool
    requires { IsForm filter.now.form }
    ensures { result ≡ form_fits filter.now.form up filter.now.taps.now down period (as_flow flow) }
{
    let taps = filter.taps;
    match filter.form {
        Form::Parallel => true,
        Form::Symmetric => up.is_none() && (is_symmetric(taps) || is_antisymmetric(taps)),
        Form::HalfBand => up.is_none() && down.unwrap_or(1) == 2 && is_half_band(taps),
        Form::Folded { slots } => slots as u64 <= period,
        Form::Distributed { .. } => up.is_none() && width_of(flow) <= period,
    }
}

/// The least width that holds each value of a stream.
pub(crate) fn width_of(flow: PlanFlow) -> u64
    ensures value { result ≡ wide flow.low flow.high }
    ensures small { result ≤ 128 }
{
    u64::from(least_width(flow.low, flow.high))
}

/// Whether the taps read backwards are the taps.
#[tactic(auto, using(crate::proofs::Mirrors::symmetric_more, crate::proofs::Mirrors::symmetric_fails, crate::proofs::Mirrors::symmetric_all))]
pub fn is_symmetric(taps: &[i64]) -> bool
    ensures { result ≡ is_symmetric taps.now }
{
    for (index, tap) in taps.iter().enumerate() {
        if *tap != taps[taps.len() - 1 - index] {
            return false;
        }
    }
    true
}

#[tactic(auto, using(crate::proofs::Mirrors::antisymmetric_more, crate::proofs::Mirrors::antisymmetric_fails, crate::proofs::Mirrors::antisymmetric_all))]
fn is_antisymmetric(taps: &[i64]) -> bool
    ensures { result ≡ is_antisymmetric taps.now }
{
    for (index, tap) in taps.iter().enumerate() {
        if i128::from(*tap) != -i128::from(taps[taps.len() - 1 - index]) {
            return false;
        }
    }
    true
}

fn is_half_band(taps: &[i64]) -> bool
    ensures { result ≡ is_half_band taps.now }
{
    taps.len() % 4 == 3 && is_symmetric(taps) && is_zero_between((taps.len() - 1) / 2, taps)
}

// Whether each tap at an odd index but the centre is 0.
#[tactic(auto, using(crate::proofs::Mirrors::zero_more, crate::proofs::Mirrors::zero_fails, crate::proofs::Mirrors::zero_all))]
fn is_zero_between(centre: usize, taps: &[i64]) -> bool
    ensures { result ≡ is_zero_between centre 0 taps.now }
{
    for (index, tap) in taps.iter().enumerate() {
        if index % 2 == 1 && index != centre && *tap != 0 {
            return false;
        }
    }
    true
}

// How often the streams of a plan have values, and between which numbers they lie.
ghost use Rattle.std.specs.Prelude.{◌≡◌, ◌≤◌, ◌+◌, ◌-◌, ◌*◌, ◌^◌, max, pos, ◌-ℤ◌, ◌*ℤ◌, unsigned_abs};
ghost use Rattle.mr_values.specs.Value.{round_value};
ghost use Rattle.mr_values.specs.Timing.{input, period_after, low_after, high_after};
ghost use Rattle.plan_check.specs.Groups.{group_of, IsGroup};
ghost use Rattle.plan_check.specs.Amounts.{gain};
ghost use Rattle.plan_check.specs.Forms.{flow_of, flow_after};
ghost use Rattle.plan_check.specs.Views.{as_flow};

use crate::amounts::{cic_gain, sums_of};
use crate::group::PlanGroup;
use mr_values::{Mode, clipped, floor_shift, power, rounded_to_even};

/// A stream: ticks from one value to the next, and its least and its greatest value.
#[derive(Clone, Copy, Debug)]
pub(crate) struct PlanFlow {
    pub(crate) period: u64,
    pub(crate) low: i128,
    pub(crate) high: i128,
}

impl PlanFlow {
    /// The samples.
    pub(crate) fn of_samples(width: u32, ticks: u64) -> PlanFlow
        requires low { 2 ≤ width }
        requires high { width ≤ 64 }
        ensures { as_flow result ≡ flow_of (input width ticks) }
    {
        let half = power(width as u8 - 1);
        PlanFlow {
            period: ticks,
            low: -half,
            high: half - 1,
        }
    }
}

/// The period after a group.
pub(crate) fn period_past(group: &PlanGroup, period: u64) -> u64
    requires group { IsGroup (group_of group.now) }
    requires long { period ≤ 2 ^ 31 - 1 }
    ensures { result ≡ period_after (group_of group.now) period }
{
    period * u64::from(group.down()) / u64::from(group.up())
}

/// The stream after a group.
pub(crate) fn flow_past(group: &PlanGroup, flow: PlanFlow) -> PlanFlow
    requires group { IsGroup (group_of group.now) }
    requires long { flow.period ≤ 2 ^ 31 - 1 }
    requires small { gain (group_of group.now) * max (unsigned_abs flow.low) (unsigned_abs flow.high) ≤ 2 ^ 125 }
    ensures { as_flow result ≡ flow_after (group_of group.now) (as_flow flow) }
{
    PlanFlow {
        period: period_past(group, flow.period),
        low: end_past(group, flow.low, flow.high),
        high: end_past(group, flow.high, flow.low),
    }
}

// An end of the values after a group, from this end and the other one before it.
fn end_past(group: &PlanGroup, end: i128, other: i128) -> i128
    requires group { IsGroup (group_of group.now) }
    requires small { gain (group_of group.now) * max (unsigned_abs end) (unsigned_abs other) ≤ 2 ^ 125 }
    ensures low { result ≡ low_after (group_of group.now) end other }
    ensures high { result ≡ high_after (group_of group.now) other end }
{
    match *group {
        PlanGroup::Fir {
            filter: Some(filter),
            ..
        } => {
            let sums = sums_of(filter.taps);
            weighed(sums.rises, end, sums.falls, other)
        }
        PlanGroup::Fir { .. } => end,
        PlanGroup::CicDown {
            factor,
            stages,
            delay,
        } => weighed(cic_gain(factor, stages, delay), end, 0, other),
        PlanGroup::CicUp {
            factor,
            stages,
            delay,
        } => weighed(cic_gain(factor, stages, delay), end, 0, other),
        PlanGroup::Round { shift, mode } => rounded(end, shift, mode),
        PlanGroup::Clip { bits } => clipped(end, bits as u8),
    }
}

// `rises * end - falls * other`.
fn weighed(rises: u128, end: i128, falls: u128, other: i128) -> i128
    requires rises { rises ≤ 2 ^ 104 }
    requires falls { falls ≤ 2 ^ 104 }
    requires small { (rises + falls) * max (unsigned_abs end) (unsigned_abs other) ≤ 2 ^ 125 }
    ensures { result ≡ pos rises *ℤ end -ℤ pos falls *ℤ other }
{
    scaled(rises, end) - scaled(falls, other)
}

// `factor * value`.
fn scaled(factor: u128, value: i128) -> i128
    requires factor { factor ≤ 2 ^ 104 }
    requires small { factor * unsigned_abs value ≤ 2 ^ 125 }
    ensures value { result ≡ pos factor *ℤ value }
    ensures small { unsigned_abs result ≤ 2 ^ 125 }
{
    factor as i128 * value
}

fn rounded(value: i128, shift: u32, mode: Mode) -> i128
    requires least { 1 ≤ shift }
    requires greatest { shift ≤ 64 }
    requires small { unsigned_abs value ≤ 2 ^ 125 }
    ensures { result ≡ round_value mode shift value }
{
    match mode {
        Mode::HalfUp => floor_shift(value + power(shift as u8 - 1), shift as u8),
        Mode::HalfEven => rounded_to_even(value, shift as u8),
        Mode::Floor => floor_shift(value, shift as u8),
    }
}

// How many ticks the groups of a plan take, and what they cost.
ghost use Rattle.std.specs.Prelude.{◌≡◌, ◌≤◌, ◌<◌, ◌+◌, ◌-◌, ◌*◌, ◌^◌, length, take};
ghost use Rattle.mr_values.specs.Value.{AreTaps, IsForm};
ghost use Rattle.mr_values.specs.Timing.{ceil_div, terms, form_delay, group_delay};
ghost use Rattle.plan_check.specs.Groups.{group_of, IsGroup, IsFactor, IsCic};
ghost use Rattle.plan_check.specs.Costs.{form_terms, terms_of, memory_of};
ghost use Rattle.plan_check.specs.Views.{as_stream};

use crate::flow::{PlanFlow, period_past};
use crate::forms::width_of;
use crate::group::{FirFilter, PlanGroup};
use crate::terms::{ceil_div, ceil_log, count_accumulators, count_all, greatest_terms};
use mr_values::Form;

/// The ticks from a value to the first output that it moves.
#[tactic(auto, using(crate::proofs::TermSums::delay_one))]
pub(crate) fn delay_of(group: &PlanGroup, flow: PlanFlow, offset: u64) -> u64
    requires group { IsGroup (group_of group.now) }
    requires long { flow.period ≤ 2 ^ 31 - 1 }
    ensures value { result ≡ group_delay (group_of group.now) (as_stream flow offset) }
    ensures small { result ≤ 2 ^ 36 }
{
    match group {
        PlanGroup::Fir {
            up,
            filter: Some(filter),
            ..
        } => filter_delay(filter, up.unwrap_or(1), flow, offset),
        PlanGroup::CicDown { stages, .. } => {
            let stages = u64::from(*stages);
            (stages - 1) * flow.period + 1 + stages
        }
        PlanGroup::CicUp { stages, .. } => {
            let stages = u64::from(*stages);
            stages + (stages - 1) * period_past(group, flow.period) + 1
        }
        PlanGroup::Fir { .. } | PlanGroup::Round { .. } | PlanGroup::Clip { .. } => 1,
    }
}

fn filter_delay(filter: &FirFilter, up: u32, flow: PlanFlow, offset: u64) -> u64
    requires taps { AreTaps filter.now.taps.now }
    requires form { IsForm filter.now.form }
    requires up { IsFactor up }
    ensures value { result ≡ form_delay filter.now.form up filter.now.taps.now (as_stream flow offset) }
    ensures small { result ≤ 2 ^ 35 }
{
    let taps = filter.taps;
    match filter.form {
        Form::Parallel => 1 + ceil_log(greatest_terms(taps, up)),
        Form::Symmetric | Form::HalfBand => 2 + ceil_log(count_half(taps)),
        Form::Folded { slots } => {
            let slots = slots as u64;
            2 + slots + ceil_log(count_accumulators(slots, up, taps))
        }
        Form::Distributed { group } => {
            2 + width_of(flow) + ceil_log(ceil_div(taps.len() as u64, group as u64))
        }
    }
}

// The terms of the first taps of the pairs and of the centre.
fn count_half(taps: &[i64]) -> u64
    requires { length taps.now ≤ 1024 }
    ensures value { result ≡ terms (take (ceil_div (length taps.now) 2) taps.now) }
    ensures small { result ≤ 2 ^ 18 }
{
    count_all(&taps[..taps.len().div_ceil(2)])
}

/// The terms of a group.
pub(crate) fn terms_of(group: &PlanGroup) -> u64
    requires { IsGroup (group_of group.now) }
    ensures value { result ≡ terms_of (group_of group.now) }
    ensures small { result ≤ 2 ^ 18 }
{
    match group {
        PlanGroup::Fir {
            filter: Some(filter),
            ..
        } => filter_terms(filter),
        PlanGroup::CicDown { stages, .. } | PlanGroup::CicUp { stages, .. } => {
            2 * u64::from(*stages)
        }
        PlanGroup::Fir { .. } | PlanGroup::Round { .. } | PlanGroup::Clip { .. } => 1,
    }
}

#[tactic(auto, using(crate::proofs::Products::tables_small))]
fn filter_terms(filter: &FirFilter) -> u64
    requires taps { AreTaps filter.now.taps.now }
    requires form { IsForm filter.now.form }
    ensures value { result ≡ form_terms filter.now.form filter.now.taps.now }
    ensures small { result ≤ 2 ^ 18 }
{
    let taps = filter.taps;
    match filter.form {
        Form::Parallel | Form::Folded { .. } => count_all(taps),
        Form::Symmetric | Form::HalfBand => count_half(taps),
        Form::Distributed { group } => {
            let group = group as u64;
            ceil_div(taps.len() as u64, group) * table_size(group)
        }
    }
}

// The sums of a table over this many taps.
#[tactic(auto, using(crate::proofs::Sums::table_shift, crate::proofs::Sums::table_small))]
fn table_size(taps: u64) -> u64
    requires { taps ≤ 6 }
    ensures value { result ≡ 2 ^ taps }
    ensures small { result ≤ 64 }
{
    1 << taps
}

/// How many steps back a group looks, at the higher of its rates.
pub(crate) fn memory_of(group: &PlanGroup) -> u64
    requires { IsGroup (group_of group.now) }
    ensures value { result ≡ memory_of (group_of group.now) }
    ensures small { result ≤ 2 ^ 17 }
{
    match group {
        PlanGroup::Fir {
            filter: Some(filter),
            ..
        } => filter.taps.len() as u64 - 1,
        PlanGroup::CicDown {
            factor,
            stages,
            delay,
        } => cic_memory(*factor, *stages, *delay),
        PlanGroup::CicUp {
            factor,
            stages,
            delay,
        } => cic_memory(*factor, *stages, *delay),
        PlanGroup::Fir { .. } | PlanGroup::Round { .. } | PlanGroup::Clip { .. } => 0,
    }
}

#[tactic(auto, using(crate::proofs::Sums::cic_length_small))]
fn cic_memory(factor: u32, stages: u32, delay: u32) -> u64
    requires { IsCic factor stages delay }
    ensures value { result ≡ stages * (factor * delay - 1) }
    ensures small { result ≤ 2 ^ 17 }
{
    u64::from(stages) * (u64::from(factor) * u64::from(delay) - 1)
}

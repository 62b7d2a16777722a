// The acceptance of a plan: all its tests, in their order.
ghost use Rattle.std.specs.Prelude.{◌≡◌, ◌⊎◌, ◌≤◌, ◌+◌, ◌-◌, ◌*◌, ◌^◌, length, max, unsigned_abs, All, None, Some, MatchResult};
ghost use Rattle.std.specs.Option.{option_map};
ghost use Rattle.mr_values.specs.Value.{IsWithinLimits, size};
ghost use Rattle.mr_values.specs.Timing.{groups, last_stream, input};
ghost use Rattle.plan_check.specs.Groups.{group_of, IsGroup};
ghost use Rattle.plan_check.specs.Amounts.{gain};
ghost use Rattle.plan_check.specs.Costs.{linear_test, linear_spread, spread_after, cost_test, tally_after};
ghost use Rattle.plan_check.specs.Views.{as_flow, as_stream, as_spread, as_tally, IsModest};
ghost use Rattle.plan_check.specs.Accepted.{rates_test, peaks_test, costs_test, no_tally, facts_of, group_facts, IsAccepted, AreFacts, first_fault};
ghost use Rattle.plan_check.specs.declared.fault.PlanFault.TheVariants.{Memory};

use crate::amounts::{check_bounds, check_peaks};
use crate::costs::{PlanSpread, check_over, check_spread};
use crate::delays::{delay_of, terms_of};
use crate::facts::{Facts, GroupFacts};
use crate::fault::{CostWhich, PlanFault};
use crate::flow::{PlanFlow, flow_past, period_past};
use crate::forms::check_fits;
use crate::group::{PlanGroup, split_group, whole};
use crate::limits::check_limits;
use crate::rates::{LONGEST, check_rates};
use mr_values::{Element, Plan};
use std::alloc::Global;

/// The greatest number of terms of a plan.
const MOST_TERMS: u128 = 16_384;

/// The facts of a plan that passes all tests, else the first test that fails: the limits of its numbers, then over
/// its groups the rates, the peak, the bound of the rounding error, the forms and the costs.
/// It fails with `Memory` only for want of memory.
pub fn check_plan(alloc: Global, plan: &Plan) -> Result<Facts, PlanFault>
    ensures { MatchResult result
        (λ facts. IsAccepted plan.now × AreFacts (size plan.now.width) (size plan.now.ticks) plan.now.elements facts)
        (λ fault. (fault ≡ Memory) ⊎ (first_fault plan.now ≡ Some fault)) }
{
    check_limits(plan)?;
    let elements = plan.elements.as_slice();
    let width = whole(plan.width);
    let ticks = u64::from(whole(plan.ticks));
    check_rates(elements, ticks)?;
    check_peaks(elements, width)?;
    let error = check_bounds(elements)?;
    check_fits(elements, width, ticks)?;
    let costs = check_costs(alloc, elements, width, ticks)?;
    Ok(Facts {
        latency: costs.offset + 1,
        period: costs.flow.period,
        bound: error.bound,
        shift: error.shift,
        end_lo: costs.flow.low,
        end_hi: costs.flow.high,
        groups: costs.groups,
    })
}

// The last stream of a plan, and the facts of its groups.
#[derive(Drop)]
struct PlanCosts {
    flow: PlanFlow,
    offset: u64,
    groups: Vec<GroupFacts>,
}

// What the groups so far add up to. There is no spread after a Round.
#[derive(Clone, Copy)]
pub(crate) struct PlanTally {
    pub(crate) flow: PlanFlow,
    pub(crate) offset: u64,
    pub(crate) terms: u64,
    pub(crate) spread: Option<PlanSpread>,
}

impl PlanTally {
    fn of_samples(width: u32, ticks: u64) -> PlanTally
        requires low { 2 ≤ width }
        requires high { width ≤ 64 }
        ensures value { as_tally result ≡ no_tally width ticks }
        ensures modest { IsModest result.spread }
    {
        PlanTally {
            flow: PlanFlow::of_samples(width, ticks),
            offset: 0,
            terms: 0,
            spread: Some(PlanSpread {
                classes: 1,
                reach: 1,
            }),
        }
    }
}

// Tests the costs of each group.
fn check_costs(
    alloc: Global,
    elements: &[Element],
    width: u32,
    ticks: u64,
) -> Result<PlanCosts, PlanFault>
    requires limits { All IsWithinLimits elements.now }
    requires few { length elements.now ≤ 32 }
    requires width_low { 2 ≤ width }
    requires width_high { width ≤ 64 }
    requires ticks_low { 1 ≤ ticks }
    requires ticks_high { ticks ≤ 65536 }
    requires rates { rates_test ticks (groups elements.now) ≡ None }
    requires peaks { peaks_test width (groups elements.now) ≡ None }
    ensures { MatchResult result
        (λ costs. (costs_test width ticks (groups elements.now) ≡ None)
        × (as_stream costs.flow costs.offset ≡ last_stream width ticks elements.now)
        × (costs.groups.items ≡ group_facts 1 (input width ticks) (groups elements.now))
        × (costs.offset ≤ 2 ^ 31))
        (λ fault. (fault ≡ Memory) ⊎ (costs_test width ticks (groups elements.now) ≡ Some fault)) }
{
    let mut rest = elements;
    let mut first = 1;
    let mut tally = PlanTally::of_samples(width, ticks);
    let mut groups = Vec::new(alloc);
    'walk: while let Some((group, others)) = split_group(rest) {
        let facts = group_facts(&group, first, tally.flow, tally.offset);
        groups.push(facts)?;
        tally = tally_past(&group, first, ticks, facts, tally)?;
        first += group.size();
        rest = others;
    }
    Ok(PlanCosts {
        flow: tally.flow,
        offset: tally.offset,
        groups,
    })
}

fn group_facts(group: &PlanGroup, first: u32, flow: PlanFlow, offset: u64) -> GroupFacts
    requires group { IsGroup (group_of group.now) }
    requires low { 1 ≤ first }
    requires high { first ≤ 32 }
    requires long { flow.period ≤ 2 ^ 31 - 1 }
    ensures value { result ≡ facts_of first (as_stream flow offset) (group_of group.now) }
    ensures delay { result.delay ≤ 2 ^ 36 }
    ensures terms { result.terms ≤ 2 ^ 18 }
{
    GroupFacts {
        first,
        last: group.last(first),
        up: group.up(),
        down: group.down(),
        period_in: flow.period,
        period_out: period_past(group, flow.period),
        offset_in: offset,
        delay: delay_of(group, flow, offset),
        span_lo: flow.low,
        span_hi: flow.high,
        terms: terms_of(group),
    }
}

// Tests the costs of a group, and adds it to those before it.
fn tally_past(
    group: &PlanGroup,
    first: u32,
    ticks: u64,
    facts: GroupFacts,
    tally: PlanTally,
) -> Result<PlanTally, PlanFault>
    requires group { IsGroup (group_of group.now) }
    requires facts { facts ≡ facts_of first (as_stream tally.flow tally.offset) (group_of group.now) }
    requires delay { facts.delay ≤ 2 ^ 36 }
    requires facts_terms { facts.terms ≤ 2 ^ 18 }
    requires ticks_low { 1 ≤ ticks }
    requires ticks_high { ticks ≤ 65536 }
    requires long { tally.flow.period ≤ 2 ^ 31 - 1 }
    requires small { gain (group_of group.now) * max (unsigned_abs tally.flow.low) (unsigned_abs tally.flow.high) ≤ 2 ^ 125 }
    requires terms { tally.terms ≤ 16384 }
    requires offset { tally.offset ≤ 2 ^ 31 }
    requires modest { IsModest tally.spread }
    ensures { MatchResult result
        (λ next. (cost_test ticks first (as_tally tally) (group_of group.now) ≡ None)
        × (as_tally next ≡ tally_after ticks (group_of group.now) (as_tally tally))
        × (next.terms ≤ 16384) × (next.offset ≤ 2 ^ 31) × IsModest next.spread)
        (λ fault. cost_test ticks first (as_tally tally) (group_of group.now) ≡ Some fault) }
{
    let terms = tally.terms + facts.terms;
    check_over(facts.last, CostWhich::Terms, u128::from(terms), MOST_TERMS)?;
    let offset = tally.offset + facts.delay;
    check_over(
        facts.last,
        CostWhich::Latency,
        u128::from(offset + 1),
        u128::from(LONGEST),
    )?;
    let spread = linear_past(group, facts.last, ticks, tally.flow.period, tally.spread)?;
    Ok(PlanTally {
        flow: flow_past(group, tally.flow),
        offset,
        terms,
        spread,
    })
}

// Tests how much the values of a group without a rounding depend on.
fn linear_past(
    group: &PlanGroup,
    element: u32,
    ticks: u64,
    period: u64,
    spread: Option<PlanSpread>,
) -> Result<Option<PlanSpread>, PlanFault>
    requires group { IsGroup (group_of group.now) }
    requires ticks_low { 1 ≤ ticks }
    requires ticks_high { ticks ≤ 65536 }
    requires long { period ≤ 2 ^ 31 - 1 }
    requires modest { IsModest spread }
    ensures { MatchResult result
        (λ next. (linear_test ticks element (group_of group.now) period (linear_spread (group_of group.now) (option_map as_spread spread)) ≡ None)
        × (option_map as_spread next ≡ option_map (spread_after ticks (group_of group.now) period) (linear_spread (group_of group.now) (option_map as_spread spread)))
        × IsModest next)
        (λ fault. linear_test ticks element (group_of group.now) period (linear_spread (group_of group.now) (option_map as_spread spread)) ≡ Some fault) }
{
    if let PlanGroup::Round { .. } | PlanGroup::Clip { .. } = group {
        return Ok(None);
    }
    match spread {
        None => Ok(None),
        Some(spread) => Ok(Some(check_spread(group, element, ticks, period, spread)?)),
    }
}

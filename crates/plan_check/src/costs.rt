// What a plan costs.
ghost use Rattle.std.specs.Prelude.{◌≡◌, ◌≤◌, ◌<◌, ◌+◌, ◌-◌, ◌*◌, ◌/◌, ◌^◌, None, Some, MatchResult};
ghost use Rattle.std.specs.Result.{result_err};
ghost use Rattle.mr_values.specs.Timing.{period_after, up_factor, ceil_div};
ghost use Rattle.plan_check.specs.Groups.{group_of, IsGroup};
ghost use Rattle.plan_check.specs.Costs.{memory_of, classes_after, spread_after, over, spread_test};
ghost use Rattle.plan_check.specs.Views.{as_spread};

use crate::delays::{memory_of, terms_of};
use crate::euclid::gcd;
use crate::fault::{CostWhich, PlanFault};
use crate::flow::period_past;
use crate::group::PlanGroup;
use crate::terms::ceil_div;

/// How many samples a value depends on at most, and how many forms that has.
#[derive(Clone, Copy)]
pub(crate) struct PlanSpread {
    pub(crate) classes: u64,
    pub(crate) reach: u64,
}

/// Tests the work, the response and the cycle of a group, and gives the spread after it.
#[tactic(auto, using(crate::proofs::Products::work_small, crate::proofs::Products::left_small, crate::proofs::Products::right_small))]
pub(crate) fn check_spread(
    group: &PlanGroup,
    element: u32,
    ticks: u64,
    period: u64,
    spread: PlanSpread,
) -> Result<PlanSpread, PlanFault>
    requires group { IsGroup (group_of group.now) }
    requires ticks_low { 1 ≤ ticks }
    requires ticks_high { ticks ≤ 65536 }
    requires long { period ≤ 2 ^ 31 - 1 }
    requires classes_low { 1 ≤ spread.classes }
    requires classes_high { spread.classes ≤ 2 ^ 20 }
    requires reach_low { 1 ≤ spread.reach }
    requires reach_high { spread.reach ≤ 2 ^ 20 }
    ensures { MatchResult result
        (λ next. (spread_test ticks element (group_of group.now) period (as_spread spread) (spread_after ticks (group_of group.now) period (as_spread spread)) ≡ None)
        × (as_spread next ≡ spread_after ticks (group_of group.now) period (as_spread spread))
        × (1 ≤ next.classes) × (next.classes ≤ 2 ^ 20) × (1 ≤ next.reach) × (next.reach ≤ 2 ^ 20))
        (λ fault. spread_test ticks element (group_of group.now) period (as_spread spread) (spread_after ticks (group_of group.now) period (as_spread spread)) ≡ Some fault) }
{
    let next = spread_past(group, ticks, period, spread);
    let work = product(terms_of(group) * spread.classes, spread.reach);
    check_over(element, CostWhich::Work, work, 1 << 28)?;
    let response = product(next.classes, next.reach);
    check_over(element, CostWhich::Response, response, 1 << 20)?;
    let cycle = product(next.classes, period_past(group, period)) / u128::from(ticks);
    check_over(element, CostWhich::Cycle, cycle, 1 << 24)?;
    Ok(next)
}

fn product(a: u64, b: u64) -> u128
    ensures { result ≡ a * b }
{
    u128::from(a) * u128::from(b)
}

/// Tests that a cost isn't too great.
pub(crate) fn check_over(
    element: u32,
    which: CostWhich,
    value: u128,
    most: u128,
) -> Result<(), PlanFault>
    requires { value < 2 ^ 127 }
    ensures { result_err result ≡ over element which value most }
{
    if value <= most {
        Ok(())
    } else {
        Err(PlanFault::Cost {
            element,
            which,
            value: value as i128,
        })
    }
}

fn spread_past(group: &PlanGroup, ticks: u64, period: u64, spread: PlanSpread) -> PlanSpread
    requires group { IsGroup (group_of group.now) }
    requires ticks_low { 1 ≤ ticks }
    requires ticks_high { ticks ≤ 65536 }
    requires long { period ≤ 2 ^ 31 - 1 }
    requires classes_low { 1 ≤ spread.classes }
    requires classes_high { spread.classes ≤ 2 ^ 20 }
    requires reach_high { spread.reach ≤ 2 ^ 20 }
    ensures value { as_spread result ≡ spread_after ticks (group_of group.now) period (as_spread spread) }
    ensures classes_low { 1 ≤ result.classes }
    ensures classes_high { result.classes ≤ 2 ^ 32 }
    ensures reach_low { spread.reach ≤ result.reach }
    ensures reach_high { result.reach ≤ 2 ^ 50 }
{
    PlanSpread {
        classes: classes_past(group, spread.classes),
        reach: spread.reach + samples_back(group, ticks, period),
    }
}

#[tactic(auto, using(crate::proofs::Products::classes_small, crate::proofs::Products::classes_some, crate::proofs::Divisors::some_left))]
fn classes_past(group: &PlanGroup, classes: u64) -> u64
    requires group { IsGroup (group_of group.now) }
    requires low { 1 ≤ classes }
    requires high { classes ≤ 2 ^ 20 }
    ensures value { result ≡ classes_after (group_of group.now) classes }
    ensures low { 1 ≤ result }
    ensures high { result ≤ 2 ^ 32 }
{
    let raised = classes * u64::from(group.up());
    raised / gcd(raised, u64::from(group.down()))
}

// How many samples further back a group looks.
#[tactic(auto, using(crate::proofs::Products::back_small, crate::proofs::Products::ticks_small, crate::proofs::Products::ticks_some))]
fn samples_back(group: &PlanGroup, ticks: u64, period: u64) -> u64
    requires group { IsGroup (group_of group.now) }
    requires ticks_low { 1 ≤ ticks }
    requires ticks_high { ticks ≤ 65536 }
    requires long { period ≤ 2 ^ 31 - 1 }
    ensures value { result ≡ ceil_div (memory_of (group_of group.now) * period) (up_factor (group_of group.now) * ticks) }
    ensures small { result ≤ 2 ^ 48 }
{
    ceil_div(memory_of(group) * period, u64::from(group.up()) * ticks)
}

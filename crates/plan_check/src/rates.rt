// The periods of the streams of a plan.
ghost use Rattle.std.specs.Prelude.{◌≡◌, ◌≤◌, ◌-◌, ◌^◌, length, All, None, Some, MatchResult};
ghost use Rattle.std.specs.Result.{result_err};
ghost use Rattle.mr_values.specs.Value.{IsWithinLimits};
ghost use Rattle.mr_values.specs.Timing.{groups, period_after};
ghost use Rattle.plan_check.specs.Groups.{group_of, IsGroup};
ghost use Rattle.plan_check.specs.Amounts.{rate_test};
ghost use Rattle.plan_check.specs.Accepted.{rates_test};

use crate::fault::PlanFault;
use crate::group::{PlanGroup, split_group};
use mr_values::Element;

/// The greatest period and the greatest latency, in ticks.
pub(crate) const LONGEST: u64 = (1 << 31) - 1;

/// Tests that each group has a whole period, and one that isn't too long.
pub(crate) fn check_rates(elements: &[Element], ticks: u64) -> Result<(), PlanFault>
    requires limits { All IsWithinLimits elements.now }
    requires few { length elements.now ≤ 32 }
    requires long { ticks ≤ 2 ^ 31 - 1 }
    ensures { result_err result ≡ rates_test ticks (groups elements.now) }
{
    let mut rest = elements;
    let mut first = 1;
    let mut period = ticks;
    'walk: while let Some((group, others)) = split_group(rest) {
        period = rate_after(&group, first, period)?;
        first += group.size();
        rest = others;
    }
    Ok(())
}

// The period after a group.
fn rate_after(group: &PlanGroup, first: u32, period: u64) -> Result<u64, PlanFault>
    requires group { IsGroup (group_of group.now) }
    requires low { 1 ≤ first }
    requires high { first ≤ 32 }
    requires long { period ≤ 2 ^ 31 - 1 }
    ensures { MatchResult result (λ after. (rate_test first period (group_of group.now) ≡ None) × (after ≡ period_after (group_of group.now) period) × (after ≤ 2 ^ 31 - 1)) (λ fault. rate_test first period (group_of group.now) ≡ Some fault) }
{
    let raised = period * u64::from(group.down());
    let up = u64::from(group.up());
    if raised % up != 0 {
        return Err(PlanFault::RateNotWhole { element: first });
    }
    let after = raised / up;
    if after > LONGEST {
        return Err(PlanFault::PeriodOver {
            element: group.last(first),
            period: after,
        });
    }
    Ok(after)
}

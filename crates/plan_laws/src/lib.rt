//! What the numbers of a plan say of its values, for all samples.
#![tactic(auto)]

ghost use Rattle.std.specs.Prelude.{◌≡◌, ◌≤◌, ℕ, List, All, None};
ghost use Rattle.mr_values.specs.declared.plan.Element.{Element};
ghost use Rattle.mr_values.specs.Value.{IsWithinLimits};
ghost use Rattle.plan_laws.specs.Laws.{SpanHolds, PeakHolds, BoundHolds, ReachHolds};
ghost use Rattle.mr_values.specs.Timing.{groups};
ghost use Rattle.plan_check.specs.Accepted.{rates_test};

/// Every value of a chain lies in the span of its last stream.
pub fn law_of_span()
    ensures { (width ticks : ℕ) (elements : List Element) → 1 ≤ width → All IsWithinLimits elements → SpanHolds width ticks elements }
{}

/// No value of a chain has a greater magnitude than its peak.
pub fn law_of_peak()
    ensures { (width : ℕ) (elements : List Element) → 1 ≤ width → All IsWithinLimits elements → PeakHolds width elements }
{}

/// Times two to the shift, no value of a chain that clips nothing is further than the bound from the value of the chain
/// without its roundings.
pub fn law_of_bound()
    ensures { (elements : List Element) → All IsWithinLimits elements → BoundHolds elements }
{}

/// A value of a chain depends on at most as many samples as its reach.
pub fn law_of_reach()
    ensures { (ticks : ℕ) (elements : List Element) → 1 ≤ ticks → All IsWithinLimits elements → rates_test ticks (groups elements) ≡ None → ReachHolds ticks elements }
{}

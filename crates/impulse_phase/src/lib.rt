//! The responses of a chain's prefix: each of its values as a weighted sum of the samples.
#![tactic(auto)]

mod composed;
mod filtered;
mod passage;
mod sum;
mod summed;
mod table;

ghost use Rattle.std.specs.Prelude.{ℕ, List, ◌*◌, ◌^◌};
ghost use Rattle.mr_values.specs.declared.plan.Element.{Element};
ghost use Rattle.mr_values.specs.Value.{chain};
ghost use Rattle.impulse_phase.specs.Gain.{HasGain, gain_after_all};
ghost use Rattle.impulse_phase.specs.Reach.{IsExtent, extent};
ghost use Rattle.impulse_phase.specs.Response.{AreLinear, responses, full_cycle, HasResponses};

pub use table::Response;

/// Each value of a chain without roundings is a weighted sum of the samples, by the class of its index.
pub fn law_of_responses()
    ensures { (es : List Element) → AreLinear es → HasResponses (chain es) (responses es) (full_cycle es).classes (full_cycle es).step }
{}

/// How far back such sums look, and how great their weights are.
pub fn law_of_extents()
    ensures reach { (es : List Element) → AreLinear es → IsExtent (responses es) (extent es) }
    ensures gain { (es : List Element) → AreLinear es → HasGain (responses es) (gain_after_all es 1) }
{}

//! The exact ranges of forms over the streams of a chain's prefix.
#![tactic(auto)]

mod extreme;
mod prefix;
mod single;

ghost use Rattle.std.specs.Prelude.{ℕ, ◌<◌, List, ℤ};
ghost use Rattle.mr_values.specs.declared.plan.Element.{Element};
ghost use Rattle.mr_values.specs.Value.{chain};
ghost use Rattle.stage_law.specs.Range.{IsRange};
ghost use Rattle.stage_law.specs.declared.ranges.Class.{Class};
ghost use Rattle.impulse_phase.specs.Response.{AreLinear, responses, full_cycle};
ghost use Rattle.width_extreme.specs.Prefix.{IsStream, range_of, finer_classes};

pub use extreme::{Extreme, Reached};
pub use prefix::PrefixRanges;

/// The range of a form over the streams that a prefix without roundings makes of samples of a width: both ends are reached.
pub fn law_of_ranges()
    ensures { (es : List Element) (width : ℕ) (form : List ℤ) (class : Class) → AreLinear es → class.residue < class.modulus
        → IsRange (IsStream (chain es) width) form class (range_of width form (responses es) class (finer_classes (full_cycle es).classes class.modulus)) }
{}

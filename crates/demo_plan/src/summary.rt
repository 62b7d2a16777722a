// The tally of many values.
ghost use Rattle.std.specs.Prelude.{◌≤◌, ◌^◌, length};
ghost use Rattle.demo_plan.specs.Tallied.{IsTally};

use crate::tally::Tally;

/// The tally of some values.
pub fn tally_of(values: &[i64]) -> Tally
    requires { length values.now ≤ 2 ^ 32 }
    ensures { IsTally values.now result }
{
    let mut tally = Tally::new();
    for value in values {
        tally.add(i128::from(*value));
    }
    tally
}

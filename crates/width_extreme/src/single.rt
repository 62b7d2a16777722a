// The ends of a sum with one weight: those of the value that it weighs, times the weight.

ghost use Rattle.std.specs.Prelude.{◌≡◌, ◌+◌, ◌^◌, ◌<◌, ◌≤◌, ◌∷◌, [], length, pos, unsigned_abs, ◌+ℤ◌, ◌*ℤ◌};
ghost use Rattle.mr_values.specs.Timing.{least_term, low_end};
ghost use Rattle.impulse_phase.specs.Reading.{rows_of};
ghost use Rattle.stage_law.specs.Rising.{factors_from};
ghost use Rattle.width_extreme.specs.Prefix.{least_sample, greatest_sample};
ghost use Rattle.width_extreme.specs.Walk.{weights_at, HasFormRoom, HasSmallSums, HasEndRoom};

use crate::prefix::{PrefixRanges, least_product, product, with_term};
use stage_law::{Range, Weight};

// The sums of the weights above 0, and of those below.
#[derive(Clone, Copy)]
struct SignedSums {
    above: i128,
    below: i128,
}

impl PrefixRanges {
    /// The ends of a sum with this one weight at an index of the first round.
    pub(crate) fn single_ends(&self, index: u64, weight: Weight) -> Range
        requires index { index < length (rows_of self.now.table) }
        requires some { weight.factor ≡ pos 0 → ⊥ }
        requires room { HasFormRoom self.now.table self.now.width (factors_from 0 (weight ∷ [])) }
        ensures low { result.lo ≡ low_end (weights_at self.now.table (factors_from 0 (weight ∷ [])) index) (least_sample self.now.width) (greatest_sample self.now.width) }
        ensures high { result.hi ≡ low_end (weights_at self.now.table (factors_from 0 (weight ∷ [])) index) (greatest_sample self.now.width) (least_sample self.now.width) }
    {
        let entry = self.first_entry(index, weight.behind);
        let sums = signed_sums(self.table.phase(entry.class));
        let least = end_of(sums, self.least(), self.greatest());
        let greatest = end_of(sums, self.greatest(), self.least());
        Range {
            lo: least_product(weight.factor, least, greatest),
            hi: least_product(weight.factor, greatest, least),
        }
    }
}

// The sums of the weights above 0, and of those below.
fn signed_sums(weights: &[i128]) -> SignedSums
    requires { HasSmallSums weights.now }
    ensures above { result.above ≡ low_end weights.now (pos 1) (pos 0) }
    ensures below { result.below ≡ low_end weights.now (pos 0) (pos 1) }
{
    let mut sums = SignedSums { above: 0, below: 0 };
    for weight in weights {
        sums = with_weight(sums, *weight);
    }
    sums
}

// The sums with one weight more.
fn with_weight(sums: SignedSums, weight: i128) -> SignedSums
    requires above { unsigned_abs (sums.above +ℤ least_term (pos 1) (pos 0) weight) ≤ 2 ^ 126 }
    requires below { unsigned_abs (sums.below +ℤ least_term (pos 0) (pos 1) weight) ≤ 2 ^ 126 }
    ensures above { result.above ≡ sums.above +ℤ least_term (pos 1) (pos 0) weight }
    ensures below { result.below ≡ sums.below +ℤ least_term (pos 0) (pos 1) weight }
{
    if weight >= 0 {
        SignedSums {
            above: with_term(sums.above, weight),
            below: sums.below,
        }
    } else {
        SignedSums {
            above: sums.above,
            below: with_term(sums.below, weight),
        }
    }
}

// The sum of samples of which one stands beside the weights above 0, and the other beside those below.
fn end_of(sums: SignedSums, near: i128, far: i128) -> i128
    requires { HasEndRoom sums.above sums.below near far }
    ensures { result ≡ sums.above *ℤ near +ℤ sums.below *ℤ far }
{
    with_term(product(sums.above, near), product(sums.below, far))
}

// The range of a sum: each value at the end of the span that its factor asks for.

ghost use Rattle.std.specs.Prelude.{◌≡◌, ◌+◌, ◌*◌, ◌≤◌, ◌^◌, pos, ◌≤ℤ◌, ◌+ℤ◌, ◌*ℤ◌, max, unsigned_abs};
ghost use Rattle.mr_values.specs.Timing.{low_end};
ghost use Rattle.stage_law.specs.Rising.{factors_in};
ghost use Rattle.stage_law.specs.Streams.{magnitudes};

use crate::terms::{least_product, with_term};
use stage_law::{Class, Range, Ranges, Weight, WeightedSum};

/// Knows all streams that are 0 before they begin and whose values lie from `low` to `high`.
#[derive(Clone, Copy, Debug, PartialEq, Eq)]
pub struct SpanRanges {
    pub low: i128,
    pub high: i128,
    ghost below: { low ≤ℤ pos 0 },
    ghost above: { pos 0 ≤ℤ high },
}

impl SpanRanges {
    /// The streams over a span that holds 0.
    pub fn new(low: i128, high: i128) -> SpanRanges
        requires below { low ≤ℤ pos 0 }
        requires above { pos 0 ≤ℤ high }
        ensures low { result.low ≡ low }
        ensures high { result.high ≡ high }
    {
        SpanRanges { low, high }
    }
}

// The least sum of these weights over numbers from `low` to `high`; with the ends turned, the greatest.
fn least_weighted(weights: &[Weight], low: i128, high: i128) -> i128
    requires { max (unsigned_abs low) (unsigned_abs high) * magnitudes (factors_in weights.now) ≤ 2 ^ 126 }
    ensures { result ≡ low_end (factors_in weights.now) low high }
{
    let mut sum = 0i128;
    for weight in weights {
        let term = least_product(weight.factor, low, high);
        sum = with_term(sum, term);
    }
    sum
}

impl Ranges for SpanRanges {
    ghost use Rattle.span_ranges.specs.Span.{IsInSpan};

    ghost streams = { λ ranges v. IsInSpan ranges.low ranges.high v };

    ghost causal = { λ ranges. record { each = λ v is n. is.causal n } };

    fn range(&self, sum: &WeightedSum, _class: Class) -> Range {
        let weights = sum.weights.as_slice();
        Range {
            lo: least_weighted(weights, self.low, self.high),
            hi: least_weighted(weights, self.high, self.low),
        }
    }
}

// Which values a weighted sum takes over the streams of a chain.

ghost use Rattle.std.specs.Prelude.{◌≡◌, ℕ, ◌<◌, ◌*◌, ◌≤◌, ◌^◌};
ghost use Rattle.stage_law.specs.Streams.{AreWithin, AreCausal, Streams, magnitudes};
ghost use Rattle.stage_law.specs.Range.{IsRange};
ghost use Rattle.stage_law.specs.Weights.{weights_of};

use crate::weights::WeightedSum;

/// The indices k with `k mod modulus = residue`.
#[derive(Clone, Copy, Debug, PartialEq, Eq)]
pub struct Class {
    pub modulus: u32,
    pub residue: u32,
}

/// The numbers from `lo` to `hi`.
#[derive(Clone, Copy, Debug, PartialEq, Eq)]
pub struct Range {
    pub lo: i128,
    pub hi: i128,
}

/// Knows a set of streams, which are 0 before they begin, and the range of each sum over them.
pub trait Ranges {
    ghost streams: { Self → Streams };

    /// The least and the greatest value of the sum over the streams and the indices of the class. It takes no memory.
    fn range(&self, sum: &WeightedSum, class: Class) -> Range
        requires class { class.residue < class.modulus }
        requires room { (m : ℕ) × AreWithin (streams self.now) m × (m * magnitudes (weights_of sum.now) ≤ 2 ^ 126) }
        ensures { IsRange (streams self.now) (weights_of sum.now) class result };

    ghost causal: { (ranges : Self) → AreCausal (streams ranges) };
}

// Weighted sums over a stream.

ghost use Rattle.std.specs.Prelude.{◌≡◌, ◌++◌, IfOk};
ghost use Rattle.stage_law.specs.Rising.{AreRising, kept};

use mr_values::Memory;
use std::alloc::Global;

/// The factor of the value that came so many values before.
#[derive(Clone, Copy, Debug, PartialEq, Eq)]
pub struct Weight {
    pub behind: u64,
    pub factor: i128,
}

/// A weighted sum over a stream: at index k the sum of `factor * v[k - behind]` over its weights, the newest value first.
#[derive(Drop)]
pub struct WeightedSum {
    pub weights: Vec<Weight>,
    ghost rising: { AreRising weights.items },
}

// The factor of a value, where it isn't 0 or is the last.
fn push_weight(
    weights: &mut Vec<Weight>,
    behind: u64,
    factor: i128,
    last: bool,
) -> Result<(), Memory>
    ensures { IfOk result (λ _. weights.new.items ≡ weights.old.items ++ kept last behind factor) }
{
    if last || factor != 0 {
        weights.push(Weight { behind, factor })?;
    }
    Ok(())
}

impl WeightedSum {
    ghost use Rattle.std.specs.Prelude.{◌+◌, ◌<◌, ◌^◌, ◌∷◌, [], pos, length, replicate};
    ghost use Rattle.stage_law.specs.Weights.{weights_of};

    /// The one value that came so many values before. Fails only for want of memory.
    pub fn value(alloc: Global, behind: u64) -> Result<WeightedSum, Memory>
        ensures { IfOk result (λ sum. weights_of sum ≡ replicate behind (pos 0) ++ (pos 1 ∷ [])) }
    {
        let weights = vec![in alloc; Weight { behind, factor: 1 }]?;
        Ok(WeightedSum { weights })
    }

    /// The sum with these factors of the values from the one on that came so many values before, one after another. Fails only for want of
    /// memory.
    pub fn of(alloc: Global, behind: u64, factors: &[i128]) -> Result<WeightedSum, Memory>
        requires some { length factors.now ≡ 0 → behind ≡ 0 }
        requires near { behind + length factors.now < 2 ^ 64 }
        ensures { IfOk result (λ sum. weights_of sum ≡ replicate behind (pos 0) ++ factors.now) }
    {
        let mut weights = Vec::new(alloc);
        for place in 0..factors.len() {
            let last = place + 1 == factors.len();
            push_weight(&mut weights, behind + place as u64, factors[place], last)?;
        }
        Ok(WeightedSum { weights })
    }

    /// A copy of the sum. Fails only for want of memory.
    pub fn copy(&self, alloc: Global) -> Result<WeightedSum, Memory>
        ensures { IfOk result (λ sum. weights_of sum ≡ weights_of self.now) }
    {
        let weights = Vec::from_slice(alloc, self.weights.as_slice())?;
        Ok(WeightedSum { weights })
    }
}

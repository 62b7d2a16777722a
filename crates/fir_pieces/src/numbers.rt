// Whole numbers of a stage.

ghost use Rattle.std.specs.Prelude.{◌≡◌, ◌<◌, ◌≤◌, ◌^◌, ◌+◌};
ghost use Rattle.fir_pieces.specs.Placed.{adders_for};
ghost use Rattle.mr_values.specs.Timing.{ceil_log};

/// The adders of a tree over so many terms, which may all be negative.
pub fn adders_for(terms: u64, negative: bool) -> u64
    ensures value { result ≡ adders_for terms negative }
    ensures small { result ≤ terms }
{
    if terms == 0 || negative {
        terms
    } else {
        terms - 1
    }
}

/// The least `k` with `n ≤ 2^k`.
#[tactic(auto, using(mr_values::proofs::Logarithm::ceil_log_more, mr_values::proofs::Logarithm::ceil_log_end, mr_values::proofs::Logarithm::ceil_log_small))]
pub fn ceil_log(n: u64) -> u32
    requires { n < 2 ^ 31 }
    ensures { result ≡ ceil_log n }
{
    let mut level = 0;
    let mut left = n;
    'halve: while left > 1 {
        left = (left + 1) / 2;
        level += 1;
    }
    level
}

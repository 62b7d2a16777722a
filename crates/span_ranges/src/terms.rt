// Sums of least products.

ghost use Rattle.std.specs.Prelude.{◌≡◌, ◌+◌, ◌*◌, ◌≤◌, ◌^◌, ◌+ℤ◌, ◌*ℤ◌, max, unsigned_abs};
ghost use Rattle.mr_values.specs.Timing.{least_term, low_end};
ghost use Rattle.stage_law.specs.Streams.{magnitudes};

// The product of two numbers.
fn product(a: i128, b: i128) -> i128
    requires { unsigned_abs a * unsigned_abs b ≤ 2 ^ 126 }
    ensures { result ≡ a *ℤ b }
{
    a * b
}

// The least product of a factor with a number from `low` to `high`.
pub(crate) fn least_product(factor: i128, low: i128, high: i128) -> i128
    requires { unsigned_abs factor * max (unsigned_abs low) (unsigned_abs high) ≤ 2 ^ 126 }
    ensures value { result ≡ least_term low high factor }
    ensures small { unsigned_abs result ≤ unsigned_abs factor * max (unsigned_abs low) (unsigned_abs high) }
{
    if factor >= 0 {
        product(factor, low)
    } else {
        product(factor, high)
    }
}

// A sum with one more term.
pub(crate) fn with_term(sum: i128, term: i128) -> i128
    requires { unsigned_abs sum + unsigned_abs term ≤ 2 ^ 126 }
    ensures { result ≡ sum +ℤ term }
{
    sum + term
}

/// The least sum of these factors times numbers from `low` to `high`; with the ends turned, the greatest.
pub fn least_sum(factors: &[i128], low: i128, high: i128) -> i128
    requires { max (unsigned_abs low) (unsigned_abs high) * magnitudes factors.now ≤ 2 ^ 126 }
    ensures { result ≡ low_end factors.now low high }
{
    let mut sum = 0i128;
    for factor in factors {
        let term = least_product(*factor, low, high);
        sum = with_term(sum, term);
    }
    sum
}

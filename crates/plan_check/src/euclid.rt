// The greatest common divisor.
ghost use Rattle.std.specs.Prelude.{◌≡◌, ◌≤◌};
ghost use Rattle.std.specs.Int.{IsGcd};
ghost use Rattle.plan_check.specs.Costs.{gcd};

/// The greatest common divisor, by Euclid.
#[tactic(auto, using(crate::proofs::Divisors::gcd_step, crate::proofs::Divisors::gcd_end, crate::proofs::Divisors::rest_below))]
pub fn gcd(a: u64, b: u64) -> u64
    ensures value { result ≡ gcd a b }
    ensures greatest { IsGcd a b result }
    ensures some { 1 ≤ a → 1 ≤ result }
{
    let mut greater = a;
    let mut less = b;
    'divide: while less != 0 {
        let rest = greater % less;
        greater = less;
        less = rest;
    }
    greater
}

// What holds of whatever a number draws.
ghost use Rattle.std.specs.Prelude.{◌≡◌, ◌≤◌, ◌*◌, ◌^◌, ℕ, ℤ, All, length, unsigned_abs};
ghost use Rattle.mr_values.specs.Timing.{ceil_div};
ghost use Rattle.mr_values.specs.Value.{val};
ghost use Rattle.mr_values.specs.Width.{FitsWidth};
ghost use Rattle.plan_check.specs.Accepted.{IsAccepted};
ghost use Rattle.demo_plan.specs.Drawn.{factor_drawn, elements_drawn, plan_drawn, samples_drawn, count_drawn, values_drawn};

/// The plan that a number draws passes every test of a plan.
pub fn law_of_acceptance()
    ensures { (number : ℕ) → IsAccepted (plan_drawn number) }
{}

/// The samples that a number draws fit the width of its plan, no value of the chain over them has a magnitude above 2^64, and there are few that belong to the samples.
pub fn law_of_values()
    ensures samples { (number : ℕ) → All (FitsWidth 12) (samples_drawn number) }
    ensures small { (number : ℕ) (n : ℤ) → unsigned_abs (val (elements_drawn number) (samples_drawn number) n) ≤ 2 ^ 64 }
    ensures count { (number : ℕ) → count_drawn number ≡ ceil_div 100000 (factor_drawn number * 2) }
    ensures few { (number : ℕ) → count_drawn number ≤ 2 ^ 32 }
    ensures all { (number : ℕ) → length (values_drawn number) ≡ count_drawn number }
{}

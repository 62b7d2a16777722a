//! Sums of weights.

ghost use Rattle.std.specs.Prelude.{◌≡◌, ℕ, ◌+◌, ◌*◌, ◌^◌, ◌≤◌, length, unsigned_abs, ◌+ℤ◌, ◌*ℤ◌, OnOk};
ghost use Rattle.plan_check.specs.Amounts.{magnitude};
ghost use Rattle.impulse_phase.specs.Response.{added, scaled, behind};

use mr_values::Memory;

/// Adds `tap` times the weights, which begin `delay` places further on, to the sum. Fails only for want of memory.
pub(crate) fn add_scaled(
    sum: &mut Vec<i128>,
    tap: i64,
    delay: u64,
    weights: &[i128],
) -> Result<(), Memory>
    requires { unsigned_abs tap * magnitude weights.now + magnitude sum.old.items ≤ 2 ^ 126 }
    ensures { OnOk result (sum.new.items ≡ added (scaled tap (behind delay weights.now)) sum.old.items) }
{
    if weights.is_empty() {
        return Ok(());
    }
    let end = (delay as usize).checked_add(weights.len()).ok_or(Memory)?;
    sum.resize(end.max(sum.len()), 0)?;
    add_at(sum, tap, delay as usize, weights);
    Ok(())
}

// Adds `tap` times the weights to the places from `from` on.
fn add_at(sum: &mut [i128], tap: i64, from: usize, weights: &[i128])
    requires within { from + length weights.now ≤ length sum.old }
    requires room { unsigned_abs tap * magnitude weights.now + magnitude sum.old ≤ 2 ^ 126 }
    ensures { sum.new ≡ added (scaled tap (behind from weights.now)) sum.old }
{
    for (i, weight) in weights.iter().enumerate() {
        sum[from + i] = with_term(sum[from + i], tap, *weight);
    }
}

// `total + tap * weight`.
fn with_term(total: i128, tap: i64, weight: i128) -> i128
    requires { unsigned_abs total + unsigned_abs tap * unsigned_abs weight ≤ 2 ^ 126 }
    ensures { result ≡ total +ℤ tap *ℤ weight }
{
    total + i128::from(tap) * weight
}

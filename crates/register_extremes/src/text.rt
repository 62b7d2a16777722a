// The text of samples that drive a linear register to a value which needs all of its bits.
ghost use Rattle.std.specs.Prelude.{◌≡◌, true, IfOk, IfSome, IfNone};
ghost use Rattle.mr_values.specs.Value.{size};
ghost use Rattle.plan_check.specs.Accepted.{IsAccepted, AreFacts};
ghost use Rattle.chain_build.specs.Built.{are_built};
ghost use Rattle.chain_build.specs.Told.{HasNoRegister};
ghost use Rattle.register_extremes.specs.Text.{IsExtremeText};

use chain_build::register_extreme;
use extreme_file::extreme_text;
use mr_values::{Memory, Plan};
use plan_check::Facts;
use std::alloc::Global;

/// The text of samples that drive the linear register of this name to a value which needs all of its bits, or none where an accepted
/// plan has no such register for which one bit is too few. Fails only for want of memory.
pub fn register_text(
    alloc: Global,
    plan: &Plan,
    facts: &Facts,
    register: &str,
) -> Result<Option<Vec<u8>>, Memory>
    requires accepted { IsAccepted plan.now }
    requires are_facts { AreFacts (size plan.now.width) (size plan.now.ticks) plan.now.elements facts.now }
    requires built { are_built plan.now.elements ≡ true }
    ensures some { IfOk result (λ found. IfSome found (λ text. IsExtremeText (size plan.now.width) (size plan.now.ticks) plan.now.elements register.now text.items)) }
    ensures none { IfOk result (λ found. IfNone found (HasNoRegister (size plan.now.width) (size plan.now.ticks) plan.now.elements register.now)) }
{
    match register_extreme(alloc, plan, facts, register)? {
        Some(extreme) => {
            let text = extreme_text(
                alloc,
                register,
                extreme.tick,
                extreme.value,
                &extreme.samples,
            )?;
            Ok(Some(text))
        }
        None => Ok(None),
    }
}

// The command `extreme`.
ghost use Rattle.std.specs.Prelude.{IfErr, IsTrue};
ghost use Rattle.command_files.specs.Conversions.{IsPlain};
ghost use Rattle.command_files.specs.Ends.{EndsWith, call_of};
ghost use Rattle.plan_commands.specs.Extreme.{ExtremeEnds};
ghost use Rattle.command_files.specs.PlanFile.{IsOfPlan};

use chain_build::can_build;
use command_files::{CommandFault, read_accepted, write_file};
use mr_values::{Host, Text};
use register_extremes::register_text;
use std::alloc::Global;

/// Reads PLAN and its tap files whole, and writes to OUT samples that drive the linear register of this name to a value which needs all
/// of its bits. Fails with `FileTooLong` where one of them has more than 1 MiB, with the first test that the plan doesn't pass, with
/// `NotBuilt` where it is accepted but not built yet, with `NoSuchRegister` where it has no linear register of this name that needs more
/// than one bit, with `HostFault` where a host call fails, and for want of memory.
pub fn extreme<H: Host>(
    alloc: Global,
    plan: &str,
    register: &str,
    out: &str,
    host: &mut H,
) -> Result<(), CommandFault>
    ensures plain { IfErr result IsPlain }
    ensures cause { EndsWith (IsOfPlan plan.now) (call_of result) (H.state host.old) (H.state host.new) }
    ensures told { IsTrue (H.state host.old).tells → ExtremeEnds plan.now register.now out.now result (H.state host.old) (H.state host.new) }
{
    let accepted = read_accepted(alloc, host, plan)?;
    if !can_build(&accepted.plan) {
        return Err(CommandFault::NotBuilt);
    }
    match register_text(alloc, &accepted.plan, &accepted.facts, register)? {
        Some(text) => Ok(write_file(host, out, &text)?),
        None => {
            let name = Text::from_str(alloc, register)?;
            Err(CommandFault::NoSuchRegister { name })
        }
    }
}

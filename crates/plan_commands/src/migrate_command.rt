// The command `migrate`.
ghost use Rattle.std.specs.Prelude.{IfErr, IfOk, IsTrue};
ghost use Rattle.command_files.specs.Conversions.{IsPlain};
ghost use Rattle.command_files.specs.Ends.{EndsWith, call_of};
ghost use Rattle.command_files.specs.PlanFile.{IsOfPlan};
ghost use Rattle.plan_commands.specs.Migrate.{IsSecond, MigrateEnds};

use command_files::{AcceptedPlan, CommandFault, read_accepted, write_file};
use mr_values::{Host, Memory, Plan};
use plan_reader::plan_text;
use std::alloc::Global;

/// The version of the plan files that are written.
const SECOND: u8 = 2;

/// Reads PLAN and its tap files whole, and writes the plan to OUT in version 2, its taps in it; a plan of version 2 is written
/// again. Fails with `FileTooLong` where one of them has more than 1 MiB, with the first test that the plan doesn't pass, with
/// `HostFault` where a host call fails, and for want of memory.
pub fn migrate<H: Host>(
    alloc: Global,
    plan: &str,
    out: &str,
    host: &mut H,
) -> Result<(), CommandFault>
    ensures plain { IfErr result IsPlain }
    ensures cause { EndsWith (IsOfPlan plan.now) (call_of result) (H.state host.old) (H.state host.new) }
    ensures told { IsTrue (H.state host.old).tells → MigrateEnds plan.now out.now result (H.state host.old) (H.state host.new) }
{
    let accepted = read_accepted(alloc, host, plan)?;
    let AcceptedPlan {
        version: _version,
        plan: meaning,
        facts: _facts,
    } = accepted;
    let text = second_text(alloc, &meaning)?;
    write_file(host, out, &text)?;
    Ok(())
}

// The text of a plan in version 2, which has each element and each mode.
fn second_text(alloc: Global, plan: &Plan) -> Result<Vec<u8>, Memory>
    ensures { IfOk result (λ text. IsSecond plan.now text.items) }
{
    plan_text(alloc, SECOND, plan)
}

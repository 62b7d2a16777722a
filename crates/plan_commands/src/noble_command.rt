// The command `noble`.
ghost use Rattle.std.specs.Prelude.{IfErr, IfOk, IsTrue};
ghost use Rattle.plan_reader.specs.Versions.{IsVersioned};
ghost use Rattle.plan_check.specs.Accepted.{IsAccepted};
ghost use Rattle.command_files.specs.Conversions.{IsPlain};
ghost use Rattle.command_files.specs.Ends.{EndsWith, call_of};
ghost use Rattle.plan_commands.specs.Noble.{IsRewriting, NobleEnds};
ghost use Rattle.command_files.specs.PlanFile.{IsOfPlan};

use command_files::{AcceptedPlan, CommandFault, read_accepted, write_file};
use mr_values::{Host, Memory, Plan};
use noble_rewrite::rewrite;
use plan_reader::plan_text;
use std::alloc::Global;

/// Reads PLAN and its tap files whole, and writes the plan with the noble identities applied to OUT, in the version of PLAN. Fails with
/// `FileTooLong` where one of them has more than 1 MiB, with the first test that the plan doesn't pass, with
/// `HostFault` where a host call fails, and for want of memory.
pub fn noble<H: Host>(
    alloc: Global,
    plan: &str,
    out: &str,
    host: &mut H,
) -> Result<(), CommandFault>
    ensures plain { IfErr result IsPlain }
    ensures cause { EndsWith (IsOfPlan plan.now) (call_of result) (H.state host.old) (H.state host.new) }
    ensures told { IsTrue (H.state host.old).tells → NobleEnds plan.now out.now result (H.state host.old) (H.state host.new) }
{
    let accepted = read_accepted(alloc, host, plan)?;
    let AcceptedPlan {
        version,
        plan: meaning,
        facts: _facts,
    } = accepted;
    let text = rewritten_text(alloc, version, meaning)?;
    write_file(host, out, &text)?;
    Ok(())
}

// The text of an accepted plan with the noble identities applied, in the version that it has.
fn rewritten_text(alloc: Global, version: u8, mut plan: Plan) -> Result<Vec<u8>, Memory>
    requires accepted { IsAccepted plan }
    requires versioned { IsVersioned version plan.elements }
    ensures { IfOk result (λ text. IsRewriting version plan text.items) }
{
    let rewritten = rewrite(alloc, plan.elements.as_slice())?;
    plan.elements = rewritten.elements;
    plan_text(alloc, version, &plan)
}

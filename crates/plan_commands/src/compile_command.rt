// The command `compile`.
ghost use Rattle.std.specs.Prelude.{IfErr, IsTrue};
ghost use Rattle.command_files.specs.Conversions.{IsPlain};
ghost use Rattle.command_files.specs.Ends.{EndsWith, call_of};
ghost use Rattle.plan_commands.specs.Compile.{CompileEnds};
ghost use Rattle.command_files.specs.PlanFile.{IsOfPlan};

use chain_build::can_build;
use command_files::{CommandFault, read_accepted, write_file};
use filter_report::report_text;
use filter_text::{chain_module, chain_text};
use mr_values::Host;
use std::alloc::Global;

/// Reads PLAN and its tap files whole, and writes the module to TEXT and then the report to REPORT. Fails with
/// `FileTooLong` where one of them has more than 1 MiB, with the first test that the plan doesn't pass, with `NotBuilt`
/// where it is accepted but not built yet, with `HostFault` where a host call fails, and for want of memory.
pub fn compile<H: Host>(
    alloc: Global,
    plan: &str,
    text: &str,
    report: &str,
    host: &mut H,
) -> Result<(), CommandFault>
    ensures plain { IfErr result IsPlain }
    ensures cause { EndsWith (IsOfPlan plan.now) (call_of result) (H.state host.old) (H.state host.new) }
    ensures told { IsTrue (H.state host.old).tells → CompileEnds plan.now text.now report.now result (H.state host.old) (H.state host.new) }
{
    let accepted = read_accepted(alloc, host, plan)?;
    if !can_build(&accepted.plan) {
        return Err(CommandFault::NotBuilt);
    }
    let module = chain_module(alloc, &accepted.plan, &accepted.facts)?;
    let bytes = chain_text(alloc, &module)?;
    let lines = report_text(alloc, &accepted.facts, &module)?;
    write_file(host, text, &bytes)?;
    write_file(host, report, &lines)?;
    Ok(())
}

// The command `run`.
ghost use Rattle.std.specs.Prelude.{◌≡◌, ◌≢◌, IfErr, IsTrue};
ghost use Rattle.mr_values.specs.Value.{size};
ghost use Rattle.plan_check.specs.Accepted.{IsAccepted, AreFacts};
ghost use Rattle.command_files.specs.Conversions.{IsPlain};
ghost use Rattle.command_files.specs.Ends.{EndsWith, call_of};
ghost use Rattle.plan_commands.specs.Run.{RunEnds, IsReadForRun, plan_timing};

use chain_build::can_build;
use chain_run::{ChainStream, ChainTiming};
use command_files::{CommandFault, read_accepted, stream_rows};
use filter_text::chain_module;
use mr_values::{Host, Plan};
use plan_check::Facts;
use std::alloc::Global;

/// Reads PLAN and its tap files whole, and writes the values of its chain that belong to the samples of SAMPLES to OUT, one on each line.
/// Fails with `FileTooLong` where PLAN or a tap file has more than 1 MiB, with the first test that the plan doesn't pass, with `NotBuilt`
/// where it is accepted but not built yet, with the first line of SAMPLES that is refused, where OUT has the values up to there, with
/// `HostFault` where a host call fails, and for want of memory.
pub fn run_plan<H: Host>(
    alloc: Global,
    plan: &str,
    samples: &str,
    out: &str,
    host: &mut H,
) -> Result<(), CommandFault>
    requires { samples.now ≢ out.now }
    ensures plain { IfErr result IsPlain }
    ensures cause { EndsWith (IsReadForRun plan.now samples.now) (call_of result) (H.state host.old) (H.state host.new) }
    ensures told { IsTrue (H.state host.old).tells → RunEnds plan.now samples.now out.now result (H.state host.old) (H.state host.new) }
{
    let accepted = read_accepted(alloc, host, plan)?;
    if !can_build(&accepted.plan) {
        return Err(CommandFault::NotBuilt);
    }
    let timing = timing_of(&accepted.plan, &accepted.facts);
    let chain = chain_module(alloc, &accepted.plan, &accepted.facts)?;
    let mut stream = ChainStream::start(alloc, &chain.design, timing)?;
    stream_rows(alloc, host, samples, out, &mut stream)?;
    Ok(())
}

// At which ticks the samples and the values of a plan stand.
fn timing_of(plan: &Plan, facts: &Facts) -> ChainTiming
    requires accepted { IsAccepted plan.now }
    requires are_facts { AreFacts (size plan.now.width) (size plan.now.ticks) plan.now.elements facts.now }
    ensures { result ≡ plan_timing plan.now }
{
    ChainTiming {
        width: plan.width as u8,
        ticks: plan.ticks as u64,
        latency: facts.latency,
        period: facts.period,
    }
}

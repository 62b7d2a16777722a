//! The command `demo`.
//!
//! It owns what `demo` writes and how it ends. It knows no plan file: the plan is drawn from the number. `filter_core` relies on it.
#![tactic(auto)]

ghost use Rattle.std.specs.Prelude.{IfErr, IsTrue};
ghost use Rattle.command_files.specs.Conversions.{IsPlain};
ghost use Rattle.command_files.specs.Ends.{EndsWith, IsNoFile, call_of};
ghost use Rattle.demo_command.specs.Demo.{DemoEnds};

use command_files::{CommandFault, write_file};
use demo_plan::demo_line;
use mr_values::Host;
use std::alloc::Global;

/// Writes the line of the plan and the samples that a number draws to OUT: how many values the plan makes of the samples, their sum, and the least
/// and the greatest of them. It reads no file. Fails with `HostFault` where a host call fails, and for want of memory.
pub fn demo<H: Host>(
    alloc: Global,
    number: u64,
    out: &str,
    host: &mut H,
) -> Result<(), CommandFault>
    ensures cause { EndsWith IsNoFile (call_of result) (H.state host.old) (H.state host.new) }
    ensures plain { IfErr result IsPlain }
    ensures told { IsTrue (H.state host.old).tells → DemoEnds number out.now result (H.state host.old) (H.state host.new) }
{
    let text = demo_line(alloc, number)?;
    write_file(host, out, &text)?;
    Ok(())
}

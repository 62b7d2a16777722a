// The command `sim`.
ghost use Rattle.std.specs.Prelude.{◌≢◌, IfErr, IsTrue};
ghost use Rattle.command_files.specs.Conversions.{IsPlain};
ghost use Rattle.command_files.specs.Ends.{EndsWith, call_of};
ghost use Rattle.text_commands.specs.Sim.{SimEnds, IsTextOrStimulus};

use command_files::{CommandFault, read_design, stream_rows};
use mr_values::Host;
use sim_stream::SimStream;
use std::alloc::Global;

/// Reads TEXT whole, and writes to OUT the lines of what its module shows from registers of 0 over the rows of STIMULUS. Fails with
/// `FileTooLong` where TEXT has more than 64 MiB, with the first place at which it is no text of the grammar, with the first check that
/// its module fails, with the first line of STIMULUS that is refused, where OUT holds the lines of the cycles before it, with `HostFault`
/// where a host call fails, and for want of memory.
pub fn sim<H: Host>(
    alloc: Global,
    text: &str,
    stimulus: &str,
    out: &str,
    host: &mut H,
) -> Result<(), CommandFault>
    requires { stimulus.now ≢ out.now }
    ensures plain { IfErr result IsPlain }
    ensures cause { EndsWith (IsTextOrStimulus text.now stimulus.now) (call_of result) (H.state host.old) (H.state host.new) }
    ensures told { IsTrue (H.state host.old).tells → SimEnds text.now stimulus.now out.now result (H.state host.old) (H.state host.new) }
{
    let design = read_design(alloc, host, text)?;
    let mut stream = SimStream::start(alloc, &design)?;
    stream_rows(alloc, host, stimulus, out, &mut stream)?;
    Ok(())
}

// The command `order`.
ghost use Rattle.std.specs.Prelude.{◌≡◌, ◌≢◌, IfErr, IsTrue};
ghost use Rattle.command_files.specs.Conversions.{IsPlain};
ghost use Rattle.command_files.specs.Ends.{EndsWith, call_of};
ghost use Rattle.text_commands.specs.Order.{OrderEnds};
ghost use Rattle.text_commands.specs.Sim.{IsTextOrStimulus};

use command_files::{CommandFault, read_design, stream_rows};
use mr_values::Host;
use order_stream::{OrderStream, law_of_every_order};
use std::alloc::Global;

/// Reads TEXT whole, and writes to OUT the lines that `sim` writes, each with the place of the assignment that the steps drawn from the
/// number evaluate last in its cycle before the outputs are read. Fails as `sim` does.
pub fn order<H: Host>(
    alloc: Global,
    text: &str,
    stimulus: &str,
    out: &str,
    number: u64,
    host: &mut H,
) -> Result<(), CommandFault>
    requires { stimulus.now ≢ out.now }
    ensures plain { IfErr result IsPlain }
    ensures cause { EndsWith (IsTextOrStimulus text.now stimulus.now) (call_of result) (H.state host.old) (H.state host.new) }
    ensures told { IsTrue (H.state host.old).tells → OrderEnds text.now stimulus.now out.now number result (H.state host.old) (H.state host.new) }
{
    let design = read_design(alloc, host, text)?;
    law_of_every_order(&design);
    let mut stream = OrderStream::start(alloc, &design, number)?;
    stream_rows(alloc, host, stimulus, out, &mut stream)?;
    Ok(())
}

// The outputs of a net.

ghost use Rattle.std.specs.Prelude.{IfOk};
ghost use Rattle.chain_build.specs.Output.{CanShow, AddsOutputs};

use mr_values::Memory;
use net_graph::{Net, Node, Stream};
use net_outputs::{output_register, shown_bit};
use stage_law::Range;
use std::alloc::Global;

/// The output register, and the node that is shown as `out_valid`.
#[derive(Clone, Copy)]
pub(crate) struct Outputs {
    pub(crate) out_q: Node,
    pub(crate) out_valid: Node,
}

/// Adds the output register, which takes the stream at its ticks and is as wide as the range needs, and the bit that is set where the
/// register has a new value.
pub(crate) fn add_outputs(
    alloc: Global,
    net: &mut Net,
    from: Stream,
    range: Range,
) -> Result<Outputs, Memory>
    requires can { CanShow net.old from }
    ensures ok { IfOk result (AddsOutputs range.lo range.hi net.old net.new from) }
{
    let out_q = output_register(alloc, net, from, range)?;
    let out_valid = shown_bit(alloc, net, from.period, from.offset + 1)?;
    Ok(Outputs { out_q, out_valid })
}

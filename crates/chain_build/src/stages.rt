// One stage in a net.

ghost use Rattle.std.specs.Prelude.{IfOk};
ghost use Rattle.stage_law.specs.Streams.{HasRoom};
ghost use Rattle.chain_build.specs.Added.{CanEmit, KeepsGroup, IsStageAdded};

use crate::groups::{Added, GroupCost};
use mr_values::Memory;
use net_graph::{Net, Stream};
use stage_law::{Ranges, Stage};
use std::alloc::Global;

/// Adds the nodes of a stage. Fails only for want of memory.
pub(crate) fn emit_stage<S: Stage, R: Ranges>(
    alloc: Global,
    net: &mut Net,
    from: Stream,
    stage: &S,
    ranges: &R,
) -> Result<Added, Memory>
    requires can { CanEmit net.old from }
    requires takes { S.takes stage.now from.period }
    requires admits { S.admits stage.now (R.streams ranges.now) }
    requires room { HasRoom (R.streams ranges.now) (S.facts stage.now).gain }
    ensures ok { IfOk result (λ a. IsStageAdded (S.facts stage.now) (R.streams ranges.now) net.old net.new from a) }
    ensures keeps { KeepsGroup net.old net.new }
{
    let emitted = stage.emit(alloc, net, from, ranges)?;
    let cost = GroupCost {
        kind: stage.kind(),
        cost: stage.cost(),
    };
    Ok(Added { emitted, cost })
}

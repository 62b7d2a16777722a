// A parallel filter between an Up and a Down.

ghost use Rattle.std.specs.Prelude.{◌≤◌, IfOk};
ghost use Rattle.mr_values.specs.Value.{AreTaps};
ghost use Rattle.polyphase_fir.specs.Facts.{polyphase_facts, TakesPeriod};
ghost use Rattle.stage_law.specs.Streams.{HasRoom, magnitudes};
ghost use Rattle.chain_build.specs.Added.{CanEmit, KeepsGroup, IsStageAdded};

use crate::groups::Added;
use crate::stages::emit_stage;
use mr_values::Memory;
use net_graph::{Net, Stream};
use polyphase_fir::Polyphase;
use stage_law::{Ranges, Rates};
use std::alloc::Global;

/// Adds the nodes of a parallel filter with these taps between an Up and a Down. Fails only for want of memory.
pub(crate) fn add_parallel<R: Ranges>(
    alloc: Global,
    net: &mut Net,
    from: Stream,
    taps: &[i64],
    rates: Rates,
    ranges: &R,
) -> Result<Added, Memory>
    requires can { CanEmit net.old from }
    requires taps { AreTaps taps.now }
    requires up_low { 1 ≤ rates.up }
    requires up_high { rates.up ≤ 4096 }
    requires down_low { 1 ≤ rates.down }
    requires down_high { rates.down ≤ 4096 }
    requires takes { TakesPeriod rates.up rates.down from.period }
    requires room { HasRoom (R.streams ranges.now) (magnitudes taps.now) }
    ensures ok { IfOk result (λ a. IsStageAdded (polyphase_facts taps.now rates.up rates.down) (R.streams ranges.now) net.old net.new from a) }
    ensures keeps { KeepsGroup net.old net.new }
{
    let stage = Polyphase::new(alloc, taps, rates)?;
    let added = emit_stage(alloc, net, from, &stage, ranges)?;
    Ok(added)
}

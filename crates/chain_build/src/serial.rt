// A filter by distributed arithmetic before a Down.

ghost use Rattle.std.specs.Prelude.{◌≡◌, ◌*◌, ◌≤◌, ◌≤ℤ◌, pos, IfOk};
ghost use Rattle.mr_values.specs.Value.{AreTaps, size};
ghost use Rattle.distributed_table.specs.Facts.{distributed_facts, HaveBits, TakesBits};
ghost use Rattle.stage_law.specs.Streams.{HasRoom, magnitudes};
ghost use Rattle.chain_build.specs.Added.{CanEmit, KeepsGroup, IsStageAdded};

use crate::forms::RatedFilter;
use crate::groups::Added;
use crate::stages::emit_stage;
use distributed_table::Distributed;
use mr_values::Memory;
use net_graph::{Net, Stream};
use stage_law::Ranges;
use std::alloc::Global;

// Adds the nodes of a filter whose tables take G taps each.
fn add_tables<const G: usize, R: Ranges>(
    alloc: Global,
    net: &mut Net,
    from: Stream,
    part: &RatedFilter,
    ranges: &R,
) -> Result<Added, Memory>
    requires can { CanEmit net.old from }
    requires some { 1 ≤ G }
    requires few { G ≤ 6 }
    requires taps { AreTaps part.now.filter.taps.now }
    requires down_low { 1 ≤ part.now.rates.down }
    requires down_high { part.now.rates.down ≤ 4096 }
    requires bits_low { 1 ≤ part.now.bits }
    requires bits_high { part.now.bits ≤ 128 }
    requires takes { TakesBits part.now.rates.down part.now.bits from.period }
    requires bits { HaveBits (R.streams ranges.now) part.now.bits }
    requires room { HasRoom (R.streams ranges.now) (magnitudes part.now.filter.taps.now) }
    ensures ok { IfOk result (λ a. IsStageAdded (distributed_facts G part.now.filter.taps.now part.now.rates.down part.now.bits) (R.streams ranges.now) net.old net.new from a) }
    ensures keeps { KeepsGroup net.old net.new }
{
    let stage = Distributed::<G>::new(alloc, part.filter.taps, part.rates.down, part.bits)?;
    let added = emit_stage(alloc, net, from, &stage, ranges)?;
    Ok(added)
}

/// Adds the nodes of a filter by distributed arithmetic before a Down, whose tables take `group` taps each. Fails only for want of memory.
pub(crate) fn add_serial<R: Ranges>(
    alloc: Global,
    net: &mut Net,
    from: Stream,
    part: &RatedFilter,
    group: i64,
    ranges: &R,
) -> Result<Added, Memory>
    requires can { CanEmit net.old from }
    requires some { pos 1 ≤ℤ group }
    requires few { group ≤ℤ pos 6 }
    requires taps { AreTaps part.now.filter.taps.now }
    requires down_low { 1 ≤ part.now.rates.down }
    requires down_high { part.now.rates.down ≤ 4096 }
    requires bits_low { 1 ≤ part.now.bits }
    requires bits_high { part.now.bits ≤ 128 }
    requires takes { TakesBits part.now.rates.down part.now.bits from.period }
    requires bits { HaveBits (R.streams ranges.now) part.now.bits }
    requires room { HasRoom (R.streams ranges.now) (magnitudes part.now.filter.taps.now) }
    ensures ok { IfOk result (λ a. IsStageAdded (distributed_facts (size group) part.now.filter.taps.now part.now.rates.down part.now.bits) (R.streams ranges.now) net.old net.new from a) }
    ensures keeps { KeepsGroup net.old net.new }
{
    match group {
        1 => add_tables::<1, R>(alloc, net, from, part, ranges),
        2 => add_tables::<2, R>(alloc, net, from, part, ranges),
        3 => add_tables::<3, R>(alloc, net, from, part, ranges),
        4 => add_tables::<4, R>(alloc, net, from, part, ranges),
        5 => add_tables::<5, R>(alloc, net, from, part, ranges),
        6 => add_tables::<6, R>(alloc, net, from, part, ranges),
        _ => unreachable!(),
    }
}

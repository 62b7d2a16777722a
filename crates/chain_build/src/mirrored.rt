// A filter with mirrored taps before a Down.

ghost use Rattle.std.specs.Prelude.{◌≡◌, ◌≤◌, ◌||◌, true, IfOk};
ghost use Rattle.mr_values.specs.Value.{AreTaps};
ghost use Rattle.plan_check.specs.Forms.{is_symmetric, is_antisymmetric};
ghost use Rattle.stage_law.specs.Streams.{HasRoom, magnitudes};
ghost use Rattle.symmetric_fir.specs.Facts.{mirror_facts, TakesPeriod};
ghost use Rattle.symmetric_fir.specs.Pairs.{IsMirrored};
ghost use Rattle.chain_build.specs.Added.{CanEmit, KeepsGroup, IsStageAdded};
ghost use Rattle.chain_build.specs.Forms.{anti_of};

use crate::groups::Added;
use crate::stages::emit_stage;
use mr_values::Memory;
use net_graph::{Net, Stream};
use plan_check::is_symmetric;
use stage_law::Ranges;
use std::alloc::Global;
use symmetric_fir::Mirror;

// Adds the nodes of a filter whose taps are mirrored with this sign: 0 for the same, 1 for their negations.
fn add_mirror<const ANTI: usize, R: Ranges>(
    alloc: Global,
    net: &mut Net,
    from: Stream,
    taps: &[i64],
    down: u32,
    ranges: &R,
) -> Result<Added, Memory>
    requires can { CanEmit net.old from }
    requires taps { AreTaps taps.now }
    requires mirrored { IsMirrored ANTI taps.now }
    requires down_low { 1 ≤ down }
    requires down_high { down ≤ 4096 }
    requires takes { TakesPeriod from.period }
    requires room { HasRoom (R.streams ranges.now) (magnitudes taps.now) }
    ensures ok { IfOk result (λ a. IsStageAdded (mirror_facts ANTI taps.now down) (R.streams ranges.now) net.old net.new from a) }
    ensures keeps { KeepsGroup net.old net.new }
{
    let stage = Mirror::<ANTI>::new(alloc, taps, down)?;
    let added = emit_stage(alloc, net, from, &stage, ranges)?;
    Ok(added)
}

/// Adds the nodes of a filter before a Down, whose taps read backwards are the taps or their negations. Fails only for want of memory.
pub(crate) fn add_mirrored<R: Ranges>(
    alloc: Global,
    net: &mut Net,
    from: Stream,
    taps: &[i64],
    down: u32,
    ranges: &R,
) -> Result<Added, Memory>
    requires can { CanEmit net.old from }
    requires taps { AreTaps taps.now }
    requires mirrored { (is_symmetric taps.now || is_antisymmetric taps.now) ≡ true }
    requires down_low { 1 ≤ down }
    requires down_high { down ≤ 4096 }
    requires takes { TakesPeriod from.period }
    requires room { HasRoom (R.streams ranges.now) (magnitudes taps.now) }
    ensures ok { IfOk result (λ a. IsStageAdded (mirror_facts (anti_of taps.now) taps.now down) (R.streams ranges.now) net.old net.new from a) }
    ensures keeps { KeepsGroup net.old net.new }
{
    if is_symmetric(taps) {
        add_mirror::<0, R>(alloc, net, from, taps, down, ranges)
    } else {
        add_mirror::<1, R>(alloc, net, from, taps, down, ranges)
    }
}

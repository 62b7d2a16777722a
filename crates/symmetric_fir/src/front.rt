// Registers over the pairs and the centre of a window.

ghost use Rattle.std.specs.Prelude.{◌≡◌, ℕ, ◌^◌, ◌≤◌, ◌<◌, ◌*◌, length, IfOk};
ghost use Rattle.net_graph.specs.Grow.{Extends};
ghost use Rattle.stage_law.specs.Streams.{AreWithin};
ghost use Rattle.fir_pieces.specs.Readers.{AreNodes};
ghost use Rattle.symmetric_fir.specs.Front.{AddsFront};
ghost use Rattle.symmetric_fir.specs.Pairs.{pairs, centres};

use crate::pairs::Pairs;
use fir_pieces::{Readers, add_readers};
use mr_values::Memory;
use net_graph::{NameKind, Net, Node};
use stage_law::Ranges;
use std::alloc::Global;

/// Registers over the pairs, and over the centre.
#[derive(Drop)]
pub(crate) struct Front {
    pub(crate) pairs: Readers,
    pub(crate) centres: Readers,
}

/// The registers over the pairs of a window and over its centre.
pub(crate) fn add_front<R: Ranges>(
    alloc: Global,
    net: &mut Net,
    window: &[Node],
    anti: usize,
    taps: &[i64],
    found: &Pairs,
    ranges: &R,
) -> Result<Front, Memory>
    requires data_group { 1 ≤ net.old.group }
    requires nodes { AreNodes net.old.cells window.now }
    requires deep { length window.now ≡ length taps.now }
    requires are_pairs { found.now.pairs.items ≡ pairs anti taps.now }
    requires are_centres { found.now.centres.items ≡ centres taps.now }
    requires room { (most : ℕ) × AreWithin (R.streams ranges.now) most × (most ≤ 2 ^ 125) }
    ensures ok { IfOk result (λ f. AddsFront (R.streams ranges.now) net.old net.new window.now anti taps.now f.pairs.held.items f.centres.held.items f.pairs.nodes.items f.centres.nodes.items) }
    ensures extends { Extends net.old.cells net.new.cells }
    ensures group { net.new.group ≡ net.old.group }
{
    let pairs = add_readers(
        alloc,
        net,
        window,
        NameKind::PreAdder,
        found.pairs.as_slice(),
        ranges,
    )?;
    let centres = add_readers(
        alloc,
        net,
        window,
        NameKind::Register,
        found.centres.as_slice(),
        ranges,
    )?;
    Ok(Front { pairs, centres })
}

// Control bits of a folded filter.

ghost use Rattle.std.specs.Prelude.{◌≡◌, ℕ, ◌*◌, ◌^◌, ◌<◌, ◌≤◌, length, map, slice_get, Some, IfOk};
ghost use Rattle.net_graph.specs.Grow.{Extends};
ghost use Rattle.folded_fir.specs.declared.cells.Slot.{Slot};
ghost use Rattle.folded_fir.specs.Rounds.{Rounds};
ghost use Rattle.folded_fir.specs.Slots.{distance_of};
ghost use Rattle.folded_fir.specs.Control.{AddsControl};

use crate::cells::Slot;
use mr_values::Memory;
use net_graph::{Net, Node, Stream};
use pipeline_balance::{counter, ticks_after};
use std::alloc::Global;

/// The bits that tell where the window is copied, where an output's first slot is, and where each slot of a list is.
#[derive(Drop)]
pub(crate) struct Control {
    pub(crate) load: Node,
    pub(crate) clear: Node,
    pub(crate) bits: Vec<Node>,
}

/// The ticks between outputs, and the outputs after which all comes again.
#[derive(Clone, Copy, Debug, PartialEq, Eq)]
pub(crate) struct Beat {
    pub(crate) period: u64,
    pub(crate) round: u32,
}

// How many ticks after its round's first slot a slot stands.
fn distance_of(period: u64, slot: Slot) -> u64
    requires slow { period ≤ 2 ^ 43 }
    requires few { slot.output < 4096 }
    ensures { result ≡ distance_of period slot }
{
    u64::from(slot.output) * period + u64::from(slot.slot)
}

// How many ticks after its round's first slot each of these slots stands.
fn distances_of(alloc: Global, period: u64, slots: &[Slot]) -> Result<Vec<u64>, Memory>
    requires slow { period ≤ 2 ^ 43 }
    requires few { (k : ℕ) (x : Slot) → slice_get slots.now k ≡ Some x → x.output < 4096 }
    ensures { IfOk result (λ distances. distances.items ≡ map (distance_of period) slots.now) }
{
    let mut distances = Vec::new(alloc);
    for slot in slots {
        distances.push(distance_of(period, *slot))?;
    }
    Ok(distances)
}

/// The control bits for these slots, behind a stream whose outputs have this beat. After want of memory there may be more nodes.
pub(crate) fn add_control(
    alloc: Global,
    net: &mut Net,
    from: Stream,
    beat: Beat,
    slots: &[Slot],
) -> Result<Control, Memory>
    requires positive { 1 ≤ beat.period }
    requires slow { beat.period ≤ 2 ^ 43 }
    requires some { 1 ≤ beat.round }
    requires short { beat.round ≤ 4096 }
    requires early { from.offset < 2 ^ 31 }
    requires inside { (k : ℕ) (x : Slot) → slice_get slots.now k ≡ Some x → (x.output < beat.round) × (x.slot < beat.period) }
    ensures ok { IfOk result (λ c. (o : Rounds) → o.period ≡ beat.period → o.round ≡ beat.round → AddsControl net.old net.new from o slots.now c.load c.clear c.bits.items) }
    ensures extends { Extends net.old.cells net.new.cells }
    ensures group { net.new.group ≡ net.old.group }
{
    let distances = distances_of(alloc, beat.period, slots)?;
    let load = counter(alloc, net, beat.period, from.offset + 1)?;
    let clear = counter(alloc, net, beat.period, from.offset + 2)?;
    let round = beat.period * u64::from(beat.round);
    let bits = ticks_after(alloc, net, round, from.offset + 2, distances.as_slice())?;
    Ok(Control { load, clear, bits })
}

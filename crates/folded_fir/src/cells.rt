// The slots that a filter uses, and what its accumulators take in them.

ghost use Rattle.std.specs.Prelude.{◌≡◌, ℕ, ◌*◌, ◌%◌, ◌<◌, ◌≤◌, suc, length, slice_get, Some, IfOk};
ghost use Rattle.folded_fir.specs.declared.cells.Slot.{Slot};
ghost use Rattle.folded_fir.specs.Slots.{used_in, ListsSlots, AreCellsAt};

use fold_schedule::Schedule;
use mr_values::Memory;
use signed_digit::Term;
use stage_law::Rates;
use std::alloc::Global;

/// A slot of an output, which is told by its number within a round.
#[derive(Clone, Copy, Debug, PartialEq, Eq)]
pub(crate) struct Slot {
    pub(crate) output: u32,
    pub(crate) slot: u32,
}

// How many of the slots a phase uses.
fn count_used(schedule: &Schedule, phase: u32, slots: u32) -> u32
    requires some { 1 ≤ slots }
    requires all { slots ≡ schedule.now.slots }
    ensures { result ≡ used_in schedule.now phase }
{
    let negative = schedule.positive_adders();
    for slot in 0..slots {
        if schedule.cell(phase, 0, slot).is_none()
            && schedule.cell(phase, negative, slot).is_none()
        {
            return slot;
        }
    }
    slots
}

// The first so many slots of an output.
fn push_slots(slots: &mut Vec<Slot>, output: u32, count: u32) -> Result<(), Memory>
    ensures { IfOk result (λ _. (used : ℕ → ℕ) → used output ≡ count → ListsSlots used output 0 slots.old.items → ListsSlots used (suc output) 0 slots.new.items) }
{
    for slot in 0..count {
        slots.push(Slot { output, slot })?;
    }
    Ok(())
}

/// The slots of the first so many outputs in which some accumulator takes a term, output by output.
pub(crate) fn used_slots(
    alloc: Global,
    schedule: &Schedule,
    rates: Rates,
    slots: u32,
    outputs: u32,
) -> Result<Vec<Slot>, Memory>
    requires some { 1 ≤ slots }
    requires all { slots ≡ schedule.now.slots }
    requires up { 1 ≤ rates.up }
    requires down_high { rates.down ≤ 4096 }
    requires few { outputs ≤ 4096 }
    ensures { IfOk result (λ found. ListsSlots (λ output. used_in schedule.now (output * rates.down % rates.up)) outputs 0 found.items) }
{
    let mut found = Vec::new(alloc);
    for output in 0..outputs {
        let phase = output * rates.down % rates.up;
        let count = count_used(schedule, phase, slots);
        push_slots(&mut found, output, count)?;
    }
    Ok(found)
}

/// What an accumulator takes in each of these slots.
pub(crate) fn adder_cells(
    alloc: Global,
    schedule: &Schedule,
    rates: Rates,
    slots: &[Slot],
    adder: u32,
) -> Result<Vec<Option<Term>>, Memory>
    requires some { 1 ≤ schedule.now.slots }
    requires up { 1 ≤ rates.up }
    requires down_high { rates.down ≤ 4096 }
    requires few { (k : ℕ) (x : Slot) → slice_get slots.now k ≡ Some x → x.output < 4096 }
    ensures { IfOk result (λ cells. AreCellsAt schedule.now rates.up rates.down adder slots.now cells.items) }
{
    let mut cells = Vec::new(alloc);
    for slot in slots {
        let phase = slot.output * rates.down % rates.up;
        cells.push(schedule.cell(phase, adder, slot.slot))?;
    }
    Ok(cells)
}

// The peaks of registers.

ghost use Rattle.std.specs.Prelude.{◌≡◌, ℕ, ◌^◌, ◌≤◌, ◌++◌, length, IfOk};
ghost use Rattle.stage_law.specs.Registers.{needs_high};
ghost use Rattle.stage_law.specs.Streams.{AreWithin};
ghost use Rattle.fir_pieces.specs.Held.{AreHeld};
ghost use Rattle.fir_pieces.specs.Listed.{window_sums};
ghost use Rattle.fir_pieces.specs.Peaks.{peak_at, peaks_at, widest_peak, all_peaks_at};
ghost use Rattle.fir_pieces.specs.Columns.{parts_of};

use crate::held::Held;
use crate::held_sums::HeldSums;
use crate::widths::{every_beat, held_of};
use mr_values::{Memory, least_width};
use net_graph::Node;
use stage_law::{Peak, Range, Ranges, WeightedSum};
use std::alloc::Global;

// Whether the greatest number of the range needs so many bits.
fn needs_high(range: Range, width: u8) -> bool
    ensures { result ≡ needs_high range width }
{
    least_width(range.hi, range.hi) == width
}

// The peak of a register that holds this; none where one bit is wide enough.
fn push_peak(peaks: &mut Vec<Peak>, register: Node, held: Held) -> Result<(), Memory>
    ensures { IfOk result (λ _. peaks.new.items ≡ peaks.old.items ++ peak_at register held) }
{
    if held.width == 1 {
        return Ok(());
    }
    let high = needs_high(held.range, held.width);
    peaks.push(Peak {
        register,
        sum: held.sum,
        class: held.class,
        lag: held.lag,
        high,
    })?;
    Ok(())
}

/// The peaks of registers that hold these, in their order.
pub fn push_peaks(peaks: &mut Vec<Peak>, registers: &[Node], held: Vec<Held>) -> Result<(), Memory>
    requires { length held.items ≡ length registers.now }
    ensures { IfOk result (λ _. peaks.new.items ≡ peaks.old.items ++ peaks_at held.items registers.now) }
{
    let mut index = 0;
    for own in held {
        push_peak(peaks, registers[index], own)?;
        index += 1;
    }
    Ok(())
}

// The peak of a register with several sums: of the first that needs its width.
fn push_widest(peaks: &mut Vec<Peak>, register: Node, held: HeldSums) -> Result<(), Memory>
    ensures { IfOk result (λ _. peaks.new.items ≡ peaks.old.items ++ widest_peak register held.width held.sums.items) }
{
    let HeldSums { sums, width } = held;
    for own in sums {
        if own.width == width {
            return push_peak(peaks, register, own);
        }
    }
    Ok(())
}

/// The peaks of registers with several sums, in their order.
pub fn push_all_peaks(
    peaks: &mut Vec<Peak>,
    registers: &[Node],
    held: Vec<HeldSums>,
) -> Result<(), Memory>
    requires { length held.items ≡ length registers.now }
    ensures { IfOk result (λ _. peaks.new.items ≡ peaks.old.items ++ all_peaks_at (parts_of held.items) registers.now) }
{
    let mut index = 0;
    for own in held {
        push_widest(peaks, registers[index], own)?;
        index += 1;
    }
    Ok(())
}

/// What the registers of a window of so many values hold.
pub fn window_held<R: Ranges>(alloc: Global, depth: u32, ranges: &R) -> Result<Vec<Held>, Memory>
    requires { (most : ℕ) × AreWithin (R.streams ranges.now) most × (most ≤ 2 ^ 125) }
    ensures { IfOk result (λ held. AreHeld (R.streams ranges.now) (window_sums depth) held.items) }
{
    let mut held = Vec::new(alloc);
    for age in 0..depth {
        let value = WeightedSum::value(alloc, u64::from(age))?;
        held.push(held_of(value, every_beat(1), ranges))?;
    }
    Ok(held)
}

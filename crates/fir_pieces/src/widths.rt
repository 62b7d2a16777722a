// What the registers of a tree hold, and their least widths.

ghost use Rattle.std.specs.Prelude.{◌≡◌, ℕ, ◌+◌, ◌*◌, ◌^◌, ◌<◌, ◌≤◌, suc, length, map, IfOk};
ghost use Rattle.mr_values.specs.Width.{IsLeastWidth};
ghost use Rattle.stage_law.specs.Streams.{AreWithin, magnitudes};
ghost use Rattle.stage_law.specs.Weights.{weights_of};
ghost use Rattle.pipeline_balance.specs.Tree.{level_count};
ghost use Rattle.fir_pieces.specs.Placed.{term_segment};
ghost use Rattle.fir_pieces.specs.Form.{form_of, reading_form};
ghost use Rattle.fir_pieces.specs.Listed.{class_reading_sum, class_tree_sums, every, level_sums};
ghost use Rattle.fir_pieces.specs.declared.held.Held.{Held};
ghost use Rattle.fir_pieces.specs.Held.{AreSmall, IsHeld, AddsHeld, AreHeld};

use crate::forms::{all_minus, sum_of};
use crate::held::{Beat, Held};
use crate::reading::{Reading, push_terms, spread};
use mr_values::{Memory, least_width};
use signed_digit::Term;
use stage_law::{Class, Range, Ranges, WeightedSum};
use std::alloc::Global;

/// The least number of bits that holds the range.
pub(crate) fn width_of(range: Range) -> u8
    ensures { IsLeastWidth range.lo range.hi result }
{
    least_width(range.lo, range.hi)
}

/// The values of every index, and a number of ticks after each.
pub(crate) fn every_beat(lag: u64) -> Beat
    requires { lag ≤ 2 ^ 40 }
    ensures class { result.class ≡ every }
    ensures lag { result.lag ≡ lag }
{
    let class = Class {
        modulus: 1,
        residue: 0,
    };
    Beat { class, lag }
}

/// What a register with this sum holds.
pub(crate) fn held_of<R: Ranges>(sum: WeightedSum, beat: Beat, ranges: &R) -> Held
    requires { (most : ℕ) × AreWithin (R.streams ranges.now) most × (most * magnitudes (weights_of sum) ≤ 2 ^ 126) }
    ensures { IsHeld (R.streams ranges.now) (weights_of sum) beat.class beat.lag result }
{
    let range = ranges.range(&sum, beat.class);
    let width = width_of(range);
    Held {
        sum,
        class: beat.class,
        lag: beat.lag,
        range,
        width,
    }
}

// What a register over these terms of what nodes show holds.
fn held_terms<R: Ranges>(
    alloc: Global,
    readings: &[Reading],
    terms: &[Term],
    beat: Beat,
    ranges: &R,
) -> Result<Held, Memory>
    requires { AreSmall (R.streams ranges.now) readings.now terms.now }
    ensures { IfOk result (IsHeld (R.streams ranges.now) (form_of readings.now terms.now) beat.class beat.lag) }
{
    let values = spread(alloc, readings, terms)?;
    let sum = sum_of(alloc, all_minus(terms), values.as_slice())?;
    Ok(held_of(sum, beat, ranges))
}

// What a register with this reading of the stream holds.
fn held_reading<R: Ranges>(
    alloc: Global,
    reading: Reading,
    beat: Beat,
    ranges: &R,
) -> Result<Held, Memory>
    requires { (most : ℕ) × AreWithin (R.streams ranges.now) most × (most ≤ 2 ^ 125) }
    ensures { IfOk result (IsHeld (R.streams ranges.now) (reading_form reading) beat.class beat.lag) }
{
    let mut values = Vec::new(alloc);
    push_terms(
        &mut values,
        reading,
        Term {
            index: 0,
            place: 0,
            negative: false,
        },
    )?;
    let sum = sum_of(alloc, false, values.as_slice())?;
    Ok(held_of(sum, beat, ranges))
}

/// What registers with these readings of the stream hold.
pub fn readings_held<R: Ranges>(
    alloc: Global,
    readings: &[Reading],
    beat: Beat,
    ranges: &R,
) -> Result<Vec<Held>, Memory>
    requires { (most : ℕ) × AreWithin (R.streams ranges.now) most × (most ≤ 2 ^ 125) }
    ensures { IfOk result (λ held. AreHeld (R.streams ranges.now) (map (class_reading_sum beat.class beat.lag) readings.now) held.items) }
{
    let mut held = Vec::new(alloc);
    for reading in readings {
        held.push(held_reading(alloc, *reading, beat, ranges)?)?;
    }
    Ok(held)
}

// The terms under the register number j of a level.
fn segment_of(terms: &[Term], level: u32, j: usize) -> &[Term]
    requires few { length terms.now ≤ 2 ^ 32 }
    requires low { level ≤ 31 }
    requires within { j < level_count (length terms.now) (suc level) }
    ensures { result.now ≡ term_segment (suc level) j terms.now }
{
    let size = 1usize << (level + 1);
    let rest = &terms[j * size..];
    &rest[..size.min(rest.len())]
}

// How many registers a level has.
fn count_of(terms: usize, level: u32) -> usize
    requires few { terms ≤ 2 ^ 32 }
    requires low { level ≤ 31 }
    ensures { result ≡ level_count terms (suc level) }
{
    let size = 1usize << (level + 1);
    (terms + (size - 1)) / size
}

// What the registers of one level hold, after those of the levels below.
fn push_level<R: Ranges>(
    alloc: Global,
    held: &mut Vec<Held>,
    readings: &[Reading],
    beat: Beat,
    terms: &[Term],
    level: u32,
    ranges: &R,
) -> Result<(), Memory>
    requires fits { AreSmall (R.streams ranges.now) readings.now terms.now }
    requires low { level ≤ 31 }
    requires early { beat.lag ≤ 2 ^ 32 }
    ensures { IfOk result (λ _. AddsHeld (R.streams ranges.now) (level_sums beat.class beat.lag readings.now terms.now level (level_count (length terms.now) (suc level))) held.old.items held.new.items) }
{
    let later = Beat {
        class: beat.class,
        lag: beat.lag + u64::from(level) + 1,
    };
    let count = count_of(terms.len(), level);
    for j in 0..count {
        let part = segment_of(terms, level, j);
        let own = held_terms(alloc, readings, part, later, ranges)?;
        held.push(own)?;
    }
    Ok(())
}

/// What the registers of a tree hold over these terms of nodes, which show the readings at the beat, level by level.
pub fn tree_held<R: Ranges>(
    alloc: Global,
    readings: &[Reading],
    beat: Beat,
    terms: &[Term],
    levels: u32,
    ranges: &R,
) -> Result<Vec<Held>, Memory>
    requires fits { AreSmall (R.streams ranges.now) readings.now terms.now }
    requires low { levels ≤ 31 }
    requires early { beat.lag ≤ 2 ^ 32 }
    ensures { IfOk result (λ held. AreHeld (R.streams ranges.now) (class_tree_sums beat.class beat.lag readings.now terms.now levels) held.items) }
{
    let mut held = Vec::new(alloc);
    for level in 0..levels {
        push_level(alloc, &mut held, readings, beat, terms, level, ranges)?;
    }
    Ok(held)
}

/// The least widths of registers that hold these.
pub(crate) fn widths_of(alloc: Global, held: &[Held]) -> Result<Vec<u8>, Memory>
    ensures { IfOk result (λ widths. widths.items ≡ map (λ (own : Held). own.width) held.now) }
{
    let mut widths = Vec::new(alloc);
    for own in held {
        widths.push(own.width)?;
    }
    Ok(widths)
}

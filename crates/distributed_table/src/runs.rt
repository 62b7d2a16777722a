// Runs of taps, each with its table and its accumulator.

ghost use Rattle.std.specs.Prelude.{◌≡◌, ℕ, List, ◌+◌, ◌*◌, ◌^◌, ◌<◌, ◌≤◌, max, length, pos, ◌≤ℤ◌, unsigned_abs, IfOk};
ghost use Rattle.mr_values.specs.Timing.{ceil_div, low_end};
ghost use Rattle.mr_values.specs.Width.{IsLeastWidth};
ghost use Rattle.net_graph.specs.declared.cell.Node.{Node};
ghost use Rattle.net_graph.specs.declared.name.NameKind.TheVariants.{Register, Table};
ghost use Rattle.net_graph.specs.WellFormed.{IsFree};
ghost use Rattle.net_graph.specs.Grow.{Extends};
ghost use Rattle.pipeline_balance.specs.Gate.{IsTickOf, IsBitOf};
ghost use Rattle.pipeline_balance.specs.Numbered.{LeavesFree, name_of};
ghost use Rattle.stage_law.specs.Streams.{magnitudes};
ghost use Rattle.bit_serial.specs.Tables.{run};
ghost use Rattle.distributed_table.specs.Copies.{node_at};
ghost use Rattle.distributed_table.specs.Runs.{Pace, IsRunReady, IsNumbered, IsBelow, serial_of, AddsRun, AddsRuns};

use crate::accumulators::add_accumulator;
use crate::choices::add_table;
use mr_values::{Memory, least_width};
use net_graph::{Leaf, Net, Node};
use span_ranges::least_sum;
use stage_law::Range;
use std::alloc::Global;

// The taps of a run.
fn run_of(taps: &[i128], size: usize, number: usize) -> &[i128]
    requires few { length taps.now ≤ 2 ^ 32 }
    requires within { number * size < length taps.now }
    ensures { result.now ≡ run size taps.now number }
{
    let rest = &taps[number * size..];
    &rest[..size.min(rest.len())]
}

// The nodes from this place on, and where there are no more, the first of them again.
fn address_of<const G: usize>(highs: &[Node], first: usize) -> [Node; G]
    requires within { first < length highs.now }
    ensures many { length result ≡ G }
    ensures each { (k : ℕ) → k < G → first + k < length highs.now → node_at result k ≡ node_at highs.now (first + k) }
    ensures rest { (k : ℕ) → k < G → length highs.now ≤ first + k → node_at result k ≡ node_at highs.now first }
{
    let count = G.min(highs.len() - first);
    let mut address = [highs[first]; G];
    for k in 0..count {
        address[k] = highs[first + k];
    }
    address
}

/// The least width of a register for the sums of these taps over numbers of a range.
pub(crate) fn width_of(taps: &[i128], values: Range) -> u8
    requires small { max (unsigned_abs values.lo) (unsigned_abs values.hi) * magnitudes taps.now ≤ 2 ^ 125 }
    ensures least { IsLeastWidth (low_end taps.now values.lo values.hi) (low_end taps.now values.hi values.lo) result }
    ensures most { result ≤ 127 }
{
    least_width(
        least_sum(taps, values.lo, values.hi),
        least_sum(taps, values.hi, values.lo),
    )
}

// The register of a run, over a table that its values' bits address.
fn add_run<const G: usize>(
    net: &mut Net,
    begin: Node,
    highs: &[Node],
    taps: &[i128],
    number: usize,
    values: Range,
) -> Result<Leaf, Memory>
    requires data_group { 1 ≤ net.old.group }
    requires some { 1 ≤ G }
    requires few { G ≤ 6 }
    requires short { length taps.now ≤ 1024 }
    requires within { number * G < length taps.now }
    requires as_many { length highs.now ≡ length taps.now }
    requires has_highs { (k : ℕ) → k < length highs.now → (node_at highs.now k).place < length net.old.cells }
    requires has_begin { begin.place < length net.old.cells }
    requires small { max (unsigned_abs values.lo) (unsigned_abs values.hi) * magnitudes taps.now ≤ 2 ^ 125 }
    requires light { magnitudes taps.now ≤ 2 ^ 125 }
    requires negative { values.lo ≤ℤ pos 0 }
    requires positive { pos 0 ≤ℤ values.hi }
    requires free_table { IsFree net.old.cells (name_of net.old.group Table number) }
    requires free_register { IsFree net.old.cells (name_of net.old.group Register number) }
    ensures ok { IfOk result (λ leaf. (pace : Pace) (window : List Node) (bits : ℕ) → IsRunReady net.old.cells pace bits window highs.now begin
        → AddsRun net.old net.new (serial_of taps.now G bits values) pace window highs.now number leaf) }
    ensures names { IfOk result (λ _. LeavesFree net.old.cells net.new.cells (IsNumbered net.old.group number)) }
    ensures extends { Extends net.old.cells net.new.cells }
    ensures group { net.new.group ≡ net.old.group }
{
    let run = run_of(taps, G, number);
    let address = address_of::<G>(highs, number * G);
    let table = add_table(net, run, &address, number)?;
    let width = width_of(run, values);
    let node = add_accumulator(net, begin, table, number, width)?;
    Ok(Leaf {
        node,
        place: 0,
        negative: false,
    })
}

/// The registers of all runs, over tables that the bits of their values address.
pub(crate) fn add_runs<const G: usize>(
    alloc: Global,
    net: &mut Net,
    begin: Node,
    highs: &[Node],
    taps: &[i128],
    values: Range,
) -> Result<Vec<Leaf>, Memory>
    requires data_group { 1 ≤ net.old.group }
    requires some { 1 ≤ G }
    requires few { G ≤ 6 }
    requires taken { 1 ≤ length taps.now }
    requires short { length taps.now ≤ 1024 }
    requires as_many { length highs.now ≡ length taps.now }
    requires has_highs { (k : ℕ) → k < length highs.now → (node_at highs.now k).place < length net.old.cells }
    requires has_begin { begin.place < length net.old.cells }
    requires small { max (unsigned_abs values.lo) (unsigned_abs values.hi) * magnitudes taps.now ≤ 2 ^ 125 }
    requires light { magnitudes taps.now ≤ 2 ^ 125 }
    requires negative { values.lo ≤ℤ pos 0 }
    requires positive { pos 0 ≤ℤ values.hi }
    requires free_tables { (number : ℕ) → IsFree net.old.cells (name_of net.old.group Table number) }
    requires free_registers { (number : ℕ) → IsFree net.old.cells (name_of net.old.group Register number) }
    ensures ok { IfOk result (λ leaves. (pace : Pace) (window : List Node) (bits : ℕ) → IsRunReady net.old.cells pace bits window highs.now begin
        → AddsRuns net.old net.new (serial_of taps.now G bits values) pace window highs.now (ceil_div (length taps.now) G) leaves.items) }
    ensures many { IfOk result (λ leaves. length leaves.items ≡ ceil_div (length taps.now) G) }
    ensures names { IfOk result (λ _. LeavesFree net.old.cells net.new.cells (IsBelow net.old.group (ceil_div (length taps.now) G))) }
    ensures extends { Extends net.old.cells net.new.cells }
    ensures group { net.new.group ≡ net.old.group }
{
    let mut leaves = Vec::new(alloc);
    let count = taps.len().div_ceil(G);
    for number in 0..count {
        let leaf = add_run::<G>(net, begin, highs, taps, number, values)?;
        leaves.push(leaf)?;
    }
    Ok(leaves)
}

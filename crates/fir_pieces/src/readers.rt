// Registers over what is read of a window.

ghost use Rattle.std.specs.Prelude.{◌≡◌, ℕ, ◌^◌, ◌<◌, ◌≤◌, ◌++◌, ◌∷◌, [], length, get_or, slice_get, Some, All, IfOk};
ghost use Rattle.net_graph.specs.declared.cell.Node.{Node};
ghost use Rattle.net_graph.specs.Grow.{Extends};
ghost use Rattle.net_graph.specs.Name.{IsRegisterKind, is_control_kind};
ghost use Rattle.net_graph.specs.WellFormed.{IsWidth};
ghost use Rattle.stage_law.specs.Streams.{AreWithin};
ghost use Rattle.fir_pieces.specs.Cutting.{IsWideWindow};
ghost use Rattle.fir_pieces.specs.Reading.{ReadsWithin};
ghost use Rattle.fir_pieces.specs.Readers.{AreNodes, IsDataKind, IsCombined, TakesNext, AddsRegister, AddsRegisters, AddsReaders};

use crate::cutting::narrowed;
use crate::held::Held;
use crate::reading::Reading;
use crate::widths::{every_beat, readings_held, widths_of};
use mr_values::Memory;
use net_graph::{Name, NameKind, Net, Node, Stream};
use pipeline_balance::taking_register;
use stage_law::Ranges;
use std::alloc::Global;

/// Registers over what is read of a window, with what they hold.
#[derive(Drop)]
pub struct Readers {
    pub nodes: Vec<Node>,
    pub held: Vec<Held>,
}

// The node with what is read of the window's nodes, cut to the width.
fn combined(net: &mut Net, window: &[Node], reading: Reading, width: u8) -> Result<Node, Memory>
    requires data_group { 1 ≤ net.old.group }
    requires nodes { AreNodes net.old.cells window.now }
    requires within { ReadsWithin (length window.now) reading }
    requires wide { IsWidth width }
    ensures ok { IfOk result (IsCombined net.old net.new window.now reading width) }
    ensures extends { Extends net.old.cells net.new.cells }
    ensures group { net.new.group ≡ net.old.group }
{
    match reading {
        Reading::One(place) => narrowed(net, window[place as usize], width),
        Reading::Sum(first, second) => {
            let node = net.add(window[first as usize], window[second as usize], width)?;
            Ok(node)
        }
        Reading::Difference(first, second) => {
            let node = net.sub(window[first as usize], window[second as usize], width)?;
            Ok(node)
        }
    }
}

// A register of this kind, with the next free number, that takes the node's value at each tick.
fn take_next(net: &mut Net, kind: NameKind, from: Node) -> Result<Node, Memory>
    requires within { from.place < length net.old.cells }
    requires data_group { 1 ≤ net.old.group }
    requires of_data { IsDataKind kind }
    ensures ok { IfOk result (TakesNext net.old net.new kind from) }
    ensures extends { Extends net.old.cells net.new.cells }
    ensures group { net.new.group ≡ net.old.group }
{
    let group = net.group();
    let name = Name {
        group,
        kind,
        number: net.free_number(group, kind),
    };
    let every = Stream {
        node: from,
        period: 1,
        offset: 0,
    };
    taking_register(net, name, every, None)
}

// One register over what is read of a window.
fn add_register(
    net: &mut Net,
    window: &[Node],
    kind: NameKind,
    reading: Reading,
    width: u8,
) -> Result<Node, Memory>
    requires data_group { 1 ≤ net.old.group }
    requires of_data { IsDataKind kind }
    requires nodes { AreNodes net.old.cells window.now }
    requires within { ReadsWithin (length window.now) reading }
    requires wide { IsWidth width }
    ensures ok { IfOk result (λ node. AddsRegister net.old net.new window.now kind reading width node) }
    ensures extends { Extends net.old.cells net.new.cells }
    ensures group { net.new.group ≡ net.old.group }
{
    let node = combined(net, window, reading, width)?;
    take_next(net, kind, node)
}

/// A register of this kind, numbered on from the first free number, for each of these, of the width that stands beside it. After want of
/// memory there may be more nodes.
pub fn add_registers(
    alloc: Global,
    net: &mut Net,
    window: &[Node],
    kind: NameKind,
    readings: &[Reading],
    widths: &[u8],
) -> Result<Vec<Node>, Memory>
    requires data_group { 1 ≤ net.old.group }
    requires of_data { IsDataKind kind }
    requires nodes { AreNodes net.old.cells window.now }
    requires within { All (ReadsWithin (length window.now)) readings.now }
    requires many { length widths.now ≡ length readings.now }
    requires wide { (k : ℕ) → k < length widths.now → IsWidth (get_or widths.now k 0) }
    ensures ok { IfOk result (λ nodes. AddsRegisters net.old net.new window.now kind readings.now widths.now nodes.items) }
    ensures extends { Extends net.old.cells net.new.cells }
    ensures group { net.new.group ≡ net.old.group }
{
    let mut nodes = Vec::new(alloc);
    for index in 0..readings.len() {
        let node = add_register(net, window, kind, readings[index], widths[index])?;
        nodes.push(node)?;
    }
    Ok(nodes)
}

/// A register of this kind, numbered on from the first free number, for each of these, of the least width for what it holds. After want of
/// memory there may be more nodes.
pub fn add_readers<R: Ranges>(
    alloc: Global,
    net: &mut Net,
    window: &[Node],
    kind: NameKind,
    readings: &[Reading],
    ranges: &R,
) -> Result<Readers, Memory>
    requires data_group { 1 ≤ net.old.group }
    requires of_data { IsDataKind kind }
    requires nodes { AreNodes net.old.cells window.now }
    requires within { All (ReadsWithin (length window.now)) readings.now }
    requires room { (most : ℕ) × AreWithin (R.streams ranges.now) most × (most ≤ 2 ^ 125) }
    ensures ok { IfOk result (λ r. AddsReaders (R.streams ranges.now) net.old net.new window.now kind readings.now r.held.items r.nodes.items) }
    ensures extends { Extends net.old.cells net.new.cells }
    ensures group { net.new.group ≡ net.old.group }
{
    let held = readings_held(alloc, readings, every_beat(2), ranges)?;
    let widths = widths_of(alloc, held.as_slice())?;
    let nodes = add_registers(alloc, net, window, kind, readings, widths.as_slice())?;
    Ok(Readers { nodes, held })
}

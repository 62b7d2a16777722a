// Control bits that tell phases.

ghost use Rattle.std.specs.Prelude.{◌≡◌, ℕ, ◌-◌, ◌^◌, ◌<◌, ◌≤◌, pos, length, vec_len, IfOk};
ghost use Rattle.net_graph.specs.WellFormed.{IsWidth};
ghost use Rattle.net_graph.specs.Grow.{Extends};
ghost use Rattle.pipeline_balance.specs.Gate.{IsTickOf, IsBitOf, IsCounter};
ghost use Rattle.pipeline_balance.specs.Phase.{IsTickOfPhase, IsIndex, IsIndexOf, IsPhases};
ghost use Rattle.net_graph.specs.Control.{IsOfControl};

use crate::gates::{bits_for, count_ticks};
use crate::numbering::next_register;
use mr_values::Memory;
use net_graph::{NameKind, Net, Node};
use std::alloc::Global;

// The last of so many phases.
fn last_of(count: u32) -> i128
    requires { 1 ≤ count }
    ensures { result ≡ pos (count - 1) }
{
    i128::from(count) - 1
}

// A register with the number of the bit's ticks before, modulo `count`, in a net whose group is that of control.
fn phase_index(net: &mut Net, on: Node, count: u32, width: u8) -> Result<Node, Memory>
    requires control { net.old.group ≡ 0 }
    requires some { 1 ≤ count }
    requires wide { IsWidth width }
    requires room { count ≤ 2 ^ width }
    requires is_control { IsOfControl net.old.cells on.place }
    requires has_on { on.place < length net.old.cells }
    ensures ok { IfOk result (λ index. (period first : ℕ) → 1 ≤ period → IsBitOf net.old.cells (IsTickOf period first) on → IsIndex net.old net.new period first count width index) }
    ensures extends { Extends net.old.cells net.new.cells }
    ensures group { net.new.group ≡ net.old.group }
{
    let top = last_of(count);
    let index = next_register(net, 0, NameKind::Control, width)?;
    let last = net.constant(top, width)?;
    let none = net.constant(0, width)?;
    let one = net.constant(1, width)?;
    let done = net.equal(index, last)?;
    let more = net.add(index, one, width)?;
    let next = net.mux(done, none, more, width)?;
    let held = net.mux(on, next, index, width)?;
    net.bind(index, held);
    Ok(index)
}

// The bit that is set where the bit `on` is and the index is this phase, in a net whose group is that of control.
fn phase_bit(net: &mut Net, on: Node, index: Node, phase: u32, width: u8) -> Result<Node, Memory>
    requires control { net.old.group ≡ 0 }
    requires wide { IsWidth width }
    requires on_control { IsOfControl net.old.cells on.place }
    requires index_control { IsOfControl net.old.cells index.place }
    requires has_on { on.place < length net.old.cells }
    requires has_index { index.place < length net.old.cells }
    ensures ok { IfOk result (λ bit. (period first count : ℕ) → 1 ≤ period → phase < count → count ≤ 2 ^ width → IsBitOf net.old.cells (IsTickOf period first) on → IsIndexOf net.old.cells period first count width index → IsCounter net.old net.new (IsTickOfPhase period first count phase) bit) }
    ensures extends { Extends net.old.cells net.new.cells }
    ensures group { net.new.group ≡ net.old.group }
{
    let number = net.constant(i128::from(phase), width)?;
    let same = net.equal(index, number)?;
    let clear = net.constant(0, 1)?;
    let bit = net.mux(on, same, clear, 1)?;
    Ok(bit)
}

// The bits of `phases`, in a net whose group is that of control.
fn phase_bits(
    alloc: Global,
    net: &mut Net,
    period: u64,
    first: u64,
    count: u32,
) -> Result<Vec<Node>, Memory>
    requires control { net.old.group ≡ 0 }
    requires positive { 1 ≤ period }
    requires some { 1 ≤ count }
    ensures count { IfOk result (λ bits. vec_len bits ≡ count) }
    ensures many { IfOk result (λ bits. length bits.items ≡ count) }
    ensures ok { IfOk result (λ bits. IsPhases net.old net.new period first count bits.items) }
    ensures extends { Extends net.old.cells net.new.cells }
    ensures group { net.new.group ≡ net.old.group }
{
    let width = bits_for(u64::from(count - 1));
    let on = count_ticks(net, period, first)?;
    let index = phase_index(net, on, count, width)?;
    let mut bits = Vec::new(alloc);
    for phase in 0..count {
        let bit = phase_bit(net, on, index, phase, width)?;
        bits.push(bit)?;
    }
    Ok(bits)
}

/// Control bits, of which bit j is 1 exactly at the ticks `first + n * period` with `n mod count = j`. After want of memory there
/// may be more nodes.
pub fn phases(
    alloc: Global,
    net: &mut Net,
    period: u64,
    first: u64,
    count: u32,
) -> Result<Vec<Node>, Memory>
    requires positive { 1 ≤ period }
    requires some { 1 ≤ count }
    ensures count { IfOk result (λ bits. vec_len bits ≡ count) }
    ensures many { IfOk result (λ bits. length bits.items ≡ count) }
    ensures ok { IfOk result (λ bits. IsPhases net.old net.new period first count bits.items) }
    ensures extends { Extends net.old.cells net.new.cells }
    ensures group { net.new.group ≡ net.old.group }
{
    let group = net.group();
    net.set_group(0);
    let counted = phase_bits(alloc, net, period, first, count);
    net.set_group(group);
    counted
}

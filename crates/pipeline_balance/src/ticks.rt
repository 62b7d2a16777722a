// Control bits that tell ticks some time after those of one counter.

ghost use Rattle.std.specs.Prelude.{◌≡◌, ℕ, ◌+◌, ◌-◌, ◌^◌, ◌<◌, ◌≤◌, length, get_or, vec_len, IfOk};
ghost use Rattle.net_graph.specs.WellFormed.{IsWidth};
ghost use Rattle.net_graph.specs.Grow.{Extends};
ghost use Rattle.pipeline_balance.specs.Gate.{IsTickOf, IsCounter, IsCountOf};
ghost use Rattle.pipeline_balance.specs.Ticks.{AddsBits, IsTickAfter};

use crate::gates::count_up;
use mr_values::Memory;
use net_graph::{Net, Node};
use std::alloc::Global;

// The bit that is set where the count is this number, in a net whose group is that of control.
fn count_bit(net: &mut Net, count: Node, number: u64, width: u8) -> Result<Node, Memory>
    requires control { net.old.group ≡ 0 }
    requires wide { IsWidth width }
    requires has_count { count.place < length net.old.cells }
    ensures ok { IfOk result (λ bit. (period first distance : ℕ) → 1 ≤ period → distance < period → number ≡ first + distance → first + period ≤ 2 ^ width
        → IsCountOf net.old.cells period (first + (period - 1)) width count → IsCounter net.old net.new (IsTickOf period (first + distance)) bit) }
    ensures extends { Extends net.old.cells net.new.cells }
    ensures group { net.new.group ≡ net.old.group }
{
    let told = net.constant(i128::from(number), width)?;
    let bit = net.equal(count, told)?;
    Ok(bit)
}

// The bits of `ticks_after`, in a net whose group is that of control.
fn count_bits(
    alloc: Global,
    net: &mut Net,
    period: u64,
    first: u64,
    distances: &[u64],
) -> Result<Vec<Node>, Memory>
    requires control { net.old.group ≡ 0 }
    requires positive { 1 ≤ period }
    requires room { first + period ≤ 2 ^ 64 }
    requires below { (k : ℕ) → k < length distances.now → get_or distances.now k 0 < period }
    ensures count { IfOk result (λ bits. vec_len bits ≡ length distances.now) }
    ensures many { IfOk result (λ bits. length bits.items ≡ length distances.now) }
    ensures ok { IfOk result (λ bits. AddsBits net.old net.new (IsTickAfter period first distances.now) bits.items) }
    ensures extends { Extends net.old.cells net.new.cells }
    ensures group { net.new.group ≡ net.old.group }
{
    let count = count_up(net, period, first + (period - 1))?;
    let mut bits = Vec::new(alloc);
    for k in 0..distances.len() {
        let bit = count_bit(net, count.register, first + distances[k], count.width)?;
        bits.push(bit)?;
    }
    Ok(bits)
}

/// Control bits, one for each distance below the period, of which bit i is 1 exactly at the ticks `first + distances[i] + n * period`. One
/// register of the least width counts the ticks to `first + period - 1`, and from a period below it again. After want of memory there may
/// be more nodes.
pub fn ticks_after(
    alloc: Global,
    net: &mut Net,
    period: u64,
    first: u64,
    distances: &[u64],
) -> Result<Vec<Node>, Memory>
    requires positive { 1 ≤ period }
    requires room { first + period ≤ 2 ^ 64 }
    requires below { (k : ℕ) → k < length distances.now → get_or distances.now k 0 < period }
    ensures count { IfOk result (λ bits. vec_len bits ≡ length distances.now) }
    ensures many { IfOk result (λ bits. length bits.items ≡ length distances.now) }
    ensures ok { IfOk result (λ bits. AddsBits net.old net.new (IsTickAfter period first distances.now) bits.items) }
    ensures extends { Extends net.old.cells net.new.cells }
    ensures group { net.new.group ≡ net.old.group }
{
    let group = net.group();
    net.set_group(0);
    let counted = count_bits(alloc, net, period, first, distances);
    net.set_group(group);
    counted
}

// Control bits that tell ticks.

ghost use Rattle.std.specs.Prelude.{◌≡◌, ℕ, ◌+◌, ◌-◌, ◌^◌, ◌<◌, ◌≤◌, ◌-ℤ◌, pos, max, length, IfOk};
ghost use Rattle.net_graph.specs.Grow.{Extends};
ghost use Rattle.pipeline_balance.specs.Gate.{IsTickOf, IsCounter, IsCountOf, AddsCount, AddsGate};
ghost use Rattle.pipeline_balance.specs.Bits.{IsBitsFor};

use crate::numbering::next_register;
use mr_values::Memory;
use net_graph::{NameKind, Net, Node, Stream};
use std::alloc::Global;

// The number after which the count has a period up to `first` again.
fn restart_of(period: u64, first: u64) -> i128
    ensures { result ≡ pos (first + 1) -ℤ pos period }
{
    i128::from(first) + 1 - i128::from(period)
}

/// The least number of bits, at least 1, whose patterns number 0 to `last`.
pub fn bits_for(last: u64) -> u8
    ensures { IsBitsFor last result }
{
    for bits in 1..64u8 {
        if last >> bits == 0 {
            return bits;
        }
    }
    64
}

// The greater of the last number of the count before it starts again and the ticks of a period but one.
fn last_of(period: u64, first: u64) -> u64
    requires { 1 ≤ period }
    ensures { result ≡ max first (period - 1) }
{
    first.max(period - 1)
}

/// A register that counts ticks, its width in bits, and the bit that is set where it has the last number of the count.
#[derive(Clone, Copy)]
pub(crate) struct Count {
    pub(crate) register: Node,
    pub(crate) width: u8,
    pub(crate) done: Node,
}

/// The register that counts to `first`, and from a period below it again, in a net whose group is that of control.
pub(crate) fn count_up(net: &mut Net, period: u64, first: u64) -> Result<Count, Memory>
    requires positive { 1 ≤ period }
    requires control { net.old.group ≡ 0 }
    ensures ok { IfOk result (λ c. IsCounter net.old net.new (IsTickOf period first) c.done) }
    ensures counts { IfOk result (λ c. IsCountOf net.new.cells period first c.width c.register) }
    ensures width { IfOk result (λ c. IsBitsFor (max first (period - 1)) c.width) }
    ensures count { IfOk result (λ _. AddsCount net.old.cells net.new.cells (max first (period - 1))) }
    ensures extends { Extends net.old.cells net.new.cells }
    ensures group { net.new.group ≡ net.old.group }
{
    let again = restart_of(period, first);
    let width = bits_for(last_of(period, first));
    let count = next_register(net, 0, NameKind::Control, width)?;
    let last = net.constant(i128::from(first), width)?;
    let restart = net.constant(again, width)?;
    let one = net.constant(1, width)?;
    let done = net.equal(count, last)?;
    let more = net.add(count, one, width)?;
    let next = net.mux(done, restart, more, width)?;
    net.bind(count, next);
    Ok(Count {
        register: count,
        width,
        done,
    })
}

/// The bit of `counter`, in a net whose group is that of control.
pub(crate) fn count_ticks(net: &mut Net, period: u64, first: u64) -> Result<Node, Memory>
    requires positive { 1 ≤ period }
    requires control { net.old.group ≡ 0 }
    ensures ok { IfOk result (IsCounter net.old net.new (IsTickOf period first)) }
    ensures count { IfOk result (λ _. AddsCount net.old.cells net.new.cells (max first (period - 1))) }
    ensures extends { Extends net.old.cells net.new.cells }
    ensures group { net.new.group ≡ net.old.group }
{
    let count = count_up(net, period, first)?;
    Ok(count.done)
}

/// A control bit that is 1 exactly at the ticks `first + k * period`: a register of the least width counts the ticks to `first`,
/// and from a period below it again. After want of memory there may be more nodes.
pub fn counter(_alloc: Global, net: &mut Net, period: u64, first: u64) -> Result<Node, Memory>
    requires positive { 1 ≤ period }
    ensures ok { IfOk result (IsCounter net.old net.new (IsTickOf period first)) }
    ensures count { IfOk result (λ _. AddsCount net.old.cells net.new.cells (max first (period - 1))) }
    ensures extends { Extends net.old.cells net.new.cells }
    ensures group { net.new.group ≡ net.old.group }
{
    let group = net.group();
    net.set_group(0);
    let counted = count_ticks(net, period, first);
    net.set_group(group);
    counted
}

/// A bit that is 1 exactly at the stream's ticks, and none where every tick is one of the stream.
pub fn gate_of(alloc: Global, net: &mut Net, from: Stream) -> Result<Option<Node>, Memory>
    requires positive { 1 ≤ from.period }
    ensures ok { IfOk result (AddsGate net.old net.new from.period from.offset) }
    ensures extends { Extends net.old.cells net.new.cells }
    ensures group { net.new.group ≡ net.old.group }
{
    if from.period == 1 && from.offset == 0 {
        return Ok(None);
    }
    let bit = counter(alloc, net, from.period, from.offset)?;
    Ok(Some(bit))
}

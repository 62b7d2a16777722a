// What accumulators add in each slot.

ghost use Rattle.std.specs.Prelude.{◌≡◌, ℕ, ◌+◌, ◌/◌, ◌<◌, ◌≤◌, length, slice_get, Some, IfOk, OnErr};
ghost use Rattle.signed_digit.specs.declared.term_list.Term.{Term};
ghost use Rattle.net_graph.specs.declared.cell.Node.{Node};
ghost use Rattle.net_graph.specs.Cells.{cell_at};
ghost use Rattle.net_graph.specs.WellFormed.{IsWidth};
ghost use Rattle.net_graph.specs.Grow.{Extends};
ghost use Rattle.folded_fir.specs.Operands.{AreCopies, HaveRoom, AreBelow, IsScaled, AddsOperand};

use mr_values::Memory;
use net_graph::{Net, Node};
use signed_digit::Term;

// The node times a power of two, in so many bits more.
fn scaled(net: &mut Net, from: Node, by: u8) -> Result<Node, Memory>
    requires data_group { 1 ≤ net.old.group }
    requires within { from.place < length net.old.cells }
    requires room { (cell_at net.old.cells from.place).width + by ≤ 128 }
    ensures ok { IfOk result (IsScaled net.old net.new from by) }
    ensures extends { Extends net.old.cells net.new.cells }
    ensures group { net.new.group ≡ net.old.group }
    ensures err { OnErr result (net.new ≡ net.old) }
{
    if by == 0 {
        return Ok(from);
    }
    let width = net.width(from) + by;
    let to = net.shl(from, by, width)?;
    Ok(to)
}

// The greatest width of the terms' copies, each with its power of two.
fn widest(net: &Net, copies: &[Node], up: u32, terms: &[Option<Term>]) -> u8
    requires some { 1 ≤ up }
    requires copies { AreCopies net.now.cells copies.now }
    requires room { HaveRoom net.now.cells copies.now up terms.now }
    ensures wide { IsWidth result }
    ensures below { AreBelow net.now.cells copies.now up terms.now result }
{
    let mut width = 1;
    for term in terms {
        if let Some(term) = term {
            let own = net.width(copies[(term.index / up) as usize]) + term.place;
            width = own.max(width);
        }
    }
    width
}

/// The node that has, where one of the bits alone is set, the copy that this bit's term weighs, times the term's power of two, and 0 where no
/// bit is set or the bit has no term. After want of memory there may be more nodes.
pub(crate) fn add_operand(
    net: &mut Net,
    bits: &[Node],
    copies: &[Node],
    up: u32,
    terms: &[Option<Term>],
) -> Result<Node, Memory>
    requires data_group { 1 ≤ net.old.group }
    requires some { 1 ≤ up }
    requires as_many { length bits.now ≡ length terms.now }
    requires has_bits { (k : ℕ) (bit : Node) → slice_get bits.now k ≡ Some bit → bit.place < length net.old.cells }
    requires copies { AreCopies net.old.cells copies.now }
    requires room { HaveRoom net.old.cells copies.now up terms.now }
    ensures ok { IfOk result (λ to. (width : ℕ) × AddsOperand net.old net.new bits.now copies.now up terms.now (length terms.now) width to) }
    ensures extends { Extends net.old.cells net.new.cells }
    ensures group { net.new.group ≡ net.old.group }
{
    let width = widest(net, copies, up, terms);
    let mut operand = net.constant(0, width)?;
    for k in 0..terms.len() {
        match terms[k] {
            None => {}
            Some(term) => {
                let copy = copies[(term.index / up) as usize];
                let shifted = scaled(net, copy, term.place)?;
                operand = net.mux(bits[k], shifted, operand, width)?;
            }
        }
    }
    Ok(operand)
}

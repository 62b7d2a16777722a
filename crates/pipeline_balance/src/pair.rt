// Sums of one or two terms, each in a register.

ghost use Rattle.std.specs.Prelude.{◌≡◌, ℕ, ◌+◌, ◌*◌, ◌<◌, ◌≤◌, ◌^◌, [], ◌∷◌, length, pos, ◌*ℤ◌, ◌+ℤ◌, IfOk, OnErr, if◌then◌else◌, false};
ghost use Rattle.net_graph.specs.WellFormed.{IsWidth};
ghost use Rattle.net_graph.specs.Grow.{Extends};
ghost use Rattle.net_graph.specs.declared.name.NameKind.TheVariants.{Register};
ghost use Rattle.pipeline_balance.specs.Leaves.{IsLeaf, signed_by};
ghost use Rattle.pipeline_balance.specs.Shallow.{PassesPlain, SumsPlain};
ghost use Rattle.pipeline_balance.specs.Tree.{AddsNode, AddsSum, TakesNode};

use crate::numbering::next_register;
use mr_values::Memory;
use net_graph::{Leaf, NameKind, Net, Node};

// One register of this width with the next free number, that takes the node's value, cut to the width, at each tick.
fn register_wide(net: &mut Net, node: Node, width: u8) -> Result<Node, Memory>
    requires within { node.place < length net.old.cells }
    requires data_group { 1 ≤ net.old.group }
    requires wide { IsWidth width }
    ensures ok { IfOk result (TakesNode net.old net.new node width) }
    ensures err { OnErr result (net.new ≡ net.old) }
{
    let group = net.group();
    let register = next_register(net, group, NameKind::Register, width)?;
    net.bind(register, node);
    Ok(register)
}

/// A leaf's node times its power of two.
pub(crate) fn shifted(net: &mut Net, leaf: Leaf) -> Result<Node, Memory>
    requires data_group { 1 ≤ net.old.group }
    requires is_leaf { IsLeaf net.old.cells leaf }
    ensures ok { IfOk result (λ to. AddsNode net.old net.new 0 to (λ cut values t. values t leaf.node.place *ℤ pos (2 ^ leaf.place))) }
    ensures plain { IfOk result (λ to. PassesPlain net.old net.new leaf.node to) }
    ensures err { OnErr result (net.new ≡ net.old) }
{
    if leaf.place == 0 {
        return Ok(leaf.node);
    }
    let width = net.width(leaf.node);
    let to = net.shl(leaf.node, leaf.place, width + leaf.place)?;
    Ok(to)
}

// The sum of two terms that may be negative, or of their negations where both are, cut to a width.
fn combined(
    net: &mut Net,
    a: Node,
    a_negative: bool,
    b: Node,
    b_negative: bool,
    width: u8,
) -> Result<Node, Memory>
    requires data_group { 1 ≤ net.old.group }
    requires has_a { a.place < length net.old.cells }
    requires has_b { b.place < length net.old.cells }
    requires wide { IsWidth width }
    ensures ok { IfOk result (λ to. AddsNode net.old net.new 1 to
        (λ cut values t. cut false width (signed_by (if a_negative then b_negative else false)
        (signed_by a_negative (values t a.place) +ℤ signed_by b_negative (values t b.place))))) }
    ensures shallow { IfOk result (λ _. SumsPlain net.old net.new a b) }
    ensures err { OnErr result (net.new ≡ net.old) }
{
    if a_negative == b_negative {
        net.add(a, b, width)
    } else if b_negative {
        net.sub(a, b, width)
    } else {
        net.sub(b, a, width)
    }
}

/// A register with the sum of two leaves a tick before.
pub(crate) fn sum_of_two(net: &mut Net, a: Leaf, b: Leaf, width: u8) -> Result<Leaf, Memory>
    requires data_group { 1 ≤ net.old.group }
    requires leaf_a { IsLeaf net.old.cells a }
    requires leaf_b { IsLeaf net.old.cells b }
    requires wide { IsWidth width }
    ensures ok { IfOk result (AddsSum net.old net.new (a ∷ b ∷ []) width 1) }
    ensures extends { Extends net.old.cells net.new.cells }
    ensures group { net.new.group ≡ net.old.group }
{
    let left = shifted(net, a)?;
    let right = shifted(net, b)?;
    let sum = combined(net, left, a.negative, right, b.negative, width)?;
    let node = register_wide(net, sum, width)?;
    Ok(Leaf {
        node,
        place: 0,
        negative: a.negative && b.negative,
    })
}

/// A register with one leaf a tick before.
pub(crate) fn sum_of_one(net: &mut Net, a: Leaf, width: u8) -> Result<Leaf, Memory>
    requires data_group { 1 ≤ net.old.group }
    requires leaf_a { IsLeaf net.old.cells a }
    requires wide { IsWidth width }
    ensures ok { IfOk result (AddsSum net.old net.new (a ∷ []) width 0) }
    ensures extends { Extends net.old.cells net.new.cells }
    ensures group { net.new.group ≡ net.old.group }
{
    let held = shifted(net, a)?;
    let node = register_wide(net, held, width)?;
    Ok(Leaf {
        node,
        place: 0,
        negative: a.negative,
    })
}

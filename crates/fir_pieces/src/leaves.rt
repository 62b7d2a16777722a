// Terms as leaves over nodes.

ghost use Rattle.std.specs.Prelude.{◌≡◌, ◌<◌, length, All, IfOk, map};
ghost use Rattle.fir_pieces.specs.Placed.{leaf_of};

use mr_values::Memory;
use net_graph::{Leaf, Node};
use signed_digit::Term;
use std::alloc::Global;

// A term as a leaf over the nodes of a list.
fn leaf_of(nodes: &[Node], term: Term) -> Leaf
    requires { term.index < length nodes.now }
    ensures { result ≡ leaf_of nodes.now term }
{
    Leaf {
        node: nodes[term.index as usize],
        place: term.place,
        negative: term.negative,
    }
}

/// Terms as leaves over the nodes of a list.
pub(crate) fn leaves_of(alloc: Global, nodes: &[Node], terms: &[Term]) -> Result<Vec<Leaf>, Memory>
    requires { All (λ t. t.index < length nodes.now) terms.now }
    ensures { IfOk result (λ leaves. leaves.items ≡ map (leaf_of nodes.now) terms.now) }
{
    let mut leaves = Vec::new(alloc);
    for term in terms {
        leaves.push(leaf_of(nodes, *term))?;
    }
    Ok(leaves)
}

// The tree over the registers of a window's pairs and centre.

ghost use Rattle.std.specs.Prelude.{◌≡◌, ℕ, ◌++◌, ◌^◌, ◌≤◌, ◌<◌, ◌*◌, length, IfOk};
ghost use Rattle.net_graph.specs.Grow.{Extends};
ghost use Rattle.stage_law.specs.Streams.{HasRoom, magnitudes};
ghost use Rattle.fir_pieces.specs.Readers.{AreNodes};
ghost use Rattle.symmetric_fir.specs.Front.{AddsSums};

use crate::front::{Front, add_front};
use crate::mirror::Mirror;
use crate::pairs::{Pairs, pairs_of};
use fir_pieces::{Held, Readers, Reading, Shown, Tree, sum_tree};
use mr_values::Memory;
use net_graph::{Net, Node};
use signed_digit::terms;
use stage_law::Ranges;
use std::alloc::Global;

/// The nodes behind a window: the root, the registers over the pairs, and then the centre's and the tree's, with what they hold.
#[derive(Drop)]
pub(crate) struct Sums {
    pub(crate) root: Node,
    pub(crate) pair_nodes: Vec<Node>,
    pub(crate) pair_held: Vec<Held>,
    pub(crate) registers: Vec<Node>,
    pub(crate) held: Vec<Held>,
}

// These nodes, and then those.
fn joined_nodes(alloc: Global, first: &[Node], second: &[Node]) -> Result<Vec<Node>, Memory>
    ensures { IfOk result (λ nodes. nodes.items ≡ first.now ++ second.now) }
{
    let mut nodes = Vec::from_slice(alloc, first)?;
    nodes.extend_from_slice(second)?;
    Ok(nodes)
}

// What is read for the pairs, and then for the centre.
fn joined_readings(alloc: Global, found: &Pairs) -> Result<Vec<Reading>, Memory>
    ensures { IfOk result (λ readings. readings.items ≡ found.now.pairs.items ++ found.now.centres.items) }
{
    let mut readings = Vec::from_slice(alloc, found.pairs.as_slice())?;
    readings.extend_from_slice(found.centres.as_slice())?;
    Ok(readings)
}

// All nodes behind a window.
fn joined(alloc: Global, front: Front, tree: Tree) -> Result<Sums, Memory>
    ensures root { IfOk result (λ s. s.root ≡ tree.root) }
    ensures pair_nodes { IfOk result (λ s. s.pair_nodes.items ≡ front.pairs.nodes.items) }
    ensures pair_held { IfOk result (λ s. s.pair_held.items ≡ front.pairs.held.items) }
    ensures registers { IfOk result (λ s. s.registers.items ≡ front.centres.nodes.items ++ tree.registers.items) }
    ensures held { IfOk result (λ s. s.held.items ≡ front.centres.held.items ++ tree.held.items) }
{
    let Front { pairs, centres } = front;
    let Readers {
        nodes: pair_nodes,
        held: pair_held,
    } = pairs;
    let Readers {
        nodes: centre_nodes,
        held: centre_held,
    } = centres;
    let Tree {
        root,
        registers: tree_nodes,
        held: mut tree_held,
    } = tree;
    let registers = joined_nodes(alloc, centre_nodes.as_slice(), tree_nodes.as_slice())?;
    let mut held = centre_held;
    held.append(&mut tree_held)?;
    Ok(Sums {
        root,
        pair_nodes,
        pair_held,
        registers,
        held,
    })
}

impl<const ANTI: usize> Mirror<ANTI> {
    // The nodes behind a window.
    pub(crate) fn sums<R: Ranges>(
        &self,
        alloc: Global,
        net: &mut Net,
        window: &[Node],
        ranges: &R,
    ) -> Result<Sums, Memory>
        requires data_group { 1 ≤ net.old.group }
        requires nodes { AreNodes net.old.cells window.now }
        requires deep { length window.now ≡ length self.now.taps.items }
        requires room { HasRoom (R.streams ranges.now) (magnitudes self.now.taps.items) }
        ensures ok { IfOk result (λ s. AddsSums (R.streams ranges.now) net.old net.new window.now ANTI self.now.taps.items self.now.levels s.pair_held.items s.held.items s.pair_nodes.items s.registers.items s.root) }
        ensures extends { Extends net.old.cells net.new.cells }
        ensures group { net.new.group ≡ net.old.group }
    {
        let found = pairs_of(alloc, ANTI, self.taps.as_slice())?;
        let front = add_front(
            alloc,
            net,
            window,
            ANTI,
            self.taps.as_slice(),
            &found,
            ranges,
        )?;
        let nodes = joined_nodes(
            alloc,
            front.pairs.nodes.as_slice(),
            front.centres.nodes.as_slice(),
        )?;
        let readings = joined_readings(alloc, &found)?;
        let terms = terms(alloc, found.firsts.as_slice(), 1, 0)?;
        let shown = Shown {
            nodes,
            readings,
            ticks: 1,
        };
        let tree = sum_tree(alloc, net, &shown, terms.as_slice(), self.levels, ranges)?;
        let sums = joined(alloc, front, tree)?;
        Ok(sums)
    }
}

// The trees of all phases.

ghost use Rattle.std.specs.Prelude.{◌≡◌, ℕ, ◌<◌, ◌≤◌, ◌++◌, ◌∷◌, [], length, IfOk};
ghost use Rattle.net_graph.specs.declared.cell.Stream.{Stream};
ghost use Rattle.net_graph.specs.Grow.{Extends};
ghost use Rattle.stage_law.specs.Streams.{HasRoom, magnitudes};
ghost use Rattle.fir_pieces.specs.Cutting.{IsWideWindow, IsCutWindow};
ghost use Rattle.fir_pieces.specs.Held.{AreHeld};
ghost use Rattle.fir_pieces.specs.Reading.{ages};
ghost use Rattle.polyphase_fir.specs.Facts.{phase_sums};
ghost use Rattle.polyphase_fir.specs.Roots.{AddsRegisters, AddsRoots, SumsWindow};

use crate::places::placed_terms;
use crate::polyphase::Polyphase;
use fir_pieces::{Held, Shown, Tree, sum_tree};
use mr_values::Memory;
use net_graph::{Net, Node};
use stage_law::Ranges;
use std::alloc::Global;

/// The trees of all phases: their roots, and their registers, tree by tree, with what these hold.
#[derive(Drop)]
pub(crate) struct Trees {
    pub(crate) roots: Vec<Node>,
    pub(crate) registers: Vec<Node>,
    pub(crate) held: Vec<Held>,
}

// One tree more.
fn push_tree(trees: &mut Trees, tree: Tree) -> Result<(), Memory>
    ensures roots { IfOk result (λ _. trees.new.roots.items ≡ trees.old.roots.items ++ tree.root ∷ []) }
    ensures registers { IfOk result (λ _. trees.new.registers.items ≡ trees.old.registers.items ++ tree.registers.items) }
    ensures held { IfOk result (λ _. trees.new.held.items ≡ trees.old.held.items ++ tree.held.items) }
{
    let mut held = tree.held;
    trees.roots.push(tree.root)?;
    trees
        .registers
        .extend_from_slice(tree.registers.as_slice())?;
    trees.held.append(&mut held)?;
    Ok(())
}

/// The trees of all phases over a window.
pub(crate) fn phase_trees<R: Ranges>(
    alloc: Global,
    net: &mut Net,
    window: &Shown,
    filter: &Polyphase,
    ranges: &R,
) -> Result<Trees, Memory>
    requires data_group { 1 ≤ net.old.group }
    requires deep { length window.now.nodes.items ≡ filter.now.depth }
    requires values { window.now.readings.items ≡ ages filter.now.depth }
    requires prompt { window.now.ticks ≡ 0 }
    requires wide { IsWideWindow (R.streams ranges.now) net.old.cells window.now.nodes.items }
    requires room { HasRoom (R.streams ranges.now) (magnitudes filter.now.taps.items) }
    ensures many { IfOk result (λ trees. length trees.roots.items ≡ filter.now.rates.up) }
    ensures ok { IfOk result (λ trees. (from : Stream) → 1 ≤ from.period → IsCutWindow (R.streams ranges.now) net.old.cells from window.now.nodes.items
        → AddsRoots (R.streams ranges.now) net.old net.new from filter.now.levels filter.now.taps.items filter.now.rates.up trees.roots.items) }
    ensures registers { IfOk result (λ trees. (from : Stream) → 1 ≤ from.period → IsCutWindow (R.streams ranges.now) net.old.cells from window.now.nodes.items
        → AddsRegisters (R.streams ranges.now) net.old net.new from filter.now.depth filter.now.levels (phase_sums filter.now.rates.up filter.now.taps.items filter.now.levels filter.now.rates.up) trees.registers.items) }
    ensures held { IfOk result (λ trees. AreHeld (R.streams ranges.now) (phase_sums filter.now.rates.up filter.now.taps.items filter.now.levels filter.now.rates.up) trees.held.items) }
    ensures shallow { IfOk result (λ _. SumsWindow net.old net.new window.now.nodes.items) }
    ensures extends { Extends net.old.cells net.new.cells }
    ensures group { net.new.group ≡ net.old.group }
{
    let mut trees = Trees {
        roots: Vec::new(alloc),
        registers: Vec::new(alloc),
        held: Vec::new(alloc),
    };
    for phase in 0..filter.rates.up {
        let terms = placed_terms(alloc, filter.taps.as_slice(), filter.rates.up, phase)?;
        let tree = sum_tree(alloc, net, window, terms.as_slice(), filter.levels, ranges)?;
        push_tree(&mut trees, tree)?;
    }
    Ok(trees)
}

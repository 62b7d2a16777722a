// The assignments of a module in the order in which they are evaluated.

ghost use Rattle.std.specs.Prelude.{◌≡◌, ◌++◌, map, IfOk};
ghost use Rattle.verilog_tree.specs.Cycle.{IsDrivenOnce, IsLoopFree};
ghost use Rattle.verilog_tree.specs.View.{design_view};
ghost use Rattle.settle_order.specs.Placing.{AreNamed};
ghost use Rattle.wire_levels.specs.Levels.{level_in, AreByLevel};
ghost use Rattle.wire_levels.specs.Placed.{levelled_from};

use crate::signal_levels::{level_in, name_levels};
use mr_values::Memory;
use std::alloc::Global;
use verilog_tree::{Assign, Module};

// An assignment by its place, and the level of what it drives.
#[derive(Clone, Copy)]
pub(crate) struct Levelled {
    pub(crate) level: usize,
    pub(crate) place: usize,
}

fn with_levels(alloc: Global, assigns: &[Assign], levels: &[usize]) -> Result<Vec<Levelled>, Memory>
    ensures { IfOk result (λ made. made.items ≡ levelled_from (level_in levels.now) 0 assigns.now) }
{
    let mut made = Vec::new(alloc);
    for (place, assign) in assigns.iter().enumerate() {
        made.push(Levelled {
            level: level_in(levels, assign.target),
            place,
        })?;
    }
    Ok(made)
}

fn places_of(alloc: Global, sorted: &[Levelled]) -> Result<Vec<usize>, Memory>
    ensures { IfOk result (λ places. places.items ≡ map (λ l. l.place) sorted.now) }
{
    let mut places = Vec::new(alloc);
    for assign in sorted {
        places.push(assign.place)?;
    }
    Ok(places)
}

/// The places of the assignments of a module without a loop, sorted by the levels of what they drive, so that none stands before one
/// that drives what it reads. All targets are among the first `count` names. Fails only for want of memory.
pub fn level_order(alloc: Global, design: &Module, count: usize) -> Result<Vec<usize>, Memory>
    requires driven { IsDrivenOnce (design_view design.now) }
    requires free { IsLoopFree (design_view design.now) }
    requires named { AreNamed (design_view design.now) count }
    ensures { IfOk result (λ order. AreByLevel (design_view design.now) order.items) }
{
    let levels = name_levels(alloc, design, count)?;
    let mut sorted = with_levels(alloc, design.assigns.as_slice(), &levels)?;
    sorted.sort_by_key(|assign| assign.level)?;
    let order = places_of(alloc, &sorted)?;
    Ok(order)
}

// The lengths and signs of names, by their numbers.

ghost use Rattle.std.specs.Prelude.{◌≡◌, ◌<◌, ℕ, IfOk, All};
ghost use Rattle.verilog_tree.specs.Names.{shapes_of};
ghost use Rattle.verilog_tree.specs.View.{design_view};
ghost use Rattle.clock_sim.specs.Simulated.{table_shapes};
ghost use Rattle.clock_sim.specs.Tables.{AreNumbered, TellsShapes};

use mr_values::Memory;
use std::alloc::Global;
use verilog_tree::{Declarations, Module};

/// The declared lengths and signs of names.
#[derive(Drop)]
pub struct ShapeTable {
    widths: Vec<u32>,
    signs: Vec<bool>,
}

impl Declarations for ShapeTable {
    ghost shapes = { λ table. table_shapes table.widths.items table.signs.items };

    fn width_of(&self, name: usize) -> u32 {
        if name < self.widths.len() {
            self.widths[name]
        } else {
            1
        }
    }

    fn sign_of(&self, name: usize) -> bool {
        name < self.signs.len() && self.signs[name]
    }
}

/// The lengths and signs that a module declares for its first `count` names, among which all of its declarations are. They are
/// written from the last declaration to the first, since the first of a name counts.
pub fn table_of(alloc: Global, design: &Module, count: usize) -> Result<ShapeTable, Memory>
    requires numbered { AreNumbered count design.now.signals.items }
    ensures { IfOk result (λ table. TellsShapes (table_shapes table.widths.items table.signs.items) (shapes_of (design_view design.now))) }
{
    let mut widths = Vec::from_elem(alloc, 1, count)?;
    let mut signs = Vec::from_elem(alloc, false, count)?;
    let signals = design.signals.as_slice();
    for turn in 0..signals.len() {
        let place = signals.len() - 1 - turn;
        let signal = signals[place];
        widths[signal.name] = signal.width;
        signs[signal.name] = signal.signed;
    }
    Ok(ShapeTable { widths, signs })
}

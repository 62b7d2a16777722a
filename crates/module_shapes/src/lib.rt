//! The shape of the statements of a module that is written for a net.
#![tactic(auto)]

ghost use Rattle.std.specs.Prelude.{ℕ, ◌<◌, ◌≤◌, ◌^◌, List};
ghost use Rattle.net_graph.specs.declared.cell.Cell.{Cell};
ghost use Rattle.net_graph.specs.WellFormed.{IsNetlist};
ghost use Rattle.net_module.specs.Written.{written_module};
ghost use Rattle.net_text.specs.Small.{AreSmall};
ghost use Rattle.pipeline_balance.specs.Shapes.{HasLinearItems};
ghost use Rattle.net_graph.specs.Tables.{HasOwnTables};
ghost use Rattle.verilog_text.specs.Order.{IsSameButPlaces};
ghost use Rattle.verilog_tree.specs.Tree.{Design};
ghost use Rattle.module_shapes.specs.Shapes.{HasLinearShapes};

/// Where each node of a group computes a sum, a difference, a constant, a shift up or a choice by control, the statements of the written
/// module that drive the group's names have no other operator, wherever its declarations stand.
pub fn law_of_shapes()
    ensures { (cells : List Cell) → IsNetlist cells → AreSmall cells → HasOwnTables cells → (group : ℕ) → 1 ≤ group → group < 2 ^ 64 → HasLinearItems cells group → (d : Design) → IsSameButPlaces d (written_module cells) → HasLinearShapes d group }
{}

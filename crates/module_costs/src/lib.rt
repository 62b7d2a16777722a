//! The cost of the module that is written for a net, counted in its statements.
#![tactic(auto)]

ghost use Rattle.std.specs.Prelude.{ℕ, ◌<◌, ◌≤◌, ◌^◌, List};
ghost use Rattle.net_graph.specs.declared.cell.Cell.{Cell};
ghost use Rattle.net_graph.specs.Depth.{IsShallow};
ghost use Rattle.net_graph.specs.Tables.{HasPlainTables, HasOwnTables};
ghost use Rattle.net_graph.specs.WellFormed.{IsNetlist};
ghost use Rattle.net_module.specs.Written.{written_module};
ghost use Rattle.net_text.specs.Small.{AreSmall};
ghost use Rattle.verilog_tree.specs.Counted.{HasDepth};
ghost use Rattle.module_costs.specs.Counting.{CountsAs};

/// At most one adder of a group stands between two registers of the written module, where that is so in the net and each table is of the
/// group of its name.
pub fn law_of_depths()
    ensures { (cells : List Cell) → IsNetlist cells → AreSmall cells → HasOwnTables cells → (group : ℕ) → 1 ≤ group → group < 2 ^ 64 → IsShallow cells group → HasDepth (written_module cells) group 1 }
{}

/// The adders, window registers and tables of each group of a stage, counted in the written module, are those of the net, where no
/// table is an adder or the input.
pub fn law_of_counts()
    ensures { (cells : List Cell) → IsNetlist cells → AreSmall cells → HasPlainTables cells → CountsAs cells }
{}

// What holds of every written module.

ghost use Rattle.std.specs.Prelude.{List};
ghost use Rattle.net_graph.specs.declared.cell.Cell.{Cell};
ghost use Rattle.net_graph.specs.WellFormed.{IsNetlist};
ghost use Rattle.verilog_tree.specs.Checks.{Passes};
ghost use Rattle.net_module.specs.Written.{IsWritable, written_module};
ghost use Rattle.net_module.specs.Steps.{StepsAs, ShowsAs};

/// The module that is written for a net steps as the net, and shows what the net shows.
pub fn law_of_steps()
    ensures steps { (cells : List Cell) → IsNetlist cells → IsWritable cells → StepsAs cells }
    ensures shows { (cells : List Cell) → IsNetlist cells → IsWritable cells → ShowsAs cells }
{}

/// The module that is written for a net passes every check of a module.
pub fn law_of_checks()
    ensures { (cells : List Cell) → IsNetlist cells → IsWritable cells → Passes (written_module cells) }
{}

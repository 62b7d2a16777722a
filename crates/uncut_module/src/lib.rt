//! The uncut run of the module that is written for a net.
#![tactic(auto)]

ghost use Rattle.std.specs.Prelude.{List};
ghost use Rattle.net_graph.specs.declared.cell.Cell.{Cell};
ghost use Rattle.net_graph.specs.Control.{IsControlClosed};
ghost use Rattle.net_graph.specs.WellFormed.{IsNetlist};
ghost use Rattle.net_module.specs.Written.{IsWritable};
ghost use Rattle.uncut_module.specs.Uncut.{StepsUncut};

/// In the uncut run of a written module each register, and at each tick each node, has the number that it has in the net's uncut
/// run, where control nodes read control nodes alone.
pub fn law_of_uncut_steps()
    ensures { (cells : List Cell) → IsNetlist cells → IsControlClosed cells → IsWritable cells → StepsUncut cells }
{}

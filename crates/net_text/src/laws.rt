// What holds of the texts of written modules.

ghost use Rattle.std.specs.Prelude.{List};
ghost use Rattle.net_graph.specs.declared.cell.Cell.{Cell};
ghost use Rattle.net_graph.specs.WellFormed.{IsNetlist};
ghost use Rattle.verilog_text.specs.Grammar.{limits};
ghost use Rattle.verilog_text.specs.Shortest.{IsWritable as HasText};
ghost use Rattle.verilog_text.specs.Order.{IsInOrder};
ghost use Rattle.net_module.specs.Written.{IsWritable, written_module};
ghost use Rattle.net_text.specs.Small.{AreSmall};

/// The module that is written for a net whose numbers are those of a machine has a text, in which its names are numbered in the
/// order in which they first appear.
pub fn law_of_text()
    ensures text { (cells : List Cell) → IsNetlist cells → IsWritable cells → AreSmall cells → HasText limits (written_module cells) }
    ensures order { (cells : List Cell) → IsNetlist cells → IsWritable cells → IsInOrder (written_module cells) }
{}

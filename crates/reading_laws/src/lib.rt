//! Laws of the modules that texts read as.
#![tactic(auto)]

ghost use Rattle.std.specs.Prelude.{ℕ, List};
ghost use Rattle.verilog_tree.specs.Tree.{Design};
ghost use Rattle.verilog_tree.specs.Checks.{Face, HasClock, PassesAs};
ghost use Rattle.verilog_text.specs.Grammar.{limits};
ghost use Rattle.verilog_text.specs.Reading.{Reads};
ghost use Rattle.verilog_text.specs.Shortest.{IsWritable};

/// A module that a text reads as and that passes the checks with the ports of a face, `clk` among them, is formed as the grammar forms modules: it has a writing with the fewest
/// brackets, within the limits of the text.
pub fn law_of_forming()
    ensures { (face : Face) → HasClock face → (bytes : List ℕ) (d : Design) → Reads bytes d → PassesAs face d → IsWritable limits d }
{}

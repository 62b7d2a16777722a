// Laws of simulations that no function computes: each is the contract of a call that does nothing.
ghost use Rattle.verilog_tree.specs.Tree.{Design};
ghost use Rattle.verilog_tree.specs.Checks.{Passes};
ghost use Rattle.sim_stream.specs.Laws.{HasOneText};

use module_laws::{law_of_runs, law_of_settling};

/// From any registers on, the cycles of a stimulus give exactly one text, in a module that passes the checks.
pub fn law_of_one_text()
    ensures { (d : Design) → Passes d → HasOneText d }
{
    law_of_settling();
    law_of_runs();
}

// Laws of simulations that draw: each is the contract of a call that does nothing.
ghost use Rattle.verilog_tree.specs.Tree.{Design};
ghost use Rattle.verilog_tree.specs.Checks.{Passes};
ghost use Rattle.verilog_tree.specs.View.{design_view};
ghost use Rattle.order_stream.specs.Laws.{HasOneOrderedText, EveryOrderShows};

use event_order::law_of_every_run;
use formed_module::FormedModule;
use module_laws::law_of_runs;

/// From any registers and in any state of the draws on, the cycles of a stimulus give exactly one text, in a module that passes the checks.
pub fn law_of_one_text()
    ensures { (d : Design) → Passes d → HasOneOrderedText d }
{
    law_of_runs();
}

/// In every order of a list of cycles of a module that passes the checks the outputs show what the drawn steps show, but for the last
/// assignments, and each cycle is that of the run.
pub fn law_of_every_order(design: &FormedModule)
    requires { Passes (design_view design.now) }
    ensures { EveryOrderShows (design_view design.now) }
{
    law_of_every_run(design);
    let _tree = design.tree();
}

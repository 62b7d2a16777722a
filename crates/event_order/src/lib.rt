//! Every order in which a simulator may take the steps of a cycle: the steps, what every order of them has in common, and the order that is drawn from a
//! number. This crate knows no simulator; `order_sim` and the simulations of a stimulus rely on it.
#![tactic(auto)]

ghost use Rattle.verilog_tree.specs.Checks.{Passes};
ghost use Rattle.verilog_tree.specs.Cycle.{circuit_of};
ghost use Rattle.verilog_tree.specs.Tree.{Design};
ghost use Rattle.verilog_tree.specs.View.{design_view};
ghost use Rattle.event_order.specs.Laws.{EveryOrder, EveryRun, EveryStart, DrawnIsOrder};

use formed_module::FormedModule;

/// In every order of one cycle of a module that passes the checks, from any content of registers and wires in which at least the
/// assignments are pending whose wires differ from their expressions, the outputs are read from the settled wires, the registers end as
/// the next registers, and what is pending at the end is such a content again.
pub fn law_of_every_order()
    ensures { (d : Design) → Passes d → EveryOrder (circuit_of d) }
{}

/// In all orders of a list of cycles of a module that passes the checks the outputs are read from the settled wires of the run, and
/// the registers at the end of each cycle are the next ones: of the run from the registers with which the order begins, whatever else
/// it begins with.
pub fn law_of_every_run(design: &FormedModule)
    requires { Passes (design_view design.now) }
    ensures run { EveryRun (design_view design.now) }
    ensures start { EveryStart (design_view design.now) }
{
    let _tree = design.tree();
}

/// In a module that passes the checks the steps of a cycle that are drawn from a number are an order of the cycle, in which the outputs
/// are read from the settled wires.
pub fn law_of_drawn_order()
    ensures { (d : Design) → Passes d → DrawnIsOrder d }
{}

//! That a module has one uncut run.
#![tactic(auto)]

ghost use Rattle.verilog_tree.specs.Tree.{Design};
ghost use Rattle.verilog_tree.specs.Checks.{Passes};
ghost use Rattle.uncut_runs.specs.Exists.{HasOneUncutRun};

/// A module that passes the checks has exactly one uncut run beside any patterns, from any whole numbers of its registers.
pub fn law_of_uncut_runs()
    ensures { (d : Design) → Passes d → HasOneUncutRun d }
{}

// Laws of modules that no function computes: each is the contract of a call that does nothing.
ghost use Rattle.verilog_tree.specs.Tree.{Design};
ghost use Rattle.verilog_tree.specs.Laws.{HasOneSettling};
ghost use Rattle.verilog_tree.specs.Cycle.{IsDrivenOnce, IsLoopFree};

/// A module in which each wire and each register is driven once and no wire depends on itself has, for each content of
/// its registers and inputs, exactly one settling.
pub fn law_of_one_settling()
    ensures { (design : Design) → IsDrivenOnce design → IsLoopFree design → HasOneSettling design }
{}

//! Laws of modules that pass the checks, whatever ports they are to have.
#![tactic(auto)]

ghost use Rattle.verilog_tree.specs.Tree.{Design};
ghost use Rattle.verilog_tree.specs.Checks.{Face, IsClosed, PassesAs};
ghost use Rattle.verilog_tree.specs.Cycle.{IsDrivenOnce, IsLoopFree};
ghost use Rattle.verilog_tree.specs.Laws.{HasOneSettling};
ghost use Rattle.verilog_text.specs.Order.{IsSameButPlaces};
ghost use Rattle.module_laws.specs.Running.{HasRuns};

/// In a module that passes the checks, but maybe that of the ports, each wire and each register is driven once.
pub fn law_of_driving()
    ensures { (d : Design) → IsClosed d → IsDrivenOnce d }
{}

/// In such a module each wire has a level above those of the names that its expression reads.
pub fn law_of_levels()
    ensures { (d : Design) → IsClosed d → IsLoopFree d }
{}

/// Such a module has for each content of its registers and inputs exactly one settling.
pub fn law_of_settling()
    ensures { (d : Design) → IsClosed d → HasOneSettling d }
{}

/// Such a module has a run over any cycles from any content.
pub fn law_of_runs()
    ensures { (d : Design) → IsClosed d → HasRuns d }
{}

/// Of modules that differ in the places of their declarations alone each passes with the ports of a face where the other does.
pub fn law_of_places()
    ensures { (face : Face) (d e : Design) → IsSameButPlaces d e → PassesAs face e → PassesAs face d }
{}

/// A module that passes the checks with the ports of some face passes all but that of the ports.
pub fn law_of_closing()
    ensures { (face : Face) (d : Design) → PassesAs face d → IsClosed d }
{}

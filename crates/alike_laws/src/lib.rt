//! Laws of modules that are the same by the texts of their names.
#![tactic(auto)]

ghost use Rattle.verilog_tree.specs.Alike.{IsAlike};
ghost use Rattle.verilog_tree.specs.Checks.{Face, Passes};
ghost use Rattle.verilog_tree.specs.Renaming.{AreDistinct};
ghost use Rattle.verilog_tree.specs.Tree.{Design};
ghost use Rattle.alike_laws.specs.Laws.{HaveSameChecks, HaveSameRuns};

/// Of modules that are alike each passes the checks with the ports of a face where the other does; else both fail, and the first check that fails is the same,
/// whichever signal it names.
pub fn law_of_same_checks()
    ensures { (face : Face) (d e : Design) → AreDistinct d.names → AreDistinct e.names → IsAlike d e → HaveSameChecks face d e }
{}

/// Modules that are alike and pass the checks run alike and show the same.
pub fn law_of_same_runs()
    ensures { (d e : Design) → AreDistinct d.names → AreDistinct e.names → IsAlike d e → Passes d → HaveSameRuns d e }
{}

// Laws of the checks.

ghost use Rattle.std.specs.Prelude.{◌≡◌, ◌⊎◌};
ghost use Rattle.verilog_tree.specs.declared.fault.ModuleFault.{ModuleFault};
ghost use Rattle.verilog_tree.specs.Tree.{Design};
ghost use Rattle.verilog_tree.specs.Checks.{Face, PassesAs, FailsAs};

/// A module that passes the checks fails none. So a module that passes is refused only for want of memory.
pub fn law_of_exclusion()
    ensures { (face : Face) (d : Design) (fault : ModuleFault) → PassesAs face d → FailsAs face d fault → ⊥ }
{}

/// A module has one first fault. So a module that fails is refused for this one or for want of memory.
pub fn law_of_one_fault()
    ensures { (face : Face) (d : Design) (fault other : ModuleFault) → FailsAs face d fault → FailsAs face d other → fault ≡ other }
{}

/// Every module passes the checks with the ports of a face, or there is a first one that it fails.
pub fn law_of_totality()
    ensures { (face : Face) (d : Design) → PassesAs face d ⊎ ((fault : ModuleFault) × FailsAs face d fault) }
{}

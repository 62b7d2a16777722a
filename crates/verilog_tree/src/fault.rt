// Why a module is refused.
use mr_values::Text;
use std::fmt;

/// The first check of a module that fails, with the name of the first signal that fails it.
#[derive(Debug, Drop)]
pub enum ModuleFault {
    Redeclared { name: Text },
    Undeclared { name: Text },
    PortShape { name: Text },
    WrongKind { name: Text },
    WidthOver { name: Text },
    BadSelect { name: Text },
    ManyDrivers { name: Text },
    NoDriver { name: Text },
    CombLoop { name: Text },
    Memory,
}

impl fmt::Display for ModuleFault {
    ghost use Rattle.std.specs.Prelude.{Some};
    ghost use Rattle.verilog_tree.specs.FaultLines.{module_fault_text};

    ghost output = { λ fault. Some (module_fault_text fault) };

    fn fmt<W: fmt::Write>(&self, f: &mut fmt::Formatter<W>) -> fmt::Result {
        match self {
            ModuleFault::Redeclared { name } => write!(f, "Redeclared name={}", name.as_str()),
            ModuleFault::Undeclared { name } => write!(f, "Undeclared name={}", name.as_str()),
            ModuleFault::PortShape { name } => write!(f, "PortShape name={}", name.as_str()),
            ModuleFault::WrongKind { name } => write!(f, "WrongKind name={}", name.as_str()),
            ModuleFault::WidthOver { name } => write!(f, "WidthOver name={}", name.as_str()),
            ModuleFault::BadSelect { name } => write!(f, "BadSelect name={}", name.as_str()),
            ModuleFault::ManyDrivers { name } => write!(f, "ManyDrivers name={}", name.as_str()),
            ModuleFault::NoDriver { name } => write!(f, "NoDriver name={}", name.as_str()),
            ModuleFault::CombLoop { name } => write!(f, "CombLoop name={}", name.as_str()),
            ModuleFault::Memory => write!(f, "Memory"),
        }
    }
}

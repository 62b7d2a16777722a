// Why a text is refused.
ghost use Rattle.std.specs.Prelude.{◌≡◌};
ghost use Rattle.verilog_read.specs.declared.fault.ReadFault.TheVariants as fault;

use mr_values::Memory;
use std::fmt;
use verilog_tree::ModuleFault;

/// The first place, a byte counted from 0, at which a text is refused, or the first check that its module fails.
#[derive(Debug, Drop)]
pub enum ReadFault {
    Lexical { place: u64 },
    Syntax { place: u64 },
    OutsideSubset { place: u64 },
    TooDeep { place: u64 },
    Module(ModuleFault),
    Memory,
}

impl From<Memory> for ReadFault {
    ghost from_gives = { λ _ e. e ≡ fault.Memory };

    fn from(_: Memory) -> Self {
        ReadFault::Memory
    }
}

impl fmt::Display for ReadFault {
    ghost use Rattle.std.specs.Prelude.{Some};
    ghost use Rattle.verilog_read.specs.FaultLines.{read_fault_text};

    ghost output = { λ fault. Some (read_fault_text fault) };

    fn fmt<W: fmt::Write>(&self, f: &mut fmt::Formatter<W>) -> fmt::Result {
        match self {
            ReadFault::Lexical { place } => write!(f, "Lexical place={place}"),
            ReadFault::Syntax { place } => write!(f, "Syntax place={place}"),
            ReadFault::OutsideSubset { place } => write!(f, "OutsideSubset place={place}"),
            ReadFault::TooDeep { place } => write!(f, "TooDeep place={place}"),
            ReadFault::Module(fault) => write!(f, "{fault}"),
            ReadFault::Memory => write!(f, "Memory"),
        }
    }
}

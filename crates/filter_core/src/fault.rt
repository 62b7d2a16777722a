// What the program answers where it doesn't do its command.
use command_files::{CommandFault, FileKind, HostCall};
use mr_values::Text;
use plan_check::PlanFault;
use plan_reader::{PlanReadFault, TapWhy};
use sample_file::LineFault;
use std::fmt;
use verilog_read::ReadFault;
use verilog_tree::ModuleFault;

/// Why a command wasn't done, or that the words are no command. Want of memory is always `Fault::Memory`, and never one of an inner
/// fault. It is printed as the line of the fault, without what `FaultLine` puts before it.
#[derive(Debug, Drop)]
pub enum Fault {
    Usage,
    HostFault { call: HostCall },
    Memory,
    FileTooLong { file: FileKind },
    PlanRead(PlanReadFault),
    Tap { element: u32, row: u64, why: TapWhy },
    Plan(PlanFault),
    Line(LineFault),
    Read(ReadFault),
    Module(ModuleFault),
    NoSuchRegister { name: Text },
    NotOneCic,
    DropCount { found: u64 },
    DropTooDeep { total: u32 },
    PruneTooWide,
    NotShareable { element: u32 },
    ChannelLimit { value: u64 },
    ShareCost { value: u64 },
    SharePeriod { period: u64 },
    NotBuilt,
}

impl From<CommandFault> for Fault {
    ghost use Rattle.std.specs.Prelude.{◌≡◌};
    ghost use Rattle.filter_core.specs.Answers.{fault_of};

    ghost from_gives = { λ why fault. fault ≡ fault_of why };

    fn from(why: CommandFault) -> Fault {
        match why {
            CommandFault::HostFault { call } => Fault::HostFault { call },
            CommandFault::Memory => Fault::Memory,
            CommandFault::FileTooLong { file } => Fault::FileTooLong { file },
            CommandFault::PlanRead(fault) => Fault::PlanRead(fault),
            CommandFault::Tap { element, row, why } => Fault::Tap { element, row, why },
            CommandFault::Plan(fault) => Fault::Plan(fault),
            CommandFault::Line(fault) => Fault::Line(fault),
            CommandFault::Read(fault) => Fault::Read(fault),
            CommandFault::Module(fault) => Fault::Module(fault),
            CommandFault::NoSuchRegister { name } => Fault::NoSuchRegister { name },
            CommandFault::NotBuilt => Fault::NotBuilt,
        }
    }
}

impl fmt::Display for Fault {
    ghost use Rattle.std.specs.Prelude.{Some};
    ghost use Rattle.filter_core.specs.FaultLines.{fault_text};

    ghost output = { λ fault. Some (fault_text fault) };

    fn fmt<W: fmt::Write>(&self, f: &mut fmt::Formatter<W>) -> fmt::Result {
        match self {
            Fault::Usage => write!(f, "Usage"),
            Fault::HostFault { call } => write!(f, "HostFault call={call}"),
            Fault::Memory => write!(f, "Memory"),
            Fault::FileTooLong { file } => write!(f, "FileTooLong file={file}"),
            Fault::PlanRead(fault) => write!(f, "{fault}"),
            Fault::Tap { element, row, why } => {
                write!(f, "Tap element={element} row={row} why={why}")
            }
            Fault::Plan(fault) => write!(f, "{fault}"),
            Fault::Line(fault) => write!(f, "{fault}"),
            Fault::Read(fault) => write!(f, "{fault}"),
            Fault::Module(fault) => write!(f, "{fault}"),
            Fault::NoSuchRegister { name } => write!(f, "NoSuchRegister name={}", name.as_str()),
            Fault::NotOneCic => write!(f, "NotOneCic"),
            Fault::DropCount { found } => write!(f, "DropCount found={found}"),
            Fault::DropTooDeep { total } => write!(f, "DropTooDeep total={total}"),
            Fault::PruneTooWide => write!(f, "PruneTooWide"),
            Fault::NotShareable { element } => write!(f, "NotShareable element={element}"),
            Fault::ChannelLimit { value } => write!(f, "ChannelLimit value={value}"),
            Fault::ShareCost { value } => write!(f, "ShareCost value={value}"),
            Fault::SharePeriod { period } => write!(f, "SharePeriod period={period}"),
            Fault::NotBuilt => write!(f, "NotBuilt"),
        }
    }
}

/// The line that the program prints for a fault.
#[derive(Clone, Copy)]
pub struct FaultLine<'a>(pub &'a Fault);

impl fmt::Display for FaultLine<'_> {
    ghost use Rattle.std.specs.Prelude.{Some};
    ghost use Rattle.filter_core.specs.FaultLines.{fault_line};

    ghost output = { λ line. Some (fault_line line.0.now) };

    fn fmt<W: fmt::Write>(&self, f: &mut fmt::Formatter<W>) -> fmt::Result {
        let fault = self.0;
        write!(f, "fault: {fault}")
    }
}

// The number that the program ends with.
ghost use Rattle.std.specs.Prelude.{◌≡◌};
ghost use Rattle.filter_core.specs.Statuses.{status_of, fault_status, plan_status, plan_read_status, line_status, read_status, module_status};

use crate::fault::Fault;
use plan_check::PlanFault;
use plan_reader::PlanReadFault;
use sample_file::LineFault;
use verilog_read::ReadFault;
use verilog_tree::ModuleFault;

/// 0 where there is no fault, else the number of its kind.
pub fn status_of(fault: &Option<Fault>) -> u8
    ensures { result ≡ status_of fault.now }
{
    match fault {
        None => 0,
        Some(fault) => fault_status(fault),
    }
}

fn fault_status(fault: &Fault) -> u8
    ensures { result ≡ fault_status fault.now }
{
    match fault {
        Fault::Usage => 2,
        Fault::HostFault { .. } => 3,
        Fault::Memory => 4,
        Fault::FileTooLong { .. } => 10,
        Fault::PlanRead(fault) => plan_read_status(fault),
        Fault::Tap { .. } => 14,
        Fault::Plan(fault) => plan_status(fault),
        Fault::Line(fault) => line_status(fault),
        Fault::Read(fault) => read_status(fault),
        Fault::Module(fault) => module_status(fault),
        Fault::NoSuchRegister { .. } => 60,
        Fault::NotOneCic => 61,
        Fault::DropCount { .. } => 62,
        Fault::DropTooDeep { .. } => 63,
        Fault::PruneTooWide => 64,
        Fault::NotShareable { .. } => 65,
        Fault::ChannelLimit { .. } => 66,
        Fault::ShareCost { .. } => 67,
        Fault::SharePeriod { .. } => 68,
        Fault::NotBuilt => 70,
    }
}

fn plan_read_status(fault: &PlanReadFault) -> u8
    ensures { result ≡ plan_read_status fault.now }
{
    match fault {
        PlanReadFault::NotToml => 11,
        PlanReadFault::Field { .. } => 12,
        PlanReadFault::Version { .. } => 13,
        PlanReadFault::Memory => 4,
    }
}

fn plan_status(fault: &PlanFault) -> u8
    ensures { result ≡ plan_status fault.now }
{
    match fault {
        PlanFault::Limit { .. } => 20,
        PlanFault::RateNotWhole { .. } => 21,
        PlanFault::TooWide { .. } => 22,
        PlanFault::BoundTooWide { .. } => 23,
        PlanFault::FormNotFit { .. } => 24,
        PlanFault::Cost { .. } => 25,
        PlanFault::PeriodOver { .. } => 26,
        PlanFault::Memory => 4,
    }
}

fn line_status(fault: &LineFault) -> u8
    ensures { result ≡ line_status fault.now }
{
    match fault {
        LineFault::NotNumber { .. } => 30,
        LineFault::OutOfRange { .. } => 31,
        LineFault::Fields { .. } => 32,
        LineFault::LongLine { .. } => 33,
        LineFault::TooManyLines => 34,
    }
}

fn read_status(fault: &ReadFault) -> u8
    ensures { result ≡ read_status fault.now }
{
    match fault {
        ReadFault::Lexical { .. } => 40,
        ReadFault::Syntax { .. } => 41,
        ReadFault::OutsideSubset { .. } => 42,
        ReadFault::TooDeep { .. } => 43,
        ReadFault::Module(fault) => module_status(fault),
        ReadFault::Memory => 4,
    }
}

fn module_status(fault: &ModuleFault) -> u8
    ensures { result ≡ module_status fault.now }
{
    match fault {
        ModuleFault::Redeclared { .. } => 50,
        ModuleFault::Undeclared { .. } => 51,
        ModuleFault::PortShape { .. } => 52,
        ModuleFault::WrongKind { .. } => 53,
        ModuleFault::WidthOver { .. } => 54,
        ModuleFault::BadSelect { .. } => 55,
        ModuleFault::ManyDrivers { .. } => 56,
        ModuleFault::NoDriver { .. } => 57,
        ModuleFault::CombLoop { .. } => 58,
        ModuleFault::Memory => 4,
    }
}

// Why a file isn't read or written, and why a command isn't done.
use mr_values::{HostCall, Memory, Text};
use plan_check::PlanFault;
use plan_reader::{PlanReadFault, TapWhy};
use sample_file::LineFault;
use std::alloc::AllocError;
use std::fmt;
use verilog_read::ReadFault;
use verilog_tree::ModuleFault;

/// A file that has a greatest length. Elements are counted from 1.
#[derive(Clone, Copy, Debug, PartialEq, Eq)]
pub enum FileKind {
    Plan,
    Taps(u32),
    Text,
}

impl fmt::Display for FileKind {
    ghost use Rattle.std.specs.Prelude.{Some};
    ghost use Rattle.command_files.specs.KindNames.{kind_text};

    ghost output = { λ kind. Some (kind_text kind) };

    fn fmt<W: fmt::Write>(&self, f: &mut fmt::Formatter<W>) -> fmt::Result {
        match self {
            FileKind::Plan => write!(f, "Plan"),
            FileKind::Taps(element) => write!(f, "Taps({element})"),
            FileKind::Text => write!(f, "Text"),
        }
    }
}

/// Why a file wasn't read whole.
#[derive(Clone, Copy, Debug, PartialEq, Eq)]
pub enum FileFault {
    HostFault { call: HostCall },
    FileTooLong { file: FileKind },
    Memory,
}

/// Why a file wasn't written whole.
#[derive(Clone, Copy, Debug, PartialEq, Eq)]
pub enum WriteFault {
    HostFault { call: HostCall },
    Memory,
}

/// Why the rows of a file weren't streamed to their end.
#[derive(Clone, Copy, Debug, PartialEq, Eq)]
pub enum RowsFault {
    HostFault { call: HostCall },
    Line(LineFault),
    Memory,
}

/// Why a command wasn't done. Want of memory is always `CommandFault::Memory`, and never one of an inner fault.
#[derive(Debug, Drop)]
pub enum CommandFault {
    HostFault { call: HostCall },
    Memory,
    FileTooLong { file: FileKind },
    PlanRead(PlanReadFault),
    Tap { element: u32, row: u64, why: TapWhy },
    Plan(PlanFault),
    Line(LineFault),
    Read(ReadFault),
    Module(ModuleFault),
    NoSuchRegister { name: Text },
    NotBuilt,
}

impl From<Memory> for CommandFault {
    ghost use Rattle.std.specs.Prelude.{◌≡◌};
    ghost use Rattle.command_files.specs.declared.fault.CommandFault.TheVariants.{Memory};

    ghost from_gives = { λ _ fault. fault ≡ Memory };

    fn from(_: Memory) -> CommandFault {
        CommandFault::Memory
    }
}

impl From<AllocError> for CommandFault {
    ghost use Rattle.std.specs.Prelude.{◌≡◌};
    ghost use Rattle.command_files.specs.declared.fault.CommandFault.TheVariants.{Memory};

    ghost from_gives = { λ _ fault. fault ≡ Memory };

    fn from(_: AllocError) -> CommandFault {
        CommandFault::Memory
    }
}

impl From<AllocError> for FileFault {
    ghost use Rattle.std.specs.Prelude.{◌≡◌};
    ghost use Rattle.command_files.specs.declared.fault.FileFault.TheVariants.{Memory};

    ghost from_gives = { λ _ fault. fault ≡ Memory };

    fn from(_: AllocError) -> FileFault {
        FileFault::Memory
    }
}

impl From<FileFault> for CommandFault {
    ghost use Rattle.std.specs.Prelude.{◌≡◌};
    ghost use Rattle.command_files.specs.Conversions.{fault_of_file};

    ghost from_gives = { λ why fault. fault ≡ fault_of_file why };

    fn from(why: FileFault) -> CommandFault {
        match why {
            FileFault::HostFault { call } => CommandFault::HostFault { call },
            FileFault::FileTooLong { file } => CommandFault::FileTooLong { file },
            FileFault::Memory => CommandFault::Memory,
        }
    }
}

impl From<WriteFault> for CommandFault {
    ghost use Rattle.std.specs.Prelude.{◌≡◌};
    ghost use Rattle.command_files.specs.Conversions.{fault_of_writing};

    ghost from_gives = { λ why fault. fault ≡ fault_of_writing why };

    fn from(why: WriteFault) -> CommandFault {
        match why {
            WriteFault::HostFault { call } => CommandFault::HostFault { call },
            WriteFault::Memory => CommandFault::Memory,
        }
    }
}

impl From<RowsFault> for CommandFault {
    ghost use Rattle.std.specs.Prelude.{◌≡◌};
    ghost use Rattle.command_files.specs.Conversions.{fault_of_rows};

    ghost from_gives = { λ why fault. fault ≡ fault_of_rows why };

    fn from(why: RowsFault) -> CommandFault {
        match why {
            RowsFault::HostFault { call } => CommandFault::HostFault { call },
            RowsFault::Line(fault) => CommandFault::Line(fault),
            RowsFault::Memory => CommandFault::Memory,
        }
    }
}

impl From<PlanReadFault> for CommandFault {
    ghost use Rattle.std.specs.Prelude.{◌≡◌};
    ghost use Rattle.command_files.specs.Conversions.{fault_of_reading};

    ghost from_gives = { λ why fault. fault ≡ fault_of_reading why };

    fn from(why: PlanReadFault) -> CommandFault {
        match why {
            PlanReadFault::Memory => CommandFault::Memory,
            PlanReadFault::NotToml => CommandFault::PlanRead(PlanReadFault::NotToml),
            PlanReadFault::Field {
                element,
                field,
                why,
            } => CommandFault::PlanRead(PlanReadFault::Field {
                element,
                field,
                why,
            }),
            PlanReadFault::Version { found } => {
                CommandFault::PlanRead(PlanReadFault::Version { found })
            }
        }
    }
}

impl From<PlanFault> for CommandFault {
    ghost use Rattle.std.specs.Prelude.{◌≡◌};
    ghost use Rattle.command_files.specs.Conversions.{fault_of_check};

    ghost from_gives = { λ why fault. fault ≡ fault_of_check why };

    fn from(why: PlanFault) -> CommandFault {
        match why {
            PlanFault::Memory => CommandFault::Memory,
            why => CommandFault::Plan(why),
        }
    }
}

impl From<ReadFault> for CommandFault {
    ghost use Rattle.std.specs.Prelude.{◌≡◌};
    ghost use Rattle.command_files.specs.Conversions.{fault_of_text};

    ghost from_gives = { λ why fault. fault ≡ fault_of_text why };

    fn from(why: ReadFault) -> CommandFault {
        match why {
            ReadFault::Module(ModuleFault::Memory) => CommandFault::Memory,
            ReadFault::Module(why) => CommandFault::Module(why),
            ReadFault::Memory => CommandFault::Memory,
            why => CommandFault::Read(why),
        }
    }
}

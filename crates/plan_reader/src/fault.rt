// Why a plan file or a tap file is refused.
use mr_values::{Memory, Text};
use std::alloc::{AllocError, AllocFailed};
use std::fmt;
use thiserror::Error;

/// What is wrong with a field.
#[derive(Clone, Copy, Debug, PartialEq, Eq)]
pub enum FieldWhy {
    Missing,
    WrongType,
    BadWord,
    Unknown,
    Both,
}

/// Why a plan file is no plan. Elements are counted from 1; element 0 is the plan itself.
#[derive(Debug, Drop)]
pub enum PlanReadFault {
    NotToml,
    Field {
        element: u32,
        field: Text,
        why: FieldWhy,
    },
    Version {
        found: i64,
    },
    Memory,
}

/// What is wrong with a field of a tap file.
#[derive(Clone, Copy, Debug, PartialEq, Eq)]
pub enum TapWhy {
    NotNumber,
    TooLarge,
}

/// Why a tap file is refused: its first bad field, by its row counted from 1.
#[derive(Clone, Copy, Debug, PartialEq, Eq, Error)]
pub enum TapFault {
    #[error("row {row}: a tap is no number of 64 bits")]
    Bad { row: u64, why: TapWhy },
    #[error("memory ran out")]
    Memory,
}

impl From<Memory> for PlanReadFault {
    ghost use Rattle.std.specs.Prelude.{◌≡◌};
    ghost use Rattle.plan_reader.specs.declared.fault.PlanReadFault.TheVariants as fault;

    ghost from_gives = { λ _ found. found ≡ fault.Memory };

    fn from(_: Memory) -> PlanReadFault {
        PlanReadFault::Memory
    }
}

impl<T: Drop> From<AllocFailed<T>> for PlanReadFault {
    ghost use Rattle.std.specs.Prelude.{◌≡◌};
    ghost use Rattle.plan_reader.specs.declared.fault.PlanReadFault.TheVariants as fault;

    ghost from_gives = { λ _ found. found ≡ fault.Memory };

    fn from(_: AllocFailed<T>) -> PlanReadFault {
        PlanReadFault::Memory
    }
}

impl From<AllocError> for TapFault {
    ghost use Rattle.std.specs.Prelude.{◌≡◌};
    ghost use Rattle.plan_reader.specs.declared.fault.TapFault.TheVariants as fault;

    ghost from_gives = { λ _ found. found ≡ fault.Memory };

    fn from(_: AllocError) -> TapFault {
        TapFault::Memory
    }
}

impl<T: Drop> From<AllocFailed<T>> for TapFault {
    ghost use Rattle.std.specs.Prelude.{◌≡◌};
    ghost use Rattle.plan_reader.specs.declared.fault.TapFault.TheVariants as fault;

    ghost from_gives = { λ _ found. found ≡ fault.Memory };

    fn from(_: AllocFailed<T>) -> TapFault {
        TapFault::Memory
    }
}

impl fmt::Display for FieldWhy {
    ghost use Rattle.std.specs.Prelude.{Some};
    ghost use Rattle.plan_reader.specs.FaultLines.{field_why_text};

    ghost output = { λ word. Some (field_why_text word) };

    fn fmt<W: fmt::Write>(&self, f: &mut fmt::Formatter<W>) -> fmt::Result {
        match self {
            FieldWhy::Missing => write!(f, "Missing"),
            FieldWhy::WrongType => write!(f, "WrongType"),
            FieldWhy::BadWord => write!(f, "BadWord"),
            FieldWhy::Unknown => write!(f, "Unknown"),
            FieldWhy::Both => write!(f, "Both"),
        }
    }
}

impl fmt::Display for TapWhy {
    ghost use Rattle.std.specs.Prelude.{Some};
    ghost use Rattle.plan_reader.specs.FaultLines.{tap_why_text};

    ghost output = { λ word. Some (tap_why_text word) };

    fn fmt<W: fmt::Write>(&self, f: &mut fmt::Formatter<W>) -> fmt::Result {
        match self {
            TapWhy::NotNumber => write!(f, "NotNumber"),
            TapWhy::TooLarge => write!(f, "TooLarge"),
        }
    }
}

impl fmt::Display for PlanReadFault {
    ghost use Rattle.std.specs.Prelude.{Some};
    ghost use Rattle.plan_reader.specs.FaultLines.{plan_read_fault_text};

    ghost output = { λ fault. Some (plan_read_fault_text fault) };

    fn fmt<W: fmt::Write>(&self, f: &mut fmt::Formatter<W>) -> fmt::Result {
        match self {
            PlanReadFault::NotToml => write!(f, "NotToml"),
            PlanReadFault::Field {
                element,
                field,
                why,
            } => {
                let field = field.as_str();
                write!(f, "Field element={element} field={field} why={why}")
            }
            PlanReadFault::Version { found } => write!(f, "Version found={found}"),
            PlanReadFault::Memory => write!(f, "Memory"),
        }
    }
}

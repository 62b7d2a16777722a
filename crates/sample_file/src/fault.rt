// Why a line is refused.
use std::fmt;

/// The first refused line of a file, counted from 1, and why it is refused.
#[derive(Clone, Copy, Debug, PartialEq, Eq)]
pub enum LineFault {
    NotNumber { line: u64 },
    OutOfRange { line: u64 },
    Fields { line: u64, count: u64 },
    LongLine { line: u64 },
    TooManyLines,
}

impl fmt::Display for LineFault {
    ghost use Rattle.std.specs.Prelude.{Some};
    ghost use Rattle.sample_file.specs.FaultLines.{line_fault_text};

    ghost output = { λ fault. Some (line_fault_text fault) };

    fn fmt<W: fmt::Write>(&self, f: &mut fmt::Formatter<W>) -> fmt::Result {
        match self {
            LineFault::NotNumber { line } => write!(f, "NotNumber line={line}"),
            LineFault::OutOfRange { line } => write!(f, "OutOfRange line={line}"),
            LineFault::Fields { line, count } => write!(f, "Fields line={line} count={count}"),
            LineFault::LongLine { line } => write!(f, "LongLine line={line}"),
            LineFault::TooManyLines => write!(f, "TooManyLines"),
        }
    }
}

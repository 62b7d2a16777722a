// Why a machine stops.
ghost use Rattle.std.specs.Prelude.{◌≡◌};
ghost use Rattle.verilog_parse.specs.declared.fault.Fault.TheVariants.{Memory};

use std::alloc::{AllocError, AllocFailed};
use verilog_text::token::Why;

/// A token is refused, or memory ran out.
#[derive(Debug, Drop)]
pub enum Fault {
    Refused(Why),
    Memory,
}

impl From<AllocError> for Fault {
    ghost from_gives = { λ _ fault. fault ≡ Memory };

    fn from(_e: AllocError) -> Fault {
        Fault::Memory
    }
}

impl<T: Drop> From<AllocFailed<T>> for Fault {
    ghost from_gives = { λ _ fault. fault ≡ Memory };

    fn from(_e: AllocFailed<T>) -> Fault {
        Fault::Memory
    }
}

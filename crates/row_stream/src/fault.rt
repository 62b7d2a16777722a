// Why a stream of rows ends early.
use mr_values::Memory;
use sample_file::LineFault;

/// A refused line, or want of memory.
#[derive(Clone, Copy, Debug, PartialEq, Eq)]
pub enum StreamFault {
    Line(LineFault),
    Memory,
}

impl From<LineFault> for StreamFault {
    ghost use Rattle.std.specs.Prelude.{◌≡◌};
    ghost use Rattle.row_stream.specs.declared.fault.StreamFault.TheVariants.{Line};

    ghost from_gives = { λ fault result. result ≡ Line fault };

    fn from(fault: LineFault) -> StreamFault {
        StreamFault::Line(fault)
    }
}

impl From<Memory> for StreamFault {
    ghost use Rattle.std.specs.Prelude.{◌≡◌};
    ghost use Rattle.row_stream.specs.declared.fault.StreamFault.TheVariants as fault;

    ghost from_gives = { λ _ result. result ≡ fault.Memory };

    fn from(_: Memory) -> StreamFault {
        StreamFault::Memory
    }
}

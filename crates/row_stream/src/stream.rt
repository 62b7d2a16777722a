// A computation over the rows of a file.

ghost use Rattle.std.specs.Prelude.{◌≡◌, ℕ, ◌+◌, ◌*◌, ◌<◌, ◌≤◌, ◌^◌, false, length, IfOk};
ghost use Rattle.row_stream.specs.Giving.{Giving, GivesSome, Takes, Closes};

use crate::fault::StreamFault;
use std::alloc::Global;

/// An output longer than this is full, and is put out before the next call. A call makes it at most 65,536 bytes long.
pub const FULL: usize = 65_000;

/// A computation over the rows of a file whose bytes come in pieces. Each call appends what it gives to an output, which may be put out and
/// emptied between calls.
pub trait RowStream {
    /// What is given from here on.
    ghost gives: { Self → Giving };

    /// The most bytes that may stand before here.
    ghost most: { Self → ℕ };

    /// How much is due of what the bytes before here give.
    ghost due: { Self → ℕ };

    /// How much may be left to give at the end of the file.
    ghost left: { Self → ℕ };

    /// Nothing is done: whatever bytes follow, something is given.
    fn gives_some(&self)
        ensures { GivesSome (gives self.now) };

    /// Takes bytes, and appends what is given for their rows. It may leave some of them where the output is full, and all of them where
    /// less is due afterwards. It fails at the first refused line, where the output holds what is given for the rows before it, and for
    /// want of memory.
    fn advance(
        &mut self,
        alloc: Global,
        piece: &[u8],
        out: &mut Vec<u8>,
    ) -> Result<usize, StreamFault>
        requires room { length out.old.items ≤ 65000 }
        ensures ends { Takes (gives self.old) (gives self.new) piece.now out.old.items result out.new.items }
        ensures within { IfOk result (λ taken. taken ≤ length piece.now) }
        ensures short { length out.new.items ≤ 65536 }

        // A byte that is taken counts for more than all that it makes due, so calls on a piece come to its end.
        ensures some { 0 < length piece.now → IfOk result (λ taken. due self.new < due self.old + taken * 2 ^ 17) }

        // So the bytes of a file that isn't refused are bounded.
        ensures same { IfOk result (λ taken. taken ≡ 0 → most self.new ≡ most self.old) }
        ensures bytes { IfOk result (λ taken. most self.old + taken ≤ most self.new) }
        ensures bound { IfOk result (λ taken. 0 < taken → most self.new ≤ 2 ^ 45) };

    /// Appends what is given at the end of the file, and tells whether that is all. It fails where the last line is refused, and for
    /// want of memory.
    fn finish(&mut self, alloc: Global, out: &mut Vec<u8>) -> Result<bool, StreamFault>
        requires room { length out.old.items ≤ 65000 }
        ensures ends { Closes (gives self.old) (gives self.new) out.old.items result out.new.items }
        ensures short { length out.new.items ≤ 65536 }
        ensures less { IfOk result (λ done. done ≡ false → left self.new < left self.old) };
}

// The module of a text, where it passes the checks.
ghost use Rattle.std.specs.Prelude.{◌≡◌, IfOk, IfErr};
ghost use Rattle.verilog_tree.specs.Checks.{Passes, PassesAs};
ghost use Rattle.verilog_tree.specs.Streamed.{stream_face};
ghost use Rattle.verilog_tree.specs.Tree.{Design};
ghost use Rattle.verilog_tree.specs.View.{design_view};
ghost use Rattle.verilog_text.specs.Reading.{Reads};
ghost use Rattle.module_reader.specs.Reader.{refusal_of, IsTextRefusal, IsTextRefusalAs};

use formed_module::FormedModule;
use std::alloc::Global;
use verilog_check::{check, check_stream};
use verilog_read::{ReadFault, read_module};
use verilog_tree::ModuleFault;

// A failed check as a refusal of the text.
fn refusal_of(fault: ModuleFault) -> ReadFault
    ensures { result ≡ refusal_of fault }
{
    match fault {
        ModuleFault::Memory => ReadFault::Memory,
        fault => ReadFault::Module(fault),
    }
}

/// Reads a text of the grammar whose module passes the checks. It fails at the first place where no text of the grammar goes on so,
/// with the first check that fails, and for want of memory.
pub fn read_text(alloc: Global, bytes: &[u8]) -> Result<FormedModule, ReadFault>
    // What is read is the module that the text reads as, and it passes the checks.
    ensures found { IfOk result (λ m. Reads bytes.now (design_view m)) }
    ensures passes { IfOk result (λ m. Passes (design_view m)) }

    // A text that reads as a module which passes the checks is refused only for want of memory.
    ensures only { (d : Design) → Reads bytes.now d → Passes d → IfErr result (λ e. e ≡ ReadFault.Memory) }

    // A refusal is at a place where no text of the grammar goes on so, or names the first check that the text's module fails.
    ensures refused { IfErr result (IsTextRefusal bytes.now) }
{
    let read = match read_module(alloc, bytes) {
        Ok(read) => read,
        Err(fault) => return Err(fault),
    };
    match check(alloc, &read) {
        Ok(()) => Ok(FormedModule::new(read)),
        Err(fault) => Err(refusal_of(fault)),
    }
}

/// Reads a text of the grammar whose module passes the checks with the ports of ready and valid. It fails as `read_text` does, with
/// these checks.
pub fn read_stream(alloc: Global, bytes: &[u8]) -> Result<FormedModule, ReadFault>
    ensures found { IfOk result (λ m. Reads bytes.now (design_view m)) }
    ensures passes { IfOk result (λ m. PassesAs stream_face (design_view m)) }
    ensures only { (d : Design) → Reads bytes.now d → PassesAs stream_face d → IfErr result (λ e. e ≡ ReadFault.Memory) }
    ensures refused { IfErr result (IsTextRefusalAs stream_face bytes.now) }
{
    let read = match read_module(alloc, bytes) {
        Ok(read) => read,
        Err(refusal) => return Err(refusal),
    };
    match check_stream(alloc, &read) {
        Ok(()) => Ok(FormedModule::new(read)),
        Err(fault) => Err(refusal_of(fault)),
    }
}

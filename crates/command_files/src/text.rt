// TEXT as a module.
ghost use Rattle.std.specs.Prelude.{IfOk, IfErr, IsTrue};
ghost use Rattle.verilog_tree.specs.View.{design_view};
ghost use Rattle.verilog_tree.specs.Checks.{Passes};
ghost use Rattle.command_files.specs.Ends.{EndsWith, IsThisFile, call_of};
ghost use Rattle.command_files.specs.TextFile.{BytesAnswer, ReadsDesign};
ghost use Rattle.command_files.specs.Conversions.{IsPlain};

use crate::files::read_file;
use crate::{CommandFault, FileKind};
use formed_module::FormedModule;
use module_reader::read_text;
use mr_values::Host;
use std::alloc::Global;

/// The most bytes of a text.
const TEXT_LIMIT: usize = 1 << 26;

/// Reads TEXT whole, as a module that passes the checks. Fails with `FileTooLong` where it has more than 64 MiB, with the first place
/// at which it is no text of the grammar, with the first check that its module fails, with `HostFault` where a host call fails, and for
/// want of memory.
pub fn read_design<H: Host>(
    alloc: Global,
    host: &mut H,
    text: &str,
) -> Result<FormedModule, CommandFault>
    ensures passes { IfOk result (λ design. Passes (design_view design)) }
    ensures plain { IfErr result IsPlain }
    ensures cause { EndsWith (IsThisFile text.now) (call_of result) (H.state host.old) (H.state host.new) }
    ensures told { IsTrue (H.state host.old).tells → ReadsDesign text.now result (H.state host.old) (H.state host.new) }
{
    let bytes = read_file(alloc, host, text, FileKind::Text, TEXT_LIMIT)?;
    design_of(alloc, &bytes)
}

// The module that the bytes of TEXT read as.
fn design_of(alloc: Global, bytes: &[u8]) -> Result<FormedModule, CommandFault>
    ensures passes { IfOk result (λ design. Passes (design_view design)) }
    ensures plain { IfErr result IsPlain }
    ensures answer { BytesAnswer bytes.now result }
{
    Ok(read_text(alloc, bytes)?)
}

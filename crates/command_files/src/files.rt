// Whole files, read from a host and written to it.
ghost use Rattle.std.specs.Prelude.{◌≡◌, IsTrue};
ghost use Rattle.command_files.specs.Ends.{EndsWith, IsNoFile, IsThisFile, call_in_file, call_in_writing};
ghost use Rattle.command_files.specs.WholeFiles.{ReadsFile, WritesFile};

use crate::{FileFault, FileKind, WriteFault};
use mr_values::{Host, HostCall, OutFail};
use std::alloc::Global;

const ROOM: usize = 4096;

/// Reads a whole file of at most so many bytes.
pub fn read_file<H: Host>(
    alloc: Global,
    host: &mut H,
    name: &str,
    file: FileKind,
    limit: usize,
) -> Result<Vec<u8>, FileFault>
    ensures cause { EndsWith (IsThisFile name.now) (call_in_file result) (H.state host.old) (H.state host.new) }
    ensures output { (H.state host.new).has_output ≡ (H.state host.old).has_output }
    ensures told { IsTrue (H.state host.old).tells → ReadsFile name.now file limit result (H.state host.old) (H.state host.new) }
{
    if host.open_input(name).is_err() {
        return Err(FileFault::HostFault {
            call: HostCall::OpenInput,
        });
    }
    let mut bytes = Vec::new(alloc);
    let mut room = [0u8; ROOM];
    loop {
        let Ok(count) = host.next(&mut room) else {
            return Err(FileFault::HostFault {
                call: HostCall::Next,
            });
        };
        if count == 0 {
            return Ok(bytes);
        }
        if count > limit - bytes.len() {
            return Err(FileFault::FileTooLong { file });
        }
        bytes.extend_from_slice(&room[..count])?;
    }
}

/// Writes a whole file.
pub fn write_file<H: Host>(host: &mut H, name: &str, text: &[u8]) -> Result<(), WriteFault>
    ensures cause { EndsWith IsNoFile (call_in_writing result) (H.state host.old) (H.state host.new) }
    ensures told { IsTrue (H.state host.old).tells → WritesFile name.now text.now result (H.state host.old) (H.state host.new) }
{
    match host.open_output(name) {
        Ok(()) => {}
        Err(OutFail::Memory) => return Err(WriteFault::Memory),
        Err(OutFail::Failed) => {
            return Err(WriteFault::HostFault {
                call: HostCall::OpenOutput,
            });
        }
    }
    match host.put(text) {
        Ok(()) => Ok(()),
        Err(OutFail::Memory) => Err(WriteFault::Memory),
        Err(OutFail::Failed) => Err(WriteFault::HostFault {
            call: HostCall::Put,
        }),
    }
}

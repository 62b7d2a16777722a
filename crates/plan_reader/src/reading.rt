// Plan files.
ghost use Rattle.std.specs.Prelude.{◌≡◌, Ok, IfOk, MatchResult};
ghost use Rattle.plan_reader.specs.Documents.{Says, IsRefusedFor};
ghost use Rattle.plan_reader.specs.Versions.{IsVersioned};

use crate::document::plan_of;
use crate::fault::PlanReadFault;
use crate::plan_texts::PlanText;
use std::alloc::Global;

/// Reads a plan file of version 1 or 2, of any length. It fails with `NotToml` where the bytes are no TOML document, with `Version` or
/// `Field` for the first field that is wrong, and with `Memory` for want of memory, also where there are 2^32 - 1
/// elements or more.
pub fn read_plan(alloc: Global, bytes: &[u8]) -> Result<PlanText, PlanReadFault>
    ensures says { MatchResult result (λ text. Says bytes.now (Ok text)) (IsRefusedFor bytes.now) }
    ensures versioned { IfOk result (λ text. IsVersioned text.version text.plan.elements) }
{
    match toml::table_from_slice(alloc, bytes) {
        Ok(table) => plan_of(alloc, &table),
        Err(error) => {
            if error.is_memory() {
                Err(PlanReadFault::Memory)
            } else {
                Err(PlanReadFault::NotToml)
            }
        }
    }
}

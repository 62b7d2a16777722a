// All checks of a module.

ghost use Rattle.std.specs.Prelude.{◌≡◌, ◌≢◌, IfOk, OnOk, IfErr};
ghost use Rattle.verilog_tree.specs.Checks.{Passes, PassesAs, Fails, FailsAs};
ghost use Rattle.verilog_tree.specs.Streamed.{stream_face};
ghost use Rattle.verilog_tree.specs.View.{design_view};
ghost use Rattle.verilog_check.specs.Faces.{face_of};
ghost use Rattle.verilog_check.specs.Found.{IsFaultOf};

use crate::early::{early_check, name_text};
use crate::face::Face;
use crate::text_order::in_text_order;
use loop_search::first_loop;
use mr_values::Memory;
use std::alloc::Global;
use verilog_tree::{Module, ModuleFault};

// The first check that a module with the ports of a face fails.
fn first_fault(alloc: Global, face: Face, design: &Module) -> Result<Option<ModuleFault>, Memory>
    ensures { IfOk result (IsFaultOf (face_of face) (design_view design.now)) }
{
    let ordered = in_text_order(alloc, &design.signals)?;
    if let Some(fault) = early_check(alloc, face, design, &ordered)? {
        return Ok(Some(fault));
    }
    match first_loop(alloc, design, &ordered)? {
        Some(name) => {
            let name = name_text(alloc, design, name)?;
            Ok(Some(ModuleFault::CombLoop { name }))
        }
        None => Ok(None),
    }
}

// Makes the checks of a module with the ports of a face.
fn check_as(alloc: Global, face: Face, design: &Module) -> Result<(), ModuleFault>
    ensures passes { OnOk result (PassesAs (face_of face) (design_view design.now)) }
    ensures fails { IfErr result (λ fault. fault ≢ ModuleFault.Memory → FailsAs (face_of face) (design_view design.now) fault) }
{
    match first_fault(alloc, face, design) {
        Ok(None) => Ok(()),
        Ok(Some(fault)) => Err(fault),
        Err(Memory) => Err(ModuleFault::Memory),
    }
}

/// Makes the checks of a module in their order. A refusal names the first signal in text order that fails the first check that
/// fails, or is for want of memory.
pub fn check(alloc: Global, design: &Module) -> Result<(), ModuleFault>
    ensures passes { OnOk result (Passes (design_view design.now)) }
    ensures fails { IfErr result (λ fault. fault ≢ ModuleFault.Memory → Fails (design_view design.now) fault) }
{
    check_as(alloc, Face::Filter, design)
}

/// Makes the checks of a module with the ports `clk`, `rst`, `in_valid`, `in_ready`, `in_data`, `out_valid`, `out_ready` and
/// `out_data`, of which the data ports carry numbers and the others are single bits. Otherwise as `check`.
pub fn check_stream(alloc: Global, design: &Module) -> Result<(), ModuleFault>
    ensures passes { OnOk result (PassesAs stream_face (design_view design.now)) }
    ensures fails { IfErr result (λ fault. fault ≢ ModuleFault.Memory → FailsAs stream_face (design_view design.now) fault) }
{
    check_as(alloc, Face::Stream, design)
}

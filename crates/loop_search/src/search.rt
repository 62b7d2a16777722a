// The search for the first loop.

ghost use Rattle.std.specs.Prelude.{◌≡◌, IfOk, IfSome};
ghost use Rattle.verilog_tree.specs.Cycle.{IsDrivenOnce};
ghost use Rattle.verilog_tree.specs.Checks.{declarations};
ghost use Rattle.verilog_tree.specs.View.{design_view};
ghost use Rattle.settle_order.specs.Placing.{AreNamed};
ghost use Rattle.loop_search.specs.Loops.{AreDeclared, IsLoopOf};

use crate::dependents::depends_on_itself;
use mr_values::Memory;
use settle_order::{is_open, place_all};
use std::alloc::Global;
use verilog_tree::{Module, Signal};

/// One more than the greatest number of a target of an assignment, if there is such a number.
pub fn target_count(design: &Module) -> Option<usize>
    ensures { IfSome result (AreNamed (design_view design.now)) }
{
    let mut count = 0usize;
    for assign in design.assigns.as_slice() {
        count = count.max(assign.target.checked_add(1)?);
    }
    Some(count)
}

/// The name of the first declared signal in text order that depends on itself through assignments, if there is one. Takes the
/// declarations in text order. Fails only for want of memory, of which it takes as much as the greatest number of a target wants.
pub fn first_loop(
    alloc: Global,
    design: &Module,
    ordered: &[Signal],
) -> Result<Option<usize>, Memory>
    requires driven { IsDrivenOnce (design_view design.now) }
    requires declared { AreDeclared (design_view design.now) }
    requires ordered { ordered.now ≡ declarations (design_view design.now) }
    ensures { IfOk result (IsLoopOf (design_view design.now)) }
{
    let Some(count) = target_count(design) else {
        return Err(Memory);
    };
    let placed = place_all(alloc, design, count)?;
    for signal in ordered {
        let name = signal.name;
        if is_open(&placed.opened, name) && depends_on_itself(alloc, design, name, count)? {
            return Ok(Some(name));
        }
    }
    Ok(None)
}

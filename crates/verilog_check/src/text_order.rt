// The declarations of a module by their places.

ghost use Rattle.std.specs.Prelude.{◌≡◌, IfOk};
ghost use Rattle.verilog_tree.specs.Checks.{in_text_order};

use mr_values::Memory;
use std::alloc::Global;
use verilog_tree::Signal;

/// The declarations by their places, those of one place in their order. Fails only for want of memory.
pub(crate) fn in_text_order(alloc: Global, signals: &[Signal]) -> Result<Vec<Signal>, Memory>
    ensures { IfOk result (λ ordered. ordered.items ≡ in_text_order signals.now) }
{
    let mut ordered = Vec::from_slice(alloc, signals)?;
    ordered.sort_by_key(|signal| signal.place)?;
    Ok(ordered)
}

// Names that stand twice in a list.

ghost use Rattle.std.specs.Prelude.{◌≡◌, [], IfOk, map};
ghost use Rattle.verilog_tree.specs.Checks.{first_repeat};
ghost use Rattle.verilog_tree.specs.declared.tree.Signal.{Signal};

use mr_values::Memory;
use std::alloc::Global;
use std::collections::HashSet;
use verilog_tree::Signal;

/// The first name that an earlier one of the declarations has too. Fails only for want of memory.
pub(crate) fn first_redeclared(alloc: Global, ordered: &[Signal]) -> Result<Option<usize>, Memory>
    ensures { IfOk result (λ name. name ≡ first_repeat [] (map (λ (s : Signal). s.name) ordered.now)) }
{
    let mut seen = HashSet::new(alloc);
    for signal in ordered {
        if !seen.insert(signal.name)? {
            return Ok(Some(signal.name));
        }
    }
    Ok(None)
}

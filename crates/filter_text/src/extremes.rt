// What is told of registers, by the numbers of their names.
ghost use Rattle.std.specs.Prelude.{◌≡◌, ◌+◌, ◌<◌, ℕ, Some, slice_get, IfOk};
ghost use Rattle.chain_build.specs.declared.extremes.RegisterExtreme.{RegisterExtreme};
ghost use Rattle.filter_text.specs.Extremes.{TellsByNumber};

use chain_build::RegisterExtreme;
use mr_values::Memory;
use std::alloc::Global;

// The name of the second node has the number 7: those of the module and its ports come first, and the input, which is the first node,
// has the name of a port.
const BEFORE: usize = 6;

/// What is told of registers, at the numbers of their names, of which there are so many.
pub(crate) fn by_number(
    alloc: Global,
    names: usize,
    told: &[RegisterExtreme],
) -> Result<Vec<Option<RegisterExtreme>>, Memory>
    requires { (j : ℕ) (t : RegisterExtreme) → slice_get told.now j ≡ Some t → t.register.place + 6 < names }
    ensures { IfOk result (λ extremes. TellsByNumber told.now extremes.items) }
{
    let mut extremes = Vec::from_elem(alloc, None, names)?;
    for one in told {
        extremes[one.register.place + BEFORE] = Some(*one);
    }
    Ok(extremes)
}

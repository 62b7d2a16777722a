// All turns of the noble identities.
ghost use Rattle.std.specs.Prelude.{◌≡◌, ◌<◌, ◌^◌, length, IfOk};
ghost use Rattle.mr_values.specs.Sequence.{Sequence};
ghost use Rattle.mr_values.specs.Value.{chain, AreFirst};
ghost use Rattle.noble_rewrite.specs.Turns.{IsSettled, LeadsTo, HaveFactors};

use crate::copies::copies;
use crate::turn::{Applied, turn};
use mr_values::{Element, Elements, Memory};
use std::alloc::Global;

/// Elements after all turns, and the rule of each turn in order.
#[derive(Debug, Drop)]
pub struct Rewritten {
    pub elements: Elements,
    pub applied: Vec<Applied>,
}

/// Rewrites the leftmost pair of neighbours to which one of the three noble identities applies, turn after turn until
/// there is none. Fails only for want of memory.
pub fn rewrite(alloc: Global, elements: &[Element]) -> Result<Rewritten, Memory>
    requires { length elements.now < 2 ^ 32 }
    ensures turns { IfOk result (λ rewritten. LeadsTo elements.now rewritten.applied.items rewritten.elements) }
    ensures ended { IfOk result (λ rewritten. IsSettled rewritten.elements) }
    ensures first { IfOk result (λ rewritten. AreFirst elements.now → AreFirst rewritten.elements) }
    ensures value { IfOk result (λ rewritten. HaveFactors elements.now → (x : Sequence) → chain rewritten.elements x ≡ chain elements.now x) }
{
    let mut elements = copies(alloc, elements)?;
    let mut applied = Vec::new(alloc);
    'turns: while let Some(rule) = turn(alloc, &mut elements)? {
        applied.push(rule)?;
    }
    Ok(Rewritten {
        elements: Elements::from_vec(elements),
        applied,
    })
}

// The terms of a phase by the places of a window.

ghost use Rattle.std.specs.Prelude.{◌≡◌, ◌^◌, ◌<◌, ◌≤◌, length, IfOk};
ghost use Rattle.polyphase_fir.specs.Placed.{at_place, placed_terms};

use mr_values::Memory;
use signed_digit::{Term, terms};
use std::alloc::Global;

// The term with the place of the window that it weighs.
fn at_place(term: Term, up: u32) -> Term
    requires { 1 ≤ up }
    ensures { result ≡ at_place up term }
{
    Term {
        index: term.index / up,
        place: term.place,
        negative: term.negative,
    }
}

/// The terms of a phase, each with the place of the window that it weighs.
pub(crate) fn placed_terms(
    alloc: Global,
    taps: &[i64],
    up: u32,
    phase: u32,
) -> Result<Vec<Term>, Memory>
    requires in_range { phase < up }
    requires few { length taps.now < 2 ^ 32 }
    ensures { IfOk result (λ placed. placed.items ≡ placed_terms up phase taps.now) }
{
    let terms = terms(alloc, taps, up, phase)?;
    let mut placed = Vec::new(alloc);
    for term in terms.as_slice() {
        placed.push(at_place(*term, up))?;
    }
    Ok(placed)
}

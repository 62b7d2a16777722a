// Copies of elements.
ghost use Rattle.std.specs.Prelude.{◌≡◌, IfOk};

use mr_values::{Element, Memory, Taps};
use std::alloc::Global;

/// A copy of some elements.
pub fn copies(alloc: Global, elements: &[Element]) -> Result<Vec<Element>, Memory>
    ensures { IfOk result (λ copies. copies.items ≡ elements.now) }
{
    let mut copies = Vec::new(alloc);
    for element in elements {
        copies.push(copy(alloc, element)?)?;
    }
    Ok(copies)
}

fn copy(alloc: Global, element: &Element) -> Result<Element, Memory>
    ensures { IfOk result (λ copy. copy ≡ element.now) }
{
    Ok(match element {
        Element::Up { factor } => Element::Up { factor: *factor },
        Element::Down { factor } => Element::Down { factor: *factor },
        Element::Filter { taps, form } => Element::Filter {
            taps: Taps::from_vec(Vec::from_slice(alloc, taps.as_slice())?),
            form: *form,
        },
        Element::CicDown {
            factor,
            stages,
            delay,
        } => Element::CicDown {
            factor: *factor,
            stages: *stages,
            delay: *delay,
        },
        Element::CicUp {
            factor,
            stages,
            delay,
        } => Element::CicUp {
            factor: *factor,
            stages: *stages,
            delay: *delay,
        },
        Element::Round { shift, mode } => Element::Round {
            shift: *shift,
            mode: *mode,
        },
        Element::Clip { bits } => Element::Clip { bits: *bits },
    })
}

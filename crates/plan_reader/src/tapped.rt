// Taps that are put into a plan.
ghost use Rattle.std.specs.Prelude.{◌≡◌};
ghost use Rattle.plan_reader.specs.Tapped.{tapped_at, tapped_number};

use mr_values::{Element, Taps};

/// Puts other taps into the filter of this number, counted from 1. Leaves all as it is where there is no filter.
pub fn set_taps_of(elements: &mut Vec<Element>, number: u32, taps: Vec<i64>)
    ensures { elements.new.items ≡ tapped_number number taps.items elements.old.items }
{
    if number > 0 {
        set_taps_at(elements, number as usize - 1, taps);
    }
}

fn set_taps_at(elements: &mut Vec<Element>, place: usize, taps: Vec<i64>)
    ensures { elements.new.items ≡ tapped_at place taps.items elements.old.items }
{
    if place < elements.len() {
        let form = match &elements[place] {
            Element::Filter { form, .. } => *form,
            _ => return,
        };
        elements[place] = Element::Filter {
            taps: Taps::from_vec(taps),
            form,
        };
    }
}

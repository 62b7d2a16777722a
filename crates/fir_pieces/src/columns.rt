// The sums of registers, phase by phase.

ghost use Rattle.std.specs.Prelude.{◌≡◌, ◌∷◌, ◌++◌, [], map, IfOk, List};
ghost use Rattle.fir_pieces.specs.Columns.{parts_before, parts_of, with_more};
ghost use Rattle.fir_pieces.specs.declared.held_sums.HeldSums.{HeldSums};

use crate::held::Held;
use crate::held_sums::HeldSums;
use mr_values::Memory;
use std::alloc::Global;

// The sums, or none where there were none.
fn begun(alloc: Global, before: Option<HeldSums>) -> HeldSums
    ensures { result.sums.items ≡ parts_before before }
{
    match before {
        Some(held) => held,
        None => HeldSums {
            sums: Vec::new(alloc),
            width: 1,
        },
    }
}

// These sums and one more.
fn with_sum(before: HeldSums, own: Held) -> Result<HeldSums, Memory>
    ensures { IfOk result (λ new. new.sums.items ≡ before.sums.items ++ own ∷ []) }
{
    let HeldSums { mut sums, width } = before;
    let width = width.max(own.width);
    sums.push(own)?;
    Ok(HeldSums { sums, width })
}

/// The sums of registers, and of each one sum more, of one phase. At first there are none.
pub fn with_phase(
    alloc: Global,
    all: Vec<HeldSums>,
    more: Vec<Held>,
) -> Result<Vec<HeldSums>, Memory>
    ensures { IfOk result (λ new. parts_of new.items ≡ with_more (parts_of all.items) more.items) }
{
    let mut joined = Vec::new(alloc);
    let mut rest = all.into_iter();
    for own in more {
        let before = begun(alloc, rest.next());
        let sums = with_sum(before, own)?;
        joined.push(sums)?;
    }
    Ok(joined)
}

/// The widths of registers with these sums.
pub fn sums_widths(alloc: Global, held: &[HeldSums]) -> Result<Vec<u8>, Memory>
    ensures { IfOk result (λ widths. widths.items ≡ map (λ (own : HeldSums). own.width) held.now) }
{
    let mut widths = Vec::new(alloc);
    for own in held {
        widths.push(own.width)?;
    }
    Ok(widths)
}

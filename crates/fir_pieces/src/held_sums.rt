// What a register with several sums holds.

ghost use Rattle.std.specs.Prelude.{◌≡◌};
ghost use Rattle.fir_pieces.specs.Widest.{widest};

use crate::held::Held;

/// What a register holds at the phases of a pace: a sum for each, with the least width that holds every value of each.
#[derive(Drop)]
pub struct HeldSums {
    pub sums: Vec<Held>,
    pub width: u8,
    ghost is_widest: { width ≡ widest sums.items },
}

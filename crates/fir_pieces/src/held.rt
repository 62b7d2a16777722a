// What a register holds.

ghost use Rattle.std.specs.Prelude.{◌<◌, ◌≤◌, ◌^◌};
ghost use Rattle.mr_values.specs.Width.{IsLeastWidth};

use stage_law::{Class, Range, WeightedSum};

/// The values of a stream at the indices of a class, and a number of ticks after each.
#[derive(Clone, Copy, Debug, PartialEq, Eq)]
pub struct Beat {
    pub class: Class,
    pub lag: u64,
    ghost proper: { class.residue < class.modulus },
    ghost soon: { lag ≤ 2 ^ 40 },
}

/// What a register holds: a sum over the stream, `lag` ticks after each value of the class, with the range of its values and the
/// least width that holds them.
#[derive(Drop)]
pub struct Held {
    pub sum: WeightedSum,
    pub class: Class,
    pub lag: u64,
    pub range: Range,
    pub width: u8,
    ghost proper: { class.residue < class.modulus },
    ghost least: { IsLeastWidth range.lo range.hi width },
}

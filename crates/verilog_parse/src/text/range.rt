// The range of a declaration.
ghost use Rattle.std.specs.Prelude.{◌≡◌, ◌<◌, ◌^◌};

use verilog_text::token::Decimal;

/// A range, by its highest place.
#[derive(Clone, Copy)]
pub struct Range {
    pub high: Decimal,
    ghost small: { high.value < 2 ^ 31 },
}

/// A sign and a range.
#[derive(Clone, Copy)]
pub struct Shape {
    pub signed: bool,
    pub range: Option<Range>,
}

// Whole numbers of a stage.

ghost use Rattle.std.specs.Prelude.{◌≡◌, ◌≤◌, ◌^◌, ◌+◌};
ghost use Rattle.mr_values.specs.Timing.{ceil_div};

/// `n / d`, rounded up.
pub(crate) fn ceil_div(n: u32, d: u32) -> u32
    requires some { 1 ≤ d }
    requires room { n + d ≤ 2 ^ 32 }
    ensures { result ≡ ceil_div n d }
{
    (n + (d - 1)) / d
}

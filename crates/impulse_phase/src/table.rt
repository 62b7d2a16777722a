//! The table of a chain's responses.

ghost use Rattle.std.specs.Prelude.{◌<◌, ◌≤◌, ◌^◌, vec_len};

/// Which samples a value of the chain sums: `newest` the latest one, and the weights from it on backwards.
#[derive(Drop)]
pub(crate) struct Row {
    pub(crate) newest: u32,
    pub(crate) weights: Vec<i128>,
}

/// The responses of a chain without roundings: each of its values as a weighted sum of the samples. Indices fall into
/// classes, and after one round of them the weights are the same on samples that come `step` later.
#[derive(Drop)]
pub struct Response {
    pub(crate) rows: Vec<Row>,
    pub(crate) step: u64,
    ghost some: { 0 < vec_len rows },
    ghost few: { vec_len rows ≤ 2 ^ 32 },
    ghost soon: { step < 2 ^ 32 },
}

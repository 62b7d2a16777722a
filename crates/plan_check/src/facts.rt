// What an accepted plan determines.

/// The numbers of an accepted plan. Its outputs stand at the ticks `latency + k * period`.
#[derive(Debug, Drop)]
pub struct Facts {
    /// The tick of the first output.
    pub latency: u64,
    /// Ticks from one output to the next.
    pub period: u64,
    /// How far `2^shift` times an output is at most from the output of the plan without its roundings; `None` exactly
    /// where the plan has a Clip.
    pub bound: Option<u128>,
    /// The bits that all roundings shift together.
    pub shift: u32,
    /// The least and the greatest value of an output.
    pub end_lo: i128,
    pub end_hi: i128,
    pub groups: Vec<GroupFacts>,
}

/// The numbers of a group of an accepted plan.
#[derive(Clone, Copy, Debug, PartialEq, Eq)]
pub struct GroupFacts {
    /// Its first and its last element, counted from 1.
    pub first: u32,
    pub last: u32,
    /// Its factors, 1 where there is none.
    pub up: u32,
    pub down: u32,
    /// Ticks from one value to the next, before and after the group.
    pub period_in: u64,
    pub period_out: u64,
    /// The tick of the first value before the group, and how many ticks later it is after the group.
    pub offset_in: u64,
    pub delay: u64,
    /// The least and the greatest value before the group.
    pub span_lo: i128,
    pub span_hi: i128,
    pub terms: u64,
}

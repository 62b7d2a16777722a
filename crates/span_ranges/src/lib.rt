//! The ranges of sums over all streams whose values lie in a span.
#![tactic(auto)]

mod span;
mod terms;

pub use span::SpanRanges;
pub use terms::least_sum;

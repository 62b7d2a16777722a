//! The weights of moving sums, each by one value more and one less.
#![tactic(auto)]

mod laws;
mod rows;
mod sums;

pub use laws::{law_of_covers, law_of_moving_rows, law_of_moving_sums, law_of_rounds};
pub use rows::{Shifts, added_behind, moved_cover, moved_row, ones};
pub use sums::{cic_weights, moving_sum, moving_sums};

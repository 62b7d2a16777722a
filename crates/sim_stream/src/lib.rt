//! A simulation of a stimulus that comes in pieces: the printed list of what a module shows.
#![tactic(auto)]

mod cycle;
mod laws;
mod start;
mod stream;

pub use cycle::{is_tick, signed_value, ticks_after};
pub use laws::law_of_one_text;
pub use row_stream::StreamFault;
pub use start::{register_count, zero_sim};
pub use stream::SimStream;

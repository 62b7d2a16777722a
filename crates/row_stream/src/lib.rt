//! A computation over the rows of a file that comes in pieces, and whose output goes out in pieces.
#![tactic(auto)]

mod fault;
mod stream;

pub use fault::StreamFault;
pub use stream::{FULL, RowStream};

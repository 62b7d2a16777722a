//! The samples of a file through the module of a plan: the values of the chain that belong to them.
#![tactic(auto)]

mod stream;
mod ticks;
mod timing;

pub use stream::ChainStream;
pub use timing::ChainTiming;

//! The commands of the filter compiler, over a host.
#![tactic(auto)]

mod fault;
mod status;
mod tool;
mod words;

pub use command_files::{FileKind, HostCall};
pub use fault::{Fault, FaultLine};
pub use status::status_of;
pub use tool::{Outcome, filter_tool};

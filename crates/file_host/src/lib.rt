//! Owns the files of the system as a host, and the run of the program over them. It must not know what a command does.
//! The program crates rely on it.
#![tactic(auto)]

mod program;
mod real_host;

pub use program::run_program;
pub use real_host::RealHost;

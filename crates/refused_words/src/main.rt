//! The filter compiler's program, as it is run on words that are no command: it ends with their status.
#![tactic(auto)]

use file_host::run_program;
use filter_core::FaultLine;
use std::process::ExitCode;

/// Does the command that the words are. Prints nothing but the line of a fault, on standard error, and ends with
/// the status.
fn main(rt: HostRuntime) -> ExitCode {
    let outcome = run_program(&rt);
    if let Some(fault) = &outcome.fault {
        let line = FaultLine(fault);
        let _ = eprintln!(rt; "{line}");
    }
    ExitCode::from(outcome.status)
}

// The program: its words, and the files of the system.
use crate::real_host::RealHost;
use filter_core::{Fault, Outcome, filter_tool, status_of};
use std::env;
use std::io::ErrorKind;
use std::rt::{Env, Files};

/// Does the command that the words after the program's own name are, over the files of the system. Words that are no UTF-8 are
/// no command.
pub fn run_program<R: Files + Env + AllocGlobal>(rt: &R) -> Outcome {
    match words(rt) {
        Ok(words) => {
            let mut host = RealHost::new(rt);
            filter_tool(rt.alloc(), &words, &mut host)
        }
        Err(fault) => {
            let fault = Some(fault);
            Outcome {
                status: status_of(&fault),
                fault,
            }
        }
    }
}

// The words after the program's own name.
fn words<R: Env + AllocGlobal>(rt: &R) -> Result<Vec<String>, Fault> {
    let args = match env::args(rt) {
        Ok(args) => args,
        Err(error) => {
            return Err(if error.kind() == ErrorKind::OutOfMemory {
                Fault::Memory
            } else {
                Fault::Usage
            });
        }
    };
    match args.skip(1).collect(rt.alloc()) {
        Ok(words) => Ok(words),
        Err(_) => Err(Fault::Memory),
    }
}

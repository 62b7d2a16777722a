//! Files as the commands see them: whole, by rows, as an accepted plan and as a module, and why a command isn't done.
#![tactic(auto)]

mod accept;
mod fault;
mod files;
mod laws;
mod row_files;
mod text;

pub use accept::{AcceptedPlan, read_accepted};
pub use fault::{CommandFault, FileFault, FileKind, RowsFault, WriteFault};
pub use files::write_file;
pub use laws::law_of_one_answer;
pub use mr_values::HostCall;
pub use row_files::stream_rows;
pub use text::read_design;

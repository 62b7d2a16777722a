//! The commands that begin with a plan: `compile`, `run`, `extreme`, `noble` and `migrate`.
#![tactic(auto)]

mod compile_command;
mod extreme_command;
mod migrate_command;
mod noble_command;
mod run_command;

pub use compile_command::compile;
pub use extreme_command::extreme;
pub use migrate_command::migrate;
pub use noble_command::noble;
pub use run_command::run_plan;

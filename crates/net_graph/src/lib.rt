//! A netlist of signed nodes: an append-only list whose operands are earlier nodes, but for a register's next.
#![tactic(auto)]

mod cell;
mod counting;
mod laws;
mod name;
mod net;
mod netlist;

pub use cell::{Cell, Item, Leaf, Node, Stream};
pub use laws::{law_of_control, law_of_growth, law_of_runs};
pub use name::{Name, NameKind, name_text};
pub use net::Net;
pub use netlist::{NetFault, Netlist};

//! The values of a chain, sample by sample, by whole numbers alone.
//!
//! It owns the elements of a chain as stages that take values and give values, in 64 bits. It knows no net and no module. `demo_plan` relies on it.
#![tactic(auto)]

mod chain;
mod elements;
mod fir;
mod moving_sum;
mod pair;
mod products;
mod rounding;
mod stage;
mod window;

pub use chain::{law_of_all_due, push_chain};
pub use elements::{stages_of, values_of};
pub use fir::Fir;
pub use moving_sum::MovingSum;
pub use pair::push_through;
pub use products::dot;
pub use rounding::{Clipping, Rounding};
pub use stage::Stage;
pub use window::Window;

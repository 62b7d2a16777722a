//! Registers over the values of a stream: a window, sums and differences of its values, and trees of sums of such. It owns what such a
//! register holds, for one phase or for several, with least widths and peaks, and what a stage must prove of a list of them. It must not
//! know a filter's taps or form. The filter stages polyphase_fir, symmetric_fir and half_band rely on it.
#![tactic(auto)]

mod columns;
mod cutting;
mod forms;
mod held;
mod held_sums;
mod leaves;
mod numbers;
mod peaks;
mod readers;
mod reading;
mod tree;
mod widths;

pub use columns::{sums_widths, with_phase};
pub use cutting::{class_window, cut_window};
pub use forms::all_minus;
pub use held::{Beat, Held};
pub use held_sums::HeldSums;
pub use numbers::{adders_for, ceil_log};
pub use peaks::{push_all_peaks, push_peaks, window_held};
pub use readers::{Readers, add_readers, add_registers};
pub use reading::{Reading, ages};
pub use tree::{Shown, Tree, sum_tree, tree_over};
pub use widths::{readings_held, tree_held};

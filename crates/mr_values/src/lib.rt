//! The base of the filter compiler: numbers of a width, plans and their values, and the outside.
#![tactic(auto)]

mod digit;
mod digit_list;
mod host;
mod memory;
mod memory_host;
mod named_file;
mod plan;
mod rounding;
mod strikes;
mod text;
mod timing_laws;
#[cfg(test)]
mod value;
mod width;

pub use digit::{Digit, count_positive_terms, count_terms, digits, positive_digits, weight};
pub use digit_list::Digits;
pub use host::{Failed, FaultCounts, Host, HostCall, OutFail};
pub use memory::Memory;
pub use memory_host::MemoryHost;
pub use plan::{Element, Elements, Form, Mode, Plan, Taps};
pub use rounding::{clipped, law_of_clip, law_of_half_even, rounded_to_even};
pub use text::Text;
pub use timing_laws::{law_of_least, law_of_phases};
pub use width::{fits, floor_divide, floor_modulo, floor_shift, least_width, power, wrap};

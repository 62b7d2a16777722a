//! Which plans are accepted, and the numbers that an accepted plan determines.
#![tactic(auto)]

mod accept;
mod amounts;
mod costs;
mod delays;
mod euclid;
mod facts;
mod fault;
mod flow;
mod forms;
mod group;
mod limits;
mod rates;
mod run_law;
mod terms;

pub use accept::check_plan;
pub use euclid::gcd;
pub use facts::{Facts, GroupFacts};
pub use fault::{CostWhich, LimitWhich, PlanFault};
pub use forms::is_symmetric;
pub use group::{FirFilter, PlanGroup, split_group};
pub use run_law::law_of_groups;

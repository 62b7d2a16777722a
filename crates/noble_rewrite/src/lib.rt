//! The noble identities: filters behind a Down and before an Up where their taps allow it.
#![tactic(auto)]

mod copies;
mod rules;
mod turn;
mod turns;

ghost use Rattle.noble_rewrite.specs.Rules.{ThirdRuleLaw};

pub use turn::Applied;
pub use turns::{Rewritten, rewrite};

/// An Up and the Down behind it change places exactly where their greatest common divisor is 1.
pub fn law_of_rates()
    ensures { ThirdRuleLaw }
{}

// One turn of the noble identities.
ghost use Rattle.std.specs.Prelude.{◌≡◌, ◌<◌, ◌^◌, length, IfOk, MatchOption};
ghost use Rattle.noble_rewrite.specs.Turns.{IsSettled, IsTurn};

use crate::rules::exchange;
use mr_values::{Element, Memory};
use std::alloc::Global;

/// A rule that was applied, by its number, to an element and the one behind it. The element is counted from 1.
#[derive(Clone, Copy, Debug, PartialEq, Eq)]
pub struct Applied {
    pub rule: u8,
    pub place: u32,
}

/// Rewrites the leftmost pair to which a rule applies, if there is one.
pub fn turn(alloc: Global, elements: &mut Vec<Element>) -> Result<Option<Applied>, Memory>
    requires { length elements.old.items < 2 ^ 32 }
    ensures { IfOk result (λ found. MatchOption found (IsSettled elements.old.items × (elements.new.items ≡ elements.old.items)) (IsTurn elements.old.items elements.new.items)) }
{
    for index in 1..elements.len() {
        match exchange(alloc, &elements[index - 1], &elements[index])? {
            Some(pair) => {
                elements[index - 1] = pair.first;
                elements[index] = pair.second;
                return Ok(Some(Applied {
                    rule: pair.rule,
                    place: index as u32,
                }));
            }
            None => {}
        }
    }
    Ok(None)
}

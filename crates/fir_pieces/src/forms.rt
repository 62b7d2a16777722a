// The weights of a register's terms.

ghost use Rattle.std.specs.Prelude.{◌≡◌, ℕ, ◌^◌, ◌<◌, ◌≤◌, All, IfOk, length, pos, slice_index_or, unsigned_abs, ◌↔◌, IsTrue, true};
ghost use Rattle.fir_pieces.specs.Placed.{all_minus, powers};
ghost use Rattle.fir_pieces.specs.Form.{power_of, with_term, reach_of, weights_by, moved};
ghost use Rattle.stage_law.specs.Weights.{weights_of};

use mr_values::{Memory, power};
use signed_digit::Term;
use stage_law::WeightedSum;
use std::alloc::Global;

/// Whether each term is negative.
pub fn all_minus(terms: &[Term]) -> bool
    ensures { result ≡ all_minus terms.now }
{
    for term in terms {
        if !term.negative {
            return false;
        }
    }
    true
}

// A term's power of two, or its negation.
fn power_of(term: Term, negated: bool) -> i128
    requires { term.place ≤ 90 }
    ensures { result ≡ power_of negated term }
{
    let power = power(term.place);
    if term.negative == negated {
        power
    } else {
        -power
    }
}

// One term more.
fn add_term(form: &mut Vec<i128>, term: Term, negated: bool)
    requires within { term.index < length form.old.items }
    requires short { term.place ≤ 90 }
    requires room { unsigned_abs (slice_index_or form.old.items term.index (pos 0)) ≤ 2 ^ 100 }
    ensures { form.new.items ≡ with_term negated form.old.items term }
{
    let place = term.index as usize;
    let weight = form[place] + power_of(term, negated);
    form[place] = weight;
}

// How many places there are up to the last that a term weighs.
fn reach_of(terms: &[Term]) -> u64
    ensures value { result ≡ reach_of terms.now }
    ensures small { result ≤ 2 ^ 32 }
{
    let mut reach = 0;
    for term in terms {
        reach = reach.max(u64::from(term.index) + 1);
    }
    reach
}

// The least place that a term weighs, or `most` where each lies behind that.
fn first_place(terms: &[Term], most: u64) -> u64
    ensures least { All (λ t. result ≤ t.index) terms.now }
    ensures most { result ≤ most }
{
    let mut least = most;
    for term in terms {
        least = least.min(u64::from(term.index));
    }
    least
}

// The term at a place so many places before.
fn moved(term: Term, behind: u64) -> Term
    requires { behind ≤ term.index }
    ensures { result ≡ moved behind term }
{
    Term {
        index: term.index - behind as u32,
        place: term.place,
        negative: term.negative,
    }
}

/// The sum of these terms, or of their negations: from the first place that a term weighs to the last.
pub(crate) fn sum_of(alloc: Global, negated: bool, terms: &[Term]) -> Result<WeightedSum, Memory>
    requires short { All (λ t. t.place ≤ 90) terms.now }
    requires small { powers terms.now ≤ 2 ^ 90 }
    ensures { IfOk result (λ sum. weights_of sum ≡ weights_by negated terms.now) }
{
    let reach = reach_of(terms);
    let behind = first_place(terms, reach);
    let mut weights = vec![in alloc; 0i128; (reach - behind) as usize]?;
    for term in terms {
        add_term(&mut weights, moved(*term, behind), negated);
    }
    let sum = WeightedSum::of(alloc, behind, weights.as_slice())?;
    Ok(sum)
}

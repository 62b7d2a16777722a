// What a node shows of a stream's values.

ghost use Rattle.std.specs.Prelude.{◌≡◌, ◌++◌, ◌<◌, length, All, IfOk};
ghost use Rattle.fir_pieces.specs.Reading.{ages, moved_to, turned_to, terms_at, reading_at, spread};

use mr_values::Memory;
use signed_digit::Term;
use std::alloc::Global;

/// What a node shows of the values of a stream: the one that came so many values before the last, or the sum or the difference of two.
#[derive(Clone, Copy, Debug, PartialEq, Eq)]
pub enum Reading {
    One(u32),
    Sum(u32, u32),
    Difference(u32, u32),
}

/// Each of so many last values by itself, the newest first: what the registers of a window show.
pub fn ages(alloc: Global, depth: u32) -> Result<Vec<Reading>, Memory>
    ensures { IfOk result (λ all. all.items ≡ ages depth) }
{
    let mut all = Vec::new(alloc);
    for age in 0..depth {
        all.push(Reading::One(age))?;
    }
    Ok(all)
}

// The term at another place.
fn moved_to(index: u32, term: Term) -> Term
    ensures { result ≡ moved_to index term }
{
    Term {
        index,
        place: term.place,
        negative: term.negative,
    }
}

// The term at another place, negated.
fn turned_to(index: u32, term: Term) -> Term
    ensures { result ≡ turned_to index term }
{
    Term {
        index,
        place: term.place,
        negative: !term.negative,
    }
}

/// A term of what a node shows, as terms of the values, after those before.
pub(crate) fn push_terms(terms: &mut Vec<Term>, reading: Reading, term: Term) -> Result<(), Memory>
    ensures { IfOk result (λ _. terms.new.items ≡ terms.old.items ++ terms_at reading term) }
{
    match reading {
        Reading::One(first) => {
            terms.push(moved_to(first, term))?;
            Ok(())
        }
        Reading::Sum(first, second) => {
            terms.push(moved_to(first, term))?;
            terms.push(moved_to(second, term))?;
            Ok(())
        }
        Reading::Difference(first, second) => {
            terms.push(moved_to(first, term))?;
            terms.push(turned_to(second, term))?;
            Ok(())
        }
    }
}

/// Terms over nodes that show these, as terms of the values.
pub(crate) fn spread(
    alloc: Global,
    readings: &[Reading],
    terms: &[Term],
) -> Result<Vec<Term>, Memory>
    requires { All (λ t. t.index < length readings.now) terms.now }
    ensures { IfOk result (λ all. all.items ≡ spread readings.now terms.now) }
{
    let mut all = Vec::new(alloc);
    for term in terms {
        let reading = readings[term.index as usize];
        push_terms(&mut all, reading, *term)?;
    }
    Ok(all)
}

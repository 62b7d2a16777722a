// Which neighbours change places.
ghost use Rattle.std.specs.Prelude.{◌≡◌, ◌==◌, ◌≤◌, IfOk, option_map};
ghost use Rattle.mr_values.specs.Sequence.{phase};
ghost use Rattle.mr_values.specs.Value.{size};
ghost use Rattle.plan_check.specs.Costs.{gcd};
ghost use Rattle.noble_rewrite.specs.Rules.{is_zero_off, is_thin, filter_down, up_filter, up_down, exchange};
ghost use Rattle.noble_rewrite.specs.Views.{as_exchange};

use mr_values::{Element, Form, Memory, Taps};
use plan_check::gcd;
use std::alloc::Global;

/// What two neighbours become, and by which rule.
#[derive(Debug, Drop)]
pub struct Pair {
    pub rule: u8,
    pub first: Element,
    pub second: Element,
}

/// What two neighbours become, if a rule applies to them.
pub fn exchange(alloc: Global, first: &Element, second: &Element) -> Result<Option<Pair>, Memory>
    ensures { IfOk result (λ found. option_map as_exchange found ≡ exchange first.now second.now) }
{
    match (first, second) {
        (
            Element::Filter {
                taps,
                form: Form::Parallel,
            },
            Element::Down { factor },
        ) => filter_down(alloc, taps.as_slice(), *factor),
        (
            Element::Up { factor },
            Element::Filter {
                taps,
                form: Form::Parallel,
            },
        ) => up_filter(alloc, *factor, taps.as_slice()),
        (Element::Up { factor: up }, Element::Down { factor: down }) => Ok(up_down(*up, *down)),
        _ => Ok(None),
    }
}

fn filter_down(alloc: Global, taps: &[i64], factor: i64) -> Result<Option<Pair>, Memory>
    ensures { IfOk result (λ found. option_map as_exchange found ≡ filter_down taps.now factor) }
{
    if !is_thin(factor, taps) {
        return Ok(None);
    }
    Ok(Some(Pair {
        rule: 1,
        first: Element::Down { factor },
        second: filter(thinned(alloc, whole(factor), taps)?),
    }))
}

fn up_filter(alloc: Global, factor: i64, taps: &[i64]) -> Result<Option<Pair>, Memory>
    ensures { IfOk result (λ found. option_map as_exchange found ≡ up_filter factor taps.now) }
{
    if !is_thin(factor, taps) {
        return Ok(None);
    }
    Ok(Some(Pair {
        rule: 2,
        first: filter(thinned(alloc, whole(factor), taps)?),
        second: Element::Up { factor },
    }))
}

fn up_down(up: i64, down: i64) -> Option<Pair>
    ensures { option_map as_exchange result ≡ up_down up down }
{
    if gcd(whole(up), whole(down)) != 1 {
        return None;
    }
    Some(Pair {
        rule: 3,
        first: Element::Down { factor: down },
        second: Element::Up { factor: up },
    })
}

fn filter(taps: Vec<i64>) -> Element
    ensures { result ≡ Element.Filter taps.items Form.Parallel }
{
    Element::Filter {
        taps: Taps::from_vec(taps),
        form: Form::Parallel,
    }
}

fn is_thin(factor: i64, taps: &[i64]) -> bool
    ensures { result ≡ is_thin factor taps.now }
{
    factor >= 2 && is_zero_off(whole(factor), taps)
}

// Every tap at an index that the factor doesn't divide is 0.
fn is_zero_off(factor: u64, taps: &[i64]) -> bool
    requires { 1 ≤ factor }
    ensures { result ≡ is_zero_off factor 0 taps.now }
{
    for (index, tap) in taps.iter().enumerate() {
        if index as u64 % factor != 0 && *tap != 0 {
            return false;
        }
    }
    true
}

// Every so many of the taps, from the first on.
fn thinned(alloc: Global, factor: u64, taps: &[i64]) -> Result<Vec<i64>, Memory>
    requires { 1 ≤ factor }
    ensures { IfOk result (λ kept. kept.items ≡ phase factor 0 taps.now) }
{
    let mut kept = Vec::new(alloc);
    let mut wait = 0;
    for tap in taps {
        if wait == 0 {
            kept.push(*tap)?;
            wait = factor - 1;
        } else {
            wait -= 1;
        }
    }
    Ok(kept)
}

// A number as a size: 0 where it is negative.
fn whole(number: i64) -> u64
    ensures { result ≡ size number }
{
    if number < 0 { 0 } else { number as u64 }
}

// The limits of the numbers of a plan.
ghost use Rattle.std.specs.Prelude.{◌≡◌, ◌≤◌, length, pos, OnOk};
ghost use Rattle.std.specs.Result.{result_err};
ghost use Rattle.plan_check.specs.Limits.{limit_test, taps_test, form_test, cic_test, element_test, elements_test, own_test, limits_test, HasLimits};
ghost use Rattle.plan_check.specs.declared.fault.LimitWhich.TheVariants.{Factor};

use crate::fault::{LimitWhich, PlanFault};
use mr_values::{Element, Form, Plan};

/// Tests each number of a plan, from the left.
#[tactic(auto, using(crate::proofs::LimitFacts::has_limits))]
pub(crate) fn check_limits(plan: &Plan) -> Result<(), PlanFault>
    ensures test { result_err result ≡ limits_test plan.now }
    ensures limits { OnOk result (HasLimits plan.now) }
{
    let elements = plan.elements.as_slice();
    check_own_numbers(plan)?;
    check_limit(0, LimitWhich::Elements, elements.len() as i128, 1, 32)?;
    check_elements(elements)
}

fn check_own_numbers(plan: &Plan) -> Result<(), PlanFault>
    ensures { result_err result ≡ own_test plan.now }
{
    check_limit(0, LimitWhich::Width, i128::from(plan.width), 2, 64)?;
    check_limit(0, LimitWhich::Ticks, i128::from(plan.ticks), 1, 65_536)
}

fn check_elements(elements: &[Element]) -> Result<(), PlanFault>
    requires { length elements.now ≤ 32 }
    ensures { result_err result ≡ elements_test 1 elements.now }
{
    for (index, element) in elements.iter().enumerate() {
        check_element(index as u32 + 1, element)?;
    }
    Ok(())
}

fn check_element(number: u32, element: &Element) -> Result<(), PlanFault>
    ensures { result_err result ≡ element_test number element.now }
{
    match element {
        Element::Up { factor } => check_factor(number, *factor),
        Element::Down { factor } => check_factor(number, *factor),
        Element::Filter { taps, form } => {
            let taps = taps.as_slice();
            check_limit(number, LimitWhich::Taps, taps.len() as i128, 1, 1024)?;
            check_taps(number, taps)?;
            check_form(number, *form)
        }
        Element::CicDown {
            factor,
            stages,
            delay,
        } => check_cic(number, *factor, *stages, *delay),
        Element::CicUp {
            factor,
            stages,
            delay,
        } => check_cic(number, *factor, *stages, *delay),
        Element::Round { shift, mode: _ } => {
            check_limit(number, LimitWhich::Shift, i128::from(*shift), 1, 64)
        }
        Element::Clip { bits } => check_limit(number, LimitWhich::Bits, i128::from(*bits), 2, 64),
    }
}

fn check_factor(number: u32, factor: i64) -> Result<(), PlanFault>
    ensures { result_err result ≡ limit_test number Factor factor (pos 1) (pos 4096) }
{
    check_limit(number, LimitWhich::Factor, i128::from(factor), 1, 4096)
}

fn check_cic(number: u32, factor: i64, stages: i64, delay: i64) -> Result<(), PlanFault>
    ensures { result_err result ≡ cic_test number factor stages delay }
{
    check_factor(number, factor)?;
    check_limit(number, LimitWhich::Stages, i128::from(stages), 1, 8)?;
    check_limit(number, LimitWhich::Delay, i128::from(delay), 1, 2)
}

const GREATEST_TAP: i128 = 1 << 62;

fn check_taps(number: u32, taps: &[i64]) -> Result<(), PlanFault>
    ensures { result_err result ≡ taps_test number taps.now }
{
    for tap in taps {
        let tap = i128::from(*tap);
        check_limit(number, LimitWhich::Tap, tap, -GREATEST_TAP, GREATEST_TAP)?;
    }
    Ok(())
}

fn check_form(number: u32, form: Form) -> Result<(), PlanFault>
    ensures { result_err result ≡ form_test number form }
{
    match form {
        Form::Parallel | Form::Symmetric | Form::HalfBand => Ok(()),
        Form::Folded { slots } => {
            check_limit(number, LimitWhich::Slots, i128::from(slots), 1, 65_536)
        }
        Form::Distributed { group } => {
            check_limit(number, LimitWhich::Group, i128::from(group), 1, 6)
        }
    }
}

// Whether a number lies within its range.
fn check_limit(
    element: u32,
    which: LimitWhich,
    value: i128,
    least: i128,
    greatest: i128,
) -> Result<(), PlanFault>
    ensures { result_err result ≡ limit_test element which value least greatest }
{
    if least <= value && value <= greatest {
        Ok(())
    } else {
        Err(PlanFault::Limit {
            element,
            which,
            value,
        })
    }
}

//! The stages of a plan's elements.

ghost use Rattle.std.specs.Prelude.{◌≡◌, ◌≤◌, ◌^◌, All, IfOk, OnOk};
ghost use Rattle.mr_values.specs.declared.plan.Element.TheVariants.{CicDown, CicUp};
ghost use Rattle.mr_values.specs.Value.{size, IsWithinLimits};
ghost use Rattle.chain_values.specs.Starts.{Begin, Makes, SumsMake, Adds, GivesValues};

use crate::chain::push_chain;
use crate::fir::Fir;
use crate::moving_sum::MovingSum;
use crate::rounding::{Clipping, Rounding};
use crate::stage::Stage;
use mr_values::Element;
use std::alloc::{AllocError, Global};

/// The values of the elements over the samples.
pub fn values_of(alloc: Global, elements: &[Element], xs: &[i64]) -> Result<Vec<i64>, AllocError>
    requires { All IsWithinLimits elements.now }
    ensures { IfOk result (λ out. GivesValues elements.now xs.now out.items) }
{
    let mut stages = stages_of(alloc, elements)?;
    let mut out = Vec::new(alloc);
    push_chain(alloc, &mut stages, xs, &mut out)?;
    Ok(out)
}

/// The stages at the start of a stream.
pub fn stages_of(alloc: Global, elements: &[Element]) -> Result<Vec<Stage>, AllocError>
    requires { All IsWithinLimits elements.now }
    ensures { IfOk result (λ stages. Begin elements.now stages.items) }
{
    let mut stages = Vec::new(alloc);
    for element in elements {
        push_element(alloc, &mut stages, element)?;
    }
    Ok(stages)
}

// Adds the stages of one element.
fn push_element(alloc: Global, stages: &mut Vec<Stage>, element: &Element) -> Result<(), AllocError>
    requires { IsWithinLimits element.now }
    ensures { OnOk result (Adds (Makes element.now) stages.old.items stages.new.items) }
{
    match element {
        Element::Up { factor } => {
            let group = Fir::new(alloc, &[1], size(*factor), 1)?;
            stages.push(Stage::Group(group))?;
            Ok(())
        }
        Element::Down { factor } => {
            let group = Fir::new(alloc, &[1], 1, size(*factor))?;
            stages.push(Stage::Group(group))?;
            Ok(())
        }
        Element::Filter { taps, form: _ } => {
            let group = Fir::new(alloc, taps.as_slice(), 1, 1)?;
            stages.push(Stage::Group(group))?;
            Ok(())
        }
        Element::CicDown {
            factor,
            stages: count,
            delay,
        } => {
            push_cic_down(alloc, stages, *factor, *count, *delay)?;
            Ok(())
        }
        Element::CicUp {
            factor,
            stages: count,
            delay,
        } => {
            push_cic_up(alloc, stages, *factor, *count, *delay)?;
            Ok(())
        }
        Element::Round { shift, mode } => {
            let rounding = Rounding::new(size(*shift) as u8, *mode);
            stages.push(Stage::Rounded(rounding))?;
            Ok(())
        }
        Element::Clip { bits } => {
            let clipping = Clipping::new(size(*bits) as u8);
            stages.push(Stage::Clipped(clipping))?;
            Ok(())
        }
    }
}

// Adds the sums of a decimating cascade, and the group that lowers their rate.
fn push_cic_down(
    alloc: Global,
    stages: &mut Vec<Stage>,
    factor: i64,
    count: i64,
    delay: i64,
) -> Result<(), AllocError>
    requires { IsWithinLimits (CicDown factor count delay) }
    ensures { OnOk result (Adds (Makes (CicDown factor count delay)) stages.old.items stages.new.items) }
{
    let factor = size(factor);
    push_sums(alloc, stages, factor * size(delay), size(count))?;
    let group = Fir::new(alloc, &[1], 1, factor)?;
    stages.push(Stage::Group(group))?;
    Ok(())
}

// Adds the group that raises the rate of an interpolating cascade, and its sums.
fn push_cic_up(
    alloc: Global,
    stages: &mut Vec<Stage>,
    factor: i64,
    count: i64,
    delay: i64,
) -> Result<(), AllocError>
    requires { IsWithinLimits (CicUp factor count delay) }
    ensures { OnOk result (Adds (Makes (CicUp factor count delay)) stages.old.items stages.new.items) }
{
    let factor = size(factor);
    let group = Fir::new(alloc, &[1], factor, 1)?;
    stages.push(Stage::Group(group))?;
    push_sums(alloc, stages, factor * size(delay), size(count))?;
    Ok(())
}

// Adds so many sums of this width.
fn push_sums(
    alloc: Global,
    stages: &mut Vec<Stage>,
    width: u64,
    count: u64,
) -> Result<(), AllocError>
    requires some { 1 ≤ width }
    requires few { width ≤ 2 ^ 32 }
    ensures { OnOk result (Adds (SumsMake width count) stages.old.items stages.new.items) }
{
    for k in 0..count {
        let sum = MovingSum::new(alloc, width as usize)?;
        stages.push(Stage::Sum(sum))?;
    }
    Ok(())
}

// A number of a plan as a size.
fn size(number: i64) -> u64
    ensures { result ≡ size number }
{
    if number < 0 { 0 } else { number as u64 }
}

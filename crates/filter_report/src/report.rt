// The report of a plan and its module.
ghost use Rattle.std.specs.Prelude.{◌≡◌, ◌++◌, List, codes, decimal, IfOk, OnOk};
ghost use Rattle.std.specs.Fmt.{signed_decimal};
ghost use Rattle.mr_values.specs.Timing.{Group};
ghost use Rattle.verilog_tree.specs.View.{design_view};
ghost use Rattle.filter_text.specs.Written.{TellCosts};
ghost use Rattle.filter_text.specs.Extremes.{told_at};
ghost use Rattle.filter_report.specs.Report.{bound_words, plan_lines, report_text, TellsOutput};

use crate::groups::put_groups;
use crate::registers::put_registers;
use filter_text::ChainModule;
use itoa::Buffer;
use plan_check::Facts;
use std::alloc::{AllocError, Global};

/// Appends a word and a number.
pub(crate) fn put_number(text: &mut Vec<u8>, word: &str, number: u128) -> Result<(), AllocError>
    ensures { OnOk result (text.new.items ≡ text.old.items ++ word.now ++ decimal number) }
{
    text.extend_from_slice(word.as_bytes())?;
    let mut buffer = Buffer::new();
    text.extend_from_slice(buffer.format(number).as_bytes())?;
    Ok(())
}

/// Appends a word and a number with its sign.
pub(crate) fn put_value(text: &mut Vec<u8>, word: &str, value: i128) -> Result<(), AllocError>
    ensures { OnOk result (text.new.items ≡ text.old.items ++ word.now ++ signed_decimal value) }
{
    text.extend_from_slice(word.as_bytes())?;
    let mut buffer = Buffer::new();
    text.extend_from_slice(buffer.format(value).as_bytes())?;
    Ok(())
}

// Appends the line of the bound, but for its end.
fn put_bound(text: &mut Vec<u8>, bound: Option<u128>) -> Result<(), AllocError>
    ensures { OnOk result (text.new.items ≡ text.old.items ++ codes "\nbound " ++ bound_words bound) }
{
    match bound {
        Some(bound) => put_number(text, "\nbound ", bound),
        None => {
            text.extend_from_slice(b"\nbound none")?;
            Ok(())
        }
    }
}

// The lines of the plan's numbers.
fn plan_lines(alloc: Global, facts: &Facts, output: u8) -> Result<Vec<u8>, AllocError>
    ensures { IfOk result (λ text. text.items ≡ plan_lines facts.now output) }
{
    let mut text = Vec::new(alloc);
    put_number(&mut text, "latency ", u128::from(facts.latency))?;
    put_number(&mut text, "\nperiod ", u128::from(facts.period))?;
    put_bound(&mut text, facts.bound)?;
    put_number(&mut text, "\nshift ", u128::from(facts.shift))?;
    put_number(&mut text, "\noutput ", u128::from(output))?;
    text.extend_from_slice(b"\n")?;
    Ok(text)
}

/// The report: latency and period in ticks, the bound or that there is none, the shift, and the bits of the output; the form and the cost of each group; and
/// the bits of each register, in the order of the text, with the tick and the value that are told at the number of its name.
/// Fails only for want of memory.
pub fn report_text(alloc: Global, facts: &Facts, chain: &ChainModule) -> Result<Vec<u8>, AllocError>
    ensures { IfOk result (λ text. (gs : List Group) → TellCosts 1 gs chain.now.costs.items (design_view chain.now.design) → TellsOutput chain.now.output (design_view chain.now.design) → text.items ≡ report_text facts.now gs (design_view chain.now.design) (told_at chain.now.extremes.items)) }
{
    let mut text = plan_lines(alloc, facts, chain.output)?;
    put_groups(&mut text, &chain.costs)?;
    put_registers(&mut text, chain.design.tree(), &chain.extremes)?;
    Ok(text)
}

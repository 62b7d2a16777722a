// The net of a plan.

ghost use Rattle.std.specs.Prelude.{◌≡◌, ◌<◌, ◌^◌, pos, ◌≤ℤ◌, true, false, map, length, IfOk};
ghost use Rattle.mr_values.specs.Timing.{groups};
ghost use Rattle.mr_values.specs.Value.{size, chain};
ghost use Rattle.plan_check.specs.Accepted.{IsAccepted, AreFacts};
ghost use Rattle.stage_law.specs.Streams.{HasRoom};
ghost use Rattle.width_extreme.specs.Prefix.{IsStream};
ghost use Rattle.chain_build.specs.Alike.{HasCascades};
ghost use Rattle.chain_build.specs.Built.{are_built, is_built, has_rounding};
ghost use Rattle.chain_build.specs.ChainNet.{IsChainNet};
ghost use Rattle.chain_build.specs.GroupCosts.{HasCosts};
ghost use Rattle.chain_build.specs.Groups.{AreGrouped};
ghost use Rattle.chain_build.specs.Linear.{linear, output_range};
ghost use Rattle.chain_build.specs.LinearNet.{HasLinearRegisters};
ghost use Rattle.chain_build.specs.Output.{CanShow, AddsOutputs};
ghost use Rattle.chain_build.specs.Peaks.{AreOutputPeaks, AddsOutputPeak, AddsChainPeak, ArePeaksOf, as_extreme, exact_output};
ghost use Rattle.chain_build.specs.Shapes.{HaveLinearItems};
ghost use Rattle.chain_build.specs.Told.{TellsRegisters};

use crate::extremes::{LinearPeak, RegisterExtreme, extremes_of, keep_peaks, needs_high};
use crate::forms::is_built_form;
use crate::groups::{Chained, GroupCost, add_groups};
use crate::output::{Outputs, add_outputs};
use crate::prefix::{prefix_ranges, width_of};
use mr_values::{Element, Memory, Plan};
use net_graph::{Net, Netlist, Node, Stream};
use net_outputs::range_width;
use plan_check::Facts;
use stage_law::{Class, Peak, Range, Ranges, WeightedSum};
use std::alloc::Global;

// Every index.
const EVERY: Class = Class {
    modulus: 1,
    residue: 0,
};

/// A net with its output register, the node that is shown as `out_valid`, the cost of each group, and what drives the linear registers.
#[derive(Drop)]
pub struct Built {
    pub net: Netlist,
    pub out_q: Node,
    pub out_valid: Node,
    pub costs: Vec<GroupCost>,
    pub extremes: Vec<RegisterExtreme>,
}

// Whether the element is built.
fn can_add(element: &Element) -> bool
    ensures { result ≡ is_built element.now }
{
    match element {
        Element::Filter { form, .. } => is_built_form(*form),
        Element::Up { .. }
        | Element::Down { .. }
        | Element::CicDown { .. }
        | Element::CicUp { .. }
        | Element::Round { .. }
        | Element::Clip { .. } => true,
    }
}

/// Whether `build` takes the elements of a plan.
pub fn can_build(plan: &Plan) -> bool
    ensures { result ≡ are_built plan.now.elements }
{
    plan.elements.as_slice().iter().all(can_add)
}

// The ticks of a sample.
fn ticks_of(plan: &Plan) -> u64
    requires least { pos 1 ≤ℤ plan.now.ticks }
    requires most { plan.now.ticks ≤ℤ pos 65536 }
    ensures { result ≡ size plan.now.ticks }
{
    plan.ticks as u64
}

// Adds the outputs of a chain of groups one of which rounds.
fn add_spanned_outputs(
    alloc: Global,
    net: &mut Net,
    from: Stream,
    facts: &Facts,
) -> Result<Outputs, Memory>
    requires can { CanShow net.old from }
    ensures ok { IfOk result (AddsOutputs facts.now.end_lo facts.now.end_hi net.old net.new from) }
{
    let span = Range {
        lo: facts.end_lo,
        hi: facts.end_hi,
    };
    add_outputs(alloc, net, from, span)
}

// The peak of the output's register; none where one bit is wide enough.
fn output_peaks(alloc: Global, register: Node, range: Range) -> Result<Vec<Peak>, Memory>
    ensures { IfOk result (λ peaks. AreOutputPeaks register range peaks.items) }
{
    let mut peaks = Vec::new(alloc);
    let width = range_width(range);
    if width > 1 {
        peaks.push(Peak {
            register,
            sum: WeightedSum::value(alloc, 0)?,
            class: EVERY,
            lag: 1,
            high: needs_high(range, width),
        })?;
    }
    Ok(peaks)
}

// Adds the outputs of a chain of groups none of which rounds.
fn add_exact_outputs(
    alloc: Global,
    net: &mut Net,
    from: Stream,
    plan: &Plan,
    peaks: &mut Vec<LinearPeak>,
) -> Result<Outputs, Memory>
    requires can { CanShow net.old from }
    requires long { from.period < 2 ^ 31 }
    requires accepted { IsAccepted plan.now }
    requires plain { has_rounding (groups plan.now.elements) ≡ false }
    requires room { HasRoom (IsStream (chain plan.now.elements) (size plan.now.width)) 1 }
    ensures ok { IfOk result (λ outputs. AddsOutputs (exact_output plan.now).lo (exact_output plan.now).hi net.old net.new from outputs) }
    ensures peak { IfOk result (λ _. AddsOutputPeak (size plan.now.width) plan.now.elements net.new.cells from (length plan.now.elements) peaks.old.items peaks.new.items) }
{
    let taken = plan.elements.as_slice().len();
    let ranges = prefix_ranges(alloc, plan, taken)?;
    let value = WeightedSum::value(alloc, 0)?;
    let range = ranges.range(&value, EVERY);
    let outputs = add_outputs(alloc, net, from, range)?;
    let own = output_peaks(alloc, outputs.out_q, range)?;
    keep_peaks(alloc, peaks, &ranges, &own, from, taken)?;
    Ok(outputs)
}

// Adds the outputs of the chain, whose groups were added.
fn add_chain_outputs(
    alloc: Global,
    net: &mut Net,
    chained: &Chained,
    plan: &Plan,
    facts: &Facts,
    peaks: &mut Vec<LinearPeak>,
) -> Result<Outputs, Memory>
    requires can { CanShow net.old chained.now.stream }
    requires long { chained.now.stream.period < 2 ^ 31 }
    requires accepted { IsAccepted plan.now }
    requires are_facts { AreFacts (size plan.now.width) (size plan.now.ticks) plan.now.elements facts.now }
    requires rounded { chained.now.rounded ≡ has_rounding (groups plan.now.elements) }
    requires room { HasRoom (IsStream (chain plan.now.elements) (size plan.now.width)) 1 }
    ensures ok { IfOk result (λ outputs. AddsOutputs (output_range (size plan.now.width) (size plan.now.ticks) plan.now.elements).lo (output_range (size plan.now.width) (size plan.now.ticks) plan.now.elements).hi net.old net.new chained.now.stream outputs) }
    ensures peaks { IfOk result (λ _. AddsChainPeak (has_rounding (groups plan.now.elements)) (size plan.now.width) plan.now.elements net.new.cells chained.now.stream peaks.old.items peaks.new.items) }
{
    if chained.rounded {
        add_spanned_outputs(alloc, net, chained.stream, facts)
    } else {
        add_exact_outputs(alloc, net, chained.stream, plan, peaks)
    }
}

/// The net of a plan, and the peaks of its linear registers.
#[derive(Drop)]
pub(crate) struct Told {
    pub(crate) built: Built,
    pub(crate) peaks: Vec<LinearPeak>,
}

/// The net of an accepted plan, of which these are the facts, and the peaks of its linear registers.
pub(crate) fn build_told(alloc: Global, plan: &Plan, facts: &Facts) -> Result<Told, Memory>
    requires accepted { IsAccepted plan.now }
    requires are_facts { AreFacts (size plan.now.width) (size plan.now.ticks) plan.now.elements facts.now }
    requires built { are_built plan.now.elements ≡ true }
    ensures chain { IfOk result (λ t. IsChainNet (size plan.now.width) (size plan.now.ticks) plan.now.elements t.built.net t.built.out_q t.built.out_valid) }
    ensures registers { IfOk result (λ t. HasLinearRegisters (size plan.now.width) (size plan.now.ticks) plan.now.elements t.built.net) }
    ensures costs { IfOk result (λ t. HasCosts (groups plan.now.elements) t.built.costs.items t.built.net) }
    ensures cascades { IfOk result (λ t. HasCascades (size plan.now.width) (size plan.now.ticks) plan.now.elements t.built.net) }
    ensures shapes { IfOk result (λ t. HaveLinearItems 1 (groups plan.now.elements) t.built.net) }
    ensures groups { IfOk result (λ t. AreGrouped (length (groups plan.now.elements)) t.built.net) }
    ensures extremes { IfOk result (λ t. t.built.extremes.items ≡ map as_extreme t.peaks.items) }
    ensures peaks { IfOk result (λ t. ArePeaksOf (size plan.now.width) (size plan.now.ticks) plan.now.elements t.built.net (linear (size plan.now.width) (size plan.now.ticks) plan.now.elements) t.peaks.items) }
{
    let mut net = Net::new(alloc);
    let node = net.input(width_of(plan))?;
    let from = Stream {
        node,
        period: ticks_of(plan),
        offset: 0,
    };
    let mut peaks = Vec::new(alloc);
    let chained = add_groups(alloc, &mut net, from, plan, facts, &mut peaks)?;
    let outputs = add_chain_outputs(alloc, &mut net, &chained, plan, facts, &mut peaks)?;
    let extremes = extremes_of(alloc, &peaks)?;
    match net.finish() {
        Ok(net) => Ok(Told {
            built: Built {
                net,
                out_q: outputs.out_q,
                out_valid: outputs.out_valid,
                costs: chained.costs,
                extremes,
            },
            peaks,
        }),
        Err(_) => unreachable!(),
    }
}

/// The net of an accepted plan, of which these are the facts. After want of memory there is none.
pub fn build(alloc: Global, plan: &Plan, facts: &Facts) -> Result<Built, Memory>
    requires accepted { IsAccepted plan.now }
    requires are_facts { AreFacts (size plan.now.width) (size plan.now.ticks) plan.now.elements facts.now }
    requires built { are_built plan.now.elements ≡ true }
    ensures chain { IfOk result (λ b. IsChainNet (size plan.now.width) (size plan.now.ticks) plan.now.elements b.net b.out_q b.out_valid) }

    // The linear registers of the plan, by their names, widths and sums.
    ensures registers { IfOk result (λ b. HasLinearRegisters (size plan.now.width) (size plan.now.ticks) plan.now.elements b.net) }

    // The form of each group, and what it costs in adders, window registers and tables.
    ensures costs { IfOk result (λ b. HasCosts (groups plan.now.elements) b.costs.items b.net) }

    // The registers of each cascade: how many, and their one width.
    ensures cascades { IfOk result (λ b. HasCascades (size plan.now.width) (size plan.now.ticks) plan.now.elements b.net) }

    // What the nodes of a linear group compute.
    ensures shapes { IfOk result (λ b. HaveLinearItems 1 (groups plan.now.elements) b.net) }

    // Each node, and each name, is of control or of a group of the plan.
    ensures groups { IfOk result (λ b. AreGrouped (length (groups plan.now.elements)) b.net) }

    // For each linear register that needs more than one bit a value that needs all of its bits, and when some samples drive it there.
    ensures extremes { IfOk result (λ b. TellsRegisters (size plan.now.width) (size plan.now.ticks) plan.now.elements b.net b.extremes.items) }
{
    let told = build_told(alloc, plan, facts)?;
    Ok(told.built)
}

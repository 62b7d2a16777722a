// The groups of a plan, one after another.

ghost use Rattle.std.specs.Prelude.{◌≡◌, ◌-◌, ◌≤◌, ◌<◌, pos, ◌≤ℤ◌, [], length, IfOk};
ghost use Rattle.std.specs.Option.{option_map};
ghost use Rattle.mr_values.specs.Value.{size, chain};
ghost use Rattle.mr_values.specs.Timing.{groups, taps_of, form_of};
ghost use Rattle.net_graph.specs.WellFormed.{IsBound};
ghost use Rattle.plan_check.specs.Accepted.{IsAccepted, AreFacts};
ghost use Rattle.plan_check.specs.Amounts.{gain};
ghost use Rattle.plan_check.specs.Groups.{group_of, filter_of};
ghost use Rattle.span_ranges.specs.Span.{IsInSpan};
ghost use Rattle.stage_law.specs.Streams.{HasRoom};
ghost use Rattle.width_extreme.specs.Prefix.{IsStream};
ghost use Rattle.stage_law.specs.Kinds.{is_linear};
ghost use Rattle.chain_build.specs.Alike.{HasCascades};
ghost use Rattle.chain_build.specs.Built.{AreBuiltGroups, kind_of, rounds, has_rounding};
ghost use Rattle.chain_build.specs.LinearOn.{HasGroupRegisters};
ghost use Rattle.chain_build.specs.Peaks.{AddsPeaks, HasGroupPeaks, keeps};
ghost use Rattle.chain_build.specs.Prefixes.{IsExactPrefix, AreInSpan, CanTake, streams_before, elements_before, flow_before};
ghost use Rattle.chain_build.specs.Added.{CanAdd, KeepsGroup, IsGroupAdded, AreNameless, IsChained};
ghost use Rattle.chain_build.specs.GroupCosts.{AreUngrouped, HasCosts};
ghost use Rattle.chain_build.specs.Groups.{IsGroupedTo};
ghost use Rattle.chain_build.specs.Shapes.{HaveLinearItems};

use crate::cascades::cascade_group;
use crate::extremes::{LinearPeak, is_linear, keep_peaks};
use crate::forms::{RatedFilter, add_filter};
use crate::prefix::prefix_ranges;
use crate::stages::emit_stage;
use mr_values::{Form, Memory, Plan, least_width};
use net_graph::{Net, Stream};
use plan_check::{Facts, FirFilter, GroupFacts, PlanGroup, split_group};
use rounding_stage::{Clipping, Rounding};
use span_ranges::SpanRanges;
use stage_law::{Cost, Emitted, Kind, Ranges, Rates};
use std::alloc::Global;

/// The form of a group as a stage, and what it adds to a net.
#[derive(Clone, Copy, Debug, PartialEq, Eq)]
pub struct GroupCost {
    pub kind: Kind,
    pub cost: Cost,
}

/// What a group added.
#[derive(Drop)]
pub(crate) struct Added {
    pub(crate) emitted: Emitted,
    pub(crate) cost: GroupCost,
}

// A group of a plan, with the plan and the group's facts.
#[derive(Clone, Copy)]
struct PlanPart<'a> {
    plan: &'a Plan,
    group: &'a PlanGroup<'a>,
    fact: &'a GroupFacts,
}

/// The stream after all groups, whether one of them rounds, and what each group costs.
#[derive(Drop)]
pub(crate) struct Chained {
    pub(crate) stream: Stream,
    pub(crate) rounded: bool,
    pub(crate) costs: Vec<GroupCost>,
}

// The filter of a group, one tap of 1 where there is none.
fn filter_or_one<'a>(filter: &Option<FirFilter<'a>>) -> FirFilter<'a>
    ensures taps { result.taps.now ≡ taps_of (option_map filter_of filter.now) }
    ensures form { result.form ≡ form_of (option_map filter_of filter.now) }
{
    match filter {
        Some(filter) => *filter,
        None => FirFilter {
            taps: &[1],
            form: Form::Parallel,
        },
    }
}

// Adds the nodes of a group.
fn add_group<R: Ranges>(
    alloc: Global,
    net: &mut Net,
    from: Stream,
    group: &PlanGroup,
    fact: &GroupFacts,
    ranges: &R,
) -> Result<Added, Memory>
    requires can { CanAdd (group_of group.now) (flow_before from.period fact.now) net.old from }
    requires spans { AreInSpan (R.streams ranges.now) fact.now }
    requires room { HasRoom (R.streams ranges.now) (gain (group_of group.now)) }
    ensures ok { IfOk result (λ a. IsGroupAdded (group_of group.now) (flow_before from.period fact.now) (R.streams ranges.now) net.old net.new from a) }
    ensures keeps { KeepsGroup net.old net.new }
{
    match group {
        PlanGroup::Round { shift, mode } => {
            let stage = Rounding::new(*shift as u8, *mode);
            let added = emit_stage(alloc, net, from, &stage, ranges)?;
            Ok(added)
        }
        PlanGroup::Clip { bits } => {
            let stage = Clipping::new(*bits as u8);
            let added = emit_stage(alloc, net, from, &stage, ranges)?;
            Ok(added)
        }
        PlanGroup::Fir { filter, .. } => {
            let part = RatedFilter {
                filter: filter_or_one(filter),
                rates: Rates {
                    up: group.up(),
                    down: group.down(),
                },
                bits: least_width(fact.span_lo, fact.span_hi),
            };
            add_filter(alloc, net, from, &part, ranges)
        }
        PlanGroup::CicDown { .. } | PlanGroup::CicUp { .. } => {
            cascade_group(alloc, net, from, group, fact, ranges)
        }
    }
}

// Whether the group rounds or clips.
fn is_rounding(group: &PlanGroup) -> bool
    ensures { result ≡ rounds (group_of group.now) }
{
    match group {
        PlanGroup::Round { .. } | PlanGroup::Clip { .. } => true,
        PlanGroup::Fir { .. } | PlanGroup::CicDown { .. } | PlanGroup::CicUp { .. } => false,
    }
}

// Adds the nodes of a group whose stream is what so many elements of the plan make of samples.
fn add_exact(
    alloc: Global,
    net: &mut Net,
    from: Stream,
    part: &PlanPart,
    peaks: &mut Vec<LinearPeak>,
) -> Result<Added, Memory>
    requires can { CanAdd (group_of part.now.group.now) (flow_before from.period part.now.fact.now) net.old from }
    requires some { 1 ≤ part.now.fact.now.first }
    requires prefix { IsExactPrefix part.now.plan.now (part.now.fact.now.first - 1) }
    requires spans { AreInSpan (IsStream (chain (elements_before part.now.plan.now part.now.fact.now)) (size part.now.plan.now.width)) part.now.fact.now }
    requires room { HasRoom (IsStream (chain (elements_before part.now.plan.now part.now.fact.now)) (size part.now.plan.now.width)) (gain (group_of part.now.group.now)) }
    ensures ok { IfOk result (λ a. IsGroupAdded (group_of part.now.group.now) (flow_before from.period part.now.fact.now) (IsStream (chain (elements_before part.now.plan.now part.now.fact.now)) (size part.now.plan.now.width)) net.old net.new from a) }
    ensures keeps { KeepsGroup net.old net.new }
    ensures peaks { IfOk result (λ a. AddsPeaks (is_linear (kind_of (group_of part.now.group.now))) (size part.now.plan.now.width) (elements_before part.now.plan.now part.now.fact.now) from (part.now.fact.now.first - 1) a.emitted.peaks.items peaks.old.items peaks.new.items) }
{
    let taken = part.fact.first as usize - 1;
    let ranges = prefix_ranges(alloc, part.plan, taken)?;
    let added = add_group(alloc, net, from, part.group, part.fact, &ranges)?;
    if is_linear(added.cost.kind) {
        keep_peaks(alloc, peaks, &ranges, &added.emitted.peaks, from, taken)?;
    }
    Ok(added)
}

// The ranges of the streams within a group's span.
fn ranges_before(fact: &GroupFacts) -> SpanRanges
    requires below { fact.now.span_lo ≤ℤ pos 0 }
    requires above { pos 0 ≤ℤ fact.now.span_hi }
    ensures low { result.low ≡ fact.now.span_lo }
    ensures high { result.high ≡ fact.now.span_hi }
{
    SpanRanges::new(fact.span_lo, fact.span_hi)
}

// Adds the nodes of a group whose stream lies in its span.
fn add_spanned(alloc: Global, net: &mut Net, from: Stream, part: &PlanPart) -> Result<Added, Memory>
    requires can { CanAdd (group_of part.now.group.now) (flow_before from.period part.now.fact.now) net.old from }
    requires below { part.now.fact.now.span_lo ≤ℤ pos 0 }
    requires above { pos 0 ≤ℤ part.now.fact.now.span_hi }
    requires room { HasRoom (IsInSpan part.now.fact.now.span_lo part.now.fact.now.span_hi) (gain (group_of part.now.group.now)) }
    ensures ok { IfOk result (λ a. IsGroupAdded (group_of part.now.group.now) (flow_before from.period part.now.fact.now) (IsInSpan part.now.fact.now.span_lo part.now.fact.now.span_hi) net.old net.new from a) }
    ensures keeps { KeepsGroup net.old net.new }
{
    let ranges = ranges_before(part.fact);
    let added = add_group(alloc, net, from, part.group, part.fact, &ranges)?;
    Ok(added)
}

// Adds the nodes of the next group, before which there was a rounding or not.
fn add_next(
    alloc: Global,
    net: &mut Net,
    from: Stream,
    part: &PlanPart,
    rounded: bool,
    peaks: &mut Vec<LinearPeak>,
) -> Result<Added, Memory>
    requires can { CanAdd (group_of part.now.group.now) (flow_before from.period part.now.fact.now) net.old from }
    requires can_take { CanTake part.now.plan.now part.now.fact.now (group_of part.now.group.now) rounded }
    ensures ok { IfOk result (λ a. IsGroupAdded (group_of part.now.group.now) (flow_before from.period part.now.fact.now) (streams_before rounded (size part.now.plan.now.width) (elements_before part.now.plan.now part.now.fact.now) part.now.fact.now.span_lo part.now.fact.now.span_hi) net.old net.new from a) }
    ensures keeps { KeepsGroup net.old net.new }
    ensures peaks { IfOk result (λ a. AddsPeaks (keeps rounded (group_of part.now.group.now)) (size part.now.plan.now.width) (elements_before part.now.plan.now part.now.fact.now) from (part.now.fact.now.first - 1) a.emitted.peaks.items peaks.old.items peaks.new.items) }
{
    if rounded {
        add_spanned(alloc, net, from, part)
    } else {
        add_exact(alloc, net, from, part, peaks)
    }
}

/// Adds the nodes of the groups of a plan to a net without names, in net group J for group J.
pub(crate) fn add_groups(
    alloc: Global,
    net: &mut Net,
    from: Stream,
    plan: &Plan,
    facts: &Facts,
    peaks: &mut Vec<LinearPeak>,
) -> Result<Chained, Memory>
    requires none { peaks.old.items ≡ [] }
    requires within { from.node.place < length net.old.cells }
    requires nameless { AreNameless net.old.cells }
    requires bound { IsBound net.old.cells }
    requires ungrouped { AreUngrouped net.old.cells }
    requires offset { from.offset ≡ 0 }
    requires period { from.period ≡ size plan.now.ticks }
    requires accepted { IsAccepted plan.now }
    requires are_facts { AreFacts (size plan.now.width) (size plan.now.ticks) plan.now.elements facts.now }
    requires built { AreBuiltGroups (groups plan.now.elements) }
    ensures ok { IfOk result (λ c. IsChained (size plan.now.width) (size plan.now.ticks) plan.now.elements net.old net.new from c.stream) }
    ensures rounded { IfOk result (λ c. c.rounded ≡ has_rounding (groups plan.now.elements)) }
    ensures registers { IfOk result (λ _. HasGroupRegisters (size plan.now.width) (size plan.now.ticks) plan.now.elements net.new.cells from) }
    ensures costs { IfOk result (λ c. HasCosts (groups plan.now.elements) c.costs.items net.new.cells) }
    ensures peaks { IfOk result (λ _. HasGroupPeaks (size plan.now.width) (size plan.now.ticks) plan.now.elements net.new.cells peaks.new.items) }
    ensures cascades { IfOk result (λ _. HasCascades (size plan.now.width) (size plan.now.ticks) plan.now.elements net.new.cells) }
    ensures shapes { IfOk result (λ _. HaveLinearItems 1 (groups plan.now.elements) net.new.cells) }
    ensures groups { IfOk result (λ _. IsGroupedTo (length (groups plan.now.elements)) net.new) }
{
    let mut rest = plan.elements.as_slice();
    let mut last = from;
    let mut number = 1;
    let mut rounded = false;
    let mut costs = Vec::new(alloc);
    net.set_group(1);
    for fact in &facts.groups {
        let Some((group, others)) = split_group(rest) else {
            unreachable!()
        };
        net.set_group(number);
        let part = PlanPart {
            plan,
            group: &group,
            fact,
        };
        let added = add_next(alloc, net, last, &part, rounded, peaks)?;
        last = added.emitted.stream;
        costs.push(added.cost)?;
        rounded |= is_rounding(&group);
        rest = others;
        number += 1;
    }
    Ok(Chained {
        stream: last,
        rounded,
        costs,
    })
}

// The cascade of a group, for each number of stages and each delay.

ghost use Rattle.std.specs.Prelude.{◌≡◌, ℕ, IfOk};
ghost use Rattle.mr_values.specs.Timing.{DownCic, UpCic};
ghost use Rattle.plan_check.specs.Amounts.{gain};
ghost use Rattle.plan_check.specs.Groups.{group_of};
ghost use Rattle.stage_law.specs.Streams.{HasRoom};
ghost use Rattle.chain_build.specs.Added.{IsCascade, CanAdd, KeepsGroup, IsGroupAdded};
ghost use Rattle.chain_build.specs.Prefixes.{flow_before};

use crate::groups::Added;
use crate::stages::emit_stage;
use cic_chain::{CicDown, CicUp};
use mr_values::Memory;
use net_graph::{Net, Stream};
use plan_check::{GroupFacts, PlanGroup};
use stage_law::Ranges;
use std::alloc::Global;

// One case for each number of stages.
macro_rules! for_stages {
    ($cascade:ident, $factor:expr, $stages:expr, $delay:literal, $alloc:expr, $net:expr, $from:expr, $ranges:expr) => {
        match $stages {
            1 => emit_stage($alloc, $net, $from, &$cascade::<1, $delay>::new($factor), $ranges),
            2 => emit_stage($alloc, $net, $from, &$cascade::<2, $delay>::new($factor), $ranges),
            3 => emit_stage($alloc, $net, $from, &$cascade::<3, $delay>::new($factor), $ranges),
            4 => emit_stage($alloc, $net, $from, &$cascade::<4, $delay>::new($factor), $ranges),
            5 => emit_stage($alloc, $net, $from, &$cascade::<5, $delay>::new($factor), $ranges),
            6 => emit_stage($alloc, $net, $from, &$cascade::<6, $delay>::new($factor), $ranges),
            7 => emit_stage($alloc, $net, $from, &$cascade::<7, $delay>::new($factor), $ranges),
            8 => emit_stage($alloc, $net, $from, &$cascade::<8, $delay>::new($factor), $ranges),
            _ => unreachable!(),
        }
    };
}

// And for each delay.
macro_rules! for_delays {
    ($cascade:ident, $factor:expr, $stages:expr, $delay:expr, $alloc:expr, $net:expr, $from:expr, $ranges:expr) => {
        match $delay {
            1 => for_stages!($cascade, $factor, $stages, 1, $alloc, $net, $from, $ranges),
            2 => for_stages!($cascade, $factor, $stages, 2, $alloc, $net, $from, $ranges),
            _ => unreachable!(),
        }
    };
}

/// Adds the nodes of a group that is a cascade.
pub(crate) fn cascade_group<R: Ranges>(
    alloc: Global,
    net: &mut Net,
    from: Stream,
    group: &PlanGroup,
    fact: &GroupFacts,
    ranges: &R,
) -> Result<Added, Memory>
    requires is { IsCascade (group_of group.now) }
    requires can { CanAdd (group_of group.now) (flow_before from.period fact.now) net.old from }
    requires room { HasRoom (R.streams ranges.now) (gain (group_of group.now)) }
    ensures ok { IfOk result (λ a. IsGroupAdded (group_of group.now) (flow_before from.period fact.now) (R.streams ranges.now) net.old net.new from a) }
    ensures keeps { KeepsGroup net.old net.new }
{
    match group {
        PlanGroup::CicDown {
            factor,
            stages,
            delay,
        } => for_delays!(CicDown, *factor, *stages, *delay, alloc, net, from, ranges),
        PlanGroup::CicUp {
            factor,
            stages,
            delay,
        } => for_delays!(CicUp, *factor, *stages, *delay, alloc, net, from, ranges),
        PlanGroup::Fir { .. } | PlanGroup::Round { .. } | PlanGroup::Clip { .. } => unreachable!(),
    }
}

// Filters by their forms: the one place of the code that knows which forms there are.

ghost use Rattle.std.specs.Prelude.{◌≡◌, ◌-◌, ◌*◌, ◌%◌, ◌≤◌, ◌^◌, true, IfOk};
ghost use Rattle.distributed_table.specs.Facts.{HaveBits};
ghost use Rattle.mr_values.specs.Value.{AreTaps};
ghost use Rattle.stage_law.specs.Streams.{HasRoom, magnitudes};
ghost use Rattle.chain_build.specs.Added.{CanEmit, KeepsGroup, IsStageAdded};
ghost use Rattle.chain_build.specs.Forms.{is_built_form, fir_facts, AsksForm};

use crate::groups::Added;
use crate::mirrored::add_mirrored;
use crate::parallel::add_parallel;
use crate::serial::add_serial;
use mr_values::{Form, Memory};
use net_graph::{Net, Stream};
use plan_check::FirFilter;
use stage_law::{Ranges, Rates};
use std::alloc::Global;

/// Whether filters of a form are built.
pub(crate) fn is_built_form(form: Form) -> bool
    ensures { result ≡ is_built_form form }
{
    match form {
        Form::Parallel | Form::Symmetric | Form::Distributed { .. } => true,
        Form::HalfBand | Form::Folded { .. } => false,
    }
}

/// A filter between an Up and a Down, on a stream whose values have so many bits.
#[derive(Clone, Copy)]
pub(crate) struct RatedFilter<'a> {
    pub(crate) filter: FirFilter<'a>,
    pub(crate) rates: Rates,
    pub(crate) bits: u8,
}

/// Adds the nodes of a filter. Fails only for want of memory.
pub(crate) fn add_filter<R: Ranges>(
    alloc: Global,
    net: &mut Net,
    from: Stream,
    part: &RatedFilter,
    ranges: &R,
) -> Result<Added, Memory>
    requires can { CanEmit net.old from }
    requires built { is_built_form part.now.filter.form ≡ true }
    requires taps { AreTaps part.now.filter.taps.now }
    requires asks { AsksForm part.now.filter.form part.now.filter.taps.now part.now.rates.up part.now.rates.down part.now.bits from.period }
    requires up_low { 1 ≤ part.now.rates.up }
    requires up_high { part.now.rates.up ≤ 4096 }
    requires down_low { 1 ≤ part.now.rates.down }
    requires down_high { part.now.rates.down ≤ 4096 }
    requires positive { 1 ≤ from.period }
    requires long { from.period ≤ 2 ^ 31 - 1 }
    requires whole { from.period * part.now.rates.down % part.now.rates.up ≡ 0 }
    requires bits_low { 1 ≤ part.now.bits }
    requires bits_high { part.now.bits ≤ 128 }
    requires bits { HaveBits (R.streams ranges.now) part.now.bits }
    requires room { HasRoom (R.streams ranges.now) (magnitudes part.now.filter.taps.now) }
    ensures ok { IfOk result (λ a. IsStageAdded (fir_facts part.now.filter.form part.now.filter.taps.now part.now.rates.up part.now.rates.down part.now.bits) (R.streams ranges.now) net.old net.new from a) }
    ensures keeps { KeepsGroup net.old net.new }
{
    let taps = part.filter.taps;
    match part.filter.form {
        Form::Parallel => add_parallel(alloc, net, from, taps, part.rates, ranges),
        Form::Symmetric => add_mirrored(alloc, net, from, taps, part.rates.down, ranges),
        Form::Distributed { group } => add_serial(alloc, net, from, part, group, ranges),
        Form::HalfBand | Form::Folded { .. } => unreachable!(),
    }
}

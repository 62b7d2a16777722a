// Inputs that need all bits of the linear registers.

ghost use Rattle.std.specs.Prelude.{◌≡◌, ◌+◌, ◌*◌, ◌<◌, ◌≤◌, ◌^◌, true, false, map, take, length, IfOk, IfSome, IfNone, OnOk};
ghost use Rattle.mr_values.specs.Value.{size};
ghost use Rattle.plan_check.specs.Accepted.{IsAccepted, AreFacts};
ghost use Rattle.stage_law.specs.Kinds.{is_linear};
ghost use Rattle.stage_law.specs.Registers.{needs_high};
ghost use Rattle.chain_build.specs.Built.{are_built};
ghost use Rattle.chain_build.specs.Peaks.{HasPlace, AreInside, AreWithPlace, HasNoneTo, HasText, IsSmallNamed, IsPeakTo, IsDriven, IsKeptOver, IsKeptPlace, AddsKeptOver, as_extreme};
ghost use Rattle.chain_build.specs.Told.{IsRegisterExtreme, HasNoRegister};

use crate::chain::build_told;
use crate::prefix::prefix_ranges;
use mr_values::{Memory, Plan, least_width};
use net_graph::{NameKind, Netlist, Node, Stream, name_text};
use plan_check::Facts;
use stage_law::{Kind, Peak, Range};
use std::alloc::Global;
use width_extreme::PrefixRanges;

/// A linear register for which one bit is too few, a value that needs all of its bits, and a tick at which some samples drive it there.
#[derive(Clone, Copy)]
pub struct RegisterExtreme {
    pub register: Node,
    pub tick: u128,
    pub value: i128,
}

/// Samples that drive a linear register to a value which needs all of its bits, and the tick at which they do.
#[derive(Drop)]
pub struct RegisterSamples {
    pub samples: Vec<i64>,
    pub tick: u128,
    pub value: i128,
}

/// The peak of a register over what so many elements of the plan make of samples, the stream that carries it, and what is told of the register.
#[derive(Drop)]
pub(crate) struct LinearPeak {
    pub(crate) peak: Peak,
    pub(crate) from: Stream,
    pub(crate) taken: usize,
    pub(crate) tick: u128,
    pub(crate) value: i128,
}

/// Whether the registers of a group of this form are linear.
pub(crate) fn is_linear(kind: Kind) -> bool
    ensures { result ≡ is_linear kind }
{
    match kind {
        Kind::Parallel | Kind::Symmetric | Kind::HalfBand | Kind::Folded => true,
        Kind::Distributed | Kind::CicDown | Kind::CicUp | Kind::Rounding | Kind::Clipping => false,
    }
}

/// Whether the greatest number of the range needs so many bits.
pub(crate) fn needs_high(range: Range, width: u8) -> bool
    ensures { result ≡ needs_high range width }
{
    least_width(range.hi, range.hi) == width
}

// The tick at which a register holds the sum at an index.
fn tick_of(from: Stream, index: u128, lag: u64) -> u128
    requires early { from.offset < 2 ^ 31 }
    requires long { from.period < 2 ^ 31 }
    requires near { index ≤ 2 ^ 97 }
    ensures { result ≡ from.offset + index * from.period + lag }
{
    u128::from(from.offset) + index * u128::from(from.period) + u128::from(lag)
}

// Where some samples drive the register of the peak to a value which needs all of its bits.
fn kept_peak(
    alloc: Global,
    ranges: &PrefixRanges,
    peak: &Peak,
    from: Stream,
    taken: usize,
) -> Result<LinearPeak, Memory>
    requires place { HasPlace ranges.now peak.now }
    requires early { from.offset < 2 ^ 31 }
    requires long { from.period < 2 ^ 31 }
    ensures { IfOk result (λ kept. IsKeptOver ranges.now from taken peak.now kept) }
{
    let reached = ranges.extreme_value(&peak.sum, peak.class, peak.high);
    Ok(LinearPeak {
        peak: Peak {
            register: peak.register,
            sum: peak.sum.copy(alloc)?,
            class: peak.class,
            lag: peak.lag,
            high: peak.high,
        },
        from,
        taken,
        tick: tick_of(from, reached.index, peak.lag),
        value: reached.value,
    })
}

/// Keeps the peaks of registers that hold sums over what so many elements of a plan make of samples.
pub(crate) fn keep_peaks(
    alloc: Global,
    kept: &mut Vec<LinearPeak>,
    ranges: &PrefixRanges,
    peaks: &[Peak],
    from: Stream,
    taken: usize,
) -> Result<(), Memory>
    requires places { AreWithPlace ranges.now peaks.now }
    requires early { from.offset < 2 ^ 31 }
    requires long { from.period < 2 ^ 31 }
    ensures { OnOk result (AddsKeptOver ranges.now from taken peaks.now kept.old.items kept.new.items) }
{
    for peak in peaks {
        kept.push(kept_peak(alloc, ranges, peak, from, taken)?)?;
    }
    Ok(())
}

/// What is told of the registers of these peaks.
pub(crate) fn extremes_of(
    alloc: Global,
    peaks: &[LinearPeak],
) -> Result<Vec<RegisterExtreme>, Memory>
    ensures { IfOk result (λ told. told.items ≡ map as_extreme peaks.now) }
{
    let mut told = Vec::new(alloc);
    for kept in peaks {
        told.push(RegisterExtreme {
            register: kept.peak.register,
            tick: kept.tick,
            value: kept.value,
        })?;
    }
    Ok(told)
}

// Whether the node has a name that is written so.
fn has_text(alloc: Global, net: &Netlist, node: Node, text: &str) -> Result<bool, Memory>
    requires { node.place < length net.now }
    ensures some { IfOk result (λ same. same ≡ true → HasText net.now node.place text.now) }
    ensures small { IfOk result (λ same. same ≡ true → IsSmallNamed net.now node.place) }
    ensures none { IfOk result (λ same. same ≡ false → HasText net.now node.place text.now → ⊥) }
{
    match net.name(node) {
        Some(name) => {
            if name.kind == NameKind::Valid {
                return Ok(false);
            }
            let written = name_text(alloc, name)?;
            Ok(written.as_str() == text)
        }
        None => Ok(false),
    }
}

// The first peak whose register has this text as its name.
fn find_peak(
    alloc: Global,
    net: &Netlist,
    peaks: &[LinearPeak],
    text: &str,
) -> Result<Option<usize>, Memory>
    requires { AreInside net.now peaks.now }
    ensures some { IfOk result (λ found. IfSome found (λ place. IsPeakTo net.now peaks.now place text.now)) }
    ensures none { IfOk result (λ found. IfNone found (HasNoneTo net.now peaks.now (length peaks.now) text.now)) }
{
    let mut place = 0;
    for kept in peaks {
        if has_text(alloc, net, kept.peak.register, text)? {
            return Ok(Some(place));
        }
        place += 1;
    }
    Ok(None)
}

// Samples that drive the register of the peak to a value which needs all of its bits.
fn samples_of(alloc: Global, plan: &Plan, kept: &LinearPeak) -> Result<RegisterSamples, Memory>
    requires accepted { IsAccepted plan.now }
    requires place { IsKeptPlace (size plan.now.width) plan.now.elements kept.now }
    ensures { IfOk result (λ x. IsDriven (size plan.now.width) (take kept.now.taken plan.now.elements) kept.now x.samples.items x.tick x.value) }
{
    let ranges = prefix_ranges(alloc, plan, kept.taken)?;
    let peak = &kept.peak;
    let extreme = ranges.extreme(alloc, &peak.sum, peak.class, peak.high)?;
    Ok(RegisterSamples {
        samples: extreme.samples,
        tick: tick_of(kept.from, extreme.index, peak.lag),
        value: extreme.value,
    })
}

/// Samples, at most 2^27, that drive the linear register of this name to a value which needs all of its bits, or none where an accepted plan
/// has no such register for which one bit is too few. Fails only for want of memory.
pub fn register_extreme(
    alloc: Global,
    plan: &Plan,
    facts: &Facts,
    register: &str,
) -> Result<Option<RegisterSamples>, Memory>
    requires accepted { IsAccepted plan.now }
    requires are_facts { AreFacts (size plan.now.width) (size plan.now.ticks) plan.now.elements facts.now }
    requires built { are_built plan.now.elements ≡ true }
    ensures some { IfOk result (λ found. IfSome found (λ x. IsRegisterExtreme (size plan.now.width) (size plan.now.ticks) plan.now.elements register.now x)) }
    ensures none { IfOk result (λ found. IfNone found (HasNoRegister (size plan.now.width) (size plan.now.ticks) plan.now.elements register.now)) }
{
    let told = build_told(alloc, plan, facts)?;
    match find_peak(alloc, &told.built.net, &told.peaks, register)? {
        Some(place) => {
            let samples = samples_of(alloc, plan, &told.peaks[place])?;
            Ok(Some(samples))
        }
        None => Ok(None),
    }
}

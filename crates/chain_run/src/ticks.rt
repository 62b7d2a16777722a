// The ticks of a run.
ghost use Rattle.std.specs.Prelude.{◌≡◌, ◌≤◌, ◌<◌, ◌+◌, ◌^◌, ◌++◌, ℕ, length, IfOk, OnOk, OnErr};
ghost use Rattle.verilog_tree.specs.Names.{shapes_of};
ghost use Rattle.verilog_tree.specs.Shown.{event_of, ports_of};
ghost use Rattle.verilog_tree.specs.View.{design_view};
ghost use Rattle.clock_sim.specs.Simulated.{values_of};
ghost use Rattle.chain_run.specs.Given.{shown_lines};
ghost use Rattle.chain_run.specs.Stream.{TakesSamples};
ghost use Rattle.chain_run.specs.Ticks.{tick_of};
ghost use Rattle.chain_run.specs.Ends.{TickEnds, ZerosEnd, SampleEnds};

use clock_sim::Sim;
use mr_values::Memory;
use row_stream::{FULL, StreamFault};
use sample_file::{Row, pattern, put_row, sample_of};
use sim_stream::signed_value;
use std::alloc::Global;

// Appends the line of what a settled tick shows, where it shows a value.
fn put_value(alloc: Global, sim: &Sim<'_>, out: &mut Vec<u8>) -> Result<(), Memory>
    ensures text { OnOk result (out.new.items ≡ out.old.items ++ shown_lines (event_of (shapes_of (design_view sim.now.design)) (ports_of (design_view sim.now.design)) (tick_of 0) (values_of sim.now.values) 0 0)) }
    ensures short { length out.new.items ≤ length out.old.items + 42 }
    ensures unchanged { OnErr result (out.new.items ≡ out.old.items) }
{
    if !sim.is_valid() {
        return Ok(());
    }
    put_row(
        alloc,
        out,
        &[signed_value(sim.output_shape(), sim.out_data())],
    )
}

/// Runs a tick with these bits at `in_data`, which they fit. Fails only for want of memory.
pub(crate) fn run_tick(
    alloc: Global,
    sim: &mut Sim<'_>,
    bits: u128,
    out: &mut Vec<u8>,
) -> Result<(), Memory>
    requires { bits < 2 ^ (shapes_of (design_view sim.old.design)).width (ports_of (design_view sim.old.design)).in_data }
    ensures design { sim.new.design ≡ sim.old.design }
    ensures ends { TickEnds (design_view sim.old.design) (values_of sim.old.values) bits out.old.items result (values_of sim.new.values) out.new.items }
    ensures short { length out.new.items ≤ length out.old.items + 42 }
{
    sim.settle(false, true, bits);
    put_value(alloc, sim, out)?;
    sim.edge();
    Ok(())
}

/// Runs ticks with 0 at `in_data` from one tick until another, or until the output is full, and tells the tick that was come to. Fails
/// only for want of memory.
pub(crate) fn run_zeros(
    alloc: Global,
    sim: &mut Sim<'_>,
    tick: u64,
    until: u64,
    out: &mut Vec<u8>,
) -> Result<u64, Memory>
    ensures design { sim.new.design ≡ sim.old.design }
    ensures ends { ZerosEnd (design_view sim.old.design) (values_of sim.old.values) tick out.old.items result (values_of sim.new.values) out.new.items }
    ensures least { IfOk result (λ ticks. tick ≤ ticks) }
    ensures most { IfOk result (λ ticks. tick ≤ until → ticks ≤ until) }
    ensures past { IfOk result (λ ticks. until ≤ tick → ticks ≡ tick) }
    ensures full { IfOk result (λ ticks. ticks < until → 65000 < length out.new.items) }
    ensures none { IfOk result (λ ticks. ticks ≡ tick → out.new.items ≡ out.old.items) }
    ensures short { (limit : ℕ) → 65042 ≤ limit → length out.old.items ≤ limit → length out.new.items ≤ limit }
{
    let mut ticks = tick;
    'ticks: while ticks < until && out.len() <= FULL {
        run_tick(alloc, sim, 0, out)?;
        ticks += 1;
    }
    Ok(ticks)
}

/// Runs the tick of a row's sample. Fails where so many bits don't hold it, and for want of memory.
pub(crate) fn run_sample(
    alloc: Global,
    sim: &mut Sim<'_>,
    row: &Row,
    width: u8,
    out: &mut Vec<u8>,
) -> Result<(), StreamFault>
    requires least { 1 ≤ width }
    requires most { width ≤ 64 }
    requires takes { TakesSamples (design_view sim.old.design) width }
    ensures design { sim.new.design ≡ sim.old.design }
    ensures ends { SampleEnds (design_view sim.old.design) (values_of sim.old.values) width row.now out.old.items result (values_of sim.new.values) out.new.items }
    ensures short { length out.new.items ≤ length out.old.items + 42 }
{
    let sample = sample_of(row, width)?;
    run_tick(alloc, sim, pattern(width, i128::from(sample)), out)?;
    Ok(())
}

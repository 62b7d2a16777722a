// One cycle of a simulation.
ghost use Rattle.std.specs.Prelude.{◌≡◌, ◌≤◌, ◌<◌, ◌+◌, ◌*◌, ◌^◌, ◌++◌, length, IfOk, OnOk, OnErr};
ghost use Rattle.verilog_tree.specs.Names.{shapes_of};
ghost use Rattle.verilog_tree.specs.Shown.{signed_value, is_tick, ticks_after, event_of, ports_of};
ghost use Rattle.verilog_tree.specs.View.{design_view};
ghost use Rattle.clock_sim.specs.Sim.{IsDataWidth};
ghost use Rattle.clock_sim.specs.Simulated.{values_of};
ghost use Rattle.sim_stream.specs.Given.{cycle_at, printed_events};
ghost use Rattle.sim_stream.specs.Ends.{CycleEnds};

use clock_sim::{PortShape, Sim};
use mr_values::Memory;
use row_stream::StreamFault;
use sample_file::{Row, Stimulus, put_row, stimulus_of};
use std::alloc::Global;

/// A pattern as a number by the sign of its port.
pub fn signed_value(shape: PortShape, bits: u128) -> i128
    requires width { IsDataWidth shape.width }
    requires small { bits < 2 ^ shape.width }
    ensures { result ≡ signed_value shape.signed shape.width bits }
{
    if !shape.signed || bits < 1u128 << (shape.width - 1) {
        return bits as i128;
    }
    -(((1u128 << shape.width) - bits) as i128)
}

/// Whether a cycle has `rst` 0 and `ce` 1.
pub fn is_tick(stimulus: Stimulus) -> bool
    ensures { result ≡ is_tick (cycle_at stimulus) }
{
    stimulus.ce && !stimulus.rst
}

/// The ticks since the last reset, after this cycle.
pub fn ticks_after(stimulus: Stimulus, tick: u64) -> u64
    requires { tick < 2 ^ 32 }
    ensures ticks { result ≡ ticks_after (cycle_at stimulus) tick }
    ensures most { result ≤ tick + 1 }
{
    if stimulus.rst {
        0
    } else if stimulus.ce {
        tick + 1
    } else {
        tick
    }
}

// Appends the line of what a settled cycle shows, where it shows something.
fn put_event(
    alloc: Global,
    sim: &Sim<'_>,
    stimulus: Stimulus,
    cycle: u64,
    tick: u64,
    out: &mut Vec<u8>,
) -> Result<(), Memory>
    ensures text { OnOk result (out.new.items ≡ out.old.items ++ printed_events (event_of (shapes_of (design_view sim.now.design)) (ports_of (design_view sim.now.design)) (cycle_at stimulus) (values_of sim.now.values) cycle tick)) }
    ensures short { OnOk result (length out.new.items ≤ length out.old.items + 124) }
    ensures unchanged { OnErr result (out.new.items ≡ out.old.items) }
{
    if !is_tick(stimulus) || !sim.is_valid() {
        return Ok(());
    }
    let value = signed_value(sim.output_shape(), sim.out_data());
    put_row(alloc, out, &[i128::from(cycle), i128::from(tick), value])
}

/// Runs the cycle of a row, which has this place among the rows and this many ticks before it, and tells the ticks after it. It fails
/// where the row is out of its range, and for want of memory.
pub(crate) fn run_cycle(
    alloc: Global,
    sim: &mut Sim<'_>,
    row: &Row,
    cycle: u64,
    tick: u64,
    out: &mut Vec<u8>,
) -> Result<u64, StreamFault>
    requires { tick < 2 ^ 32 }
    ensures design { sim.new.design ≡ sim.old.design }
    ensures ends { CycleEnds (design_view sim.old.design) (values_of sim.old.values) cycle tick row.now out.old.items result (values_of sim.new.values) out.new.items }
    ensures short { length out.new.items ≤ length out.old.items + 124 }
    ensures most { IfOk result (λ ticks. ticks ≤ tick + 1) }
{
    let input = sim.input_shape();
    let stimulus = stimulus_of(row, input.width, input.signed)?;
    sim.settle(stimulus.rst, stimulus.ce, stimulus.in_data);
    put_event(alloc, sim, stimulus, cycle, tick, out)?;
    sim.edge();
    Ok(ticks_after(stimulus, tick))
}

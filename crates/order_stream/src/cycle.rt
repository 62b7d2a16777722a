// One cycle of a simulation that draws.
ghost use Rattle.std.specs.Prelude.{◌≡◌, ◌==◌, ◌≤◌, ◌<◌, ◌+◌, ◌^◌, ◌++◌, not, length, IfOk, OnOk, OnErr};
ghost use Rattle.verilog_tree.specs.Meaning.{Values};
ghost use Rattle.verilog_tree.specs.Names.{shapes_of};
ghost use Rattle.verilog_tree.specs.Shown.{event_of, ports_of};
ghost use Rattle.verilog_tree.specs.View.{design_view};
ghost use Rattle.clock_sim.specs.Simulated.{values_of};
ghost use Rattle.sim_stream.specs.Given.{cycle_at};
ghost use Rattle.order_stream.specs.Ordered.{with_last, printed_orders};
ghost use Rattle.order_stream.specs.Ends.{CycleEnds};

use mr_values::Memory;
use order_sim::{OrderSim, Seen};
use row_stream::StreamFault;
use sample_file::{Row, Stimulus, put_row, stimulus_of};
use sim_stream::{is_tick, signed_value, ticks_after};
use std::alloc::Global;

// Appends the line of what is seen in a cycle, where it shows something.
fn put_event(
    alloc: Global,
    sim: &OrderSim<'_>,
    seen: Seen,
    stimulus: Stimulus,
    cycle: u64,
    tick: u64,
    out: &mut Vec<u8>,
) -> Result<(), Memory>
    requires small { seen.out_data < 2 ^ (shapes_of (design_view sim.now.design)).width (ports_of (design_view sim.now.design)).out_data }
    ensures text { OnOk result ((wires : Values) → seen.valid ≡ not (wires (ports_of (design_view sim.now.design)).out_valid == 0) → seen.out_data ≡ wires (ports_of (design_view sim.now.design)).out_data → out.new.items ≡ out.old.items ++ printed_orders (with_last seen.last (event_of (shapes_of (design_view sim.now.design)) (ports_of (design_view sim.now.design)) (cycle_at stimulus) wires cycle tick))) }
    ensures short { OnOk result (length out.new.items ≤ length out.old.items + 165) }
    ensures unchanged { OnErr result (out.new.items ≡ out.old.items) }
{
    if !is_tick(stimulus) || !seen.valid {
        return Ok(());
    }
    let value = signed_value(sim.output_shape(), seen.out_data);
    let line = [
        i128::from(cycle),
        i128::from(tick),
        value,
        seen.last as i128,
    ];
    put_row(alloc, out, &line)
}

/// Runs the cycle of a row, which has this place among the rows and this many ticks before it, and tells the ticks after it. It fails
/// where the row is out of its range, and for want of memory.
pub(crate) fn run_cycle(
    alloc: Global,
    sim: &mut OrderSim<'_>,
    row: &Row,
    cycle: u64,
    tick: u64,
    out: &mut Vec<u8>,
) -> Result<u64, StreamFault>
    requires { tick < 2 ^ 32 }
    ensures design { sim.new.design ≡ sim.old.design }
    ensures ends { CycleEnds (design_view sim.old.design) (values_of sim.old.values) cycle tick sim.old.number row.now out.old.items result (values_of sim.new.values) sim.new.number out.new.items }
    ensures short { length out.new.items ≤ length out.old.items + 165 }
    ensures most { IfOk result (λ ticks. ticks ≤ tick + 1) }
{
    let input = sim.input_shape();
    let stimulus = stimulus_of(row, input.width, input.signed)?;
    let seen = sim.cycle(stimulus.rst, stimulus.ce, stimulus.in_data);
    put_event(alloc, sim, seen, stimulus, cycle, tick, out)?;
    Ok(ticks_after(stimulus, tick))
}

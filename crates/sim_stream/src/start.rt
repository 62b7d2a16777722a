// A simulator whose registers are 0.
ghost use Rattle.std.specs.Prelude.{◌≡◌, IfOk};
ghost use Rattle.verilog_tree.specs.View.{design_view};
ghost use Rattle.verilog_tree.specs.Checks.{Passes};
ghost use Rattle.clock_sim.specs.Sim.{register_count};
ghost use Rattle.clock_sim.specs.Simulated.{values_of};

use clock_sim::Sim;
use formed_module::FormedModule;
use mr_values::Memory;
use std::alloc::Global;
use verilog_tree::{Kind, Module};

/// How many registers a module has.
pub fn register_count(design: &Module) -> usize
    ensures { result ≡ register_count design.now.signals.items }
{
    let mut count = 0;
    for signal in design.signals.as_slice() {
        if signal.kind == Kind::Reg {
            count += 1;
        }
    }
    count
}

/// A simulator of a module that passes the checks, from registers of 0. Fails only for want of memory.
pub fn zero_sim<'a>(alloc: Global, design: &'a FormedModule) -> Result<Sim<'a>, Memory>
    requires { Passes (design_view design.now) }
    ensures design { IfOk result (λ sim. sim.design ≡ design.now) }
    ensures values { IfOk result (λ sim. values_of sim.values ≡ (λ n. 0)) }
{
    let initial = Vec::from_elem(alloc, 0u128, register_count(design.tree()))?;
    Sim::start(alloc, design, &initial)
}

// The module of a plan, and its text.
ghost use Rattle.std.specs.Prelude.{◌≡◌, true, IfOk};
ghost use Rattle.mr_values.specs.Value.{size};
ghost use Rattle.plan_check.specs.Accepted.{IsAccepted, AreFacts};
ghost use Rattle.chain_build.specs.Built.{are_built};
ghost use Rattle.verilog_tree.specs.View.{design_view};
ghost use Rattle.verilog_text.specs.Order.{IsInOrder};
ghost use Rattle.filter_text.specs.Written.{IsChainModule, IsTextWritten};

use crate::extremes::by_number;
use crate::small::nets_are_small;
use chain_build::{GroupCost, RegisterExtreme, build};
use formed_module::FormedModule;
use mr_values::{Memory, Plan};
use net_module::module_of;
use plan_check::Facts;
use std::alloc::Global;
use verilog_write::text_of;

/// The module of a plan, the bits of its output, what each of its groups costs, and at the number of the name of each linear register
/// for which one bit is too few a value that needs all of its bits.
#[derive(Drop)]
pub struct ChainModule {
    pub design: FormedModule,
    pub output: u8,
    pub costs: Vec<GroupCost>,
    pub extremes: Vec<Option<RegisterExtreme>>,
}

/// The module of an accepted plan, of which these are the facts: what it shows stands at the ticks latency + n * period. Fails only
/// for want of memory.
pub fn chain_module(alloc: Global, plan: &Plan, facts: &Facts) -> Result<ChainModule, Memory>
    requires accepted { IsAccepted plan.now }
    requires are_facts { AreFacts (size plan.now.width) (size plan.now.ticks) plan.now.elements facts.now }
    requires built { are_built plan.now.elements ≡ true }
    ensures { IfOk result (IsChainModule plan.now.elements (size plan.now.width) (size plan.now.ticks) facts.now.latency facts.now.period) }
{
    let built = build(alloc, plan, facts)?;
    nets_are_small(&built.net);
    let tree = module_of(alloc, &built.net)?;
    let extremes = by_number(alloc, tree.names.len(), &built.extremes)?;
    Ok(ChainModule {
        design: FormedModule::new(tree),
        output: built.net.width(built.out_q),
        costs: built.costs,
        extremes,
    })
}

/// The Verilog text of a plan's module. Fails only for want of memory.
pub fn chain_text(alloc: Global, chain: &ChainModule) -> Result<Vec<u8>, Memory>
    requires { IsInOrder (design_view chain.now.design) }
    ensures { IfOk result (λ text. IsTextWritten text.items (design_view chain.now.design)) }
{
    text_of(alloc, &chain.design)
}

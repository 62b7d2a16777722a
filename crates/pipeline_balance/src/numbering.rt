// Registers with the next free numbers.

ghost use Rattle.std.specs.Prelude.{◌≡◌, ℕ, ◌≤◌, IfOk, OnErr};
ghost use Rattle.net_graph.specs.Name.{IsRegisterKind};
ghost use Rattle.net_graph.specs.WellFormed.{IsWidth};
ghost use Rattle.pipeline_balance.specs.Numbered.{AddsNext};

use mr_values::Memory;
use net_graph::{Name, NameKind, Net, Node};

/// A register with the least number that no name of its group and kind has.
pub fn next_register(net: &mut Net, group: u32, kind: NameKind, width: u8) -> Result<Node, Memory>
    requires wide { IsWidth width }
    requires named { (number : ℕ) → IsRegisterKind kind group number }
    ensures ok { IfOk result (AddsNext net.old net.new group kind width) }
    ensures err { OnErr result (net.new ≡ net.old) }
{
    let number = net.free_number(group, kind);
    let register = net.register(
        Name {
            group,
            kind,
            number,
        },
        width,
    )?;
    Ok(register)
}

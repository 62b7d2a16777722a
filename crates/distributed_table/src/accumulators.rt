// Accumulators that take the sum of each bit from the highest.

ghost use Rattle.std.specs.Prelude.{◌≡◌, ℕ, ◌<◌, ◌≤◌, length, IfOk};
ghost use Rattle.net_graph.specs.declared.name.NameKind.TheVariants.{Register};
ghost use Rattle.net_graph.specs.WellFormed.{IsFree};
ghost use Rattle.net_graph.specs.Grow.{Extends};
ghost use Rattle.pipeline_balance.specs.Gate.{IsTickOf, IsBitOf};
ghost use Rattle.pipeline_balance.specs.Numbered.{LeavesFree, name_of};
ghost use Rattle.distributed_table.specs.Serial.{AddsAccumulator};

use mr_values::Memory;
use net_graph::{Name, NameKind, Net, Node};

/// A register of this number that takes the negation of the table's value where the bit `begin` is set, and at each other tick twice its own
/// value and the table's. After want of memory there may be more nodes.
pub(crate) fn add_accumulator(
    net: &mut Net,
    begin: Node,
    table: Node,
    number: usize,
    width: u8,
) -> Result<Node, Memory>
    requires data_group { 1 ≤ net.old.group }
    requires some { 1 ≤ width }
    requires most { width ≤ 127 }
    requires has_begin { begin.place < length net.old.cells }
    requires has_table { table.place < length net.old.cells }
    requires free { IsFree net.old.cells (name_of net.old.group Register number) }
    ensures ok { IfOk result (λ sum. (period first : ℕ) → IsBitOf net.old.cells (IsTickOf period first) begin → AddsAccumulator net.old net.new period first table number width sum) }
    ensures names { IfOk result (λ _. LeavesFree net.old.cells net.new.cells (λ name. name ≡ name_of net.old.group Register number)) }
    ensures extends { Extends net.old.cells net.new.cells }
    ensures group { net.new.group ≡ net.old.group }
{
    let zero = net.constant(0, 1)?;
    let negated = net.sub(zero, table, width)?;
    let group = net.group();
    let sum = net.register(
        Name {
            group,
            kind: NameKind::Register,
            number,
        },
        width,
    )?;
    let doubled = net.shl(sum, 1, width + 1)?;
    let added = net.add(doubled, table, width)?;
    let next = net.mux(begin, negated, added, width)?;
    net.bind(sum, next);
    Ok(sum)
}

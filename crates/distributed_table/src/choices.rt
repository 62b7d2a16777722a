// Tables: trees of choices over the sums of the subsets of a run.

ghost use Rattle.std.specs.Prelude.{◌≡◌, ℕ, ◌+◌, ◌-◌, ◌^◌, ◌<◌, ◌≤◌, ◌+ℤ◌, drop, length, unsigned_abs, IfOk};
ghost use Rattle.net_graph.specs.declared.name.NameKind.TheVariants.{Table};
ghost use Rattle.net_graph.specs.WellFormed.{IsWidth, IsFree};
ghost use Rattle.net_graph.specs.Grow.{Extends};
ghost use Rattle.pipeline_balance.specs.Numbered.{name_of};
ghost use Rattle.stage_law.specs.Streams.{magnitudes};
ghost use Rattle.distributed_table.specs.Choices.{SumsFit, AddsChoices, AddsTable};
ghost use Rattle.distributed_table.specs.Copies.{node_at};

use mr_values::{Memory, least_width};
use net_graph::{Name, NameKind, Net, Node};
use span_ranges::least_sum;

// A sum with one more tap.
fn with_tap(sum: i128, tap: i128) -> i128
    requires { unsigned_abs sum + unsigned_abs tap ≤ 2 ^ 126 }
    ensures { result ≡ sum +ℤ tap }
{
    sum + tap
}

// The sum so far and that of the taps from this place on whose bits are set, as a tree of choices of this width.
fn add_choices(
    net: &mut Net,
    taps: &[i128],
    address: &[Node],
    place: usize,
    so_far: i128,
    width: u8,
) -> Result<Node, Memory>
    requires data_group { 1 ≤ net.old.group }
    requires wide { IsWidth width }
    requires within { place ≤ length taps.now }
    requires as_many { length taps.now ≤ length address.now }
    requires has_address { (k : ℕ) → k < length address.now → (node_at address.now k).place < length net.old.cells }
    requires fits { SumsFit width (drop place taps.now) so_far }
    requires small { unsigned_abs so_far + magnitudes (drop place taps.now) ≤ 2 ^ 126 }
    ensures ok { IfOk result (AddsChoices net.old net.new (drop place taps.now) (λ k. node_at address.now (place + k)) so_far width) }
    ensures extends { Extends net.old.cells net.new.cells }
    ensures group { net.new.group ≡ net.old.group }
{
    if place == taps.len() {
        let sum = net.constant(so_far, width)?;
        return Ok(sum);
    }
    let more = with_tap(so_far, taps[place]);
    let yes = add_choices(net, taps, address, place + 1, more, width)?;
    let no = add_choices(net, taps, address, place + 1, so_far, width)?;
    let root = net.mux(address[place], yes, no, width)?;
    Ok(root)
}

/// The table of a run under this number: the sum of the taps whose bits in the address are set. After want of memory there may be more
/// nodes.
pub(crate) fn add_table(
    net: &mut Net,
    taps: &[i128],
    address: &[Node],
    number: usize,
) -> Result<Node, Memory>
    requires data_group { 1 ≤ net.old.group }
    requires as_many { length taps.now ≤ length address.now }
    requires has_address { (k : ℕ) → k < length address.now → (node_at address.now k).place < length net.old.cells }
    requires small { magnitudes taps.now ≤ 2 ^ 126 }
    requires free { IsFree net.old.cells (name_of net.old.group Table number) }
    ensures ok { IfOk result (AddsTable net.old net.new number taps.now (node_at address.now)) }
    ensures extends { Extends net.old.cells net.new.cells }
    ensures group { net.new.group ≡ net.old.group }
{
    let width = least_width(least_sum(taps, 0, 1), least_sum(taps, 1, 0));
    let root = add_choices(net, taps, address, 0, 0, width)?;
    let group = net.group();
    net.name_node(
        root,
        Name {
            group,
            kind: NameKind::Table,
            number,
        },
    );
    Ok(root)
}

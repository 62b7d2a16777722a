// A net in memory is small.
ghost use Rattle.std.specs.Prelude.{◌≡◌};
ghost use Rattle.net_text.specs.Small.{AreSmall};

use net_graph::Netlist;

/// Nothing is done: that a net in memory has numbers of a machine is a fact of its type.
pub(crate) fn nets_are_small(net: &Netlist)
    ensures { AreSmall net.now }
{
    for place in 0..net.len() {
        let node = net.node(place);
        let _group = net.group_of(node);
        let _name = net.name(node);
    }
}

// The nodes of a netlist.

use crate::name::Name;

/// A node's place in its net.
#[derive(Clone, Copy, Debug, PartialEq, Eq)]
pub struct Node {
    pub place: usize,
}

/// What a node computes. The operands stand in the order of the calls that make it.
#[derive(Clone, Copy, Debug, PartialEq, Eq)]
pub enum Item {
    Input,
    Constant(i128),
    Add(Node, Node),
    Sub(Node, Node),
    Shl(Node, u8),
    Shr(Node, u8),
    Mux(Node, Node, Node),
    Equal(Node, Node),
    Bits(Node, u8, u8),
    Register(Node),
}

/// One node of a net: its group, 0 for control, its name, its width in bits, and what it computes. A register has no item until
/// its next is bound.
#[derive(Clone, Copy, Debug, PartialEq, Eq)]
pub struct Cell {
    pub group: u32,
    pub name: Option<Name>,
    pub width: u8,
    pub item: Option<Item>,
}

/// A node that shows one value of a list at each tick `offset + k * period`.
#[derive(Clone, Copy, Debug, PartialEq, Eq)]
pub struct Stream {
    pub node: Node,
    pub period: u64,
    pub offset: u64,
}

/// A term of a sum: a node's value times `2^place`, negated where `negative` says so.
#[derive(Clone, Copy, Debug, PartialEq, Eq)]
pub struct Leaf {
    pub node: Node,
    pub place: u8,
    pub negative: bool,
}

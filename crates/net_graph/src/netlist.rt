// The net when it is done.

ghost use Rattle.std.specs.Prelude.{◌≡◌, ℕ, ◌<◌, ◌≤◌, length, ◌==◌, Some, None, IfOk, IfErr};
ghost use Rattle.net_graph.specs.Cells.{cell_at};
ghost use Rattle.net_graph.specs.WellFormed.{IsWellFormed, IsFirstUnbound};

use crate::cell::{Cell, Item, Node};
use crate::name::Name;
use std::marker::Model;
use thiserror::Error;

/// Why a net can't be finished: the first register without a next.
#[derive(Debug, Drop, Error)]
pub enum NetFault {
    #[error("register {id} has no next value")]
    Unbound { id: usize },
}

/// A net when it is done: each register has its next.
#[derive(Drop)]
pub struct Netlist {
    cells: Vec<Cell>,
}

impl Model for Netlist {
    ghost use Rattle.std.specs.Prelude.{List};
    ghost use Rattle.net_graph.specs.declared.cell.Cell.{Cell};
    ghost use Rattle.net_graph.specs.WellFormed.{IsNetlist};

    ghost Value = { List Cell };

    ghost view = { λ n. n.cells.items };

    ghost invariant = { λ n. IsNetlist n.cells.items };
}

impl Netlist {
    ghost use Rattle.net_graph.specs.WellFormed.{IsNetlist};

    // The list of nodes as a netlist, where each register has its next.
    pub(crate) fn from_cells(cells: Vec<Cell>) -> Result<Netlist, NetFault>
        requires { IsWellFormed cells.items }
        ensures ok { IfOk result (λ n. n ≡ cells.items) }
        ensures netlist { IfOk result IsNetlist }
        ensures err { IfErr result (IsFirstUnbound cells.items) }
    {
        for (id, cell) in cells.iter().enumerate() {
            if cell.item.is_none() {
                return Err(NetFault::Unbound { id });
            }
        }
        Ok(Netlist { cells })
    }

    /// How many nodes there are.
    pub fn len(&self) -> usize
        ensures count { result ≡ length self.now }
        ensures netlist { IsNetlist self.now }
    {
        self.cells.len()
    }

    /// Whether there is no node.
    pub fn is_empty(&self) -> bool
        ensures { result ≡ (length self.now == 0) }
    {
        self.cells.is_empty()
    }

    /// The node at a place of the list.
    pub fn node(&self, at: usize) -> Node
        requires { at < length self.now }
        ensures { result.place ≡ at }
    {
        Node { place: at }
    }

    /// What a node computes; a register holds its next.
    pub fn item(&self, node: Node) -> Item
        requires { node.place < length self.now }
        ensures { (cell_at self.now node.place).item ≡ Some result }
    {
        match self.cells[node.place].item {
            Some(item) => item,
            None => unreachable!(),
        }
    }

    /// A node's name, where it has one.
    pub fn name(&self, node: Node) -> Option<Name>
        requires { node.place < length self.now }
        ensures { result ≡ (cell_at self.now node.place).name }
    {
        self.cells[node.place].name
    }

    /// The group in which a node was made, 0 for control.
    pub fn group_of(&self, node: Node) -> u32
        requires { node.place < length self.now }
        ensures { result ≡ (cell_at self.now node.place).group }
    {
        self.cells[node.place].group
    }

    /// A node's width in bits.
    pub fn width(&self, node: Node) -> u8
        requires { node.place < length self.now }
        ensures width { result ≡ (cell_at self.now node.place).width }
        ensures least { 1 ≤ result }
        ensures most { result ≤ 128 }
    {
        self.cells[node.place].width
    }
}

// The net while it grows.

ghost use Rattle.std.specs.Prelude.{◌≡◌, ℕ, ◌+◌, ◌-◌, ◌<◌, ◌≤◌, [], ◌∷◌, ◌++◌, length, Some, None, IfOk, IfErr, IfSome, OnErr, true, false};
ghost use Rattle.mr_values.specs.Width.{wrap};
ghost use Rattle.net_graph.specs.Cells.{NetView, cell_at};
ghost use Rattle.net_graph.specs.Name.{IsRegisterName, IsWireName};
ghost use Rattle.net_graph.specs.WellFormed.{IsWidth, IsNode, IsFree, IsLeastFree, IsFirstUnbound, IsNetlist};
ghost use Rattle.net_graph.specs.Numbers.{AreCounted};
ghost use Rattle.net_graph.specs.Grow.{Adds, AddsRegister, IsUnbound, IsBoundTo, IsNamedAs};

use crate::cell::{Cell, Item, Node};
use crate::counting::{Counted, counted_after, has_name, run_length};
use crate::name::{Name, NameKind};
use crate::netlist::{NetFault, Netlist};
use mr_values::{Memory, wrap};
use std::alloc::Global;
use std::marker::Model;

/// A net while it grows: the list of its nodes, and the group of the nodes to come. It keeps how many names there are of the group and
/// kind that was named last, so that numbering on takes no pass over the list.
#[derive(Drop)]
pub struct Net {
    cells: Vec<Cell>,
    group: u32,
    counted: Option<Counted>,
}

impl Model for Net {
    ghost use Rattle.net_graph.specs.Cells.{NetView};
    ghost use Rattle.net_graph.specs.Numbers.{IsSound};

    ghost Value = { NetView };

    ghost view = { λ n. record { cells = n.cells.items; group = n.group } };

    ghost invariant = { λ n. IsSound n.cells.items n.counted };
}

impl Net {
    /// A net without nodes, whose next nodes are of group 0.
    pub fn new(alloc: Global) -> Net
        ensures { result ≡ record { cells = []; group = 0 } }
    {
        Net {
            cells: Vec::new(alloc),
            group: 0,
            counted: None,
        }
    }

    // One more node.
    fn push(&mut self, name: Option<Name>, width: u8, item: Option<Item>) -> Result<Node, Memory>
        requires { IsNode self.old.cells (length self.old.cells) (length self.old.cells + 1) (record { group = self.old.group; name = name; width = width; item = item }) }
        ensures place { IfOk result (λ node. node.place ≡ length self.old.cells) }
        ensures cells { IfOk result (λ _. self.new.cells ≡ self.old.cells ++ record { group = self.old.group; name = name; width = width; item = item } ∷ []) }
        ensures group { IfOk result (λ _. self.new.group ≡ self.old.group) }
        ensures err { OnErr result (self.new ≡ self.old) }
    {
        let place = self.cells.len();
        let counted = counted_after(&self.cells, self.counted, name);
        self.cells.push(Cell {
            group: self.group,
            name,
            width,
            item,
        })?;
        self.counted = counted;
        Ok(Node { place })
    }

    /// The input, cut to its width.
    pub fn input(&mut self, width: u8) -> Result<Node, Memory>
        requires { IsWidth width }
        ensures ok { IfOk result (λ node. Adds self.old self.new node width Item.Input) }
        ensures err { OnErr result (self.new ≡ self.old) }
    {
        self.push(None, width, Some(Item::Input))
    }

    /// A constant, cut to its width.
    pub fn constant(&mut self, value: i128, width: u8) -> Result<Node, Memory>
        requires { IsWidth width }
        ensures ok { IfOk result (λ node. Adds self.old self.new node width (Item.Constant (wrap width value))) }
        ensures err { OnErr result (self.new ≡ self.old) }
    {
        let held = wrap(value, width);
        self.push(None, width, Some(Item::Constant(held)))
    }

    /// The sum of two nodes, cut to its width.
    pub fn add(&mut self, a: Node, b: Node, width: u8) -> Result<Node, Memory>
        requires wide { IsWidth width }
        requires has_a { a.place < length self.old.cells }
        requires has_b { b.place < length self.old.cells }
        ensures ok { IfOk result (λ node. Adds self.old self.new node width (Item.Add a b)) }
        ensures err { OnErr result (self.new ≡ self.old) }
    {
        self.push(None, width, Some(Item::Add(a, b)))
    }

    /// The first node minus the second, cut to its width.
    pub fn sub(&mut self, a: Node, b: Node, width: u8) -> Result<Node, Memory>
        requires wide { IsWidth width }
        requires has_a { a.place < length self.old.cells }
        requires has_b { b.place < length self.old.cells }
        ensures ok { IfOk result (λ node. Adds self.old self.new node width (Item.Sub a b)) }
        ensures err { OnErr result (self.new ≡ self.old) }
    {
        self.push(None, width, Some(Item::Sub(a, b)))
    }

    /// A node times `2^by`, cut to its width.
    pub fn shl(&mut self, a: Node, by: u8, width: u8) -> Result<Node, Memory>
        requires wide { IsWidth width }
        requires has_a { a.place < length self.old.cells }
        requires short { by < 128 }
        ensures ok { IfOk result (λ node. Adds self.old self.new node width (Item.Shl a by)) }
        ensures err { OnErr result (self.new ≡ self.old) }
    {
        self.push(None, width, Some(Item::Shl(a, by)))
    }

    /// A node divided by `2^by` and rounded down, cut to its width.
    pub fn shr(&mut self, a: Node, by: u8, width: u8) -> Result<Node, Memory>
        requires wide { IsWidth width }
        requires has_a { a.place < length self.old.cells }
        requires short { by < 128 }
        ensures ok { IfOk result (λ node. Adds self.old self.new node width (Item.Shr a by)) }
        ensures err { OnErr result (self.new ≡ self.old) }
    {
        self.push(None, width, Some(Item::Shr(a, by)))
    }

    /// `yes` where the value of `on` isn't 0, else `no`, cut to its width.
    pub fn mux(&mut self, on: Node, yes: Node, no: Node, width: u8) -> Result<Node, Memory>
        requires wide { IsWidth width }
        requires has_on { on.place < length self.old.cells }
        requires has_yes { yes.place < length self.old.cells }
        requires has_no { no.place < length self.old.cells }
        ensures ok { IfOk result (λ node. Adds self.old self.new node width (Item.Mux on yes no)) }
        ensures err { OnErr result (self.new ≡ self.old) }
    {
        self.push(None, width, Some(Item::Mux(on, yes, no)))
    }

    /// The bit that tells whether two nodes are equal.
    pub fn equal(&mut self, a: Node, b: Node) -> Result<Node, Memory>
        requires has_a { a.place < length self.old.cells }
        requires has_b { b.place < length self.old.cells }
        ensures ok { IfOk result (λ node. Adds self.old self.new node 1 (Item.Equal a b)) }
        ensures err { OnErr result (self.new ≡ self.old) }
    {
        self.push(None, 1, Some(Item::Equal(a, b)))
    }

    /// The bits of a node from place `high` down to place `low`, as a node of so many bits.
    pub fn bits(&mut self, a: Node, high: u8, low: u8) -> Result<Node, Memory>
        requires has_a { a.place < length self.old.cells }
        requires ordered { low ≤ high }
        requires inside { high < (cell_at self.old.cells a.place).width }
        ensures ok { IfOk result (λ node. Adds self.old self.new node (high - low + 1) (Item.Bits a high low)) }
        ensures err { OnErr result (self.new ≡ self.old) }
    {
        let width = self.width(a);
        if high < width {
            self.push(None, high - low + 1, Some(Item::Bits(a, high, low)))
        } else {
            unreachable!()
        }
    }

    /// A register whose next is still to be bound.
    pub fn register(&mut self, name: Name, width: u8) -> Result<Node, Memory>
        requires wide { IsWidth width }
        requires named { IsRegisterName name }
        requires free { IsFree self.old.cells name }
        ensures ok { IfOk result (λ node. AddsRegister self.old self.new node name width) }
        ensures err { OnErr result (self.new ≡ self.old) }
    {
        self.push(Some(name), width, None)
    }

    /// Gives a node without a name that of a table or of the node shown as `out_valid`.
    pub fn name_node(&mut self, node: Node, name: Name)
        requires has_node { node.place < length self.old.cells }
        requires nameless { (cell_at self.old.cells node.place).name ≡ None }
        requires named { IsWireName name }
        requires free { IsFree self.old.cells name }
        ensures { IsNamedAs self.old self.new node name }
    {
        let cell = self.cells[node.place];
        self.cells[node.place] = Cell {
            group: cell.group,
            name: Some(name),
            width: cell.width,
            item: cell.item,
        };
        self.counted = None;
    }

    // Whether no node has this name.
    fn is_free(&self, name: Name) -> bool
        ensures free { result ≡ true → IsFree self.now.cells name }
        ensures used { result ≡ false → IsFree self.now.cells name → ⊥ }
    {
        for cell in &self.cells {
            if has_name(cell, name) {
                return false;
            }
        }
        true
    }

    // How many names of that group and kind there are, where that was kept.
    fn kept_count(&self, group: u32, kind: NameKind) -> Option<usize>
        ensures { IfSome result (λ count. AreCounted self.now.cells group kind count) }
    {
        match self.counted {
            Some(counted) if counted.group == group && counted.kind == kind => Some(counted.count),
            Some(_) => None,
            None => None,
        }
    }

    /// The least number that no name of that group and kind has. It takes no pass over the list where the last name is of them and all
    /// stand in the order of their numbers, and else a few.
    pub fn free_number(&self, group: u32, kind: NameKind) -> usize
        ensures { IsLeastFree self.now.cells group kind result }
    {
        if let Some(count) = self.kept_count(group, kind) {
            return count;
        }
        let first = run_length(&self.cells, group, kind);
        for number in first..self.cells.len() {
            if self.is_free(Name {
                group,
                kind,
                number,
            }) {
                return number;
            }
        }
        self.cells.len()
    }

    /// Sets the group of the nodes to come, 0 for control.
    pub fn set_group(&mut self, group: u32)
        ensures { self.new ≡ record { cells = self.old.cells; group = group } }
    {
        self.group = group;
    }

    /// The group of the nodes to come.
    pub fn group(&self) -> u32
        ensures { result ≡ self.now.group }
    {
        self.group
    }

    /// Binds a register's next, once.
    pub fn bind(&mut self, register: Node, next: Node)
        requires unbound { IsUnbound self.old.cells register }
        requires has_next { next.place < length self.old.cells }
        ensures { IsBoundTo self.old self.new register next }
    {
        let cell = self.cells[register.place];
        self.cells[register.place] = Cell {
            group: cell.group,
            name: cell.name,
            width: cell.width,
            item: Some(Item::Register(next)),
        };
    }

    /// A node's width in bits.
    pub fn width(&self, node: Node) -> u8
        requires { node.place < length self.now.cells }
        ensures width { result ≡ (cell_at self.now.cells node.place).width }
        ensures wide { IsWidth result }
    {
        self.cells[node.place].width
    }

    /// The net when it is done. Fails where a register has no next.
    pub fn finish(self) -> Result<Netlist, NetFault>
        ensures ok { IfOk result (λ n. n ≡ self.cells) }
        ensures netlist { IfOk result IsNetlist }
        ensures err { IfErr result (IsFirstUnbound self.cells) }
    {
        let Net {
            cells,
            group: _,
            counted: _,
        } = self;
        Netlist::from_cells(cells)
    }
}

// The module of a netlist.
ghost use Rattle.std.specs.Prelude.{◌≡◌, ℕ, ◌<◌, [], true, length, Some, IsSome, IfOk, OnOk};
ghost use Rattle.net_graph.specs.Cells.{cell_at};
ghost use Rattle.net_graph.specs.Name.{is_input};
ghost use Rattle.net_graph.specs.WellFormed.{IsNetlist, IsWidth, OperandsBelow};
ghost use Rattle.verilog_tree.specs.Tree;
ghost use Rattle.verilog_tree.specs.View.{assignment_view, design_view};
ghost use Rattle.net_module.specs.Written.{IsWritable, has_kind, input_place, is_output_kind, is_register, is_valid_kind, kind_for, output_place, valid_place, ports, head_texts, number_of, written_module};
ghost use Rattle.net_module.specs.Loops.{AddsNode, AddsDriver, Declares, Drives, IsHead};
ghost use Rattle.net_module.specs.Listed.{listed};

use crate::expression::{CE, IN_DATA, OUT_DATA, OUT_VALID, RST, block_of, expression_of};
use crate::text::node_text;
use mr_values::{Memory, Text};
use net_graph::{Cell, Item, Name, NameKind, Netlist, Node};
use std::alloc::Global;
use verilog_tree::{Assign, Expr, Kind, Module, Signal, Stmt};

fn is_input(item: Option<Item>) -> bool
    ensures { result ≡ is_input item }
{
    matches!(item, Some(Item::Input))
}

fn is_register(item: Option<Item>) -> bool
    ensures { result ≡ is_register item }
{
    matches!(item, Some(Item::Register(_)))
}

fn is_output(name: Option<Name>) -> bool
    ensures { result ≡ has_kind is_output_kind name }
{
    match name {
        None => false,
        Some(name) => matches!(name.kind, NameKind::Output),
    }
}

fn is_valid(name: Option<Name>) -> bool
    ensures { result ≡ has_kind is_valid_kind name }
{
    match name {
        None => false,
        Some(name) => matches!(name.kind, NameKind::Valid),
    }
}

// The node at a place.
fn cell_of(net: &Netlist, place: usize) -> Cell
    requires { place < length net.now }
    ensures cell { result ≡ cell_at net.now place }
    ensures bound { IsSome result.item }
{
    let node = net.node(place);
    Cell {
        group: net.group_of(node),
        name: net.name(node),
        width: net.width(node),
        item: Some(net.item(node)),
    }
}

// The input.
fn find_input(net: &Netlist) -> Node
    requires { IsWritable net.now }
    ensures place { result.place ≡ input_place net.now }
    ensures inside { result.place < length net.now }
{
    for place in 0..net.len() {
        if is_input(cell_of(net, place).item) {
            return net.node(place);
        }
    }
    unreachable!()
}

// The register `out_q`.
fn find_output(net: &Netlist) -> Node
    requires { IsWritable net.now }
    ensures place { result.place ≡ output_place net.now }
    ensures inside { result.place < length net.now }
{
    for place in 0..net.len() {
        if is_output(cell_of(net, place).name) {
            return net.node(place);
        }
    }
    unreachable!()
}

// The node that is shown as `out_valid`.
fn find_valid(net: &Netlist) -> Node
    requires { IsWritable net.now }
    ensures place { result.place ≡ valid_place net.now }
    ensures inside { result.place < length net.now }
{
    for place in 0..net.len() {
        if is_valid(cell_of(net, place).name) {
            return net.node(place);
        }
    }
    unreachable!()
}

// ---- declarations

// The names of a module, its declarations, and the numbers of the names of the nodes so far.
#[derive(Drop)]
struct Lists {
    names: Vec<Text>,
    signals: Vec<Signal>,
    numbers: Vec<usize>,
}

fn kind_of(item: Option<Item>) -> Kind
    ensures { result ≡ kind_for (is_register item) }
{
    if is_register(item) {
        Kind::Reg
    } else {
        Kind::Wire
    }
}

// The declaration of a node that isn't the input.
fn declaration(name: usize, item: Option<Item>, width: u8) -> Signal
    ensures { result ≡ record { name = name; kind = kind_for (is_register item); signed = true; ranged = true; width = width; place = 0 } }
{
    Signal {
        name,
        kind: kind_of(item),
        signed: true,
        ranged: true,
        width: u32::from(width),
        place: 0,
    }
}

// The name and the declaration of a node; those of the input are the port's.
fn declare_node(alloc: Global, lists: &mut Lists, place: usize, cell: Cell) -> Result<(), Memory>
    ensures { OnOk result (AddsNode cell place (listed lists.old) (listed lists.new)) }
{
    if is_input(cell.item) {
        lists.numbers.push(IN_DATA)?;
    } else {
        let number = lists.names.len();
        let text = node_text(alloc, cell.name, cell.group, place)?;
        lists.names.push(text)?;
        lists
            .signals
            .push(declaration(number, cell.item, cell.width))?;
        lists.numbers.push(number)?;
    }
    Ok(())
}

// Declares all nodes of the net, in order.
fn declare_nodes(alloc: Global, net: &Netlist, lists: &mut Lists) -> Result<(), Memory>
    requires seven { length lists.old.names.items ≡ 7 }
    requires none { lists.old.numbers.items ≡ [] }
    ensures { OnOk result (Declares net.now (listed lists.old) (listed lists.new)) }
{
    for place in 0..net.len() {
        declare_node(alloc, lists, place, cell_of(net, place))?;
    }
    Ok(())
}

// ---- drivers

// The assignments and the always blocks of a module.
#[derive(Drop)]
struct Drivers {
    assigns: Vec<Assign>,
    blocks: Vec<Stmt>,
}

// The assignment or the always block of a node; the input has none.
fn drive_node(
    alloc: Global,
    numbers: &[usize],
    drivers: &mut Drivers,
    place: usize,
    cell: Cell,
) -> Result<(), Memory>
    requires bound { IsSome cell.item }
    requires inside { place < length numbers.now }
    requires wide { IsWidth cell.width }
    requires operands { OperandsBelow (length numbers.now) (length numbers.now) cell.width cell.item }
    ensures { OnOk result (AddsDriver numbers.now cell place drivers.old.assigns.items drivers.new.assigns.items drivers.old.blocks.items drivers.new.blocks.items) }
{
    match cell.item {
        None => unreachable!(),
        Some(item) => {
            if is_input(cell.item) {
                return Ok(());
            }
            let target = numbers[place];
            let value = expression_of(alloc, numbers, item, cell.width)?;
            if is_register(cell.item) {
                let block = block_of(alloc, target, cell.width, value)?;
                drivers.blocks.push(block)?;
            } else {
                drivers.assigns.push(Assign { target, value })?;
            }
            Ok(())
        }
    }
}

// Drives all nodes of the net, in order.
fn drive_nodes(
    alloc: Global,
    net: &Netlist,
    numbers: &[usize],
    drivers: &mut Drivers,
) -> Result<(), Memory>
    requires netlist { IsNetlist net.now }
    requires count { length numbers.now ≡ length net.now }
    ensures { OnOk result (Drives numbers.now net.now drivers.old.assigns.items drivers.new.assigns.items drivers.old.blocks.items drivers.new.blocks.items) }
{
    for place in 0..net.len() {
        drive_node(alloc, numbers, drivers, place, cell_of(net, place))?;
    }
    Ok(())
}

// ---- the head

fn port(name: usize, kind: Kind, signed: bool, width: u8) -> Signal
    ensures { result ≡ Rattle.net_module.specs.Written.port name kind signed width }
{
    Signal {
        name,
        kind,
        signed,
        ranged: signed,
        width: u32::from(width),
        place: 0,
    }
}

// The names of the module and of its ports.
fn head_names(alloc: Global) -> Result<Vec<Text>, Memory>
    ensures { IfOk result (λ names. names.items ≡ head_texts) }
{
    let mut names = Vec::new(alloc);
    names.push(Text::from_str(alloc, "mr_filter")?)?;
    names.push(Text::from_str(alloc, "clk")?)?;
    names.push(Text::from_str(alloc, "rst")?)?;
    names.push(Text::from_str(alloc, "ce")?)?;
    names.push(Text::from_str(alloc, "in_data")?)?;
    names.push(Text::from_str(alloc, "out_valid")?)?;
    names.push(Text::from_str(alloc, "out_data")?)?;
    Ok(names)
}

// The names and the declarations of the ports.
fn head_lists(alloc: Global, width_in: u8, width_out: u8) -> Result<Lists, Memory>
    ensures { IfOk result (λ lists. listed lists ≡ record { names = head_texts; signals = ports width_in width_out; numbers = [] }) }
{
    let names = head_names(alloc)?;
    let ports = [
        port(1, Kind::Input, false, 1),
        port(RST, Kind::Input, false, 1),
        port(CE, Kind::Input, false, 1),
        port(IN_DATA, Kind::Input, true, width_in),
        port(OUT_VALID, Kind::Output, false, 1),
        port(OUT_DATA, Kind::Output, true, width_out),
    ];
    let signals = Vec::from_slice(alloc, &ports)?;
    Ok(Lists {
        names,
        signals,
        numbers: Vec::new(alloc),
    })
}

fn alias(target: usize, name: usize) -> Assign
    ensures { assignment_view result ≡ record { target = target; value = Tree.Name name } }
{
    Assign {
        target,
        value: Expr::Name(name),
    }
}

// The assignments of the outputs.
fn head_drivers(
    alloc: Global,
    numbers: &[usize],
    valid: Node,
    output: Node,
) -> Result<Drivers, Memory>
    requires has_valid { valid.place < length numbers.now }
    requires has_output { output.place < length numbers.now }
    ensures { IfOk result (λ d. IsHead numbers.now valid.place output.place d.assigns.items d.blocks.items) }
{
    let mut assigns = Vec::new(alloc);
    assigns.push(alias(OUT_VALID, numbers[valid.place]))?;
    assigns.push(alias(OUT_DATA, numbers[output.place]))?;
    Ok(Drivers {
        assigns,
        blocks: Vec::new(alloc),
    })
}

/// The module that is written for a net with one input, a register `out_q`, both of at most 127 bits, and one bit that is
/// shown as `out_valid`: the ports, then a wire or a register for each node. Fails only for want of memory.
pub fn module_of(alloc: Global, net: &Netlist) -> Result<Module, Memory>
    requires netlist { IsNetlist net.now }
    requires writable { IsWritable net.now }
    ensures { IfOk result (λ m. design_view m ≡ written_module net.now) }
{
    let input = find_input(net);
    let output = find_output(net);
    let valid = find_valid(net);
    let mut lists = head_lists(alloc, net.width(input), net.width(output))?;
    declare_nodes(alloc, net, &mut lists)?;
    let Lists {
        names,
        signals,
        numbers,
    } = lists;
    let mut drivers = head_drivers(alloc, &numbers, valid, output)?;
    drive_nodes(alloc, net, &numbers, &mut drivers)?;
    let Drivers { assigns, blocks } = drivers;
    Ok(Module {
        name: 0,
        names,
        signals,
        assigns,
        blocks,
    })
}

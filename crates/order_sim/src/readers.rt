// Which assignments read the wires of which.

ghost use Rattle.std.specs.Prelude.{◌≡◌, ◌<◌, [], IfOk, length};
ghost use Rattle.verilog_tree.specs.Cycle.{circuit_of, reads, any_reads};
ghost use Rattle.verilog_tree.specs.View.{tree_view, trees_view, design_view};
ghost use Rattle.event_order.specs.Drawn.{reads_wire, open_reads};
ghost use Rattle.order_sim.specs.Drawing.{reading_places, AreReaders, CountReads};

use mr_values::Memory;
use std::alloc::Global;
use verilog_tree::{Expr, Module};

// Whether an expression reads a name.
#[cycle(reads)]
fn reads(expr: &Expr, name: usize) -> bool
    ensures { result ≡ reads (tree_view expr.now) name }
{
    match expr {
        Expr::Name(read) => name == *read,
        Expr::Bit(read, _) => name == *read,
        Expr::Part(read, _, _) => name == *read,
        Expr::Plain(_) => false,
        Expr::Based {
            width: _,
            signed: _,
            bits: _,
        } => false,
        Expr::Cat(members) => any_reads(members, name),
        Expr::Not(a) => reads(a, name),
        Expr::Binary(_, a, b) => reads(a, name) || reads(b, name),
        Expr::Shift(_, a, _) => reads(a, name),
        Expr::Cond(condition, a, b) => {
            reads(condition, name) || (reads(a, name) || reads(b, name))
        }
    }
}

#[cycle(reads)]
fn any_reads(members: &[Expr], name: usize) -> bool
    ensures { result ≡ any_reads (trees_view members.now) name }
{
    for member in members {
        if reads(member, name) {
            return true;
        }
    }
    false
}

// Whether an assignment reads the wire of the one at a place.
fn reads_wire(design: &Module, reader: usize, place: usize) -> bool
    requires reader { reader < length design.now.assigns.items }
    requires place { place < length design.now.assigns.items }
    ensures { result ≡ reads_wire (circuit_of (design_view design.now)) reader place }
{
    let assigns = design.assigns.as_slice();
    reads(&assigns[reader].value, assigns[place].target)
}

/// The assignments that read one wire, by their places.
#[derive(Drop)]
pub(crate) struct Readers {
    pub(crate) places: Vec<usize>,
}

// The assignments that read the wire of the one at a place.
fn readers_of(alloc: Global, design: &Module, place: usize) -> Result<Readers, Memory>
    requires { place < length design.now.assigns.items }
    ensures { IfOk result (λ readers. readers.places.items ≡ reading_places (circuit_of (design_view design.now)) place (length design.now.assigns.items)) }
{
    let mut places = Vec::new(alloc);
    for reader in 0..design.assigns.len() {
        if reads_wire(design, reader, place) {
            places.push(reader)?;
        }
    }
    Ok(Readers { places })
}

/// For each assignment those that read its wire.
pub(crate) fn all_readers(alloc: Global, design: &Module) -> Result<Vec<Readers>, Memory>
    ensures { IfOk result (λ all. AreReaders (circuit_of (design_view design.now)) all.items) }
{
    let mut all = Vec::new(alloc);
    for place in 0..design.assigns.len() {
        all.push(readers_of(alloc, design, place)?)?;
    }
    Ok(all)
}

// How many assignments drive wires that the one at a place reads.
fn read_count(design: &Module, reader: usize) -> usize
    requires { reader < length design.now.assigns.items }
    ensures { result ≡ open_reads (circuit_of (design_view design.now)) [] reader }
{
    let mut count = 0;
    for place in 0..design.assigns.len() {
        if reads_wire(design, reader, place) {
            count += 1;
        }
    }
    count
}

/// For each assignment how many drive wires that it reads.
pub(crate) fn read_counts(alloc: Global, design: &Module) -> Result<Vec<usize>, Memory>
    ensures { IfOk result (λ counts. CountReads (circuit_of (design_view design.now)) counts.items) }
{
    let mut counts = Vec::new(alloc);
    for reader in 0..design.assigns.len() {
        counts.push(read_count(design, reader))?;
    }
    Ok(counts)
}

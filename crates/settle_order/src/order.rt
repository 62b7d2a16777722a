// Placing assignments, each after those that drive what it reads, as far as none depends on itself.

ghost use Rattle.std.specs.Prelude.{◌≡◌, ℕ, ◌+◌, ◌<◌, ◌≤◌, true, false, IfOk, All, length};
ghost use Rattle.verilog_tree.specs.Cycle.{circuit_of, IsDrivenOnce};
ghost use Rattle.verilog_tree.specs.View.{tree_view, trees_view, design_view};
ghost use Rattle.settle_order.specs.Placing.{AreNamed, reads_open, any_reads_open, opened_of, count_open, IsPlaced, IsStuck, AreAllOpen};

use crate::depth::place_in_depth;
use mr_values::Memory;
use std::alloc::Global;
use verilog_tree::{Expr, Module};

/// Whether the flag of a name is set, and false past the last flag.
pub fn is_open(opened: &[bool], name: usize) -> bool
    ensures { result ≡ opened_of opened.now name }
{
    name < opened.len() && opened[name]
}

/// Whether an expression reads an open name.
#[cycle(reads_open)]
pub fn reads_open(expr: &Expr, opened: &[bool]) -> bool
    ensures { result ≡ reads_open (opened_of opened.now) (tree_view expr.now) }
{
    match expr {
        Expr::Name(name) => is_open(opened, *name),
        Expr::Bit(name, _) => is_open(opened, *name),
        Expr::Part(name, _, _) => is_open(opened, *name),
        Expr::Plain(_) => false,
        Expr::Based {
            width: _,
            signed: _,
            bits: _,
        } => false,
        Expr::Cat(members) => any_reads_open(members, opened),
        Expr::Not(a) => reads_open(a, opened),
        Expr::Binary(_, a, b) => reads_open(a, opened) || reads_open(b, opened),
        Expr::Shift(_, a, _) => reads_open(a, opened),
        Expr::Cond(condition, a, b) => {
            reads_open(condition, opened) || (reads_open(a, opened) || reads_open(b, opened))
        }
    }
}

#[cycle(reads_open)]
fn any_reads_open(members: &[Expr], opened: &[bool]) -> bool
    ensures { result ≡ any_reads_open (opened_of opened.now) (trees_view members.now) }
{
    for member in members {
        if reads_open(member, opened) {
            return true;
        }
    }
    false
}

// Places each assignment whose wire is open and that reads no open wire. Tells whether it placed any.
fn place_ready(design: &Module, opened: &mut [bool], order: &mut Vec<usize>) -> Result<bool, Memory>
    requires driven { IsDrivenOnce (design_view design.now) }
    requires placed { IsPlaced (circuit_of (design_view design.now)) (opened_of opened.old) order.old.items }
    ensures placed { IfOk result (λ progress. IsPlaced (circuit_of (design_view design.now)) (opened_of opened.new) order.new.items) }
    ensures fewer { IfOk result (λ progress. progress ≡ true → count_open opened.new < count_open opened.old) }
    ensures stuck { IfOk result (λ progress. progress ≡ false → IsStuck (circuit_of (design_view design.now)) (opened_of opened.new)) }
{
    let mut progress = false;
    let assigns = design.assigns.as_slice();
    for place in 0..assigns.len() {
        let assign = &assigns[place];
        if is_open(opened, assign.target) && !reads_open(&assign.value, opened) {
            opened[assign.target] = false;
            order.push(place)?;
            progress = true;
        }
    }
    Ok(progress)
}

// The names that assignments drive.
fn driven(alloc: Global, design: &Module, count: usize) -> Result<Vec<bool>, Memory>
    requires named { AreNamed (design_view design.now) count }
    ensures wires { IfOk result (λ opened. AreAllOpen (circuit_of (design_view design.now)) (opened_of opened.items)) }
{
    let mut opened = Vec::from_elem(alloc, false, count)?;
    for assign in design.assigns.as_slice() {
        opened[assign.target] = true;
    }
    Ok(opened)
}

/// The places of the assignments that can be placed, and flags of the names whose assignments can't.
#[derive(Drop)]
pub struct Placed {
    pub order: Vec<usize>,
    pub opened: Vec<bool>,
}

/// Places each assignment after those that drive what it reads, until each of those that are left reads a name whose assignment is
/// left too. All targets are among the first `count` names.
pub fn place_all(alloc: Global, design: &Module, count: usize) -> Result<Placed, Memory>
    requires driven { IsDrivenOnce (design_view design.now) }
    requires named { AreNamed (design_view design.now) count }
    ensures placed { IfOk result (λ p. IsPlaced (circuit_of (design_view design.now)) (opened_of p.opened.items) p.order.items) }
    ensures stuck { IfOk result (λ p. IsStuck (circuit_of (design_view design.now)) (opened_of p.opened.items)) }
{
    let mut opened = driven(alloc, design, count)?;
    let mut order = Vec::new(alloc);
    place_in_depth(alloc, design, &mut opened, &mut order)?;
    let mut progress = true;
    while progress {
        progress = place_ready(design, &mut opened, &mut order)?;
    }
    Ok(Placed { order, opened })
}

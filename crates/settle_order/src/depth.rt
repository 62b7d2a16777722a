// A placing of assignments in one walk, each behind those that it waits for.

ghost use Rattle.std.specs.Prelude.{◌≡◌, false, true, IfOk, OnOk, MatchOption, length, vec_len};
ghost use Rattle.verilog_tree.specs.Cycle.{circuit_of, IsDrivenOnce};
ghost use Rattle.verilog_tree.specs.View.{tree_view, trees_view, design_view};
ghost use Rattle.settle_order.specs.Placing.{reads_open, any_reads_open, opened_of, IsPlaced};

use crate::order::is_open;
use mr_values::Memory;
use std::alloc::Global;
use verilog_tree::{Expr, Module};

fn if_open(name: usize, opened: &[bool]) -> Option<usize>
    ensures { MatchOption result (opened_of opened.now name ≡ false) (λ found. opened_of opened.now found ≡ true) }
{
    if is_open(opened, name) {
        Some(name)
    } else {
        None
    }
}

// The first open name that an expression reads.
#[cycle(open_name)]
fn open_name(expr: &Expr, opened: &[bool]) -> Option<usize>
    ensures { MatchOption result (reads_open (opened_of opened.now) (tree_view expr.now) ≡ false) (λ found. opened_of opened.now found ≡ true) }
{
    match expr {
        Expr::Name(name) => if_open(*name, opened),
        Expr::Bit(name, _) => if_open(*name, opened),
        Expr::Part(name, _, _) => if_open(*name, opened),
        Expr::Plain(_) => None,
        Expr::Based {
            width: _,
            signed: _,
            bits: _,
        } => None,
        Expr::Cat(members) => open_name_of(members, opened),
        Expr::Not(a) => open_name(a, opened),
        Expr::Binary(_, a, b) => match open_name(a, opened) {
            Some(name) => Some(name),
            None => open_name(b, opened),
        },
        Expr::Shift(_, a, _) => open_name(a, opened),
        Expr::Cond(condition, a, b) => match open_name(condition, opened) {
            Some(name) => Some(name),
            None => match open_name(a, opened) {
                Some(name) => Some(name),
                None => open_name(b, opened),
            },
        },
    }
}

#[cycle(open_name)]
fn open_name_of(members: &[Expr], opened: &[bool]) -> Option<usize>
    ensures { MatchOption result (any_reads_open (opened_of opened.now) (trees_view members.now) ≡ false) (λ found. opened_of opened.now found ≡ true) }
{
    for member in members {
        if let Some(name) = open_name(member, opened) {
            return Some(name);
        }
    }
    None
}

// The place of an assignment to each of the first `count` names, and a place past all where there is none.
fn drivers_of(alloc: Global, design: &Module, count: usize) -> Result<Vec<usize>, Memory>
    ensures { IfOk result (λ drivers. vec_len drivers ≡ count) }
{
    let mut drivers = Vec::from_elem(alloc, usize::MAX, count)?;
    for (place, assign) in design.assigns.as_slice().iter().enumerate() {
        if assign.target < drivers.len() {
            drivers[assign.target] = place;
        }
    }
    Ok(drivers)
}

// Places the assignment at a place, or puts on the stack the one that it waits for, above itself.
fn take(
    design: &Module,
    drivers: &[usize],
    opened: &mut [bool],
    order: &mut Vec<usize>,
    stack: &mut Vec<usize>,
    top: usize,
) -> Result<(), Memory>
    requires driven { IsDrivenOnce (design_view design.now) }
    requires placed { IsPlaced (circuit_of (design_view design.now)) (opened_of opened.old) order.old.items }
    ensures placed { OnOk result (IsPlaced (circuit_of (design_view design.now)) (opened_of opened.new) order.new.items) }
{
    let assigns = design.assigns.as_slice();
    if top >= assigns.len() {
        return Ok(());
    }
    let assign = &assigns[top];
    if !is_open(opened, assign.target) {
        return Ok(());
    }
    match open_name(&assign.value, opened) {
        Some(name) => {
            stack.push(top)?;
            if name < drivers.len() {
                stack.push(drivers[name])?;
            }
        }
        None => {
            opened[assign.target] = false;
            order.push(top)?;
        }
    }
    Ok(())
}

/// Places assignments each behind those that it waits for. Where none depends on itself, this places all: each is taken once from
/// the text, once above one that waits for it, and once more behind the one that it waits for.
pub(crate) fn place_in_depth(
    alloc: Global,
    design: &Module,
    opened: &mut [bool],
    order: &mut Vec<usize>,
) -> Result<(), Memory>
    requires driven { IsDrivenOnce (design_view design.now) }
    requires placed { IsPlaced (circuit_of (design_view design.now)) (opened_of opened.old) order.old.items }
    ensures placed { OnOk result (IsPlaced (circuit_of (design_view design.now)) (opened_of opened.new) order.new.items) }
{
    let drivers = drivers_of(alloc, design, opened.len())?;
    let count = design.assigns.len();
    let mut stack = Vec::new(alloc);
    for place in (0..count).rev() {
        stack.push(place)?;
    }
    for _ in 0..count.saturating_mul(3) {
        match stack.pop() {
            Some(top) => take(design, &drivers, opened, order, &mut stack, top)?,
            None => return Ok(()),
        }
    }
    Ok(())
}

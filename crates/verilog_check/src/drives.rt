// What drives which name in a module, in text order.

ghost use Rattle.std.specs.Prelude.{◌≡◌, ◌∷◌, ◌==◌, ℕ, [], nat_eq, length, map, IfOk, OnOk};
ghost use Rattle.std.specs.List.{list_any};
ghost use Rattle.std.specs.HashSet.{contains};
ghost use Rattle.verilog_tree.specs.Checks as checks;
ghost use Rattle.verilog_tree.specs.Checks.{action_drives, actions_drives, drives, first_shared};
ghost use Rattle.verilog_tree.specs.View.{action_view, actions_view, design_view};
ghost use Rattle.verilog_check.specs.Adding.{Adds};
ghost use Rattle.verilog_check.specs.Drives.{drive_view, is_other};

use mr_values::Memory;
use std::alloc::Global;
use std::collections::{HashMap, HashSet};
use verilog_tree::{Module, Stmt};

/// A driver, by its place among the assignments and, behind these, the always blocks, and a name that it drives.
#[derive(Clone, Copy)]
pub(crate) struct Drive {
    pub(crate) driver: usize,
    pub(crate) name: usize,
}

fn add(drives: &mut Vec<Drive>, drive: Drive) -> Result<(), Memory>
    ensures { OnOk result (Adds drive_view (λ rest. drive_view drive ∷ rest) drives.old.items drives.new.items) }
{
    drives.push(drive)?;
    Ok(())
}

// Adds what a statement of this driver drives.
#[cycle(add_drives)]
fn add_drives(drives: &mut Vec<Drive>, driver: usize, statement: &Stmt) -> Result<(), Memory>
    ensures { OnOk result (Adds drive_view (action_drives driver (action_view statement.now)) drives.old.items drives.new.items) }
{
    match statement {
        Stmt::Block(parts) => add_all_drives(drives, driver, parts),
        Stmt::If(_, first, second) => {
            add_drives(drives, driver, first)?;
            match second {
                Some(other) => add_drives(drives, driver, other),
                None => Ok(()),
            }
        }
        Stmt::Set(target, _) => add(
            drives,
            Drive {
                driver,
                name: *target,
            },
        ),
    }
}

#[cycle(add_drives)]
fn add_all_drives(drives: &mut Vec<Drive>, driver: usize, statements: &[Stmt]) -> Result<(), Memory>
    ensures { OnOk result (Adds drive_view (actions_drives driver (actions_view statements.now)) drives.old.items drives.new.items) }
{
    for statement in statements {
        add_drives(drives, driver, statement)?;
    }
    Ok(())
}

/// What each driver of a module drives. Fails only for want of memory.
pub(crate) fn drives_of(alloc: Global, design: &Module) -> Result<Vec<Drive>, Memory>
    ensures { IfOk result (λ all. map drive_view all.items ≡ drives (design_view design.now)) }
{
    let mut drives = Vec::new(alloc);
    let assigns = design.assigns.as_slice();
    for driver in 0..assigns.len() {
        let name = assigns[driver].target;
        add(&mut drives, Drive { driver, name })?;
    }
    let blocks = design.blocks.as_slice();
    for place in 0..blocks.len() {
        add_drives(&mut drives, assigns.len() + place, &blocks[place])?;
    }
    Ok(drives)
}

// Whether another driver than this one is known.
fn is_other(known: Option<usize>, driver: usize) -> bool
    ensures { result ≡ is_other driver known }
{
    match known {
        Some(other) => other != driver,
        None => false,
    }
}

/// The first name that is driven where another driver before drives it. Fails only for want of memory.
pub(crate) fn first_shared(alloc: Global, drives: &[Drive]) -> Result<Option<usize>, Memory>
    ensures { IfOk result (λ name. name ≡ first_shared [] (map drive_view drives.now)) }
{
    let mut driver_of = HashMap::new(alloc);
    for drive in drives {
        let known = driver_of.insert(drive.name, drive.driver)?;
        if is_other(known, drive.driver) {
            return Ok(Some(drive.name));
        }
    }
    Ok(None)
}

/// The names that are driven. Fails only for want of memory.
pub(crate) fn driven_names(alloc: Global, drives: &[Drive]) -> Result<HashSet<usize>, Memory>
    ensures { IfOk result (λ driven. (n : ℕ) → contains nat_eq driven n ≡ list_any (λ (x : checks.Drive). x.name == n) (map drive_view drives.now)) }
{
    let mut driven = HashSet::new(alloc);
    for drive in drives {
        driven.insert(drive.name)?;
    }
    Ok(driven)
}

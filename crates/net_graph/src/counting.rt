// Which numbers the names of a group and kind have.

ghost use Rattle.std.specs.Prelude.{◌≡◌, ℕ, ◌+◌, ◌<◌, ◌≤◌, [], ◌∷◌, ◌++◌, length, Some, IfSome, true, false};
ghost use Rattle.net_graph.specs.declared.cell.Cell.{Cell};
ghost use Rattle.net_graph.specs.WellFormed.{IsFree};
ghost use Rattle.net_graph.specs.Names.{numbered_from};
ghost use Rattle.net_graph.specs.Numbers.{AreCounted, IsCountedBy};

use crate::cell::Cell;
use crate::name::{Name, NameKind};

/// The names of this group and kind have the numbers below `count`.
#[derive(Clone, Copy, Debug, PartialEq, Eq)]
pub(crate) struct Counted {
    pub(crate) group: u32,
    pub(crate) kind: NameKind,
    pub(crate) count: usize,
}

/// Whether the cell has this name.
pub(crate) fn has_name(cell: &Cell, name: Name) -> bool
    ensures yes { result ≡ true → cell.now.name ≡ Some name }
    ensures no { result ≡ false → cell.now.name ≡ Some name → ⊥ }
{
    cell.name == Some(name)
}

/// How many numbers of that group and kind stand one after another in the list, from 0.
pub(crate) fn run_length(cells: &[Cell], group: u32, kind: NameKind) -> usize
    ensures used { (lower : ℕ) → lower < result → IsFree cells.now (record { group = group; kind = kind; number = lower }) → ⊥ }
    ensures room { result + numbered_from result cells.now ≤ length cells.now }
{
    let mut number = 0;
    for cell in cells {
        let name = Name {
            group,
            kind,
            number,
        };
        if has_name(cell, name) {
            number += 1;
        }
    }
    number
}

// Whether the cell has a name of that group and kind whose number isn't below `count`.
fn is_numbered_from(cell: &Cell, group: u32, kind: NameKind, count: usize) -> bool
    ensures { result ≡ false → (number : ℕ) → count ≤ number → cell.now.name ≡ Some (record { group = group; kind = kind; number = number }) → ⊥ }
{
    match cell.name {
        None => false,
        Some(name) => name.group == group && name.kind == kind && count <= name.number,
    }
}

// Whether the numbers of that group and kind are known to be exactly those below `count`.
fn are_counted(cells: &[Cell], group: u32, kind: NameKind, count: usize) -> bool
    ensures { result ≡ true → AreCounted cells.now group kind count }
{
    for cell in cells {
        if is_numbered_from(cell, group, kind, count) {
            return false;
        }
    }
    run_length(cells, group, kind) == count
}

// Whether these counts are kept.
fn is_kept(kept: Option<Counted>, counted: Counted) -> bool
    ensures { result ≡ true → kept ≡ Some counted }
{
    kept == Some(counted)
}

// Whether the numbers of the name's group and kind are known to be exactly those below its own.
fn is_next(cells: &[Cell], counted: Option<Counted>, name: Name) -> bool
    requires { IsCountedBy cells.now counted }
    ensures { result ≡ true → AreCounted cells.now name.group name.kind name.number }
{
    let before = Counted {
        group: name.group,
        kind: name.kind,
        count: name.number,
    };
    if is_kept(counted, before) {
        return true;
    }
    are_counted(cells, name.group, name.kind, name.number)
}

// The numbers of the name's group and kind up to its own.
fn counted_to(name: Name) -> Option<Counted>
    ensures { IfSome result (λ counted. counted ≡ record { group = name.group; kind = name.kind; count = name.number + 1 }) }
{
    let count = name.number.checked_add(1)?;
    Some(Counted {
        group: name.group,
        kind: name.kind,
        count,
    })
}

// What is known of numbers once a node with this name is added.
fn counted_with(cells: &[Cell], counted: Option<Counted>, name: Name) -> Option<Counted>
    requires { IsCountedBy cells.now counted }
    ensures { (cell : Cell) → cell.name ≡ Some name → IsCountedBy (cells.now ++ cell ∷ []) result }
{
    if is_next(cells, counted, name) {
        counted_to(name)
    } else {
        None
    }
}

/// What is known of numbers once a node with this name, or without one, is added.
pub(crate) fn counted_after(
    cells: &[Cell],
    counted: Option<Counted>,
    name: Option<Name>,
) -> Option<Counted>
    requires { IsCountedBy cells.now counted }
    ensures { (cell : Cell) → cell.name ≡ name → IsCountedBy (cells.now ++ cell ∷ []) result }
{
    match name {
        None => counted,
        Some(name) => counted_with(cells, counted, name),
    }
}

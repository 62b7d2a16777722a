// How many assignments stand one behind the other before a signal.

ghost use Rattle.std.specs.Prelude.{◌≡◌, ◌<◌, ◌≤◌, ℕ, length, map, IfOk};
ghost use Rattle.verilog_tree.specs.Cycle.{circuit_of, IsDrivenOnce, IsLoopFree};
ghost use Rattle.verilog_tree.specs.Checks.{Passes};
ghost use Rattle.verilog_tree.specs.View.{tree_view, trees_view, design_view};
ghost use Rattle.settle_order.specs.Placing.{IsEvaluationOrder, AreNamed};
ghost use Rattle.wire_levels.specs.Levels.{greatest, greatest_of, level_in, HasLevels, AreLevelsOf};

use loop_search::target_count;
use mr_values::Memory;
use settle_order::place_all;
use std::alloc::Global;
use verilog_tree::{Expr, Module};

// The level of a name, and 0 past the last.
pub(crate) fn level_in(levels: &[usize], name: usize) -> usize
    ensures { result ≡ level_in levels.now name }
{
    if name < levels.len() { levels[name] } else { 0 }
}

// The greatest level of the names that an expression reads, and 0 where it reads none.
#[cycle(greatest)]
fn greatest(levels: &[usize], expr: &Expr) -> usize
    ensures { result ≡ greatest (level_in levels.now) (tree_view expr.now) }
{
    match expr {
        Expr::Name(name) => level_in(levels, *name),
        Expr::Bit(name, _) => level_in(levels, *name),
        Expr::Part(name, _, _) => level_in(levels, *name),
        Expr::Plain(_) => 0,
        Expr::Based {
            width: _,
            signed: _,
            bits: _,
        } => 0,
        Expr::Cat(members) => greatest_of(levels, members),
        Expr::Not(a) => greatest(levels, a),
        Expr::Binary(_, a, b) => greatest(levels, a).max(greatest(levels, b)),
        Expr::Shift(_, a, _) => greatest(levels, a),
        Expr::Cond(condition, a, b) => {
            greatest(levels, condition).max(greatest(levels, a).max(greatest(levels, b)))
        }
    }
}

#[cycle(greatest)]
fn greatest_of(levels: &[usize], members: &[Expr]) -> usize
    ensures { result ≡ greatest_of (level_in levels.now) (trees_view members.now) }
{
    let mut most = 0usize;
    for member in members {
        most = most.max(greatest(levels, member));
    }
    most
}

// Gives each wire its level, in this order.
fn fill(design: &Module, order: &[usize], levels: &mut [usize])
    requires driven { IsDrivenOnce (design_view design.now) }
    requires order { IsEvaluationOrder (circuit_of (design_view design.now)) order.now }
    requires named { AreNamed (design_view design.now) (length levels.old) }
    requires zero { (n : ℕ) → level_in levels.old n ≡ 0 }
    ensures { HasLevels (design_view design.now) (level_in levels.new) }
{
    for place in order {
        let assign = &design.assigns.as_slice()[*place];
        let level = greatest(levels, &assign.value) + 1;
        levels[assign.target] = level;
    }
}

// The levels by the numbers of names.
pub(crate) fn name_levels(
    alloc: Global,
    design: &Module,
    count: usize,
) -> Result<Vec<usize>, Memory>
    requires driven { IsDrivenOnce (design_view design.now) }
    requires free { IsLoopFree (design_view design.now) }
    requires named { AreNamed (design_view design.now) count }
    ensures { IfOk result (λ levels. HasLevels (design_view design.now) (level_in levels.items)) }
{
    let placed = place_all(alloc, design, count)?;
    let mut levels = Vec::from_elem(alloc, 0usize, count)?;
    fill(design, &placed.order, &mut levels);
    Ok(levels)
}

/// The level of each signal, in the order of the declarations, of a module that passes the checks. It is 0 for what no assignment
/// drives. For a wire or output it is one more than the greatest level of the names that its expression reads, and 1 where it reads
/// none. Fails only for want of memory.
pub fn levels(alloc: Global, design: &Module) -> Result<Vec<usize>, Memory>
    requires { Passes (design_view design.now) }
    ensures { IfOk result (λ levels. AreLevelsOf (design_view design.now) levels.items) }
{
    let Some(count) = target_count(design) else {
        return Err(Memory);
    };
    let by_name = name_levels(alloc, design, count)?;
    let mut levels = Vec::new(alloc);
    for signal in design.signals.as_slice() {
        levels.push(level_in(&by_name, signal.name))?;
    }
    Ok(levels)
}

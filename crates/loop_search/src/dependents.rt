// Whether a name depends on itself.

ghost use Rattle.std.specs.Prelude.{◌≡◌, ◌<◌, true, false, length, IfOk, MatchBool};
ghost use Rattle.verilog_tree.specs.Checks.{DependsOnItself};
ghost use Rattle.verilog_tree.specs.View.{design_view};
ghost use Rattle.settle_order.specs.Placing.{AreNamed, opened_of, reads_open, count_open};
ghost use Rattle.loop_search.specs.Dependents.{AreDependents, AreAllDependents, ReadsItself};

use mr_values::Memory;
use settle_order::{is_open, reads_open};
use std::alloc::Global;
use verilog_tree::Module;

// Marks the target of each assignment that reads a marked name. Tells whether it marked any.
fn mark_readers(design: &Module, marked: &mut [bool]) -> bool
    requires named { AreNamed (design_view design.now) (length marked.old) }
    ensures dependents { AreDependents (design_view design.now) (opened_of marked.old) (opened_of marked.new) }
    ensures more { result ≡ true → count_open marked.old < count_open marked.new }
    ensures all { result ≡ false → AreAllDependents (design_view design.now) (opened_of marked.new) }
{
    let mut progress = false;
    for assign in design.assigns.as_slice() {
        if !is_open(marked, assign.target) && reads_open(&assign.value, marked) {
            marked[assign.target] = true;
            progress = true;
        }
    }
    progress
}

// Marks all names that depend on a marked one.
fn mark_dependents(design: &Module, marked: &mut [bool])
    requires named { AreNamed (design_view design.now) (length marked.old) }
    ensures dependents { AreDependents (design_view design.now) (opened_of marked.old) (opened_of marked.new) }
    ensures all { AreAllDependents (design_view design.now) (opened_of marked.new) }
{
    let mut progress = true;
    while progress {
        progress = mark_readers(design, marked);
    }
}

// Whether an assignment to a name reads a marked name.
fn reads_itself(design: &Module, name: usize, marked: &[bool]) -> bool
    ensures { MatchBool result (ReadsItself (design_view design.now) name (opened_of marked.now)) (ReadsItself (design_view design.now) name (opened_of marked.now) → ⊥) }
{
    for assign in design.assigns.as_slice() {
        if assign.target == name && reads_open(&assign.value, marked) {
            return true;
        }
    }
    false
}

/// Whether a name's value depends on itself, by the names that depend on it. All targets are among the first `count` names.
pub(crate) fn depends_on_itself(
    alloc: Global,
    design: &Module,
    name: usize,
    count: usize,
) -> Result<bool, Memory>
    requires named { AreNamed (design_view design.now) count }
    requires inside { name < count }
    ensures { IfOk result (λ loops. MatchBool loops (DependsOnItself (design_view design.now) name) (DependsOnItself (design_view design.now) name → ⊥)) }
{
    let mut marked = Vec::from_elem(alloc, false, count)?;
    marked[name] = true;
    mark_dependents(design, &mut marked);
    Ok(reads_itself(design, name, &marked))
}

// The uses of names in a module, in text order.

ghost use Rattle.std.specs.Prelude.{◌≡◌, ◌∷◌, IfOk, OnOk, map};
ghost use Rattle.verilog_tree.specs.Checks.{tree_uses, trees_uses, action_uses, actions_uses, uses};
ghost use Rattle.verilog_tree.specs.View.{tree_view, trees_view, action_view, actions_view, design_view};
ghost use Rattle.verilog_check.specs.Adding.{Adds};
ghost use Rattle.verilog_check.specs.Uses.{use_view};

use mr_values::Memory;
use std::alloc::Global;
use verilog_tree::{Expr, Module, Stmt};

/// Where a name stands outside its declaration.
#[derive(Clone, Copy)]
pub(crate) enum Use {
    /// On the left of an `assign`.
    Assigned { name: usize },
    /// On the left of `<=`.
    Given { name: usize },
    /// In an expression, as a whole.
    Read { name: usize },
    /// In an expression, from a high place down to a low one.
    Selected { name: usize, high: u32, low: u32 },
}

impl Use {
    ghost use Rattle.verilog_tree.specs.Checks.{used_name};

    /// The name that is used.
    pub(crate) fn name(self) -> usize
        ensures { result ≡ used_name (use_view self) }
    {
        match self {
            Use::Assigned { name } => name,
            Use::Given { name } => name,
            Use::Read { name } => name,
            Use::Selected {
                name,
                high: _,
                low: _,
            } => name,
        }
    }
}

fn add(uses: &mut Vec<Use>, used: Use) -> Result<(), Memory>
    ensures { OnOk result (Adds use_view (λ rest. use_view used ∷ rest) uses.old.items uses.new.items) }
{
    uses.push(used)?;
    Ok(())
}

// Adds the uses of names in an expression.
#[cycle(add_reads)]
fn add_reads(uses: &mut Vec<Use>, expr: &Expr) -> Result<(), Memory>
    ensures { OnOk result (Adds use_view (tree_uses (tree_view expr.now)) uses.old.items uses.new.items) }
{
    match expr {
        Expr::Name(name) => add(uses, Use::Read { name: *name }),
        Expr::Bit(name, place) => add(
            uses,
            Use::Selected {
                name: *name,
                high: *place,
                low: *place,
            },
        ),
        Expr::Part(name, high, low) => add(
            uses,
            Use::Selected {
                name: *name,
                high: *high,
                low: *low,
            },
        ),
        Expr::Plain(_) => Ok(()),
        Expr::Based {
            width: _,
            signed: _,
            bits: _,
        } => Ok(()),
        Expr::Cat(members) => add_all_reads(uses, members),
        Expr::Not(a) => add_reads(uses, a),
        Expr::Binary(_, a, b) => {
            add_reads(uses, a)?;
            add_reads(uses, b)
        }
        Expr::Shift(_, a, _) => add_reads(uses, a),
        Expr::Cond(condition, a, b) => {
            add_reads(uses, condition)?;
            add_reads(uses, a)?;
            add_reads(uses, b)
        }
    }
}

#[cycle(add_reads)]
fn add_all_reads(uses: &mut Vec<Use>, members: &[Expr]) -> Result<(), Memory>
    ensures { OnOk result (Adds use_view (trees_uses (trees_view members.now)) uses.old.items uses.new.items) }
{
    for member in members {
        add_reads(uses, member)?;
    }
    Ok(())
}

// Adds the uses of names in a statement.
#[cycle(add_uses)]
fn add_uses(uses: &mut Vec<Use>, statement: &Stmt) -> Result<(), Memory>
    ensures { OnOk result (Adds use_view (action_uses (action_view statement.now)) uses.old.items uses.new.items) }
{
    match statement {
        Stmt::Block(parts) => add_all_uses(uses, parts),
        Stmt::If(condition, first, second) => {
            add_reads(uses, condition)?;
            add_uses(uses, first)?;
            match second {
                Some(other) => add_uses(uses, other),
                None => Ok(()),
            }
        }
        Stmt::Set(target, value) => {
            add(uses, Use::Given { name: *target })?;
            add_reads(uses, value)
        }
    }
}

#[cycle(add_uses)]
fn add_all_uses(uses: &mut Vec<Use>, statements: &[Stmt]) -> Result<(), Memory>
    ensures { OnOk result (Adds use_view (actions_uses (actions_view statements.now)) uses.old.items uses.new.items) }
{
    for statement in statements {
        add_uses(uses, statement)?;
    }
    Ok(())
}

/// The uses of names in a module. Fails only for want of memory.
pub(crate) fn uses_of(alloc: Global, design: &Module) -> Result<Vec<Use>, Memory>
    ensures { IfOk result (λ all. map use_view all.items ≡ uses (design_view design.now)) }
{
    let mut uses = Vec::new(alloc);
    for assign in design.assigns.as_slice() {
        add(
            &mut uses,
            Use::Assigned {
                name: assign.target,
            },
        )?;
        add_reads(&mut uses, &assign.value)?;
    }
    for block in design.blocks.as_slice() {
        add_uses(&mut uses, block)?;
    }
    Ok(uses)
}

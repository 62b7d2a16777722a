// Expressions of more than 128 bits.

ghost use Rattle.std.specs.Prelude.{◌≡◌, ◌-◌, ◌^◌, ◌||◌, min};
ghost use Rattle.std.specs.Option.{option_map};
ghost use Rattle.verilog_tree.specs.Meaning.{is_comparison, length_of, total_length};
ghost use Rattle.verilog_tree.specs.Names.{shapes_of};
ghost use Rattle.verilog_tree.specs.Checks.{is_over, has_over, any_over, action_sides, actions_sides, sides};
ghost use Rattle.verilog_tree.specs.View.{tree_view, trees_view, action_view, actions_view, design_view};
ghost use Rattle.verilog_check.specs.Telling.{Tells};
ghost use Rattle.verilog_check.specs.Widths.{told_view, first_told, FindsOver};

use crate::declared::{Declared, declaration};
use crate::signal_checks::is_over;
use verilog_tree::{Expr, Op, Stmt};

/// What is told for an expression.
#[derive(Clone, Copy)]
pub(crate) enum Told {
    /// The name `clk`, for a condition.
    Clock,
    /// The name to which a right side is assigned.
    Target(usize),
}

// The length of an expression, or `u32::MAX` for a greater one, and whether it or a part of it has more than 128 bits.
#[derive(Clone, Copy)]
struct Extent {
    length: u32,
    over: bool,
}

fn whole(length: u32) -> Extent
    ensures length { result.length ≡ length }
    ensures over { result.over ≡ is_over length }
{
    Extent {
        length,
        over: is_over(length),
    }
}

fn is_comparison(op: Op) -> bool
    ensures { result ≡ is_comparison op }
{
    match op {
        Op::Less | Op::LessEqual | Op::Greater | Op::GreaterEqual | Op::Equal | Op::NotEqual =>
            true,
        Op::Add | Op::Sub | Op::And | Op::Xor | Op::Or => false,
    }
}

// The declared length of a name, and 1 without a declaration.
fn width_of(declared: &Declared<'_>, name: usize) -> u32
    requires { Tells declared.now }
    ensures { result ≡ (shapes_of (design_view declared.now.design.now)).width name }
{
    match declaration(declared, name) {
        Some(signal) => signal.width,
        None => 1,
    }
}

#[cycle(extent_of)]
fn extent_of(declared: &Declared<'_>, expr: &Expr) -> Extent
    requires tells { Tells declared.now }
    ensures length { result.length ≡ min (length_of (shapes_of (design_view declared.now.design.now)) (tree_view expr.now)) (2 ^ 32 - 1) }
    ensures over { result.over ≡ has_over (shapes_of (design_view declared.now.design.now)) (tree_view expr.now) }
{
    match expr {
        Expr::Name(name) => whole(width_of(declared, *name)),
        Expr::Bit(..) => whole(1),
        Expr::Part(_, high, low) => whole(high.saturating_sub(*low).saturating_add(1)),
        Expr::Plain(_) => whole(32),
        Expr::Based {
            width,
            signed: _,
            bits: _,
        } => whole(u32::from(*width)),
        Expr::Cat(members) => total_extent(declared, members),
        Expr::Not(a) => extent_of(declared, a),
        Expr::Binary(op, a, b) => {
            let first = extent_of(declared, a);
            let second = extent_of(declared, b);
            let length = if is_comparison(*op) {
                1
            } else {
                first.length.max(second.length)
            };
            Extent {
                length,
                over: first.over || second.over,
            }
        }
        Expr::Shift(_, a, _) => extent_of(declared, a),
        Expr::Cond(condition, a, b) => {
            let test = extent_of(declared, condition);
            let first = extent_of(declared, a);
            let second = extent_of(declared, b);
            Extent {
                length: first.length.max(second.length),
                over: test.over || (first.over || second.over),
            }
        }
    }
}

// The extent of a concatenation.
#[cycle(extent_of)]
fn total_extent(declared: &Declared<'_>, members: &[Expr]) -> Extent
    requires tells { Tells declared.now }
    ensures length { result.length ≡ min (total_length (shapes_of (design_view declared.now.design.now)) (trees_view members.now)) (2 ^ 32 - 1) }
    ensures over { result.over ≡ (any_over (shapes_of (design_view declared.now.design.now)) (trees_view members.now) || is_over (total_length (shapes_of (design_view declared.now.design.now)) (trees_view members.now))) }
{
    let mut length = 0u32;
    let mut over = false;
    for member in members {
        let part = extent_of(declared, member);
        length = length.saturating_add(part.length);
        over = over || part.over;
    }
    Extent {
        length,
        over: over || is_over(length),
    }
}

// What is told for the first expression of a statement that has more than 128 bits.
#[cycle(first_over)]
fn first_over(declared: &Declared<'_>, statement: &Stmt) -> Option<Told>
    requires tells { Tells declared.now }
    ensures { FindsOver (design_view declared.now.design.now) (action_sides (design_view declared.now.design.now) (action_view statement.now)) (option_map (told_view (design_view declared.now.design.now)) result) }
{
    match statement {
        Stmt::Block(parts) => first_over_of(declared, parts),
        Stmt::If(condition, first, second) => {
            if extent_of(declared, condition).over {
                return Some(Told::Clock);
            }
            match first_over(declared, first) {
                Some(told) => Some(told),
                None => match second {
                    Some(other) => first_over(declared, other),
                    None => None,
                },
            }
        }
        Stmt::Set(target, value) => {
            if extent_of(declared, value).over {
                Some(Told::Target(*target))
            } else {
                None
            }
        }
    }
}

#[cycle(first_over)]
fn first_over_of(declared: &Declared<'_>, statements: &[Stmt]) -> Option<Told>
    requires tells { Tells declared.now }
    ensures { FindsOver (design_view declared.now.design.now) (actions_sides (design_view declared.now.design.now) (actions_view statements.now)) (option_map (told_view (design_view declared.now.design.now)) result) }
{
    for statement in statements {
        if let Some(told) = first_over(declared, statement) {
            return Some(told);
        }
    }
    None
}

/// What is told for the first expression of a module that has more than 128 bits.
pub(crate) fn first_side_over(declared: &Declared<'_>) -> Option<Told>
    requires { Tells declared.now }
    ensures { option_map (told_view (design_view declared.now.design.now)) result ≡ first_told (design_view declared.now.design.now) (sides (design_view declared.now.design.now)) }
{
    for assign in declared.design.assigns.as_slice() {
        if extent_of(declared, &assign.value).over {
            return Some(Told::Target(assign.target));
        }
    }
    for block in declared.design.blocks.as_slice() {
        if let Some(told) = first_over(declared, block) {
            return Some(told);
        }
    }
    None
}

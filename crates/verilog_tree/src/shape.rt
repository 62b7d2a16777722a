// Lengths and signs of expressions.
ghost use Rattle.std.specs.Prelude.{◌≡◌, ℕ, Bool, ◌^◌, ◌-◌, min, map};
ghost use Rattle.verilog_tree.specs.Meaning.{Shapes, is_comparison, length_of, total_length, signed_of};
ghost use Rattle.verilog_tree.specs.Names.{shapes_of, shapes_in, declaration_in};
ghost use Rattle.verilog_tree.specs.View.{tree_view, trees_view, design_view};
ghost use Rattle.std.specs.Option.{option_copied};

use crate::tree::{Expr, Module, Op, Signal};

/// What tells the declared lengths and signs of names.
pub trait Declarations {
    ghost shapes: { Self → Shapes };

    /// The declared length of a name in bits; 1 without a declaration.
    fn width_of(&self, name: usize) -> u32
        ensures { result ≡ (shapes self.now).width name };

    /// Whether a name is declared as signed.
    fn sign_of(&self, name: usize) -> bool
        ensures { result ≡ (shapes self.now).signed name };
}

// The first declaration of a name.
fn declared(design: &Module, name: usize) -> Option<&Signal>
    ensures { option_copied result ≡ declaration_in design.now.signals.items name }
{
    design.signals.iter().find(|s| s.name == name)
}

impl Declarations for Module {
    ghost shapes = { λ m. shapes_in m.signals.items };

    fn width_of(&self, name: usize) -> u32 {
        match declared(self, name) {
            Some(signal) => signal.width,
            None => 1,
        }
    }

    fn sign_of(&self, name: usize) -> bool {
        match declared(self, name) {
            Some(signal) => signal.signed,
            None => false,
        }
    }
}

/// Whether an operator compares.
pub(crate) fn is_comparison(op: Op) -> bool
    ensures { result ≡ is_comparison op }
{
    match op {
        Op::Less | Op::LessEqual | Op::Greater | Op::GreaterEqual | Op::Equal | Op::NotEqual =>
            true,
        Op::Add | Op::Sub | Op::And | Op::Xor | Op::Or => false,
    }
}

// Whether an expression is signed.
pub(crate) fn sign_in<D: Declarations>(declarations: &D, expr: &Expr) -> bool
    ensures { result ≡ signed_of (D.shapes declarations.now) (tree_view expr.now) }
{
    match expr {
        Expr::Name(name) => declarations.sign_of(*name),
        Expr::Bit(..) | Expr::Part(..) | Expr::Cat(_) => false,
        Expr::Plain(_) => true,
        Expr::Based {
            width: _,
            signed,
            bits: _,
        } => *signed,
        Expr::Not(a) => sign_in(declarations, a),
        Expr::Binary(op, a, b) => {
            !is_comparison(*op) && sign_in(declarations, a) && sign_in(declarations, b)
        }
        Expr::Shift(_, a, _) => sign_in(declarations, a),
        Expr::Cond(_, a, b) => sign_in(declarations, a) && sign_in(declarations, b),
    }
}

// The length of an expression, or `u32::MAX` for a greater one.
#[cycle(length)]
pub(crate) fn length_in<D: Declarations>(declarations: &D, expr: &Expr) -> u32
    ensures { result ≡ min (length_of (D.shapes declarations.now) (tree_view expr.now)) (2 ^ 32 - 1) }
{
    match expr {
        Expr::Name(name) => declarations.width_of(*name),
        Expr::Bit(..) => 1,
        Expr::Part(_, high, low) => high.saturating_sub(*low).saturating_add(1),
        Expr::Plain(_) => 32,
        Expr::Based {
            width,
            signed: _,
            bits: _,
        } => u32::from(*width),
        Expr::Cat(members) => total_in(declarations, members),
        Expr::Not(a) => length_in(declarations, a),
        Expr::Binary(op, a, b) => {
            if is_comparison(*op) {
                1
            } else {
                length_in(declarations, a).max(length_in(declarations, b))
            }
        }
        Expr::Shift(_, a, _) => length_in(declarations, a),
        Expr::Cond(_, a, b) => length_in(declarations, a).max(length_in(declarations, b)),
    }
}

// The length of the members of a concatenation, or `u32::MAX` for a greater one.
#[cycle(length)]
pub(crate) fn total_in<D: Declarations>(declarations: &D, members: &[Expr]) -> u32
    ensures { result ≡ min (total_length (D.shapes declarations.now) (trees_view members.now)) (2 ^ 32 - 1) }
{
    let mut total = 0u32;
    for member in members {
        total = total.saturating_add(length_in(declarations, member));
    }
    total
}

/// The length of an expression in bits, or `u32::MAX` for a greater one (IEEE 1364-2001, 4.4.1). A part-select whose
/// high place is below its low one counts as 1.
pub fn length(design: &Module, expr: &Expr) -> u32
    ensures { result ≡ min (length_of (shapes_of (design_view design.now)) (tree_view expr.now)) (2 ^ 32 - 1) }
{
    length_in(design, expr)
}

/// Whether an expression is signed (IEEE 1364-2001, 4.5.1).
pub fn is_signed(design: &Module, expr: &Expr) -> bool
    ensures { result ≡ signed_of (shapes_of (design_view design.now)) (tree_view expr.now) }
{
    sign_in(design, expr)
}

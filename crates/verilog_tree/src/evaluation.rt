// The plain program for the value of an expression.
ghost use Rattle.std.specs.Prelude.{◌≡◌, ℕ, Bool, ◌^◌, ◌<◌, ◌≤◌, IsTrue, slice_index};
ghost use Rattle.verilog_tree.specs.Meaning.{Shapes, FitNames, IsFitting, all_fit, assigned, binary_length, fits, is_comparison, joined_bits, length_of, operand_length, operand_signed, signed_of, total_length, value};
ghost use Rattle.verilog_tree.specs.View.{tree_view, trees_view};

use crate::bits::{all_ones, append, extend, low_bits, operate, shift};
use crate::shape::{Declarations, is_comparison, length_in, sign_in};
use crate::tree::{Expr, Op};

// The value of a name, by its number.
fn value_of(values: &[u128], name: usize) -> u128
    ensures { result ≡ slice_index values.now name }
{
    if name < values.len() { values[name] } else { 0 }
}

/// The length and the sign that are handed down to an expression.
#[derive(Clone, Copy, PartialEq, Eq, Debug)]
pub struct Context {
    pub length: u32,
    pub signed: bool,
}

// What a binary operator hands down to its operands.
fn operands<D: Declarations>(
    declarations: &D,
    op: Op,
    a: &Expr,
    b: &Expr,
    context: Context,
) -> Context
    requires first { IsFitting (length_of (D.shapes declarations.now) (tree_view a.now)) }
    requires second { IsFitting (length_of (D.shapes declarations.now) (tree_view b.now)) }
    requires wide { binary_length (is_comparison op) (length_of (D.shapes declarations.now) (tree_view a.now)) (length_of (D.shapes declarations.now) (tree_view b.now)) ≤ context.length }
    requires limit { context.length ≤ 128 }
    ensures length { result.length ≡ operand_length (is_comparison op) (length_of (D.shapes declarations.now) (tree_view a.now)) (length_of (D.shapes declarations.now) (tree_view b.now)) context.length }
    ensures signed { result.signed ≡ operand_signed (is_comparison op) (signed_of (D.shapes declarations.now) (tree_view a.now)) (signed_of (D.shapes declarations.now) (tree_view b.now)) context.signed }
    ensures fitting { IsFitting result.length }
    ensures first { length_of (D.shapes declarations.now) (tree_view a.now) ≤ result.length }
    ensures second { length_of (D.shapes declarations.now) (tree_view b.now) ≤ result.length }
{
    if is_comparison(op) {
        Context {
            length: length_in(declarations, a).max(length_in(declarations, b)),
            signed: sign_in(declarations, a) && sign_in(declarations, b),
        }
    } else {
        context
    }
}

/// The bits of an expression at a length of at most 128 and a sign that are handed down (IEEE 1364-2001, 4.4 and 4.5),
/// from the bits of the names, by their numbers.
#[cycle(evaluate)]
pub fn evaluate<D: Declarations>(
    declarations: &D,
    expr: &Expr,
    context: Context,
    values: &[u128],
) -> u128
    requires names { FitNames (D.shapes declarations.now) (λ n. slice_index values.now n) }
    requires fits { IsTrue (fits (D.shapes declarations.now) (tree_view expr.now)) }
    requires wide { length_of (D.shapes declarations.now) (tree_view expr.now) ≤ context.length }
    requires limit { context.length ≤ 128 }
    ensures value { result ≡ value (D.shapes declarations.now) (tree_view expr.now) (λ n. slice_index values.now n) context.length context.signed }
    ensures small { result < 2 ^ context.length }
{
    match expr {
        Expr::Name(name) => {
            let bits = value_of(values, *name);
            let width = declarations.width_of(*name);
            extend(width, context.length, context.signed, bits)
        }
        Expr::Bit(name, place) => {
            let bits = low_bits(value_of(values, *name) >> *place, 1);
            extend(1, context.length, context.signed, bits)
        }
        Expr::Part(name, high, low) => {
            let width = *high - *low + 1;
            let bits = low_bits(value_of(values, *name) >> *low, width);
            extend(width, context.length, context.signed, bits)
        }
        Expr::Plain(number) => extend(32, context.length, context.signed, u128::from(*number)),
        Expr::Based {
            width,
            signed: _,
            bits,
        } => extend(u32::from(*width), context.length, context.signed, *bits),
        Expr::Cat(members) => {
            let bits = joined(declarations, members, values);
            let width = length_in(declarations, expr);
            extend(width, context.length, context.signed, bits)
        }
        Expr::Not(a) => all_ones(context.length) - evaluate(declarations, a, context, values),
        Expr::Binary(op, a, b) => {
            let inner = operands(declarations, *op, a, b, context);
            let first = evaluate(declarations, a, inner, values);
            let second = evaluate(declarations, b, inner, values);
            operate(*op, inner.signed, inner.length, first, second)
        }
        Expr::Shift(op, a, amount) => {
            let bits = evaluate(declarations, a, context, values);
            shift(*op, context.signed, context.length, *amount, bits)
        }
        Expr::Cond(condition, a, b) => {
            if alone(declarations, condition, values) == 0 {
                evaluate(declarations, b, context, values)
            } else {
                evaluate(declarations, a, context, values)
            }
        }
    }
}

/// The bits of an expression by itself: at its own length and sign.
#[cycle(evaluate)]
pub fn alone<D: Declarations>(declarations: &D, expr: &Expr, values: &[u128]) -> u128
    requires names { FitNames (D.shapes declarations.now) (λ n. slice_index values.now n) }
    requires fits { IsTrue (fits (D.shapes declarations.now) (tree_view expr.now)) }
    ensures value { result ≡ value (D.shapes declarations.now) (tree_view expr.now) (λ n. slice_index values.now n) (length_of (D.shapes declarations.now) (tree_view expr.now)) (signed_of (D.shapes declarations.now) (tree_view expr.now)) }
    ensures small { result < 2 ^ length_of (D.shapes declarations.now) (tree_view expr.now) }
{
    let context = Context {
        length: length_in(declarations, expr),
        signed: sign_in(declarations, expr),
    };
    evaluate(declarations, expr, context, values)
}

/// The bits of a right side: evaluated at the greater of its own length and its target's, and cut to the target's.
pub fn assigned<D: Declarations>(
    declarations: &D,
    target: usize,
    expr: &Expr,
    values: &[u128],
) -> u128
    requires names { FitNames (D.shapes declarations.now) (λ n. slice_index values.now n) }
    requires width { IsFitting ((D.shapes declarations.now).width target) }
    requires fits { IsTrue (fits (D.shapes declarations.now) (tree_view expr.now)) }
    ensures value { result ≡ assigned (D.shapes declarations.now) (λ n. slice_index values.now n) target (tree_view expr.now) }
    ensures small { result < 2 ^ (D.shapes declarations.now).width target }
{
    let width = declarations.width_of(target);
    let context = Context {
        length: length_in(declarations, expr).max(width),
        signed: sign_in(declarations, expr),
    };
    low_bits(evaluate(declarations, expr, context, values), width)
}

// The bits of the members, the first the highest.
#[cycle(evaluate)]
fn joined<D: Declarations>(declarations: &D, members: &[Expr], values: &[u128]) -> u128
    requires names { FitNames (D.shapes declarations.now) (λ n. slice_index values.now n) }
    requires fits { IsTrue (all_fit (D.shapes declarations.now) (trees_view members.now)) }
    requires limit { total_length (D.shapes declarations.now) (trees_view members.now) ≤ 128 }
    ensures value { result ≡ joined_bits (D.shapes declarations.now) (trees_view members.now) (λ n. slice_index values.now n) }
    ensures small { result < 2 ^ total_length (D.shapes declarations.now) (trees_view members.now) }
{
    let mut bits = 0u128;
    for member in members {
        let width = length_in(declarations, member);
        let more = alone(declarations, member, values);
        bits = append(bits, width, more);
    }
    bits
}

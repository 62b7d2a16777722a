// The checks of the uses of names.

ghost use Rattle.std.specs.Prelude.{◌≡◌, map, find};
ghost use Rattle.std.specs.Option.{option_map};
ghost use Rattle.verilog_tree.specs.Checks.{used_name, can_be_assigned, can_be_given, is_of_kind, is_declared, is_clock, is_wrong_use, is_bad_select};
ghost use Rattle.verilog_tree.specs.View.{design_view};
ghost use Rattle.verilog_check.specs.Telling.{Tells};
ghost use Rattle.verilog_check.specs.Uses.{use_view, is_failing};

use crate::declared::{Declared, declaration, text_of};
use crate::uses::Use;
use verilog_tree::Kind;

/// A check that uses of names pass one by one.
#[derive(Clone, Copy)]
pub(crate) enum UseCheck {
    /// The name is declared.
    Undeclared,
    /// The name is used as what it is.
    WrongKind,
    /// The bits that are selected are there.
    BadSelect,
}

fn can_be_assigned(kind: Kind) -> bool
    ensures { result ≡ can_be_assigned kind }
{
    match kind {
        Kind::Output | Kind::Wire => true,
        Kind::Input | Kind::Reg => false,
    }
}

fn can_be_given(kind: Kind) -> bool
    ensures { result ≡ can_be_given kind }
{
    match kind {
        Kind::Reg => true,
        Kind::Input | Kind::Output | Kind::Wire => false,
    }
}

fn is_declared(declared: &Declared<'_>, name: usize) -> bool
    requires { Tells declared.now }
    ensures { result ≡ is_declared (design_view declared.now.design.now) name }
{
    declaration(declared, name).is_some()
}

// Whether a name is of a kind that an `assign` drives.
fn is_assignable(declared: &Declared<'_>, name: usize) -> bool
    requires { Tells declared.now }
    ensures { result ≡ is_of_kind can_be_assigned (design_view declared.now.design.now) name }
{
    match declaration(declared, name) {
        Some(signal) => can_be_assigned(signal.kind),
        None => false,
    }
}

// Whether a name is of a kind that `<=` sets.
fn is_settable(declared: &Declared<'_>, name: usize) -> bool
    requires { Tells declared.now }
    ensures { result ≡ is_of_kind can_be_given (design_view declared.now.design.now) name }
{
    match declaration(declared, name) {
        Some(signal) => can_be_given(signal.kind),
        None => false,
    }
}

fn is_clock(declared: &Declared<'_>, name: usize) -> bool
    ensures { result ≡ is_clock (design_view declared.now.design.now) name }
{
    text_of(declared.design, name) == "clk"
}

fn is_wrong_use(declared: &Declared<'_>, used: Use) -> bool
    requires { Tells declared.now }
    ensures { result ≡ is_wrong_use (design_view declared.now.design.now) (use_view used) }
{
    match used {
        Use::Assigned { name } => !is_assignable(declared, name),
        Use::Given { name } => !is_settable(declared, name),
        Use::Read { name } => is_clock(declared, name),
        Use::Selected {
            name,
            high: _,
            low: _,
        } => is_clock(declared, name),
    }
}

// Whether bits are selected that are not there.
fn is_bad_select(declared: &Declared<'_>, used: Use) -> bool
    requires { Tells declared.now }
    ensures { result ≡ is_bad_select (design_view declared.now.design.now) (use_view used) }
{
    match used {
        Use::Selected { name, high, low } => match declaration(declared, name) {
            Some(signal) => !(signal.ranged && (high < signal.width && low <= high)),
            None => true,
        },
        Use::Assigned { name: _ } => false,
        Use::Given { name: _ } => false,
        Use::Read { name: _ } => false,
    }
}

fn is_failing(declared: &Declared<'_>, check: UseCheck, used: Use) -> bool
    requires { Tells declared.now }
    ensures { result ≡ is_failing check (design_view declared.now.design.now) (use_view used) }
{
    match check {
        UseCheck::Undeclared => !is_declared(declared, used.name()),
        UseCheck::WrongKind => is_wrong_use(declared, used),
        UseCheck::BadSelect => is_bad_select(declared, used),
    }
}

/// The name of the first use that fails a check.
pub(crate) fn first_failing(declared: &Declared<'_>, check: UseCheck, uses: &[Use]) -> Option<usize>
    requires { Tells declared.now }
    ensures { result ≡ option_map used_name (find (is_failing check (design_view declared.now.design.now)) (map use_view uses.now)) }
{
    for used in uses {
        if is_failing(declared, check, *used) {
            return Some(used.name());
        }
    }
    None
}

// The checks before that of loops.

ghost use Rattle.std.specs.Prelude.{◌≡◌, IfOk, map};
ghost use Rattle.std.specs.Option.{option_map};
ghost use Rattle.verilog_tree.specs.Names.{text_of};
ghost use Rattle.verilog_tree.specs.Checks as checks;
ghost use Rattle.verilog_tree.specs.Checks.{declarations, wrong_port, width_over, early_fault};
ghost use Rattle.verilog_tree.specs.View.{design_view};
ghost use Rattle.verilog_check.specs.Early.{name_fault, size_fault, driver_fault};
ghost use Rattle.verilog_check.specs.Faces.{face_of};
ghost use Rattle.verilog_check.specs.Telling.{Tells};
ghost use Rattle.verilog_check.specs.Uses.{use_view};
ghost use Rattle.verilog_check.specs.Widths.{told_view};

use crate::declared::{Declared, declared_in, text_of};
use crate::drives::{drives_of, first_shared};
use crate::face::Face;
use crate::repeats::first_redeclared;
use crate::signal_checks::{first_missing_port, first_over, first_undriven, first_wrong_port};
use crate::use_checks::{UseCheck, first_failing};
use crate::uses::{Use, uses_of};
use crate::widths::{Told, first_side_over};
use mr_values::{Memory, Text};
use std::alloc::Global;
use verilog_tree::{Module, ModuleFault, Signal};

/// A copy of the text of a name.
pub(crate) fn name_text(alloc: Global, design: &Module, name: usize) -> Result<Text, Memory>
    ensures { IfOk result (λ text. text ≡ text_of (design_view design.now) name) }
{
    Text::from_str(alloc, text_of(design, name))
}

// A copy of what is told for an expression.
fn told_text(alloc: Global, design: &Module, told: Told) -> Result<Text, Memory>
    ensures { IfOk result (λ text. text ≡ told_view (design_view design.now) told) }
{
    match told {
        Told::Clock => Text::from_str(alloc, "clk"),
        Told::Target(name) => name_text(alloc, design, name),
    }
}

// The first port that is wrong or missing.
fn port_fault(
    alloc: Global,
    face: Face,
    design: &Module,
    ordered: &[Signal],
) -> Result<Option<ModuleFault>, Memory>
    requires { ordered.now ≡ declarations (design_view design.now) }
    ensures { IfOk result (λ fault. fault ≡ option_map ModuleFault.PortShape (wrong_port (face_of face) (design_view design.now))) }
{
    if let Some(name) = first_wrong_port(face, design, ordered) {
        let name = name_text(alloc, design, name)?;
        return Ok(Some(ModuleFault::PortShape { name }));
    }
    match first_missing_port(face, design) {
        Some(text) => {
            let name = Text::from_str(alloc, text)?;
            Ok(Some(ModuleFault::PortShape { name }))
        }
        None => Ok(None),
    }
}

// The first declaration or expression that is too long.
fn width_fault(
    alloc: Global,
    declared: &Declared<'_>,
    ordered: &[Signal],
) -> Result<Option<ModuleFault>, Memory>
    requires tells { Tells declared.now }
    requires ordered { ordered.now ≡ declarations (design_view declared.now.design.now) }
    ensures { IfOk result (λ fault. fault ≡ option_map ModuleFault.WidthOver (width_over (design_view declared.now.design.now))) }
{
    if let Some(name) = first_over(ordered) {
        let name = name_text(alloc, declared.design, name)?;
        return Ok(Some(ModuleFault::WidthOver { name }));
    }
    match first_side_over(declared) {
        Some(told) => {
            let name = told_text(alloc, declared.design, told)?;
            Ok(Some(ModuleFault::WidthOver { name }))
        }
        None => Ok(None),
    }
}

// The first drive or declaration that fails a check of drivers.
fn driver_fault(
    alloc: Global,
    design: &Module,
    ordered: &[Signal],
) -> Result<Option<ModuleFault>, Memory>
    requires { ordered.now ≡ declarations (design_view design.now) }
    ensures { IfOk result (λ fault. fault ≡ driver_fault (design_view design.now)) }
{
    let drives = drives_of(alloc, design)?;
    if let Some(name) = first_shared(alloc, &drives)? {
        let name = name_text(alloc, design, name)?;
        return Ok(Some(ModuleFault::ManyDrivers { name }));
    }
    match first_undriven(alloc, &drives, ordered)? {
        Some(name) => {
            let name = name_text(alloc, design, name)?;
            Ok(Some(ModuleFault::NoDriver { name }))
        }
        None => Ok(None),
    }
}

// The first fault of the checks from that of lengths on.
fn size_fault(
    alloc: Global,
    declared: &Declared<'_>,
    ordered: &[Signal],
    uses: &[Use],
) -> Result<Option<ModuleFault>, Memory>
    requires tells { Tells declared.now }
    requires ordered { ordered.now ≡ declarations (design_view declared.now.design.now) }
    requires uses { map use_view uses.now ≡ checks.uses (design_view declared.now.design.now) }
    ensures { IfOk result (λ fault. fault ≡ size_fault (design_view declared.now.design.now)) }
{
    if let Some(fault) = width_fault(alloc, declared, ordered)? {
        return Ok(Some(fault));
    }
    if let Some(name) = first_failing(declared, UseCheck::BadSelect, uses) {
        let name = name_text(alloc, declared.design, name)?;
        return Ok(Some(ModuleFault::BadSelect { name }));
    }
    driver_fault(alloc, declared.design, ordered)
}

// The first fault of the checks from that of undeclared names on.
fn name_fault(
    alloc: Global,
    face: Face,
    declared: &Declared<'_>,
    ordered: &[Signal],
    uses: &[Use],
) -> Result<Option<ModuleFault>, Memory>
    requires tells { Tells declared.now }
    requires ordered { ordered.now ≡ declarations (design_view declared.now.design.now) }
    requires uses { map use_view uses.now ≡ checks.uses (design_view declared.now.design.now) }
    ensures { IfOk result (λ fault. fault ≡ name_fault (face_of face) (design_view declared.now.design.now)) }
{
    if let Some(name) = first_failing(declared, UseCheck::Undeclared, uses) {
        let name = name_text(alloc, declared.design, name)?;
        return Ok(Some(ModuleFault::Undeclared { name }));
    }
    if let Some(fault) = port_fault(alloc, face, declared.design, ordered)? {
        return Ok(Some(fault));
    }
    if let Some(name) = first_failing(declared, UseCheck::WrongKind, uses) {
        let name = name_text(alloc, declared.design, name)?;
        return Ok(Some(ModuleFault::WrongKind { name }));
    }
    size_fault(alloc, declared, ordered, uses)
}

/// The first check before that of loops that a module with the ports of a face fails. Takes the declarations in text order. Fails only
/// for want of memory.
pub(crate) fn early_check(
    alloc: Global,
    face: Face,
    design: &Module,
    ordered: &[Signal],
) -> Result<Option<ModuleFault>, Memory>
    requires { ordered.now ≡ declarations (design_view design.now) }
    ensures { IfOk result (λ fault. fault ≡ early_fault (face_of face) (design_view design.now)) }
{
    if let Some(name) = first_redeclared(alloc, ordered)? {
        let name = name_text(alloc, design, name)?;
        return Ok(Some(ModuleFault::Redeclared { name }));
    }
    let declared = declared_in(alloc, design)?;
    let uses = uses_of(alloc, design)?;
    name_fault(alloc, face, &declared, ordered, &uses)
}

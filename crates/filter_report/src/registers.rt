// The lines of the registers.
ghost use Rattle.std.specs.Prelude.{◌≡◌, ◌++◌, OnOk};
ghost use Rattle.verilog_tree.specs.Names.{text_of};
ghost use Rattle.verilog_tree.specs.View.{design_view};
ghost use Rattle.filter_text.specs.Extremes.{told_at};
ghost use Rattle.filter_report.specs.Report.{register_line, register_lines};

use crate::extremes::{extreme_at, put_extreme};
use crate::report::put_number;
use chain_build::RegisterExtreme;
use std::alloc::AllocError;
use verilog_tree::{Kind, Module, Signal};

// The text of a name, and nothing past the last.
fn name_of(design: &Module, name: usize) -> &[u8]
    ensures { result.now ≡ text_of (design_view design.now) name }
{
    match design.names.get(name) {
        Some(text) => text.as_str().as_bytes(),
        None => &[],
    }
}

// Appends the line of a signal, where it is a register.
fn put_register(
    text: &mut Vec<u8>,
    design: &Module,
    extremes: &[Option<RegisterExtreme>],
    signal: &Signal,
) -> Result<(), AllocError>
    ensures { OnOk result (text.new.items ≡ text.old.items ++ register_line (design_view design.now) (told_at extremes.now) signal.now) }
{
    if signal.kind != Kind::Reg {
        return Ok(());
    }
    text.extend_from_slice(b"register ")?;
    text.extend_from_slice(name_of(design, signal.name))?;
    put_number(text, " ", u128::from(signal.width))?;
    put_extreme(text, extreme_at(extremes, signal.name))?;
    text.extend_from_slice(b"\n")?;
    Ok(())
}

/// Appends a line for each register, in the order of the declarations.
pub(crate) fn put_registers(
    text: &mut Vec<u8>,
    design: &Module,
    extremes: &[Option<RegisterExtreme>],
) -> Result<(), AllocError>
    ensures { OnOk result (text.new.items ≡ text.old.items ++ register_lines (design_view design.now) (told_at extremes.now) (design_view design.now).signals) }
{
    for signal in design.signals.as_slice() {
        put_register(text, design, extremes, signal)?;
    }
    Ok(())
}

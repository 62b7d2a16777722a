// What a module declares, by the numbers of names.

ghost use Rattle.std.specs.Prelude.{◌≡◌, IfOk};
ghost use Rattle.verilog_tree.specs.Names.{declaration_in, text_of};
ghost use Rattle.verilog_tree.specs.View.{design_view};
ghost use Rattle.verilog_check.specs.Telling.{Tells};

use mr_values::Memory;
use std::alloc::Global;
use std::collections::HashMap;
use verilog_tree::{Module, Signal};

/// A module, and the first declaration of each name by its number.
#[derive(Drop)]
pub(crate) struct Declared<'a> {
    pub(crate) design: &'a Module,
    pub(crate) by_name: HashMap<usize, Signal>,
}

/// The declarations of a module by name. Fails only for want of memory.
pub(crate) fn declared_in<'a>(alloc: Global, design: &'a Module) -> Result<Declared<'a>, Memory>
    ensures tells { IfOk result Tells }
    ensures design { IfOk result (λ declared. declared.design.now ≡ design.now) }
{
    let mut by_name = HashMap::new(alloc);
    for signal in design.signals.as_slice() {
        if !by_name.contains_key(&signal.name) {
            by_name.insert(signal.name, *signal)?;
        }
    }
    Ok(Declared { design, by_name })
}

/// The first declaration of a name.
pub(crate) fn declaration(declared: &Declared<'_>, name: usize) -> Option<Signal>
    requires { Tells declared.now }
    ensures { result ≡ declaration_in declared.now.design.now.signals.items name }
{
    declared.by_name.get(&name).copied()
}

/// The text of a name, and none past the last.
pub(crate) fn text_of<'a>(design: &'a Module, name: usize) -> &'a str
    ensures { result.now ≡ text_of (design_view design.now) name }
{
    match design.names.get(name) {
        Some(text) => text.as_str(),
        None => "",
    }
}

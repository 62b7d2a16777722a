// Names of registers, tables and outputs.

ghost use Rattle.std.specs.Prelude.{◌≡◌, ◌≢◌, IfOk};
ghost use Rattle.net_graph.specs.Name.{control_name, group_name, written_name};

use mr_values::{Memory, Text};
use std::alloc::Global;

/// What a named node is for.
#[derive(Clone, Copy, Debug, PartialEq, Eq)]
pub enum NameKind {
    /// A register of control, `ctl_` and a number.
    Control,
    /// A register of a window, `sJ_w` and a number in group J.
    Window,
    /// A copy of a window's register, `sJ_v` and a number.
    Copy,
    /// A pre-adder's register, `sJ_p` and a number.
    PreAdder,
    /// Any other register of a group, `sJ_a` and a number.
    Register,
    /// A wire with a table's sum, `sJ_t` and a number.
    Table,
    /// The output register, `out_q`.
    Output,
    /// The node that is shown as `out_valid`. It is written as a node without a name.
    Valid,
}

/// A node's name. Groups are numbered from 1; names of control, of `out_q` and of the node shown as `out_valid` are in group 0.
#[derive(Clone, Copy, Debug, PartialEq, Eq)]
pub struct Name {
    pub group: u32,
    pub kind: NameKind,
    pub number: usize,
}

// `s`, the group, what stands for the kind, and the number.
fn group_text(alloc: Global, group: u32, kind: &str, number: usize) -> Result<Text, Memory>
    ensures { IfOk result (λ text. text ≡ group_name group kind.now number) }
{
    let text = format!(in alloc; "s{group}{kind}{number}")?;
    Text::from_str(alloc, text.as_str())
}

// `ctl_` and the number.
fn control_text(alloc: Global, number: usize) -> Result<Text, Memory>
    ensures { IfOk result (λ text. text ≡ control_name number) }
{
    let text = format!(in alloc; "ctl_{number}")?;
    Text::from_str(alloc, text.as_str())
}

/// The name as the module writes it. Fails only for want of memory.
pub fn name_text(alloc: Global, name: Name) -> Result<Text, Memory>
    requires { name.kind ≢ NameKind.Valid }
    ensures { IfOk result (λ text. text ≡ written_name name) }
{
    match name.kind {
        NameKind::Control => control_text(alloc, name.number),
        NameKind::Window => group_text(alloc, name.group, "_w", name.number),
        NameKind::Copy => group_text(alloc, name.group, "_v", name.number),
        NameKind::PreAdder => group_text(alloc, name.group, "_p", name.number),
        NameKind::Register => group_text(alloc, name.group, "_a", name.number),
        NameKind::Table => group_text(alloc, name.group, "_t", name.number),
        NameKind::Output => Text::from_str(alloc, "out_q"),
        NameKind::Valid => unreachable!(),
    }
}

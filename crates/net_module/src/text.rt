// The texts of the names of nodes.
ghost use Rattle.std.specs.Prelude.{◌≡◌, ◌++◌, codes, decimal, IfOk};
ghost use Rattle.net_graph.specs.Name.{group_name};
ghost use Rattle.net_module.specs.Written.{nameless, text_for};

use mr_values::{Memory, Text};
use net_graph::{Name, NameKind, name_text};
use std::alloc::Global;

// `ctl_n` and the place.
fn control_text(alloc: Global, place: usize) -> Result<Text, Memory>
    ensures { IfOk result (λ text. text ≡ codes "ctl_n" ++ decimal place) }
{
    let text = format!(in alloc; "ctl_n{place}")?;
    Text::from_str(alloc, text.as_str())
}

// `s`, the group, `_n` and the place.
fn data_text(alloc: Global, group: u32, place: usize) -> Result<Text, Memory>
    ensures { IfOk result (λ text. text ≡ group_name group (codes "_n") place) }
{
    let text = format!(in alloc; "s{group}_n{place}")?;
    Text::from_str(alloc, text.as_str())
}

// The text of a node without a name.
fn nameless_text(alloc: Global, group: u32, place: usize) -> Result<Text, Memory>
    ensures { IfOk result (λ text. text ≡ nameless group place) }
{
    if group == 0 {
        control_text(alloc, place)
    } else {
        data_text(alloc, group, place)
    }
}

/// The text of the name of the node at a place, from its name and its group.
pub fn node_text(
    alloc: Global,
    name: Option<Name>,
    group: u32,
    place: usize,
) -> Result<Text, Memory>
    ensures { IfOk result (λ text. text ≡ text_for name group place) }
{
    match name {
        None => nameless_text(alloc, group, place),
        Some(name) => match name.kind {
            NameKind::Valid => nameless_text(alloc, group, place),
            _ => name_text(alloc, name),
        },
    }
}

// The lines of the groups.
ghost use Rattle.std.specs.Prelude.{◌≡◌, ◌++◌, OnOk};
ghost use Rattle.filter_report.specs.Report.{kind_word};
ghost use Rattle.filter_report.specs.Costs.{cost_line, cost_lines};

use crate::report::put_number;
use chain_build::GroupCost;
use stage_law::Kind;
use std::alloc::AllocError;

// The word of a form.
fn kind_word(kind: Kind) -> &'static str
    ensures { result.now ≡ kind_word kind }
{
    match kind {
        Kind::Parallel => "parallel",
        Kind::Symmetric => "symmetric",
        Kind::HalfBand => "half_band",
        Kind::Folded => "folded",
        Kind::Distributed => "distributed",
        Kind::CicDown => "cic_down",
        Kind::CicUp => "cic_up",
        Kind::Rounding => "round",
        Kind::Clipping => "clip",
    }
}

// Appends the line of a group.
fn put_group(text: &mut Vec<u8>, number: u128, group: &GroupCost) -> Result<(), AllocError>
    ensures { OnOk result (text.new.items ≡ text.old.items ++ cost_line number group.now) }
{
    put_number(text, "group ", number)?;
    text.extend_from_slice(b" ")?;
    text.extend_from_slice(kind_word(group.kind).as_bytes())?;
    put_number(text, " adders ", u128::from(group.cost.adders))?;
    put_number(text, " windows ", u128::from(group.cost.windows))?;
    put_number(text, " tables ", u128::from(group.cost.tables))?;
    text.extend_from_slice(b"\n")?;
    Ok(())
}

/// Appends a line for each group, numbered from 1.
pub(crate) fn put_groups(text: &mut Vec<u8>, groups: &[GroupCost]) -> Result<(), AllocError>
    ensures { OnOk result (text.new.items ≡ text.old.items ++ cost_lines 1 groups.now) }
{
    for (index, group) in groups.iter().enumerate() {
        put_group(text, index as u128 + 1, group)?;
    }
    Ok(())
}

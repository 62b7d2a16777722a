// What is told of the registers' widths.
ghost use Rattle.std.specs.Prelude.{◌≡◌, ◌++◌, Some, OnOk};
ghost use Rattle.filter_text.specs.Extremes.{pair_of, told_at};
ghost use Rattle.filter_report.specs.Report.{extreme_words};

use crate::report::{put_number, put_value};
use chain_build::RegisterExtreme;
use std::alloc::AllocError;

/// What is told at the number of a name; past the end nothing.
pub(crate) fn extreme_at(
    extremes: &[Option<RegisterExtreme>],
    name: usize,
) -> Option<RegisterExtreme>
    ensures { pair_of (Some result) ≡ told_at extremes.now name }
{
    match extremes.get(name) {
        Some(extreme) => *extreme,
        None => None,
    }
}

/// Appends a tick and a value, where they are told.
pub(crate) fn put_extreme(
    text: &mut Vec<u8>,
    extreme: Option<RegisterExtreme>,
) -> Result<(), AllocError>
    ensures { OnOk result (text.new.items ≡ text.old.items ++ extreme_words (pair_of (Some extreme))) }
{
    match extreme {
        Some(extreme) => {
            put_number(text, " tick ", extreme.tick)?;
            put_value(text, " value ", extreme.value)
        }
        None => Ok(()),
    }
}

// Printed lines of numbers.
ghost use Rattle.std.specs.Prelude.{◌≡◌, ◌≤◌, ◌+◌, ◌*◌, ◌++◌, length, map, OnOk, OnErr, IfOk};
ghost use Rattle.std.specs.Fmt.{signed_decimal};
ghost use Rattle.std.specs.List.{join_with_byte};
ghost use Rattle.sample_file.specs.Printed.{printed};

use itoa::Buffer;
use mr_values::Memory;
use std::alloc::Global;

// The numbers with one space between them.
fn joined(alloc: Global, values: &[i128]) -> Result<Vec<u8>, Memory>
    ensures text { IfOk result (λ line. line.items ≡ join_with_byte 32 (map signed_decimal values.now)) }
    ensures short { IfOk result (λ line. length line.items ≤ 41 * length values.now) }
{
    let mut line = Vec::new(alloc);
    for (place, value) in values.iter().enumerate() {
        if place > 0 {
            line.push(b' ')?;
        }
        line.extend_from_slice(Buffer::new().format(*value).as_bytes())?;
    }
    Ok(line)
}

/// Appends a line: the numbers in decimal with one space between them, and LF. At want of memory `out` is as it was.
pub fn put_row(alloc: Global, out: &mut Vec<u8>, values: &[i128]) -> Result<(), Memory>
    ensures text { OnOk result (out.new.items ≡ out.old.items ++ printed values.now) }
    ensures short { OnOk result (length out.new.items ≤ length out.old.items + 41 * length values.now + 1) }
    ensures unchanged { OnErr result (out.new.items ≡ out.old.items) }
{
    let mut line = joined(alloc, values)?;
    line.push(b'\n')?;
    out.extend_from_slice(&line)?;
    Ok(())
}

// A line of the register, the tick and the value, and a line for each sample.
ghost use Rattle.std.specs.Prelude.{◌≡◌, ◌≤◌, ℕ, All, IfOk};
ghost use Rattle.mr_values.specs.Width.{FitsWidth};
ghost use Rattle.extreme_file.specs.Reading.{ReadsAs};
ghost use Rattle.extreme_file.specs.Room.{HasRoom};
ghost use Rattle.extreme_file.specs.Text.{register_line, extreme_lines};

use itoa::Buffer;
use mr_values::Memory;
use sample_file::put_row;
use std::alloc::{AllocError, Global};

/// The text of samples that drive a register to a value at a tick. Its first line, which readers skip, names these, and the others
/// are the samples, one on each line. Fails only for want of memory.
pub fn extreme_text(
    alloc: Global,
    register: &str,
    tick: u128,
    value: i128,
    samples: &[i64],
) -> Result<Vec<u8>, Memory>
    requires room { HasRoom register.now samples.now }
    ensures lines { IfOk result (λ text. text.items ≡ extreme_lines register.now tick value samples.now) }

    // Read as samples of any width that holds them, the text gives them back.
    ensures reads { IfOk result (λ text. (width : ℕ) → width ≤ 128 → All (FitsWidth width) samples.now → ReadsAs width samples.now text.items) }
{
    let mut text = register_line(alloc, register, tick, value)?;
    for sample in samples {
        put_row(alloc, &mut text, &[i128::from(*sample)])?;
    }
    Ok(text)
}

// The first line.
fn register_line(
    alloc: Global,
    register: &str,
    tick: u128,
    value: i128,
) -> Result<Vec<u8>, AllocError>
    ensures { IfOk result (λ text. text.items ≡ register_line register.now tick value) }
{
    let mut line = Vec::from_slice(alloc, b"# register ")?;
    line.extend_from_slice(register.as_bytes())?;
    line.extend_from_slice(b" tick ")?;
    line.extend_from_slice(Buffer::new().format(tick).as_bytes())?;
    line.extend_from_slice(b" value ")?;
    line.extend_from_slice(Buffer::new().format(value).as_bytes())?;
    line.extend_from_slice(b"\n")?;
    Ok(line)
}

// A line as a row.
ghost use Rattle.std.specs.Prelude.{◌≡◌, ◌-◌, ◌≤◌, ◌<◌, ◌^◌, length, ◌⊎◌, nat_lt};
ghost use Rattle.sample_file.specs.Lines.{content_of};
ghost use Rattle.sample_file.specs.Fields.{fields_of};
ghost use Rattle.sample_file.specs.Reading.{row_of, content_row, line_row};

use crate::fault::LineFault;
use crate::fields::{are_numerals, count_fields, is_skipped, values_of};
use crate::row::Row;

/// The greatest number of bytes of a line, without its end.
const LONGEST: usize = 4096;

/// The first number that no line may have.
pub(crate) const LINES: u64 = 0x1_0000_0000;

/// A line without its end, to which one CR belongs.
fn content_of(line: &[u8]) -> &[u8]
    ensures { result.now ≡ content_of line.now }
{
    match line {
        [content @ .., b'\r'] => content,
        _ => line,
    }
}

fn row_of(fields: u8, number: u64, content: &[u8]) -> Result<Option<Row>, LineFault>
    ensures { result ≡ row_of fields number (fields_of content.now) }
{
    let count = count_fields(content);
    if count != usize::from(fields) {
        return Err(LineFault::Fields {
            line: number,
            count: count as u64,
        });
    }
    if !are_numerals(content) {
        return Err(LineFault::NotNumber { line: number });
    }
    match values_of(content) {
        Some(values) => Ok(Some(Row {
            line: number,
            values,
        })),
        None => Err(LineFault::OutOfRange { line: number }),
    }
}

fn content_row(fields: u8, number: u64, content: &[u8]) -> Result<Option<Row>, LineFault>
    ensures { result ≡ content_row fields number content.now }
{
    if content.len() > LONGEST {
        Err(LineFault::LongLine { line: number })
    } else if is_skipped(content) {
        Ok(None)
    } else {
        row_of(fields, number, content)
    }
}

/// The row of the line of this number, none where it is skipped, or why it is refused.
pub(crate) fn line_row(fields: u8, number: u64, line: &[u8]) -> Result<Option<Row>, LineFault>
    ensures { result ≡ line_row fields number line.now }
{
    if number >= LINES {
        Err(LineFault::TooManyLines)
    } else {
        content_row(fields, number, content_of(line))
    }
}

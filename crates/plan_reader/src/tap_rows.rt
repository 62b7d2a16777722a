// The rows of a tap file.
ghost use Rattle.std.specs.Prelude.{◌≡◌, ℤ, List, Result, Ok, IfOk, MatchResult, map};
ghost use Rattle.csv.specs.Records.{fields_of};
ghost use Rattle.plan_reader.specs.TapFields.{AreRows, SaysTaps, IsTapRefusal, rows_taps, row_taps, at_row, tap_of};
ghost use Rattle.plan_reader.specs.declared.fault.TapFault.{TapFault};
ghost use Rattle.plan_reader.specs.Answers.{TapsGive};

use crate::fault::TapFault;
use crate::tap_fields::tap_of;
use csv::{ByteRecord, Error, ReaderBuilder};
use std::alloc::Global;

/// The taps of a tap file, field by field and row by row. It fails with the first field that is no whole number of 64
/// bits, and for want of memory.
pub fn read_taps(alloc: Global, bytes: &[u8]) -> Result<Vec<i64>, TapFault>
    ensures answer { MatchResult result (λ taps. SaysTaps bytes.now (Ok taps.items)) (IsTapRefusal bytes.now) }

    // A tap file has one answer.
    ensures only { (a b : Result (List ℤ) TapFault) → SaysTaps bytes.now a → SaysTaps bytes.now b → a ≡ b }
{
    match rows_of(alloc, bytes) {
        Ok(rows) => taps_of(alloc, &rows),
        Err(_) => Err(TapFault::Memory),
    }
}

// The rows of a file, of any length, the first of them too.
fn rows_of(alloc: Global, bytes: &[u8]) -> Result<Vec<ByteRecord>, Error>
    ensures { IfOk result (λ rows. AreRows bytes.now (map fields_of rows.items)) }
{
    let rdr = ReaderBuilder::new()
        .flexible(true)
        .has_headers(false)
        .from_reader(alloc, bytes);
    let mut rows = Vec::new(alloc);
    for row in rdr.into_byte_records() {
        if rows.push(row?).is_err() {
            return Err(Error::out_of_memory());
        }
    }
    Ok(rows)
}

fn taps_of(alloc: Global, rows: &[ByteRecord]) -> Result<Vec<i64>, TapFault>
    ensures { TapsGive (rows_taps 1 (map fields_of rows.now)) result }
{
    let mut taps = Vec::new(alloc);
    for (index, row) in rows.iter().enumerate() {
        match row_taps(alloc, index as u64 + 1, row) {
            Ok(more) => taps.extend_from_slice(&more)?,
            Err(fault) => return Err(fault),
        }
    }
    Ok(taps)
}

// The numbers of a row.
fn row_taps(alloc: Global, row: u64, fields: &ByteRecord) -> Result<Vec<i64>, TapFault>
    ensures { TapsGive (row_taps row (fields_of fields.now)) result }
{
    let mut taps = Vec::new(alloc);
    let mut index = 0;
    'fields: while let Some(field) = fields.get(index) {
        match tap_in(row, field) {
            Ok(tap) => taps.push(tap)?,
            Err(fault) => return Err(fault),
        }
        index += 1;
    }
    Ok(taps)
}

fn tap_in(row: u64, field: &[u8]) -> Result<i64, TapFault>
    ensures { result ≡ at_row row (tap_of field.now) }
{
    match tap_of(field) {
        Ok(tap) => Ok(tap),
        Err(why) => Err(TapFault::Bad { row, why }),
    }
}

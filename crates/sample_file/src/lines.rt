// A file of rows, in pieces.
ghost use Rattle.std.specs.Prelude.{◌≡◌, ◌≤◌, ◌<◌, ◌-◌, ◌+◌, ◌^◌, ◌⊎◌, ℕ, List, [], ◌∷◌, ◌++◌, length, drop, take, true, Some, None, Ok, Err, slice_get, IfOk, IfErr, IfSome, IfNone, OnSome, OnOk};
ghost use Rattle.std.specs.Option.{option_to_list};
ghost use Rattle.sample_file.specs.Reading.{Place, start, rows_from, row_then, no_rows, refused, most_before};

use crate::fault::LineFault;
use crate::line::{LINES, line_row};
use crate::row::Row;
use mr_values::Memory;
use std::alloc::Global;
use std::marker::Model;

/// A line of 4,096 bytes and a CR.
const ROOM: usize = 4097;

/// How much of a piece was taken, and the row that was found at its end.
#[derive(Clone, Copy, Debug, PartialEq, Eq)]
pub struct Step {
    pub taken: usize,
    pub found: Option<Row>,
}

/// A reader of rows. It keeps no more of the file than the bytes of one line.
#[derive(Drop)]
pub struct Lines {
    fields: u8,
    ended: u64,
    room: Vec<u8>,
    held: usize,
    fault: Option<LineFault>,
}

impl Model for Lines {
    ghost use Rattle.std.specs.Prelude.{take};
    ghost use Rattle.sample_file.specs.Reading.{Place};
    ghost use Rattle.sample_file.specs.Kept.{IsKept};

    ghost Value = { Place };

    ghost view = { λ s. record { fields = s.fields; ended = s.ended; begun = take s.held s.room.items; fault = s.fault } };

    ghost invariant = { λ s. IsKept s.ended s.room.items s.held };
}

impl Lines {
    /// A reader of lines of one field or of three. Fails only for want of memory.
    pub fn new(alloc: Global, fields: u8) -> Result<Lines, Memory>
        requires { (fields ≡ 1) ⊎ (fields ≡ 3) }
        ensures { IfOk result (λ lines. lines ≡ start fields) }
    {
        Ok(Lines {
            fields,
            ended: 0,
            room: Vec::from_elem(alloc, 0, ROOM)?,
            held: 0,
            fault: None,
        })
    }

    // What a byte gives: a row or a fault at the end of a line, or a fault within it.
    fn add(&mut self, byte: u8) -> Result<Option<Row>, LineFault>
        requires { self.old.fault ≡ None }
        ensures rows { (rest : List ℕ) → rows_from self.old (byte ∷ rest) ≡ row_then result (rows_from self.new rest) }
        ensures fields { self.new.fields ≡ self.old.fields }
        ensures fault { self.new.fault ≡ None }
        ensures row { IfOk result (λ found. OnSome found (byte ≡ 10)) }
        ensures ended { IfOk result (λ found. self.old.ended + length (option_to_list found) ≤ self.new.ended) }
        ensures more { self.old.ended ≤ self.new.ended }
        ensures few { self.new.ended < 2 ^ 32 }
        ensures bytes { OnOk result (most_before self.old + 1 ≤ most_before self.new) }
        ensures bound { length self.new.begun ≤ 4097 }
        ensures empty { OnOk result (byte ≡ 10 → self.new.begun ≡ []) }
    {
        if self.ended + 1 >= LINES {
            return Err(LineFault::TooManyLines);
        }
        if byte == b'\n' {
            let answer = line_row(self.fields, self.ended + 1, &self.room[..self.held]);
            self.ended += 1;
            self.held = 0;
            return answer;
        }
        if self.held >= ROOM {
            return Err(LineFault::LongLine {
                line: self.ended + 1,
            });
        }
        self.room[self.held] = byte;
        self.held += 1;
        Ok(None)
    }

    // The same, and a fault is kept.
    fn put(&mut self, byte: u8) -> Result<Option<Row>, LineFault>
        requires { self.old.fault ≡ None }
        ensures rows { (rest : List ℕ) → rows_from self.old (byte ∷ rest) ≡ row_then result (rows_from self.new rest) }
        ensures fields { self.new.fields ≡ self.old.fields }
        ensures fault { IfErr result (λ fault. self.new.fault ≡ Some fault) }
        ensures none { OnOk result (self.new.fault ≡ None) }
        ensures row { IfOk result (λ found. OnSome found (byte ≡ 10)) }
        ensures ended { IfOk result (λ found. self.old.ended + length (option_to_list found) ≤ self.new.ended) }
        ensures more { self.old.ended ≤ self.new.ended }
        ensures few { self.new.ended < 2 ^ 32 }
        ensures bytes { OnOk result (most_before self.old + 1 ≤ most_before self.new) }
        ensures bound { length self.new.begun ≤ 4097 }
        ensures empty { OnOk result (byte ≡ 10 → self.new.begun ≡ []) }
    {
        let answer = self.add(byte);
        if let Err(fault) = answer {
            self.fault = Some(fault);
        }
        answer
    }

    /// Takes bytes of the file up to the end of the first line with a row in it, and else the whole piece. It fails at the first
    /// refused line, and at each call after one, with the same fault. It takes no memory.
    pub fn take(&mut self, piece: &[u8]) -> Result<Step, LineFault>
        // Whatever follows, the rows are the one that was found and those that the reader gives from here on.
        ensures rows { IfOk result (λ step. (rest : List ℕ) → rows_from self.old (piece.now ++ rest) ≡ row_then (Ok step.found) (rows_from self.new (drop step.taken piece.now ++ rest))) }
        ensures within { IfOk result (λ step. step.taken ≤ length piece.now) }
        ensures whole { IfOk result (λ step. IfNone step.found (step.taken ≡ length piece.now)) }
        ensures line { IfOk result (λ step. OnSome step.found ((0 < step.taken) × (slice_get piece.now (step.taken - 1) ≡ Some 10))) }

        // There are never more rows than lines, of which there are fewer than 2^32.
        ensures ended { IfOk result (λ step. self.old.ended + length (option_to_list step.found) ≤ self.new.ended) }
        ensures more { self.old.ended ≤ self.new.ended }
        ensures few { self.new.ended < 2 ^ 32 }

        // So the bytes of a file that isn't refused are bounded.
        ensures bytes { IfOk result (λ step. most_before self.old + step.taken ≤ most_before self.new) }
        ensures bound { length self.new.begun ≤ 4097 }

        ensures fault { IfErr result (λ fault. (rest : List ℕ) → rows_from self.old (piece.now ++ rest) ≡ refused fault) }
        ensures kept { IfErr result (λ fault. self.new.fault ≡ Some fault) }
        ensures fields { self.new.fields ≡ self.old.fields }

        // A refused line is answered for good, and no bytes are taken after it.
        ensures stays { (f : LineFault) → self.old.fault ≡ Some f → result ≡ Err f }
        ensures none { OnOk result (self.new.fault ≡ None) }
    {
        if let Some(fault) = self.fault {
            return Err(fault);
        }
        for (index, byte) in piece.iter().enumerate() {
            if let Some(row) = self.put(*byte)? {
                return Ok(Step {
                    taken: index + 1,
                    found: Some(row),
                });
            }
        }
        Ok(Step {
            taken: piece.len(),
            found: None,
        })
    }

    /// Ends a last line that has no end, and tells its row, or none where there is none. It fails where that line is refused, and with
    /// the fault of the first line that was.
    pub fn close(&mut self) -> Result<Option<Row>, LineFault>
        ensures rows { rows_from self.old [] ≡ row_then result no_rows }
        ensures closed { OnOk result (rows_from self.new [] ≡ no_rows) }
        ensures begun { OnOk result (self.new.begun ≡ []) }
        ensures some { IfOk result (λ found. OnSome found (0 < length self.old.begun)) }
        ensures ended { IfOk result (λ found. self.old.ended + length (option_to_list found) ≤ self.new.ended) }
        ensures more { self.old.ended ≤ self.new.ended }
        ensures few { self.new.ended < 2 ^ 32 }
        ensures stays { (f : LineFault) → self.old.fault ≡ Some f → result ≡ Err f }
        ensures kept { IfErr result (λ fault. self.new.fault ≡ Some fault) }
        ensures none { OnOk result (self.new.fault ≡ None) }
    {
        match self.fault {
            Some(fault) => Err(fault),
            None if self.held == 0 => Ok(None),
            None => self.put(b'\n'),
        }
    }

    /// The row of a last line without an end, and none where there is none. It fails where that line is refused, and with the fault
    /// of the first line that was.
    pub fn finish(mut self) -> Result<Option<Row>, LineFault>
        ensures { rows_from self [] ≡ row_then result no_rows }
    {
        self.close()
    }
}

//! Laws of bits, and of sums of products that are made bit by bit. The crate owns these laws over whole numbers; it must know no net and no
//! stage. Filters by distributed arithmetic rely on it.
#![tactic(auto)]

ghost use Rattle.bit_serial.specs.Bits.{HalvingLaw, SmallBitLaw, PatternLaw, HighestBitLaw, BetweenLaw, ShiftedLaw, CutsLaw};
ghost use Rattle.bit_serial.specs.Serial.{FirstStepLaw, NextStepLaw, WholeLaw};
ghost use Rattle.bit_serial.specs.Ends.{EndsLaw, SerialEndsLaw, EntryEndsLaw};
ghost use Rattle.bit_serial.specs.Runs.{EntryLaw};
ghost use Rattle.bit_serial.specs.Tables.{RunsLaw, ChosenLaw, ShowsLaw};

/// The bits of a whole number in two's complement, and those of a copy that is shifted up.
pub fn law_of_bits()
    ensures halving { HalvingLaw }
    ensures small { SmallBitLaw }
    ensures pattern { PatternLaw }
    ensures highest { HighestBitLaw }
    ensures between { BetweenLaw }
    ensures shifted { ShiftedLaw }
    ensures cuts { CutsLaw }
{}

/// A sum of products, made bit by bit from the highest.
pub fn law_of_serial_sums()
    ensures first { FirstStepLaw }
    ensures next { NextStepLaw }
    ensures whole { WholeLaw }
{}

/// Runs of taps and their tables.
pub fn law_of_tables()
    ensures runs { RunsLaw }
    ensures chosen { ChosenLaw }
    ensures shows { ShowsLaw }
    ensures entry { EntryLaw }
{}

/// Between which ends the sums lie while they are made.
pub fn law_of_ends()
    ensures all { EndsLaw }
    ensures serial { SerialEndsLaw }
    ensures entry { EntryEndsLaw }
{}

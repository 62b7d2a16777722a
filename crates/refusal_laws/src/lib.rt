//! Laws of the refusals of texts: a text that reads as a module has no stop, and any other has at most one.
//! The crate owns these laws and no code. It must not know the code of the reader, but only what it is specified by. No crate uses it; it is relied on by
//! whoever takes a fault of `read_module` for the only one that the text has.
#![tactic(auto)]

ghost use Rattle.std.specs.Prelude.{ℕ, List};
ghost use Rattle.verilog_tree.specs.Tree.{Design};
ghost use Rattle.verilog_text.specs.declared.token.Why.{Why};
ghost use Rattle.verilog_text.specs.Reading.{Reads};
ghost use Rattle.verilog_read.specs.declared.fault.ReadFault.{ReadFault};
ghost use Rattle.verilog_read.specs.Answer.{StopsAt, IsStop};
ghost use Rattle.refusal_laws.specs.Laws.{IsSameStop, IsForMemory, HaveSameFault};

/// Two stops of one text are at the same place for the same reason.
pub fn law_of_one_stop()
    ensures { (bytes : List ℕ) (place other : ℕ) (reason why : Why) → StopsAt bytes place reason → StopsAt bytes other why → IsSameStop place reason other why }
{}

/// A text that reads as a module has no stop.
pub fn law_of_no_stop()
    ensures { (bytes : List ℕ) (d : Design) (place : ℕ) (reason : Why) → Reads bytes d → StopsAt bytes place reason → ⊥ }
{}

/// Of the faults of one text all that aren't for want of memory are the same, place and all.
pub fn law_of_one_fault()
    ensures { (bytes : List ℕ) (e f : ReadFault) → IsStop bytes e → IsStop bytes f → HaveSameFault e f }
{}

/// A text that reads as a module has no fault but for want of memory.
pub fn law_of_no_fault()
    ensures { (bytes : List ℕ) (d : Design) (e : ReadFault) → Reads bytes d → IsStop bytes e → IsForMemory e }
{}

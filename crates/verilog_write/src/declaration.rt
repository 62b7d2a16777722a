// The tokens of ports and declarations.
ghost use Rattle.std.specs.Prelude.{◌≡◌, [], ◌∷◌, ◌++◌, List, map, OnOk, IfOk};
ghost use Rattle.verilog_tree.specs.declared.tree.Signal.{Signal};
ghost use Rattle.verilog_text.specs.declared.token.Token.TheVariants as token;
ghost use Rattle.verilog_text.specs.declared.token.Mark.TheVariants as mark;
ghost use Rattle.verilog_text.specs.Text.{direction_word, store_word, zero_digit, range_text, shape_text, fresh_text, item_text, items_text};
ghost use Rattle.verilog_text.specs.Shortest.{is_port, direction_of, store_of, range_of, shape_of, fresh_of, declared_of, ports_in, stores_in};
ghost use Rattle.verilog_write.specs.Parts.{port_list};

use crate::expression::{put, put_mark, put_number};
use crate::statement::put_word;
use mr_values::Memory;
use verilog_text::token::{Decimal, Mark, Token, Word};
use verilog_tree::{Kind, Signal};

// Whether a signal is a port.
fn is_port(kind: Kind) -> bool
    ensures { result ≡ is_port kind }
{
    match kind {
        Kind::Input | Kind::Output => true,
        Kind::Wire | Kind::Reg => false,
    }
}

// The word of a port's direction.
fn port_word(kind: Kind) -> Word
    ensures { result ≡ direction_word (direction_of kind) }
{
    match kind {
        Kind::Output => Word::Output,
        Kind::Input | Kind::Wire | Kind::Reg => Word::Input,
    }
}

// The word of a wire or register.
fn kind_word(kind: Kind) -> Word
    ensures { result ≡ store_word (store_of kind) }
{
    match kind {
        Kind::Reg => Word::Reg,
        Kind::Input | Kind::Output | Kind::Wire => Word::Wire,
    }
}

// Appends a range.
#[tactic(auto, using(crate::proofs::Writings::writings))]
fn write_range(ranged: bool, width: u32, out: &mut Vec<Token>) -> Result<(), Memory>
    ensures { OnOk result (out.new.items ≡ out.old.items ++ range_text (range_of ranged width) []) }
{
    if !ranged {
        return Ok(());
    }
    put_mark(out, Mark::OpenBracket)?;
    put_number(out, width.saturating_sub(1))?;
    put_mark(out, Mark::Colon)?;
    put_number(out, 0)?;
    put_mark(out, Mark::CloseBracket)
}

// Appends a sign and a range.
#[tactic(auto, using(crate::proofs::Writings::writings))]
fn write_shape(signal: &Signal, out: &mut Vec<Token>) -> Result<(), Memory>
    ensures { OnOk result (out.new.items ≡ out.old.items ++ shape_text (shape_of signal.now) []) }
{
    if signal.signed {
        put_word(out, Word::Signed)?;
        return write_range(signal.ranged, signal.width, out);
    }
    write_range(signal.ranged, signal.width, out)
}

// Appends a port.
#[tactic(auto, using(crate::proofs::Writings::writings))]
fn write_port(signal: &Signal, out: &mut Vec<Token>) -> Result<(), Memory>
    ensures { OnOk result (out.new.items ≡ out.old.items ++ fresh_text (fresh_of signal.now) []) }
{
    put_word(out, port_word(signal.kind))?;
    write_shape(signal, out)?;
    put(out, Token::Name(signal.name))
}

// Appends the declaration of a wire or register.
#[tactic(auto, using(crate::proofs::Writings::writings))]
fn write_declaration(signal: &Signal, out: &mut Vec<Token>) -> Result<(), Memory>
    ensures { OnOk result (out.new.items ≡ out.old.items ++ item_text 0 (declared_of signal.now) []) }
{
    put_word(out, kind_word(signal.kind))?;
    write_shape(signal, out)?;
    put(out, Token::Name(signal.name))?;
    put_mark(out, Mark::Semicolon)
}

// Appends a signal behind the mark, if it is a port; the result is the mark before the next port.
#[tactic(auto, using(crate::proofs::Writings::writings))]
fn write_if_port(signal: &Signal, separator: Mark, out: &mut Vec<Token>) -> Result<Mark, Memory>
    ensures { IfOk result (λ next. (rest : List Signal) → out.new.items ++ port_list next (ports_in rest) ≡ out.old.items ++ port_list separator (ports_in (signal.now ∷ rest))) }
{
    if !is_port(signal.kind) {
        return Ok(separator);
    }
    put_mark(out, separator)?;
    write_port(signal, out)?;
    Ok(Mark::Comma)
}

/// Appends the ports, the first behind a `(` and each other one behind a comma.
pub fn write_ports(signals: &[Signal], out: &mut Vec<Token>) -> Result<(), Memory>
    ensures { OnOk result (out.new.items ≡ out.old.items ++ port_list mark.Open (ports_in signals.now)) }
{
    let mut separator = Mark::Open;
    for signal in signals {
        separator = write_if_port(signal, separator, out)?;
    }
    Ok(())
}

// Appends the declaration of a signal that is no port.
#[tactic(auto, using(crate::proofs::Writings::writings))]
fn write_if_stored(signal: &Signal, out: &mut Vec<Token>) -> Result<(), Memory>
    ensures { OnOk result ((rest : List Signal) → out.new.items ++ items_text 0 (map declared_of (stores_in rest)) [] ≡ out.old.items ++ items_text 0 (map declared_of (stores_in (signal.now ∷ rest))) []) }
{
    if is_port(signal.kind) {
        return Ok(());
    }
    write_declaration(signal, out)
}

/// Appends the declarations of all signals that are no ports.
pub fn write_declarations(signals: &[Signal], out: &mut Vec<Token>) -> Result<(), Memory>
    ensures { OnOk result (out.new.items ≡ out.old.items ++ items_text 0 (map declared_of (stores_in signals.now)) []) }
{
    for signal in signals {
        write_if_stored(signal, out)?;
    }
    Ok(())
}

// The steps of a declaration.
ghost use Rattle.std.specs.Prelude.{◌≡◌, true, false};
ghost use Rattle.verilog_text.specs.Shortest.{is_port};
ghost use Rattle.verilog_text.specs.TextMachine as machine;
ghost use Rattle.verilog_parse.specs.View.{Gives};
ghost use Rattle.verilog_parse.specs.TextView.{shape_view, spot_view, draft_view, text_state_view, IsSmall};

use crate::fault::Fault;
use crate::text::draft::{Draft, TextReader};
use crate::text::phase::{Spot, TextPhase};
use crate::text::range::{Range, Shape};
use verilog_text::token::{Decimal, Mark, Token, Why, Word};
use verilog_tree::Kind;

// A name is declared.
fn declare(mut draft: Draft, kind: Kind, shape: Shape, name: usize) -> Result<TextReader, Fault>
    ensures { Gives text_state_view result (machine.declared (draft_view draft) kind (shape_view shape) name) }
{
    draft.declare(kind, shape, name)?;
    Ok(TextReader {
        draft,
        phase: TextPhase::Listed(kind, shape),
    })
}

// Goes on with the heading of a declaration.
fn head(draft: Draft, kind: Kind, spot: Spot) -> TextReader
    ensures { text_state_view result ≡ machine.at (draft_view draft) (machine.Heading kind (spot_view spot)) }
{
    TextReader {
        draft,
        phase: TextPhase::Heading(kind, spot),
    }
}

fn wirable_step(draft: Draft, kind: Kind, token: Token) -> Result<TextReader, Fault>
    ensures { Gives text_state_view result (machine.spot_step (draft_view draft) kind machine.Wirable token) }
{
    match token {
        Token::Keyword(Word::Wire) => Ok(head(draft, kind, Spot::Signable)),
        Token::Keyword(Word::Signed) => Ok(head(draft, kind, Spot::Rangeable(true))),
        Token::Punctuation(Mark::OpenBracket) => Ok(head(draft, kind, Spot::Ranging(false))),
        Token::Name(name) => {
            let shape = Shape {
                signed: false,
                range: None,
            };
            declare(draft, kind, shape, name)
        }
        _ => Err(Fault::Refused(Why::Syntax)),
    }
}

fn signable_step(draft: Draft, kind: Kind, token: Token) -> Result<TextReader, Fault>
    ensures { Gives text_state_view result (machine.spot_step (draft_view draft) kind machine.Signable token) }
{
    match token {
        Token::Keyword(Word::Signed) => Ok(head(draft, kind, Spot::Rangeable(true))),
        Token::Punctuation(Mark::OpenBracket) => Ok(head(draft, kind, Spot::Ranging(false))),
        Token::Name(name) => {
            let shape = Shape {
                signed: false,
                range: None,
            };
            declare(draft, kind, shape, name)
        }
        _ => Err(Fault::Refused(Why::Syntax)),
    }
}

fn rangeable_step(draft: Draft, kind: Kind, signed: bool, token: Token) -> Result<TextReader, Fault>
    ensures { Gives text_state_view result (machine.spot_step (draft_view draft) kind (machine.Rangeable signed) token) }
{
    match token {
        Token::Punctuation(Mark::OpenBracket) => Ok(head(draft, kind, Spot::Ranging(signed))),
        Token::Name(name) => {
            let shape = Shape {
                signed,
                range: None,
            };
            declare(draft, kind, shape, name)
        }
        _ => Err(Fault::Refused(Why::Syntax)),
    }
}

fn ranging_step(draft: Draft, kind: Kind, signed: bool, token: Token) -> Result<TextReader, Fault>
    requires { IsSmall token }
    ensures { Gives text_state_view result (machine.spot_step (draft_view draft) kind (machine.Ranging signed) token) }
{
    match token {
        Token::Number(high) => Ok(head(draft, kind, Spot::Ranged(signed, Range { high }))),
        _ => Err(Fault::Refused(Why::Syntax)),
    }
}

fn ranged_step(
    draft: Draft,
    kind: Kind,
    signed: bool,
    range: Range,
    token: Token,
) -> Result<TextReader, Fault>
    ensures { Gives text_state_view result (machine.spot_step (draft_view draft) kind (machine.Ranged signed range.high) token) }
{
    match token {
        Token::Punctuation(Mark::Colon) => Ok(head(draft, kind, Spot::Zeroing(signed, range))),
        _ => Err(Fault::Refused(Why::Syntax)),
    }
}

// Whether a number is the digit `0`.
fn is_zero_digit(number: Decimal) -> bool
    ensures { result ≡ machine.is_zero_digit number }
{
    number.value == 0 && number.is_single
}

fn zeroing_step(
    draft: Draft,
    kind: Kind,
    signed: bool,
    range: Range,
    token: Token,
) -> Result<TextReader, Fault>
    ensures { Gives text_state_view result (machine.spot_step (draft_view draft) kind (machine.Zeroing signed range.high) token) }
{
    match token {
        Token::Number(number) => {
            if is_zero_digit(number) {
                Ok(head(draft, kind, Spot::Closing(signed, range)))
            } else {
                Err(Fault::Refused(Why::Syntax))
            }
        }
        _ => Err(Fault::Refused(Why::Syntax)),
    }
}

fn closing_step(
    draft: Draft,
    kind: Kind,
    signed: bool,
    range: Range,
    token: Token,
) -> Result<TextReader, Fault>
    ensures { Gives text_state_view result (machine.spot_step (draft_view draft) kind (machine.Closing signed range.high) token) }
{
    match token {
        Token::Punctuation(Mark::CloseBracket) => {
            let shape = Shape {
                signed,
                range: Some(range),
            };
            Ok(head(draft, kind, Spot::Nameable(shape)))
        }
        _ => Err(Fault::Refused(Why::Syntax)),
    }
}

fn nameable_step(draft: Draft, kind: Kind, shape: Shape, token: Token) -> Result<TextReader, Fault>
    ensures { Gives text_state_view result (machine.spot_step (draft_view draft) kind (machine.Nameable (shape_view shape)) token) }
{
    match token {
        Token::Name(name) => declare(draft, kind, shape, name),
        _ => Err(Fault::Refused(Why::Syntax)),
    }
}

/// A token before the name of a declaration.
pub fn spot_step(draft: Draft, kind: Kind, spot: Spot, token: Token) -> Result<TextReader, Fault>
    requires { IsSmall token }
    ensures { Gives text_state_view result (machine.spot_step (draft_view draft) kind (spot_view spot) token) }
{
    match spot {
        Spot::Wirable => wirable_step(draft, kind, token),
        Spot::Signable => signable_step(draft, kind, token),
        Spot::Rangeable(signed) => rangeable_step(draft, kind, signed, token),
        Spot::Ranging(signed) => ranging_step(draft, kind, signed, token),
        Spot::Ranged(signed, range) => ranged_step(draft, kind, signed, range, token),
        Spot::Zeroing(signed, range) => zeroing_step(draft, kind, signed, range, token),
        Spot::Closing(signed, range) => closing_step(draft, kind, signed, range, token),
        Spot::Nameable(shape) => nameable_step(draft, kind, shape, token),
    }
}

// Goes on in a phase.
fn go(draft: Draft, phase: TextPhase) -> Result<TextReader, Fault>
    ensures { result ≡ Ok (record { draft = draft; phase = phase }) }
{
    Ok(TextReader { draft, phase })
}

fn listed_port(draft: Draft, kind: Kind, shape: Shape, mark: Mark) -> Result<TextReader, Fault>
    requires { is_port kind ≡ true }
    ensures { Gives text_state_view result (machine.listed_mark (draft_view draft) kind (shape_view shape) mark) }
{
    match mark {
        Mark::Comma => go(draft, TextPhase::NextPort(kind, shape)),
        Mark::Close => go(draft, TextPhase::PortsClosed),
        _ => Err(Fault::Refused(Why::Syntax)),
    }
}

fn listed_store(draft: Draft, kind: Kind, shape: Shape, mark: Mark) -> Result<TextReader, Fault>
    requires { is_port kind ≡ false }
    ensures { Gives text_state_view result (machine.listed_mark (draft_view draft) kind (shape_view shape) mark) }
{
    match mark {
        Mark::Comma => go(draft, TextPhase::Heading(kind, Spot::Nameable(shape))),
        Mark::Semicolon => go(draft, TextPhase::AtItem),
        _ => Err(Fault::Refused(Why::Syntax)),
    }
}

// A mark behind a declared name.
fn listed_mark(draft: Draft, kind: Kind, shape: Shape, mark: Mark) -> Result<TextReader, Fault>
    ensures { Gives text_state_view result (machine.listed_mark (draft_view draft) kind (shape_view shape) mark) }
{
    match kind {
        Kind::Input | Kind::Output => listed_port(draft, kind, shape, mark),
        Kind::Wire | Kind::Reg => listed_store(draft, kind, shape, mark),
    }
}

/// What follows a declared name.
pub fn listed_step(
    draft: Draft,
    kind: Kind,
    shape: Shape,
    token: Token,
) -> Result<TextReader, Fault>
    ensures { Gives text_state_view result (machine.listed_step (draft_view draft) kind (shape_view shape) token) }
{
    match token {
        Token::Punctuation(mark) => listed_mark(draft, kind, shape, mark),
        _ => Err(Fault::Refused(Why::Syntax)),
    }
}

/// The first word of a port with a direction.
pub fn first_port_step(draft: Draft, token: Token) -> Result<TextReader, Fault>
    ensures { Gives text_state_view result (machine.first_port_step (draft_view draft) token) }
{
    match token {
        Token::Keyword(Word::Input) => Ok(head(draft, Kind::Input, Spot::Wirable)),
        Token::Keyword(Word::Output) => Ok(head(draft, Kind::Output, Spot::Wirable)),
        _ => Err(Fault::Refused(Why::Syntax)),
    }
}

/// What begins a port behind another one.
pub fn next_port_step(
    draft: Draft,
    kind: Kind,
    shape: Shape,
    token: Token,
) -> Result<TextReader, Fault>
    ensures { Gives text_state_view result (machine.next_port_step (draft_view draft) kind (shape_view shape) token) }
{
    match token {
        Token::Name(name) => declare(draft, kind, shape, name),
        _ => first_port_step(draft, token),
    }
}

// The steps of the machine for texts.
ghost use Rattle.std.specs.Prelude.{◌≡◌};
ghost use Rattle.verilog_text.specs.Grammar.{limits};
ghost use Rattle.verilog_text.specs.TextMachine as machine;
ghost use Rattle.verilog_parse.specs.View.{Gives};
ghost use Rattle.verilog_parse.specs.TextView.{draft_view, text_state_view, IsSmall};

use crate::expression::step as expression;
use crate::fault::Fault;
use crate::statement::step as statement;
use crate::text::declaration::{first_port_step, listed_step, next_port_step, spot_step};
use crate::text::draft::{Draft, TextReader};
use crate::text::item::{item_step, running_step, valued_step};
use crate::text::phase::TextPhase;
use std::alloc::Global;
use verilog_text::token::{Mark, Token, Why, Word};

fn start_step(draft: Draft, token: Token) -> Result<TextReader, Fault>
    ensures { Gives text_state_view result (machine.phase_step limits 0 (draft_view draft) machine.Start token) }
{
    match token {
        Token::Keyword(Word::Module) => Ok(TextReader {
            draft,
            phase: TextPhase::Naming,
        }),
        _ => Err(Fault::Refused(Why::Syntax)),
    }
}

fn naming_step(mut draft: Draft, token: Token) -> Result<TextReader, Fault>
    ensures { Gives text_state_view result (machine.phase_step limits 0 (draft_view draft) machine.Naming token) }
{
    match token {
        Token::Name(name) => {
            draft.name = name;
            Ok(TextReader {
                draft,
                phase: TextPhase::Opening,
            })
        }
        _ => Err(Fault::Refused(Why::Syntax)),
    }
}

fn opening_step(draft: Draft, token: Token) -> Result<TextReader, Fault>
    ensures { Gives text_state_view result (machine.phase_step limits 0 (draft_view draft) machine.Opening token) }
{
    match token {
        Token::Punctuation(Mark::Open) => Ok(TextReader {
            draft,
            phase: TextPhase::FirstPort,
        }),
        _ => Err(Fault::Refused(Why::Syntax)),
    }
}

fn ports_closed_step(draft: Draft, token: Token) -> Result<TextReader, Fault>
    ensures { Gives text_state_view result (machine.phase_step limits 0 (draft_view draft) machine.PortsClosed token) }
{
    match token {
        Token::Punctuation(Mark::Semicolon) => Ok(TextReader {
            draft,
            phase: TextPhase::AtItem,
        }),
        _ => Err(Fault::Refused(Why::Syntax)),
    }
}

fn targeting_step(draft: Draft, token: Token) -> Result<TextReader, Fault>
    ensures { Gives text_state_view result (machine.phase_step limits 0 (draft_view draft) machine.Targeting token) }
{
    match token {
        Token::Name(name) => Ok(TextReader {
            draft,
            phase: TextPhase::Assigning(name),
        }),
        _ => Err(Fault::Refused(Why::Syntax)),
    }
}

fn assigning_step(
    alloc: Global,
    draft: Draft,
    target: usize,
    token: Token,
) -> Result<TextReader, Fault>
    ensures { Gives text_state_view result (machine.phase_step limits 0 (draft_view draft) (machine.Assigning target) token) }
{
    match token {
        Token::Punctuation(Mark::Assigned) => Ok(TextReader {
            draft,
            phase: TextPhase::Valued(target, expression::start(alloc)),
        }),
        _ => Err(Fault::Refused(Why::Syntax)),
    }
}

fn at_event_step(draft: Draft, token: Token) -> Result<TextReader, Fault>
    ensures { Gives text_state_view result (machine.phase_step limits 0 (draft_view draft) machine.AtEvent token) }
{
    match token {
        Token::Punctuation(Mark::At) => Ok(TextReader {
            draft,
            phase: TextPhase::InEvent,
        }),
        _ => Err(Fault::Refused(Why::Syntax)),
    }
}

fn in_event_step(draft: Draft, token: Token) -> Result<TextReader, Fault>
    ensures { Gives text_state_view result (machine.phase_step limits 0 (draft_view draft) machine.InEvent token) }
{
    match token {
        Token::Punctuation(Mark::Open) => Ok(TextReader {
            draft,
            phase: TextPhase::OnEdge,
        }),
        _ => Err(Fault::Refused(Why::Syntax)),
    }
}

fn on_edge_step(draft: Draft, token: Token) -> Result<TextReader, Fault>
    ensures { Gives text_state_view result (machine.phase_step limits 0 (draft_view draft) machine.OnEdge token) }
{
    match token {
        Token::Keyword(Word::Posedge) => Ok(TextReader {
            draft,
            phase: TextPhase::AtClock,
        }),
        _ => Err(Fault::Refused(Why::Syntax)),
    }
}

fn at_clock_step(clock: usize, draft: Draft, token: Token) -> Result<TextReader, Fault>
    ensures { Gives text_state_view result (machine.phase_step limits clock (draft_view draft) machine.AtClock token) }
{
    match token {
        Token::Name(name) => {
            if name == clock {
                Ok(TextReader {
                    draft,
                    phase: TextPhase::EventClosed,
                })
            } else {
                Err(Fault::Refused(Why::Syntax))
            }
        }
        _ => Err(Fault::Refused(Why::Syntax)),
    }
}

fn event_closed_step(alloc: Global, draft: Draft, token: Token) -> Result<TextReader, Fault>
    ensures { Gives text_state_view result (machine.phase_step limits 0 (draft_view draft) machine.EventClosed token) }
{
    match token {
        Token::Punctuation(Mark::Close) => Ok(TextReader {
            draft,
            phase: TextPhase::Running(statement::start(alloc)),
        }),
        _ => Err(Fault::Refused(Why::Syntax)),
    }
}

/// Reads one token of a text; the first number is that of the name `clk`.
pub fn step(
    alloc: Global,
    clock: usize,
    reader: TextReader,
    token: Token,
) -> Result<TextReader, Fault>
    requires { IsSmall token }
    ensures { Gives text_state_view result (machine.step limits clock (text_state_view reader) token) }
{
    let TextReader { draft, phase } = reader;
    match phase {
        TextPhase::Start => start_step(draft, token),
        TextPhase::Naming => naming_step(draft, token),
        TextPhase::Opening => opening_step(draft, token),
        TextPhase::FirstPort => first_port_step(draft, token),
        TextPhase::Heading(kind, spot) => spot_step(draft, kind, spot, token),
        TextPhase::Listed(kind, shape) => listed_step(draft, kind, shape, token),
        TextPhase::NextPort(kind, shape) => next_port_step(draft, kind, shape, token),
        TextPhase::PortsClosed => ports_closed_step(draft, token),
        TextPhase::AtItem => item_step(draft, token),
        TextPhase::Targeting => targeting_step(draft, token),
        TextPhase::Assigning(target) => assigning_step(alloc, draft, target, token),
        TextPhase::Valued(target, value) => valued_step(alloc, draft, target, value, token),
        TextPhase::AtEvent => at_event_step(draft, token),
        TextPhase::InEvent => in_event_step(draft, token),
        TextPhase::OnEdge => on_edge_step(draft, token),
        TextPhase::AtClock => at_clock_step(clock, draft, token),
        TextPhase::EventClosed => event_closed_step(alloc, draft, token),
        TextPhase::Running(running) => running_step(alloc, draft, running, token),
        TextPhase::Finished => Err(Fault::Refused(Why::Syntax)),
    }
}

/// A text of which nothing has been read.
pub fn start(alloc: Global) -> TextReader
    ensures { text_state_view result ≡ machine.start }
{
    TextReader {
        draft: Draft::new(alloc),
        phase: TextPhase::Start,
    }
}

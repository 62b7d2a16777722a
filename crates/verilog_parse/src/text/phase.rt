// What comes next in the text of a module.
use crate::expression::step::ExpressionReader;
use crate::statement::step::StatementReader;
use crate::text::range::{Range, Shape};
use verilog_tree::Kind;

/// What has been read of a declaration before its name: nothing, `wire`, `signed`, or some of a range.
#[derive(Clone, Copy)]
pub enum Spot {
    Wirable,
    Signable,
    Rangeable(bool),
    Ranging(bool),
    Ranged(bool, Range),
    Zeroing(bool, Range),
    Closing(bool, Range),
    Nameable(Shape),
}

/// What comes next.
#[derive(Drop)]
pub enum TextPhase {
    Start,
    Naming,
    Opening,
    FirstPort,
    Heading(Kind, Spot),
    Listed(Kind, Shape),
    NextPort(Kind, Shape),
    PortsClosed,
    AtItem,
    Targeting,
    Assigning(usize),
    Valued(usize, ExpressionReader),
    AtEvent,
    InEvent,
    OnEdge,
    AtClock,
    EventClosed,
    Running(StatementReader),
    Finished,
}

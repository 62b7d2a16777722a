// What has been begun of an expression and has not ended.
use verilog_tree::{Expr, Op};

/// What has been begun, with what it holds so far.
#[derive(Drop)]
pub enum Frame {
    Bracket,
    Not,
    Members(Vec<Expr>),
    Right(Expr, Op),
    Yes(Expr),
    No(Expr, Expr),
}

impl Frame {
    ghost use Rattle.std.specs.Prelude.{◌≡◌, ◌≤◌, [], ◌∷◌};
    ghost use Rattle.verilog_text.specs.Machine.{levels};
    ghost use Rattle.verilog_parse.specs.View.{frame_view, open_count};

    /// How many levels it opens.
    pub fn level(&self) -> usize
        ensures { result ≡ levels (frame_view self.now ∷ []) }
    {
        match self {
            Frame::Right(_, _) => 0,
            _ => 1,
        }
    }

    /// Whether it is a bracket, a concatenation or a condition: 1, or 0.
    pub fn opening(&self) -> usize
        ensures value { result ≡ open_count (frame_view self.now ∷ []) }
        ensures within { result ≤ levels (frame_view self.now ∷ []) }
    {
        match self {
            Frame::Bracket | Frame::Members(_) | Frame::Yes(_) => 1,
            Frame::Not | Frame::Right(_, _) | Frame::No(_, _) => 0,
        }
    }
}

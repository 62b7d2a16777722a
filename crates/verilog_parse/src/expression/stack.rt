// What has been begun of an expression, the latest on top.
ghost use Rattle.std.specs.Prelude.{◌≡◌, ◌≤◌};
ghost use Rattle.verilog_text.specs.Machine.{levels};
ghost use Rattle.verilog_parse.specs.View.{stack_view, open_count};

use crate::expression::frame::Frame;
use std::alloc::{AllocError, Global};

/// What has been begun and has not ended, of at most 200 levels.
#[derive(Drop)]
pub struct Stack {
    frames: Vec<Frame>,
    level_count: usize,
    unclosed: usize,
    ghost counted: { level_count ≡ levels (stack_view frames.items) },
    ghost within: { level_count ≤ 200 },
    ghost opened: { unclosed ≡ open_count (stack_view frames.items) },
}

impl Stack {
    ghost use Rattle.std.specs.Prelude.{[], ◌∷◌, ◌==◌, ◌↔◌, IsTrue, OnOk, MatchOption};
    ghost use Rattle.verilog_text.specs.Machine.{at_member};
    ghost use Rattle.verilog_parse.specs.View.{frame_view};
    ghost use Rattle.verilog_parse.specs.Begun.{begun};

    /// Nothing begun.
    pub fn new(alloc: Global) -> Self
        ensures { begun result ≡ [] }
    {
        Stack {
            frames: Vec::new(alloc),
            level_count: 0,
            unclosed: 0,
        }
    }

    /// How many levels are open.
    pub fn level_count(&self) -> usize
        ensures { result ≡ levels (begun self.now) }
    {
        self.level_count
    }

    /// Whether no bracket, concatenation or condition is open.
    pub fn is_closed(&self) -> bool
        ensures { result ≡ (open_count (begun self.now) == 0) }
    {
        self.unclosed == 0
    }

    /// Whether nothing is begun.
    pub fn is_empty(&self) -> bool
        ensures { IsTrue result ↔ (begun self.now ≡ []) }
    {
        self.frames.is_empty()
    }

    /// Whether a member of a concatenation begins here.
    pub fn is_at_member(&self) -> bool
        ensures { result ≡ at_member (begun self.now) }
    {
        matches!(self.frames.last(), Some(Frame::Members(_)))
    }

    /// Adds what begins. Fails only for want of memory.
    #[tactic(auto, using(crate::proofs::Levels::open_within))]
    pub fn push(&mut self, frame: Frame) -> Result<(), AllocError>
        requires { levels (frame_view frame ∷ begun self.old) ≤ 200 }
        ensures { OnOk result (begun self.new ≡ frame_view frame ∷ begun self.old) }
    {
        let level = frame.level();
        let opening = frame.opening();
        self.frames.push(frame)?;
        self.level_count += level;
        self.unclosed += opening;
        Ok(())
    }

    /// Takes away what was begun last.
    pub fn pop(&mut self) -> Option<Frame>
        ensures { MatchOption result ((begun self.old ≡ []) × (begun self.new ≡ [])) (λ frame. begun self.old ≡ frame_view frame ∷ begun self.new) }
    {
        let frame = self.frames.pop()?;
        self.level_count -= frame.level();
        self.unclosed -= frame.opening();
        Some(frame)
    }
}

// What has been begun of a statement, the latest on top.
use crate::statement::frame::StatementFrame;
use std::alloc::{AllocError, Global};

/// What has been begun and has not ended; each frame opens a level.
#[derive(Drop)]
pub struct StatementStack {
    frames: Vec<StatementFrame>,
}

impl StatementStack {
    ghost use Rattle.std.specs.Prelude.{◌≡◌, [], ◌∷◌, OnOk, MatchOption};
    ghost use Rattle.verilog_text.specs.StatementMachine.{levels};
    ghost use Rattle.verilog_parse.specs.StatementView.{statement_frame_view};
    ghost use Rattle.verilog_parse.specs.StatementBegun.{statement_begun};

    /// Nothing begun.
    pub fn new(alloc: Global) -> Self
        ensures { statement_begun result ≡ [] }
    {
        StatementStack {
            frames: Vec::new(alloc),
        }
    }

    /// How many levels are open.
    #[tactic(auto, using(crate::proofs::Levels::levels_of_frames))]
    pub fn level_count(&self) -> usize
        ensures { result ≡ levels (statement_begun self.now) }
    {
        self.frames.len()
    }

    /// Adds what begins. Fails only for want of memory.
    pub fn push(&mut self, frame: StatementFrame) -> Result<(), AllocError>
        ensures { OnOk result (statement_begun self.new ≡ statement_frame_view frame ∷ statement_begun self.old) }
    {
        self.frames.push(frame)?;
        Ok(())
    }

    /// Takes away what was begun last.
    pub fn pop(&mut self) -> Option<StatementFrame>
        ensures { MatchOption result ((statement_begun self.old ≡ []) × (statement_begun self.new ≡ [])) (λ frame. statement_begun self.old ≡ statement_frame_view frame ∷ statement_begun self.new) }
    {
        let frame = self.frames.pop()?;
        Some(frame)
    }
}

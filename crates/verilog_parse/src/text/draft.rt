// What has been read of a module.
ghost use Rattle.std.specs.Prelude.{◌≡◌, ◌∷◌, [], ◌++◌, OnOk};
ghost use Rattle.verilog_tree.specs.View.{tree_view, action_view};
ghost use Rattle.verilog_text.specs.TextMachine as machine;
ghost use Rattle.verilog_parse.specs.TextView.{shape_view, draft_view};

use crate::text::phase::TextPhase;
use crate::text::range::Shape;
use std::alloc::{AllocError, Global};
use verilog_tree::{Assign, Expr, Kind, Signal, Stmt};

/// What has been read of a module: its name, its declarations with their places left at 0, its assignments and its
/// always blocks.
#[derive(Drop)]
pub struct Draft {
    pub name: usize,
    pub signals: Vec<Signal>,
    pub assigns: Vec<Assign>,
    pub blocks: Vec<Stmt>,
}

/// What has been read of a text.
#[derive(Drop)]
pub struct TextReader {
    pub draft: Draft,
    pub phase: TextPhase,
}

impl Draft {
    /// Nothing read.
    pub fn new(alloc: Global) -> Self
        ensures { draft_view result ≡ machine.empty }
    {
        Draft {
            name: 0,
            signals: Vec::new(alloc),
            assigns: Vec::new(alloc),
            blocks: Vec::new(alloc),
        }
    }

    /// Adds a declaration. Fails only for want of memory.
    pub fn declare(&mut self, kind: Kind, shape: Shape, name: usize) -> Result<(), AllocError>
        ensures { OnOk result (draft_view self.new ≡ machine.declaring (draft_view self.old) kind (shape_view shape) name) }
    {
        let (ranged, width) = match shape.range {
            Some(range) => (true, range.high.value + 1),
            None => (false, 1),
        };
        self.signals.push(Signal {
            name,
            kind,
            signed: shape.signed,
            ranged,
            width,
            place: 0,
        })?;
        Ok(())
    }

    /// Adds an assignment. Fails only for want of memory.
    pub fn assign(&mut self, target: usize, value: Expr) -> Result<(), AllocError>
        ensures { OnOk result (draft_view self.new ≡ record (draft_view self.old) { assigns = (draft_view self.old).assigns ++ record { target = target; value = tree_view value } ∷ [] }) }
    {
        self.assigns.push(Assign { target, value })?;
        Ok(())
    }

    /// Adds an always block. Fails only for want of memory.
    pub fn run(&mut self, block: Stmt) -> Result<(), AllocError>
        ensures { OnOk result (draft_view self.new ≡ record (draft_view self.old) { blocks = (draft_view self.old).blocks ++ action_view block ∷ [] }) }
    {
        self.blocks.push(block)?;
        Ok(())
    }
}

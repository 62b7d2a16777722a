// A simulation of a stimulus that comes in pieces.
ghost use Rattle.std.specs.Prelude.{◌≡◌, ◌≤◌, ◌<◌, ◌+◌, ◌^◌, ◌⊎◌, ◌++◌, length, IfOk, OnOk};
ghost use Rattle.verilog_tree.specs.View.{design_view};
ghost use Rattle.verilog_tree.specs.Checks.{Passes};
ghost use Rattle.sample_file.specs.Reading.{most_before};
ghost use Rattle.row_stream.specs.Giving.{Takes};
ghost use Rattle.sim_stream.specs.Stream.{IsStart, GivesFrom};

use crate::cycle::run_cycle;
use crate::laws::law_of_one_text;
use crate::start::zero_sim;
use clock_sim::Sim;
use formed_module::FormedModule;
use mr_values::Memory;
use row_stream::{FULL, RowStream, StreamFault};
use sample_file::Lines;
use std::alloc::Global;
use std::marker::Model;
use std::mem::replace;

/// A simulation of a module, in the midst of its stimulus.
#[derive(Drop)]
pub struct SimStream<'a> {
    lines: Lines,
    sim: Sim<'a>,
    cycle: u64,
    tick: u64,
}

impl<'a> Model for SimStream<'a> {
    ghost use Rattle.std.specs.Coded.{codes};
    ghost use Rattle.verilog_tree.specs.contracts.tree.Module as module_type;
    ghost use Rattle.sim_stream.specs.Stream.{Midst, IsMidway};

    ghost Value = { Midst };

    ghost coded = { Prim.hlevel (codes, module_type.the_row.coded) };

    ghost view = { λ s. record { design = s.sim.design; values = s.sim.values; place = s.lines; cycle = s.cycle; tick = s.tick } };

    ghost invariant = { λ s. IsMidway s.sim.design s.lines s.cycle s.tick };
}

impl<'a> SimStream<'a> {
    // Takes bytes up to the end of the first row, and runs its cycle.
    fn turn(&mut self, alloc: Global, piece: &[u8], out: &mut Vec<u8>) -> Result<usize, StreamFault>
        ensures ends { Takes (GivesFrom self.old) (GivesFrom self.new) piece.now out.old.items result out.new.items }
        ensures within { IfOk result (λ taken. taken ≤ length piece.now) }
        ensures some { 0 < length piece.now → IfOk result (λ taken. 0 < taken) }
        ensures bytes { IfOk result (λ taken. most_before self.old.place + taken ≤ most_before self.new.place) }
        ensures bound { OnOk result (most_before self.new.place ≤ 2 ^ 45) }
        ensures short { length out.new.items ≤ length out.old.items + 124 }
    {
        let step = self.lines.take(piece)?;
        match step.found {
            None => Ok(step.taken),
            Some(row) => {
                self.tick = run_cycle(alloc, &mut self.sim, &row, self.cycle, self.tick, out)?;
                self.cycle += 1;
                Ok(step.taken)
            }
        }
    }

    /// A simulation of a module that passes the checks, from registers of 0, before its stimulus. Fails only for want of memory.
    pub fn start(alloc: Global, design: &'a FormedModule) -> Result<SimStream<'a>, Memory>
        requires { Passes (design_view design.now) }
        ensures { IfOk result (λ stream. IsStart stream design.now) }
    {
        Ok(SimStream {
            lines: Lines::new(alloc, 3)?,
            sim: zero_sim(alloc, design)?,
            cycle: 0,
            tick: 0,
        })
    }
}

impl RowStream for SimStream<'_> {
    ghost gives = { GivesFrom };

    ghost most = { λ s. most_before s.place };

    ghost due = { λ s. 0 };

    ghost left = { λ s. 0 };

    fn gives_some(&self) {
        law_of_one_text();
        let _known = self.cycle;
    }

    fn advance(
        &mut self,
        alloc: Global,
        piece: &[u8],
        out: &mut Vec<u8>,
    ) -> Result<usize, StreamFault> {
        let mut taken = 0;
        'rows: while taken < piece.len() && out.len() <= FULL {
            let (_, left) = piece.split_at(taken);
            taken += self.turn(alloc, left, out)?;
        }
        Ok(taken)
    }

    fn finish(&mut self, alloc: Global, out: &mut Vec<u8>) -> Result<bool, StreamFault> {
        let lines = replace(&mut self.lines, Lines::new(alloc, 3)?);
        let (cycle, tick) = (self.cycle, self.tick);
        self.cycle = 0;
        self.tick = 0;
        match lines.finish()? {
            None => Ok(true),
            Some(row) => {
                run_cycle(alloc, &mut self.sim, &row, cycle, tick, out)?;
                Ok(true)
            }
        }
    }
}

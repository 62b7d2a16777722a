// A run over a file of samples that comes in pieces.
ghost use Rattle.std.specs.Prelude.{◌≡◌, ◌≤◌, ◌<◌, ◌+◌, ◌*◌, ◌^◌, ℕ, List, true, false, length, IfOk, OnOk};
ghost use Rattle.mr_values.specs.declared.plan.Element.{Element};
ghost use Rattle.verilog_tree.specs.View.{design_view};
ghost use Rattle.verilog_tree.specs.Checks.{Passes};
ghost use Rattle.filter_text.specs.Headline.{ShowsChain};
ghost use Rattle.row_stream.specs.Giving.{Giving, GivesSome, Takes, Closes};
ghost use Rattle.chain_run.specs.Outputs.{IsTiming, GivesRun};
ghost use Rattle.chain_run.specs.Stream.{Midst, GivesFrom, TakesSamples, IsClosed, next_tick, ticks_due, ticks_left, bytes_before};
ghost use Rattle.chain_run.specs.Ends.{DueEnds, RowCloses};

use crate::ticks::{run_sample, run_zeros};
use crate::timing::ChainTiming;
use clock_sim::Sim;
use formed_module::FormedModule;
use module_laws::law_of_runs;
use mr_values::Memory;
use row_stream::{FULL, RowStream, StreamFault};
use sample_file::Lines;
use sim_stream::zero_sim;
use std::alloc::Global;
use std::marker::Model;

/// A run of a plan's module, in the midst of its samples.
#[derive(Drop)]
pub struct ChainStream<'a> {
    lines: Lines,
    sim: Sim<'a>,
    timing: ChainTiming,
    samples: u64,
    tick: u64,
}

impl<'a> Model for ChainStream<'a> {
    ghost use Rattle.std.specs.Coded.{codes};
    ghost use Rattle.verilog_tree.specs.contracts.tree.Module as module_type;
    ghost use Rattle.chain_run.specs.contracts.timing.ChainTiming as timing_type;
    ghost use Rattle.chain_run.specs.Stream.{Midst, IsRunning};

    ghost Value = { Midst };

    ghost coded = { Prim.hlevel (codes, module_type.the_row.coded) };

    ghost view = { λ s. record { design = s.sim.design; values = s.sim.values; timing = s.timing; place = s.lines; samples = s.samples; tick = s.tick } };

    ghost invariant = { λ s. IsRunning s.sim.design s.timing s.lines s.samples s.tick };
}

impl<'a> ChainStream<'a> {
    /// A run of a module that passes the checks, after one reset cycle, before its samples. Fails only for want of memory. Where the module shows a chain at these
    /// ticks, the run gives for the bytes of a file the values of the chain that belong to their samples.
    pub fn start(
        alloc: Global,
        design: &'a FormedModule,
        timing: ChainTiming,
    ) -> Result<ChainStream<'a>, Memory>
        requires passes { Passes (design_view design.now) }
        requires timing { IsTiming timing }
        requires takes { TakesSamples (design_view design.now) timing.width }
        ensures { IfOk result (λ stream. (elements : List Element) → ShowsChain elements timing.width timing.ticks timing.latency timing.period (design_view design.now) → GivesRun elements timing (GivesFrom stream)) }
    {
        let mut sim = zero_sim(alloc, design)?;
        sim.settle(true, false, 0);
        sim.edge();
        Ok(ChainStream {
            lines: Lines::new(alloc, 1)?,
            sim,
            timing,
            samples: 0,
            tick: 0,
        })
    }

    // Runs the ticks that are left of the samples so far, or until the output is full, and tells whether all were run.
    fn run_due(&mut self, alloc: Global, out: &mut Vec<u8>) -> Result<bool, Memory>
        ensures ends { DueEnds self.old self.new out.old.items result out.new.items }
        ensures stays { self.new ≡ record self.old { values = self.new.values; tick = self.new.tick } }
        ensures least { self.old.tick ≤ self.new.tick }
        ensures all { IfOk result (λ all. all ≡ true → next_tick self.old ≤ self.new.tick) }
        ensures full { IfOk result (λ all. all ≡ false → (self.new.tick < next_tick self.old) × (65000 < length out.new.items)) }
        ensures none { OnOk result (self.new.tick ≡ self.old.tick → out.new.items ≡ out.old.items) }
        ensures left { ticks_left self.new ≤ ticks_left self.old }
        ensures idle { OnOk result (ticks_left self.new ≡ ticks_left self.old → out.new.items ≡ out.old.items) }
        ensures short { (limit : ℕ) → 65042 ≤ limit → length out.old.items ≤ limit → length out.new.items ≤ limit }
    {
        let next = self.samples * self.timing.ticks;
        self.tick = run_zeros(alloc, &mut self.sim, self.tick, next, out)?;
        Ok(self.tick >= next)
    }

    // Takes bytes up to the end of the first row, and runs its tick.
    fn take_row(
        &mut self,
        alloc: Global,
        piece: &[u8],
        out: &mut Vec<u8>,
    ) -> Result<usize, StreamFault>
        requires due { next_tick self.old ≤ self.old.tick }
        ensures ends { Takes (GivesFrom self.old) (GivesFrom self.new) piece.now out.old.items result out.new.items }
        ensures within { IfOk result (λ taken. taken ≤ length piece.now) }
        ensures some { 0 < length piece.now → IfOk result (λ taken. 0 < taken) }
        ensures due { ticks_due self.new ≤ 65536 }
        ensures bytes { IfOk result (λ taken. bytes_before self.old + taken ≤ bytes_before self.new) }
        ensures bound { OnOk result (bytes_before self.new ≤ 2 ^ 45) }
        ensures short { length out.new.items ≤ length out.old.items + 42 }
    {
        let step = self.lines.take(piece)?;
        match step.found {
            None => Ok(step.taken),
            Some(row) => {
                run_sample(alloc, &mut self.sim, &row, self.timing.width, out)?;
                self.samples += 1;
                self.tick += 1;
                Ok(step.taken)
            }
        }
    }

    // Runs what is due, and takes bytes up to the end of the first row where the output isn't full.
    fn turn(&mut self, alloc: Global, piece: &[u8], out: &mut Vec<u8>) -> Result<usize, StreamFault>
        requires some { 0 < length piece.now }
        requires room { length out.old.items ≤ 65000 }
        ensures ends { Takes (GivesFrom self.old) (GivesFrom self.new) piece.now out.old.items result out.new.items }
        ensures within { IfOk result (λ taken. taken ≤ length piece.now) }
        ensures some { IfOk result (λ taken. ticks_due self.new < ticks_due self.old + taken * 2 ^ 17) }
        ensures same { IfOk result (λ taken. taken ≡ 0 → bytes_before self.new ≡ bytes_before self.old) }
        ensures bytes { IfOk result (λ taken. bytes_before self.old + taken ≤ bytes_before self.new) }
        ensures bound { IfOk result (λ taken. 0 < taken → bytes_before self.new ≤ 2 ^ 45) }
        ensures short { length out.new.items ≤ 65536 }
    {
        if !self.run_due(alloc, out)? {
            return Ok(0);
        }
        self.take_row(alloc, piece, out)
    }

    // Runs the tick of a last row without an end.
    fn close_row(&mut self, alloc: Global, out: &mut Vec<u8>) -> Result<(), StreamFault>
        requires due { next_tick self.old ≤ self.old.tick }
        ensures ends { RowCloses self.old self.new out.old.items result out.new.items }
        ensures closed { OnOk result (IsClosed self.new) }
        ensures left { OnOk result (ticks_left self.new ≤ ticks_left self.old) }
        ensures none { OnOk result (ticks_left self.new ≡ ticks_left self.old → out.new.items ≡ out.old.items) }
        ensures short { length out.new.items ≤ length out.old.items + 42 }
    {
        if let Some(row) = self.lines.close()? {
            run_sample(alloc, &mut self.sim, &row, self.timing.width, out)?;
            self.samples += 1;
            self.tick += 1;
        }
        Ok(())
    }

    // Runs the ticks behind the last sample, or until the output is full, and tells whether all were run.
    fn run_end(&mut self, alloc: Global, out: &mut Vec<u8>) -> Result<bool, StreamFault>
        requires closed { IsClosed self.old }
        ensures ends { Closes (GivesFrom self.old) (GivesFrom self.new) out.old.items result out.new.items }
        ensures left { OnOk result (ticks_left self.new ≤ ticks_left self.old) }
        ensures none { OnOk result (ticks_left self.new ≡ ticks_left self.old → out.new.items ≡ out.old.items) }
        ensures full { IfOk result (λ all. all ≡ false → 65000 < length out.new.items) }
        ensures short { (limit : ℕ) → 65042 ≤ limit → length out.old.items ≤ limit → length out.new.items ≤ limit }
    {
        let end = self.timing.end_tick(self.samples);
        self.tick = run_zeros(alloc, &mut self.sim, self.tick, end, out)?;
        if self.tick < end {
            return Ok(false);
        }
        Ok(true)
    }
}

impl<'a> RowStream for ChainStream<'a> {
    ghost gives = { GivesFrom };

    ghost most = { bytes_before };

    ghost due = { ticks_due };

    ghost left = { ticks_left };

    fn gives_some(&self)
        ensures { GivesSome (GivesFrom self.now) }
    {
        let _running = self.tick;
        law_of_runs();
    }

    fn advance(
        &mut self,
        alloc: Global,
        piece: &[u8],
        out: &mut Vec<u8>,
    ) -> Result<usize, StreamFault> {
        let mut taken = 0;
        'rows: while taken < piece.len() && out.len() <= FULL {
            let (_, left) = piece.split_at(taken);
            taken += self.turn(alloc, left, out)?;
        }
        Ok(taken)
    }

    fn finish(&mut self, alloc: Global, out: &mut Vec<u8>) -> Result<bool, StreamFault> {
        if !self.run_due(alloc, out)? {
            return Ok(false);
        }
        self.close_row(alloc, out)?;
        self.run_end(alloc, out)
    }
}

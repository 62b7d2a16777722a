// The assignments of a cycle, evaluated as they are drawn.

ghost use Rattle.std.specs.Prelude.{◌≡◌, ℕ, ◌+◌, ◌==◌, ◌<◌, ◌≤◌, ◌^◌, Bool, length, slice_index};
ghost use Rattle.verilog_tree.specs.Circuit.{IsSettling, given_by};
ghost use Rattle.verilog_tree.specs.Cycle.{circuit_of};
ghost use Rattle.verilog_tree.specs.View.{design_view};
ghost use Rattle.settle_order.specs.Placing.{opened_of};
ghost use Rattle.clock_sim.specs.Sim.{IsSound};
ghost use Rattle.clock_sim.specs.Simulated.{values_of};
ghost use Rattle.event_order.specs.Drawn.{how_many, place_of, state_after, last_evaluated, declared_names, update_count};
ghost use Rattle.order_sim.specs.Drawing.{times, AreReaders, CountReads, AreFlagged, AreUndone, AreCountedDown, signal_names};

use crate::readers::Readers;
use clock_sim::Sim;
use draws::draw;
use settle_order::is_open;
use verilog_tree::Module;

// The place of this number, from 0, among the flags that are set.
fn nth_set(flags: &[bool], number: usize) -> usize
    requires { number < how_many (opened_of flags.now) (length flags.now) }
    ensures { result ≡ place_of (opened_of flags.now) (length flags.now) number }
{
    let mut left = number;
    for (place, flag) in flags.iter().enumerate() {
        if *flag {
            if left == 0 {
                return place;
            }
            left -= 1;
        }
    }
    flags.len()
}

// Sets the flags of the places that wait for nothing, and no others. Tells how many there are.
fn flag_first(waiting: &[usize], flags: &mut [bool]) -> usize
    requires { length flags.old ≡ length waiting.now }
    ensures set { (k : ℕ) → k < length waiting.now → opened_of flags.new k ≡ (slice_index waiting.now k == 0) }
    ensures count { result ≡ how_many (opened_of flags.new) (length waiting.now) }
{
    let mut count = 0;
    for place in 0..waiting.len() {
        flags[place] = waiting[place] == 0;
        if flags[place] {
            count += 1;
        }
    }
    count
}

// Counts down at each of these places, and sets the flag of one that waits for nothing more. Tells how many flags are set, of which
// there were `count`.
fn release(places: &[usize], waiting: &mut [usize], flags: &mut [bool], count: usize) -> usize
    requires sizes { length flags.old ≡ length waiting.old }
    requires enough { (k : ℕ) → times places.now k ≤ slice_index waiting.old k }
    requires room { count + length places.now < 2 ^ 64 }
    ensures down { AreCountedDown places.now waiting.old waiting.new }
    ensures flags { (done : ℕ → Bool) → AreFlagged done waiting.old flags.old count → AreUndone done places.now → AreFlagged done waiting.new flags.new result }
{
    let mut set = count;
    for place in places {
        waiting[*place] -= 1;
        if waiting[*place] == 0 {
            flags[*place] = true;
            set += 1;
        }
    }
    set
}

/// What was drawn: the assignment that was evaluated last, by its place, and the state of the draws.
#[derive(Drop)]
pub(crate) struct Drawn {
    pub(crate) last: usize,
    pub(crate) number: u64,
}

/// Evaluates the assignments in the order that is drawn in this state.
pub(crate) fn settle_drawn(
    sim: &mut Sim<'_>,
    readers: &[Readers],
    reads: &[usize],
    waiting: &mut [usize],
    ready: &mut [bool],
    number: u64,
) -> Drawn
    requires sound { IsSound (design_view sim.old.design) }
    requires readers { AreReaders (circuit_of (design_view sim.old.design)) readers.now }
    requires reads { CountReads (circuit_of (design_view sim.old.design)) reads.now }
    requires waits { length waiting.old ≡ length (circuit_of (design_view sim.old.design)).drivers }
    requires flags { length ready.old ≡ length (circuit_of (design_view sim.old.design)).drivers }
    ensures design { sim.new.design ≡ sim.old.design }
    ensures count { length sim.new.values ≡ length sim.old.values }
    ensures settled { IsSettling (circuit_of (design_view sim.old.design)) (values_of sim.old.values) (values_of sim.new.values) }
    ensures last { result.last ≡ last_evaluated (circuit_of (design_view sim.old.design)) number }
    ensures number { result.number ≡ state_after number (length (circuit_of (design_view sim.old.design)).drivers) }
{
    waiting.copy_from_slice(reads);
    let mut count = flag_first(waiting, ready);
    let mut state = number;
    let mut last = 0;
    for _turn in 0..reads.len() {
        let (next, drawn) = draw(state);
        state = next;
        last = nth_set(ready, drawn as usize % count);
        sim.evaluate(last);
        ready[last] = false;
        count = release(readers[last].places.as_slice(), waiting, ready, count - 1);
    }
    Drawn {
        last,
        number: state,
    }
}

// How many registers the blocks give a value, by the signals in their order.
fn count_signals(sim: &Sim<'_>, design: &Module, marks: &mut [bool]) -> usize
    requires design { sim.now.design ≡ design.now }
    requires sizes { length marks.old ≡ length sim.now.values }
    ensures { result ≡ update_count (circuit_of (design_view design.now)) (signal_names (design_view design.now)) (values_of sim.now.values) }
{
    marks.fill(false);
    sim.mark_given(marks);
    let mut count = 0;
    for signal in design.signals.as_slice() {
        if is_open(marks, signal.name) {
            count += 1;
        }
    }
    count
}

/// How many registers the blocks give a value.
pub(crate) fn count_given(sim: &Sim<'_>, design: &Module, marks: &mut [bool]) -> usize
    requires design { sim.now.design ≡ design.now }
    requires sizes { length marks.old ≡ length sim.now.values }
    ensures { result ≡ update_count (circuit_of (design_view design.now)) (declared_names (design_view design.now)) (values_of sim.now.values) }
{
    count_signals(sim, design, marks)
}

/// The state after so many draws.
pub(crate) fn draw_on(number: u64, draws: usize) -> u64
    ensures { result ≡ state_after number draws }
{
    let mut state = number;
    for _turn in 0..draws {
        let (next, _) = draw(state);
        state = next;
    }
    state
}

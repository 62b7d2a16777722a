//! What the module that is written for a net shows, cycle by cycle.
#![tactic(auto)]

ghost use Rattle.std.specs.Prelude.{ℕ, Bool, List, ℤ};
ghost use Rattle.net_graph.specs.declared.cell.Cell.{Cell};
ghost use Rattle.net_module.specs.Written.{written_module};
ghost use Rattle.verilog_text.specs.Order.{IsSameButPlaces};
ghost use Rattle.verilog_tree.specs.Tree.{Design};
ghost use Rattle.shown_module.specs.Shown.{ShowsAt, ShowsInEach};
ghost use Rattle.shown_module.specs.ShownNet.{IsShownNet};

/// The written module of a net that has a value at each shown tick, with a bit that is set exactly there, shows these values: `out_valid` and
/// `out_data` tell them in every cycle, whatever the clock enable, and what is shown after the last reset are exactly these.
pub fn law_of_shows()
    ensures each { (width : ℕ) (shown : ℕ → Bool) (value : List ℤ → ℕ → ℤ) (cells : List Cell) → IsShownNet width shown value cells → (d : Design) → IsSameButPlaces d (written_module cells) → ShowsInEach width shown value d }
    ensures at { (width : ℕ) (shown : ℕ → Bool) (value : List ℤ → ℕ → ℤ) (cells : List Cell) → IsShownNet width shown value cells → (d : Design) → IsSameButPlaces d (written_module cells) → ShowsAt width shown value d }
{}

// What holds of every net, as contracts of calls that do nothing.

ghost use Rattle.std.specs.Prelude.{◌≡◌, ℕ, ◌<◌, ℤ, List, length};
ghost use Rattle.net_graph.specs.declared.cell.Cell.{Cell};
ghost use Rattle.net_graph.specs.WellFormed.{IsNetlist};
ghost use Rattle.net_graph.specs.Cut.{Cut, IsCut, cut_all, cut_control};
ghost use Rattle.net_graph.specs.Run.{Values, IsRun};
ghost use Rattle.net_graph.specs.Grow.{Extends};
ghost use Rattle.net_graph.specs.Control.{IsOfControl, IsControlClosed};

/// A finished net has exactly one run for each list of inputs, and exactly one uncut run.
pub fn law_of_runs()
    ensures cut { IsCut cut_all }
    ensures uncut { IsCut cut_control }
    ensures exists { (cells : List Cell) → IsNetlist cells → (cut : Cut) → IsCut cut → (inputs : ℕ → ℤ) → (values : Values) × IsRun cut cells inputs values }
    ensures unique { (cells : List Cell) → IsNetlist cells → (cut : Cut) (inputs : ℕ → ℤ) (values others : Values) → IsRun cut cells inputs values → IsRun cut cells inputs others → (t place : ℕ) → place < length cells → values t place ≡ others t place }
{}

/// Between two moments at which every register has its next, each earlier node has the same values in all runs of the same inputs,
/// and in all uncut runs.
pub fn law_of_growth()
    ensures { (old new : List Cell) → IsNetlist old → Extends old new → (cut : Cut) → IsCut cut → (inputs : ℕ → ℤ) (values others : Values) → IsRun cut old inputs values → IsRun cut new inputs others → (t place : ℕ) → place < length old → others t place ≡ values t place }
{}

/// Where control nodes read control nodes alone, each has the same value in all runs of all inputs, cut or uncut.
pub fn law_of_control()
    ensures { (cells : List Cell) → IsNetlist cells → IsControlClosed cells → (cut other : Cut) → IsCut cut → IsCut other → (inputs inputs' : ℕ → ℤ) (values others : Values) → IsRun cut cells inputs values → IsRun other cells inputs' others → (t place : ℕ) → IsOfControl cells place → values t place ≡ others t place }
{}

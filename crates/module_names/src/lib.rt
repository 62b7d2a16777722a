//! The names, the control, the ports, the outputs and the registers of a module that is written for a net.
#![tactic(auto)]

ghost use Rattle.std.specs.Prelude.{◌≡◌, ℕ, ◌≤◌, List, Some, slice_get};
ghost use Rattle.net_graph.specs.declared.cell.Cell.{Cell};
ghost use Rattle.net_graph.specs.declared.name.Name.{Name};
ghost use Rattle.net_graph.specs.Control.{IsControlClosed};
ghost use Rattle.net_graph.specs.WellFormed.{IsNetlist};
ghost use Rattle.net_module.specs.Steps.{width_in};
ghost use Rattle.net_module.specs.Written.{IsWritable, written_module};
ghost use Rattle.verilog_text.specs.Order.{IsSameButPlaces};
ghost use Rattle.verilog_tree.specs.Tree.{Design};
ghost use Rattle.module_names.specs.Control.{HasControl};
ghost use Rattle.module_names.specs.Names.{HasNames};
ghost use Rattle.module_names.specs.Outputs.{HasPlainOutputs};
ghost use Rattle.module_names.specs.Ports.{HasPorts};
ghost use Rattle.module_names.specs.Registers.{HasHeldBlocks, HasReset};

/// The written module is called `mr_filter`. Each name that it declares is a port, `out_q`, a control name or a name of one of so many
/// groups, where the groups of the nodes and of their names are at most so many; each of its registers is named as one, and its wires and
/// registers are signed.
pub fn law_of_names()
    ensures { (cells : List Cell) → IsNetlist cells → IsWritable cells → (count : ℕ) → ((place : ℕ) (cell : Cell) → slice_get cells place ≡ Some cell → cell.group ≤ count) → ((place : ℕ) (cell : Cell) (name : Name) → slice_get cells place ≡ Some cell → cell.name ≡ Some name → name.group ≤ count) → (d : Design) → IsSameButPlaces d (written_module cells) → HasNames count d }
{}

/// Each control name of the written module has at each tick after a reset one value in all runs, where control nodes read control nodes
/// alone.
pub fn law_of_control()
    ensures { (cells : List Cell) → IsNetlist cells → IsWritable cells → IsControlClosed cells → (d : Design) → IsSameButPlaces d (written_module cells) → HasControl d }
{}

/// The written module's `in_data` is signed and as wide as the net's input, `out_data` is signed and as wide as `out_q`, `out_q` is a
/// register, and after a reset `out_data` has its bits.
pub fn law_of_ports()
    ensures { (cells : List Cell) → IsNetlist cells → IsWritable cells → (d : Design) → IsSameButPlaces d (written_module cells) → HasPorts (width_in cells) d }
{}

/// The written module's statements that drive `out_q`, `out_data` and `out_valid` hold no `+` and no `-`.
pub fn law_of_outputs()
    ensures { (cells : List Cell) → IsNetlist cells → (d : Design) → IsSameButPlaces d (written_module cells) → HasPlainOutputs d }
{}

/// Each always block of the written module sets its register to 0 where `rst` is 1, and else gives it a value where `ce` is 1.
pub fn law_of_blocks()
    ensures { (cells : List Cell) → IsNetlist cells → IsWritable cells → (d : Design) → IsSameButPlaces d (written_module cells) → HasHeldBlocks d }
{}

/// In the written module a cycle with `rst` 1 sets each register to 0, and one with `rst` 0 and `ce` 0 changes none.
pub fn law_of_reset()
    ensures { (cells : List Cell) → IsNetlist cells → IsWritable cells → (d : Design) → IsSameButPlaces d (written_module cells) → HasReset d }
{}

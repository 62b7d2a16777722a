//! Modules that have a writing in the subset of Verilog, by their type. This crate owns that type alone: it doesn't know how a module is read, made from
//! a net, checked or simulated. The reader and the chain of filters make such modules; the writer, the simulators and the laws of orders take them.
#![tactic(auto)]

ghost use Rattle.std.specs.Prelude.{◌≡◌};
ghost use Rattle.verilog_tree.specs.View.{design_view};
ghost use Rattle.verilog_text.specs.Grammar.{limits};
ghost use Rattle.verilog_text.specs.Shortest.{IsWritable};

use std::marker::Model;
use verilog_tree::Module;

/// A module whose names are different names of the grammar, whose parts are formed, and whose shortest writing keeps the limits of a text.
#[derive(Drop)]
pub struct FormedModule {
    tree: Module,
}

impl Model for FormedModule {
    ghost use Rattle.std.specs.Coded.{codes};
    ghost use Rattle.verilog_tree.specs.contracts.tree.Module as module_type;
    ghost use Rattle.verilog_tree.specs.declared.tree.Module.{Module};
    ghost use Rattle.verilog_tree.specs.View.{design_view};
    ghost use Rattle.verilog_text.specs.Grammar.{limits};
    ghost use Rattle.verilog_text.specs.Shortest.{IsWritable};

    ghost Value = { Module };

    ghost coded = { Prim.hlevel (codes, module_type.the_row.coded) };

    ghost view = { λ m. m.tree };

    ghost invariant = { λ m. IsWritable limits (design_view m.tree) };
}

impl FormedModule {
    /// The module with this tree, which has a writing.
    pub fn new(tree: Module) -> FormedModule
        requires { IsWritable limits (design_view tree) }
        ensures { result ≡ tree }
    {
        FormedModule { tree }
    }

    /// The tree of the module.
    pub fn tree(&self) -> &Module
        ensures same { result.now ≡ self.now }
        ensures formed { IsWritable limits (design_view self.now) }
    {
        &self.tree
    }
}

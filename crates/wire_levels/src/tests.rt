// What no clause says: with memory at hand, the levels are found.

use super::levels;
use mr_values::{Memory, Text};
use std::alloc::Global;
use std::test::Fail;
use verilog_check::check;
use verilog_tree::{Assign, Expr, Kind, Module, Signal, Stmt};

fn declare(
    alloc: Global,
    module: &mut Module,
    text: &str,
    kind: Kind,
    place: u64,
) -> Result<(), Memory> {
    let name = module.names.len();
    module.names.push(Text::from_str(alloc, text)?)?;
    module.signals.push(Signal {
        name,
        kind,
        signed: false,
        ranged: false,
        width: 1,
        place,
    })?;
    Ok(())
}

// A module in which `out_data` is `out_valid`, and this is the register.
fn sample(alloc: Global) -> Result<Module, Memory> {
    let mut module = Module {
        name: 0,
        names: Vec::new(alloc),
        signals: Vec::new(alloc),
        assigns: Vec::new(alloc),
        blocks: Vec::new(alloc),
    };
    declare(alloc, &mut module, "clk", Kind::Input, 1)?;
    declare(alloc, &mut module, "rst", Kind::Input, 2)?;
    declare(alloc, &mut module, "ce", Kind::Input, 3)?;
    declare(alloc, &mut module, "in_data", Kind::Input, 4)?;
    declare(alloc, &mut module, "out_valid", Kind::Output, 5)?;
    declare(alloc, &mut module, "out_data", Kind::Output, 6)?;
    declare(alloc, &mut module, "r", Kind::Reg, 7)?;
    module.assigns.push(Assign {
        target: 5,
        value: Expr::Name(4),
    })?;
    module.assigns.push(Assign {
        target: 4,
        value: Expr::Name(6),
    })?;
    module.blocks.push(Stmt::Set(6, Expr::Name(3)))?;
    Ok(module)
}

#[test]
fn levels_of_a_module(rt: HostRuntime) -> Result<(), Fail> {
    let module = sample(rt.alloc())?;
    match check(rt.alloc(), &module) {
        Ok(()) => {
            let found = levels(rt.alloc(), &module)?;
            assert_eq!(rt; found.as_slice(), [0, 0, 0, 0, 1, 2, 0].as_slice());
        }
        Err(_) => assert!(rt; false),
    }
    Ok(())
}

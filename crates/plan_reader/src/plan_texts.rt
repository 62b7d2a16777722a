// What a plan file says.
use crate::tapped::set_taps_of;
use mr_values::{Elements, Plan, Text};
use std::marker::Model;
use std::mem;

/// A tap file that a plan names, for the element of this number, counted from 1.
#[derive(Debug, Drop)]
pub struct TapFile {
    pub element: u32,
    pub name: Text,
}

/// The tap files of a plan in the order of their elements, which contracts see as their list.
#[derive(Debug, Drop)]
pub struct TapFiles {
    items: Vec<TapFile>,
}

impl Model for TapFiles {
    ghost use Rattle.std.specs.Prelude.{List};
    ghost use Rattle.plan_reader.specs.declared.plan_texts.TapFile.{TapFile};

    ghost Value = { List TapFile };

    ghost view = { λ files. files.items.items };
}

impl TapFiles {
    ghost use Rattle.std.specs.Prelude.{◌≡◌};

    pub fn from_vec(items: Vec<TapFile>) -> TapFiles
        ensures { result ≡ items.items }
    {
        TapFiles { items }
    }

    pub fn as_slice(&self) -> &[TapFile]
        ensures { result.now ≡ self.now }
    {
        self.items.as_slice()
    }
}

/// A plan as its file says it, and the version of that file, 1 or 2. A filter whose taps stand in a file of their own has none until they are set.
#[derive(Debug, Drop)]
pub struct PlanText {
    pub version: u8,
    pub plan: Plan,
    pub files: TapFiles,
}

impl PlanText {
    ghost use Rattle.std.specs.Prelude.{◌≡◌};
    ghost use Rattle.plan_reader.specs.Tapped.{plan_tapped};

    /// Puts the taps of a file into its element, counted from 1. Leaves all as it is where the element is no filter.
    pub fn set_taps(&mut self, element: u32, taps: Vec<i64>)
        ensures plan { self.new.plan ≡ plan_tapped element taps.items self.old.plan }
        ensures files { self.new.files ≡ self.old.files }
        ensures version { self.new.version ≡ self.old.version }
    {
        let none = Elements::from_vec(Vec::new(*taps.allocator()));
        let mut elements = mem::replace(&mut self.plan.elements, none).into_vec();
        set_taps_of(&mut elements, element, taps);
        self.plan.elements = Elements::from_vec(elements);
    }
}

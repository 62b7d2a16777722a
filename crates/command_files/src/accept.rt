// Plans and their tap files, read from a host, and which of them are accepted.
ghost use Rattle.std.specs.Prelude.{◌≡◌, IfOk, IfErr, IsTrue};
ghost use Rattle.plan_reader.specs.Versions.{IsVersioned};
ghost use Rattle.command_files.specs.Ends.{EndsWith, IsThisFile, call_of};
ghost use Rattle.command_files.specs.Conversions.{fault_of_taps, IsPlain};
ghost use Rattle.command_files.specs.PlanFile.{IsTapFile, IsOfPlan};
ghost use Rattle.command_files.specs.Reading.{TextAnswer, ReadsTaps, ReadsTapFiles, IsAcceptedPlan, CheckAnswer, ReadsPlan};

use crate::files::read_file;
use crate::{CommandFault, FileKind};
use mr_values::{Host, Plan};
use plan_check::{Facts, check_plan};
use plan_reader::{PlanText, TapFault, TapFile, read_plan, read_taps};
use std::alloc::Global;

/// The most bytes of a plan file and of a tap file.
pub const FILE_LIMIT: usize = 1 << 20;

/// A plan that is accepted, the version of its file, and its facts.
#[derive(Drop)]
pub struct AcceptedPlan {
    pub version: u8,
    pub plan: Plan,
    pub facts: Facts,
}

/// Reads PLAN whole, and then each tap file that it names, in the order of their elements. Fails with `FileTooLong`
/// where one of them has more than 1 MiB, with the first test that they don't pass, with `HostFault` where a host call
/// fails, and for want of memory.
pub fn read_accepted<H: Host>(
    alloc: Global,
    host: &mut H,
    name: &str,
) -> Result<AcceptedPlan, CommandFault>
    ensures accepted { IfOk result IsAcceptedPlan }
    ensures plain { IfErr result IsPlain }
    ensures cause { EndsWith (IsOfPlan name.now) (call_of result) (H.state host.old) (H.state host.new) }
    ensures told { IsTrue (H.state host.old).tells → ReadsPlan name.now result (H.state host.old) (H.state host.new) }
{
    let bytes = read_file(alloc, host, name, FileKind::Plan, FILE_LIMIT)?;
    let text = text_of(alloc, &bytes)?;
    let version = text.version;
    let plan = read_tap_files(alloc, host, text)?;
    accept(alloc, version, plan)
}

// The plan that the bytes of PLAN say, and the tap files that they name.
fn text_of(alloc: Global, bytes: &[u8]) -> Result<PlanText, CommandFault>
    ensures plain { IfErr result IsPlain }
    ensures answer { TextAnswer bytes.now result }
    ensures versioned { IfOk result (λ text. IsVersioned text.version text.plan.elements) }
{
    Ok(read_plan(alloc, bytes)?)
}

// The plan with the taps of its tap files.
fn read_tap_files<H: Host>(
    alloc: Global,
    host: &mut H,
    mut text: PlanText,
) -> Result<Plan, CommandFault>
    requires versioned { IsVersioned text.version text.plan.elements }
    ensures versioned { IfOk result (λ plan. IsVersioned text.version plan.elements) }
    ensures plain { IfErr result IsPlain }
    ensures cause { EndsWith (IsTapFile text) (call_of result) (H.state host.old) (H.state host.new) }
    ensures told { IsTrue (H.state host.old).tells → ReadsTapFiles text result (H.state host.old) (H.state host.new) }
{
    for index in 0..text.files.as_slice().len() {
        let file = &text.files.as_slice()[index];
        let element = file.element;
        let taps = read_tap_file(alloc, host, file)?;
        text.set_taps(element, taps);
    }
    let PlanText {
        version: _,
        plan,
        files: _,
    } = text;
    Ok(plan)
}

fn read_tap_file<H: Host>(
    alloc: Global,
    host: &mut H,
    file: &TapFile,
) -> Result<Vec<i64>, CommandFault>
    ensures plain { IfErr result IsPlain }
    ensures cause { EndsWith (IsThisFile file.now.name) (call_of result) (H.state host.old) (H.state host.new) }
    ensures told { IsTrue (H.state host.old).tells → ReadsTaps file.now result (H.state host.old) (H.state host.new) }
{
    let kind = FileKind::Taps(file.element);
    let bytes = read_file(alloc, host, file.name.as_str(), kind, FILE_LIMIT)?;
    match read_taps(alloc, &bytes) {
        Ok(taps) => Ok(taps),
        Err(why) => Err(fault_of_taps(file.element, why)),
    }
}

// The plan with its facts, where it passes all tests.
fn accept(alloc: Global, version: u8, plan: Plan) -> Result<AcceptedPlan, CommandFault>
    requires { IsVersioned version plan.elements }
    ensures plain { IfErr result IsPlain }
    ensures answer { CheckAnswer version plan result }
{
    let facts = check_plan(alloc, &plan)?;
    Ok(AcceptedPlan {
        version,
        plan,
        facts,
    })
}

fn fault_of_taps(element: u32, why: TapFault) -> CommandFault
    ensures { result ≡ fault_of_taps element why }
{
    match why {
        TapFault::Memory => CommandFault::Memory,
        TapFault::Bad { row, why } => CommandFault::Tap { element, row, why },
    }
}

// The top call.
ghost use Rattle.std.specs.Prelude.{◌≡◌, ℕ, List, ◌↔◌, IfErr, IfSome, IsOkUnless, map, IsTrue, string_bytes, Some, None};
ghost use Rattle.mr_values.specs.Faults.{IsRisen};
ghost use Rattle.filter_core.specs.CommandWords.{CommandWords, AreApart, compile_words, words_of, command_of};
ghost use Rattle.plan_commands.specs.Compile.{IsCompiled};
ghost use Rattle.command_files.specs.Ends.{EndsWith, call_of};
ghost use Rattle.command_files.specs.Conversions.{IsPlain};
ghost use Rattle.filter_core.specs.Answers.{blamed, IsPlainFault};
ghost use Rattle.filter_core.specs.Statuses.{status_of};
ghost use Rattle.filter_core.specs.Tool.{CommandEnds, ToolEnds, IsReady, IsReadFor, IsReadBy, result_of};

use crate::fault::Fault;
use crate::status::status_of;
use crate::words::{Command, read_words};
use command_files::CommandFault;
use demo_command::demo;
use mr_values::Host;
use plan_commands::{compile, extreme, migrate, noble, run_plan};
use std::alloc::Global;
use text_commands::{order, sim};

/// What the program answers.
#[derive(Debug, Drop)]
pub struct Outcome {
    pub status: u8,
    pub fault: Option<Fault>,
}

/// Does the command that the words are.
pub fn filter_tool<H: Host>(alloc: Global, words: &[String], host: &mut H) -> Outcome
    ensures status { result.status ≡ status_of result.fault }

    // Words that are no command make no host call.
    ensures usage { (result.fault ≡ Some Fault.Usage) ↔ (command_of (map string_bytes words.now) ≡ None) }
    ensures untouched { result.fault ≡ Some Fault.Usage → host.new ≡ host.old }

    // A blamed host call has failed, and over told files it was struck, or a file isn't there.
    ensures cause { EndsWith (IsReadBy (command_of (map string_bytes words.now))) (blamed result.fault) (H.state host.old) (H.state host.new) }

    // A fault holds no want of memory but its own, whatever the host tells.
    ensures plain { IfSome result.fault IsPlainFault }

    // The headline: what a compiled plan's text shows is exactly the plan's chain.
    ensures headline { (plan text report : List ℕ) → command_of (map string_bytes words.now) ≡ Some (compile_words plan text report) → IsTrue (H.state host.old).tells → result.fault ≡ None
        → IsCompiled plan text report (H.state host.old) (H.state host.new) }

    // What each answer says of the files, before and after.
    ensures told { IsTrue (H.state host.old).tells → ToolEnds (command_of (map string_bytes words.now)) result.fault (H.state host.old) (H.state host.new) }

    // A command whose files are there and accepted is done, unless a host call or memory fails.
    ensures complete { (command : CommandWords) → command_of (map string_bytes words.now) ≡ Some command → IsTrue (H.state host.old).tells → IsReady command (H.state host.old).files
        → ¬ IsRisen (H.state host.old).struck (H.state host.new).struck → IsOkUnless (result_of result.fault) Fault.Memory }
{
    let fault = answer(alloc, words, host);
    Outcome {
        status: status_of(&fault),
        fault,
    }
}

// The fault of the command that the words are, or of words that are none.
fn answer<H: Host>(alloc: Global, words: &[String], host: &mut H) -> Option<Fault>
    ensures usage { (result ≡ Some Fault.Usage) ↔ (command_of (map string_bytes words.now) ≡ None) }
    ensures untouched { result ≡ Some Fault.Usage → host.new ≡ host.old }
    ensures cause { EndsWith (IsReadBy (command_of (map string_bytes words.now))) (blamed result) (H.state host.old) (H.state host.new) }
    ensures plain { IfSome result IsPlainFault }
    ensures headline { (plan text report : List ℕ) → command_of (map string_bytes words.now) ≡ Some (compile_words plan text report) → IsTrue (H.state host.old).tells → result ≡ None
        → IsCompiled plan text report (H.state host.old) (H.state host.new) }
    ensures told { IsTrue (H.state host.old).tells → ToolEnds (command_of (map string_bytes words.now)) result (H.state host.old) (H.state host.new) }
    ensures complete { (command : CommandWords) → command_of (map string_bytes words.now) ≡ Some command → IsTrue (H.state host.old).tells → IsReady command (H.state host.old).files
        → ¬ IsRisen (H.state host.old).struck (H.state host.new).struck → IsOkUnless (result_of result) Fault.Memory }
{
    match read_words(words) {
        Some(command) => match run(alloc, command, host) {
            Ok(()) => None,
            Err(why) => Some(Fault::from(why)),
        },
        None => Some(Fault::Usage),
    }
}

fn run<H: Host>(alloc: Global, command: Command<'_>, host: &mut H) -> Result<(), CommandFault>
    requires { AreApart (words_of command) }
    ensures headline { (plan text report : List ℕ) → words_of command.entry ≡ compile_words plan text report → IsTrue (H.state host.old).tells → result ≡ Ok tt
        → IsCompiled plan text report (H.state host.old) (H.state host.new) }
    ensures cause { EndsWith (IsReadFor (words_of command.entry)) (call_of result) (H.state host.old) (H.state host.new) }
    ensures told { IsTrue (H.state host.old).tells → CommandEnds (words_of command.entry) result (H.state host.old) (H.state host.new) }
    ensures plain { IfErr result IsPlain }
    ensures complete { IsTrue (H.state host.old).tells → IsReady (words_of command.entry) (H.state host.old).files
        → ¬ IsRisen (H.state host.old).struck (H.state host.new).struck → IsOkUnless result CommandFault.Memory }
{
    match command {
        Command::Compile { plan, text, report } => compile(alloc, plan, text, report, host),
        Command::Run { plan, samples, out } => run_plan(alloc, plan, samples, out, host),
        Command::Sim {
            text,
            stimulus,
            out,
        } => sim(alloc, text, stimulus, out, host),
        Command::Order {
            text,
            stimulus,
            out,
            number,
        } => order(alloc, text, stimulus, out, number, host),
        Command::Extreme {
            plan,
            register,
            out,
        } => extreme(alloc, plan, register, out, host),
        Command::Noble { plan, out } => noble(alloc, plan, out, host),
        Command::Migrate { plan, out } => migrate(alloc, plan, out, host),
        Command::Demo { number, out } => demo(alloc, number, out, host),
    }
}

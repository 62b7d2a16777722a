//! Laws of the definitions.

ghost use Rattle.std.specs.Prelude.{◌≡◌, ◌++◌, ℕ, List, Ok};
ghost use Rattle.verilog_tree.specs.Tree.{Design};
ghost use Rattle.verilog_text.specs.declared.token.Token.{Token};
ghost use Rattle.verilog_text.specs.Grammar.{Limits};
ghost use Rattle.verilog_text.specs.Text.{Text, AreItems, tokens_of};
ghost use Rattle.verilog_text.specs.TextMachine.{Draft, State, Done, at, drafted, start, run};
ghost use Rattle.verilog_text.specs.Reading.{Reads};

/// One text reads as at most one module.
#[tactic(auto, using(crate::proofs::OneReading::one_design))]
pub fn one_reading()
    ensures { (bytes : List ℕ) (d e : Design) → Reads bytes d → Reads bytes e → d ≡ e }
{}

/// The machine accepts exactly the tokens of the texts of the grammar, each with the module that it stands for.
#[tactic(auto)]
pub fn machine_reads()
    ensures accepts { (bounds : Limits) (clock : ℕ) (text : Text) → AreItems bounds text.items → run bounds clock start (tokens_of clock text) ≡ Ok (at (drafted text) Done) }
    ensures only { (bounds : Limits) (clock : ℕ) (tokens : List Token) (draft : Draft) → run bounds clock start tokens ≡ Ok (at draft Done) → (text : Text) × AreItems bounds text.items × (tokens_of clock text ≡ tokens) × (drafted text ≡ draft) }
{}

/// Whatever tokens the machine takes, some text of the grammar begins with them.
#[tactic(auto)]
pub fn machine_goes_on()
    ensures { (bounds : Limits) (clock : ℕ) (tokens : List Token) (state : State) → run bounds clock start tokens ≡ Ok state → (text : Text) × (rest : List Token) × AreItems bounds text.items × (tokens_of clock text ≡ tokens ++ rest) }
{}

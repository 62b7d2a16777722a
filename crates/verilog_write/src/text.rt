// The text of a module.
ghost use Rattle.std.specs.Prelude.{◌≡◌, ◌<◌, [], ◌∷◌, ◌++◌, length, IfOk, OnOk};
ghost use Rattle.verilog_text.specs.declared.token.Token.TheVariants as token;
ghost use Rattle.verilog_text.specs.declared.token.Mark.TheVariants as mark;
ghost use Rattle.verilog_text.specs.declared.token.Word.TheVariants as word;
ghost use Rattle.verilog_tree.specs.View.{design_view};
ghost use Rattle.verilog_tree.specs.Tree.{Design};
ghost use Rattle.verilog_tree.specs.Renaming.{number_in};
ghost use Rattle.verilog_tree.specs.Alike.{SameName, IsAlikeSignal, IsAlike};
ghost use Rattle.verilog_text.specs.Grammar.{limits};
ghost use Rattle.verilog_text.specs.Text.{tokens_of, clock_text};
ghost use Rattle.verilog_text.specs.Layout.{AreSpelled, behind, laid_out, heading};
ghost use Rattle.verilog_text.specs.Shortest.{ports_in, text_of, IsWritable};
ghost use Rattle.verilog_text.specs.Order.{Along, ordered_signals, IsInOrder, IsSameButPlaces};
ghost use Rattle.verilog_text.specs.Reading.{Reads};

use crate::bytes::{behind, put_bytes, put_token};
use crate::declaration::{write_declarations, write_ports};
use crate::expression::{put, put_mark};
use crate::item::{write_assigns, write_blocks};
use crate::statement::put_word;
use formed_module::FormedModule;
use mr_values::{Memory, Text};
use std::alloc::Global;
use verilog_text::token::{Mark, Token, Word};
use verilog_tree::Module;

// The number of a text among the names, their count where it is none of them.
fn number_in(names: &[Text], text: &str) -> usize
    ensures { result ≡ number_in names.now text.now }
{
    for (number, name) in names.iter().enumerate() {
        if name.as_str() == text {
            return number;
        }
    }
    names.len()
}

// Appends what stands before the ports.
fn write_head(name: usize, out: &mut Vec<Token>) -> Result<(), Memory>
    ensures { OnOk result (out.new.items ≡ out.old.items ++ token.Keyword word.Module ∷ token.Name name ∷ []) }
{
    put_word(out, Word::Module)?;
    put(out, Token::Name(name))
}

// Appends what stands behind the ports.
fn write_port_end(out: &mut Vec<Token>) -> Result<(), Memory>
    ensures { OnOk result (out.new.items ≡ out.old.items ++ token.Punctuation mark.Close ∷ token.Punctuation mark.Semicolon ∷ []) }
{
    put_mark(out, Mark::Close)?;
    put_mark(out, Mark::Semicolon)
}

// The tokens of a module.
fn tokens_of(alloc: Global, tree: &Module) -> Result<Vec<Token>, Memory>
    requires { 0 < length (ports_in (design_view tree.now).signals) }
    ensures { IfOk result (λ tokens. tokens.items ≡ tokens_of (number_in (design_view tree.now).names clock_text) (text_of (design_view tree.now))) }
{
    let clock = number_in(&tree.names, "clk");
    let mut tokens = Vec::new(alloc);
    write_head(tree.name, &mut tokens)?;
    write_ports(&tree.signals, &mut tokens)?;
    write_port_end(&mut tokens)?;
    write_declarations(&tree.signals, &mut tokens)?;
    write_assigns(&tree.assigns, &mut tokens)?;
    write_blocks(&tree.blocks, clock, &mut tokens)?;
    put_word(&mut tokens, Word::EndModule)?;
    Ok(tokens)
}

// The bytes of tokens.
fn bytes_of(alloc: Global, names: &[Text], tokens: &[Token]) -> Result<Vec<u8>, Memory>
    requires { AreSpelled names.now tokens.now }
    ensures { IfOk result (λ bytes. bytes.items ≡ heading ++ laid_out names.now tokens.now) }
{
    let mut bytes = Vec::new(alloc);
    put_bytes(
        &mut bytes,
        b"/* verilator lint_off WIDTH */\n// Wadrelion\n",
    )?;
    for place in 0..tokens.len() {
        put_token(names, tokens[place], &mut bytes)?;
        put_bytes(&mut bytes, behind(tokens[place], &tokens[place + 1..]))?;
    }
    Ok(bytes)
}

// The text of a module that has a writing.
fn text_of_tree(alloc: Global, tree: &Module) -> Result<Vec<u8>, Memory>
    requires { IsWritable limits (design_view tree.now) }
    ensures reads { IfOk result (λ text. (design : Design) × Reads text.items design × IsAlike design (design_view tree.now) × Along (IsAlikeSignal (SameName design.names (design_view tree.now).names)) design.signals (ordered_signals (design_view tree.now))) }
    ensures same { IsInOrder (design_view tree.now) → IfOk result (λ text. (design : Design) × Reads text.items design × IsSameButPlaces design (design_view tree.now)) }
{
    let tokens = tokens_of(alloc, tree)?;
    bytes_of(alloc, &tree.names, &tokens)
}

/// The text of a module: a line for each port, declaration, assignment and block. It fails only for want of memory.
pub fn text_of(alloc: Global, formed: &FormedModule) -> Result<Vec<u8>, Memory>
    // The text reads as a module that is alike, whose wires and registers stand in their order behind the ports.
    ensures reads { IfOk result (λ text. (design : Design) × Reads text.items design × IsAlike design (design_view formed.now) × Along (IsAlikeSignal (SameName design.names (design_view formed.now).names)) design.signals (ordered_signals (design_view formed.now))) }

    // Where the names are numbered as they are declared, the ports first, the module itself is read back, but for places.
    ensures same { IsInOrder (design_view formed.now) → IfOk result (λ text. (design : Design) × Reads text.items design × IsSameButPlaces design (design_view formed.now)) }
{
    text_of_tree(alloc, formed.tree())
}

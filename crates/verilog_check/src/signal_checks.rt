// The checks of declarations one by one.

ghost use Rattle.std.specs.Prelude.{◌≡◌, ◌==◌, ◌&&◌, not, nat_eq, find, map, IfOk};
ghost use Rattle.std.specs.List.{list_any};
ghost use Rattle.std.specs.Option.{option_map, option_copied};
ghost use Rattle.std.specs.HashSet.{contains};
ghost use Rattle.verilog_tree.specs.Checks as checks;
ghost use Rattle.verilog_tree.specs.Checks.{is_port, is_input_port, is_bit_port, is_data_port, Port, filter_face, is_as, is_right_port, has_port, face_names, needs_driver, is_over};
ghost use Rattle.verilog_tree.specs.declared.tree.Signal.{Signal};
ghost use Rattle.verilog_tree.specs.Streamed.{stream_face};
ghost use Rattle.verilog_tree.specs.View.{design_view};
ghost use Rattle.verilog_check.specs.Drives.{drive_view};
ghost use Rattle.verilog_check.specs.Faces.{face_of};

use crate::declared::text_of;
use crate::drives::{Drive, driven_names};
use crate::face::Face;
use mr_values::Memory;
use std::alloc::Global;
use std::collections::HashSet;
use verilog_tree::{Kind, Module, Signal};

fn is_port(kind: Kind) -> bool
    ensures { result ≡ is_port kind }
{
    match kind {
        Kind::Input | Kind::Output => true,
        Kind::Wire | Kind::Reg => false,
    }
}

fn is_input_port(kind: Kind) -> bool
    ensures { result ≡ is_input_port kind }
{
    match kind {
        Kind::Input => true,
        Kind::Output | Kind::Wire | Kind::Reg => false,
    }
}

// A port of one bit without a range.
fn is_bit_port(signal: Signal) -> bool
    ensures { result ≡ is_bit_port signal }
{
    !signal.ranged && (!signal.signed && signal.width == 1)
}

// A port of 1 to 127 bits.
fn is_data_port(signal: Signal) -> bool
    ensures { result ≡ is_data_port signal }
{
    1 <= signal.width && signal.width <= 127
}

// Whether a signal of this text is declared as a port of another text, as an input or an output, and as a bit or a number.
fn is_as(port: &str, input: bool, bit: bool, text: &str, signal: Signal) -> bool
    ensures { result ≡ is_as (record { text = port.now; input = input; bit = bit }) text.now signal }
{
    let directed = is_input_port(signal.kind) == input;
    let sized = if bit {
        is_bit_port(signal)
    } else {
        is_data_port(signal)
    };
    text == port && (directed && sized)
}

// Whether a signal of this text is declared as one of the ports of a filter.
fn is_filter_port(text: &str, signal: Signal) -> bool
    ensures { result ≡ list_any (λ (p : Port). is_as p text.now signal) filter_face }
{
    is_as("clk", true, true, text, signal)
        || (is_as("rst", true, true, text, signal)
            || (is_as("ce", true, true, text, signal)
                || (is_as("in_data", true, false, text, signal)
                    || (is_as("out_valid", false, true, text, signal)
                        || is_as("out_data", false, false, text, signal)))))
}

// Whether a signal of this text is declared as one of the ports of a module with ready and valid.
fn is_stream_port(text: &str, signal: Signal) -> bool
    ensures { result ≡ list_any (λ (p : Port). is_as p text.now signal) stream_face }
{
    is_as("clk", true, true, text, signal)
        || (is_as("rst", true, true, text, signal)
            || (is_as("in_valid", true, true, text, signal)
                || (is_as("in_ready", false, true, text, signal)
                    || (is_as("in_data", true, false, text, signal)
                        || (is_as("out_valid", false, true, text, signal)
                            || (is_as("out_ready", true, true, text, signal)
                                || is_as("out_data", false, false, text, signal)))))))
}

// Whether a signal of this text is declared as one of the ports of a face.
fn is_right_port(face: Face, text: &str, signal: Signal) -> bool
    ensures { result ≡ list_any (λ (p : Port). is_as p text.now signal) (face_of face) }
{
    match face {
        Face::Filter => is_filter_port(text, signal),
        Face::Stream => is_stream_port(text, signal),
    }
}

fn is_wrong_port(face: Face, design: &Module, signal: Signal) -> bool
    ensures { result ≡ (is_port signal.kind && not (is_right_port (face_of face) (design_view design.now) signal)) }
{
    is_port(signal.kind) && !is_right_port(face, text_of(design, signal.name), signal)
}

/// The name of the first port that is not one of a face.
pub(crate) fn first_wrong_port(face: Face, design: &Module, ordered: &[Signal]) -> Option<usize>
    ensures { result ≡ option_map (λ (s : Signal). s.name) (find (λ (s : Signal). is_port s.kind && not (is_right_port (face_of face) (design_view design.now) s)) ordered.now) }
{
    for signal in ordered {
        if is_wrong_port(face, design, *signal) {
            return Some(signal.name);
        }
    }
    None
}

fn has_port(design: &Module, text: &str) -> bool
    ensures { result ≡ has_port (design_view design.now) text.now }
{
    design.signals.iter().any(|signal| is_port(signal.kind) && text_of(design, signal.name) == text)
}

// The first port of a filter that is missing.
fn first_missing_of_filter(design: &Module) -> Option<&'static str>
    ensures { option_copied result ≡ find (λ text. not (has_port (design_view design.now) text)) (face_names filter_face) }
{
    if !has_port(design, "clk") {
        Some("clk")
    } else if !has_port(design, "rst") {
        Some("rst")
    } else if !has_port(design, "ce") {
        Some("ce")
    } else if !has_port(design, "in_data") {
        Some("in_data")
    } else if !has_port(design, "out_valid") {
        Some("out_valid")
    } else if !has_port(design, "out_data") {
        Some("out_data")
    } else {
        None
    }
}

// The first port of a module with ready and valid that is missing.
fn first_missing_of_stream(design: &Module) -> Option<&'static str>
    ensures { option_copied result ≡ find (λ text. not (has_port (design_view design.now) text)) (face_names stream_face) }
{
    if !has_port(design, "clk") {
        Some("clk")
    } else if !has_port(design, "rst") {
        Some("rst")
    } else if !has_port(design, "in_valid") {
        Some("in_valid")
    } else if !has_port(design, "in_ready") {
        Some("in_ready")
    } else if !has_port(design, "in_data") {
        Some("in_data")
    } else if !has_port(design, "out_valid") {
        Some("out_valid")
    } else if !has_port(design, "out_ready") {
        Some("out_ready")
    } else if !has_port(design, "out_data") {
        Some("out_data")
    } else {
        None
    }
}

/// The first port of a face that is missing.
pub(crate) fn first_missing_port(face: Face, design: &Module) -> Option<&'static str>
    ensures { option_copied result ≡ find (λ text. not (has_port (design_view design.now) text)) (face_names (face_of face)) }
{
    match face {
        Face::Filter => first_missing_of_filter(design),
        Face::Stream => first_missing_of_stream(design),
    }
}

/// Whether a length is more than 128 bits.
pub(crate) fn is_over(length: u32) -> bool
    ensures { result ≡ is_over length }
{
    128 < length
}

/// The name of the first declaration of more than 128 bits.
pub(crate) fn first_over(ordered: &[Signal]) -> Option<usize>
    ensures { result ≡ option_map (λ (s : Signal). s.name) (find (λ (s : Signal). is_over s.width) ordered.now) }
{
    for signal in ordered {
        if is_over(signal.width) {
            return Some(signal.name);
        }
    }
    None
}

fn needs_driver(kind: Kind) -> bool
    ensures { result ≡ needs_driver kind }
{
    match kind {
        Kind::Output | Kind::Wire | Kind::Reg => true,
        Kind::Input => false,
    }
}

// The name of the first declaration that needs a driver and is not in the set of the names that are driven.
fn first_outside(driven: &HashSet<usize>, ordered: &[Signal]) -> Option<usize>
    ensures { result ≡ option_map (λ (s : Signal). s.name) (find (λ (s : Signal). needs_driver s.kind && not (contains nat_eq driven.now s.name)) ordered.now) }
{
    for signal in ordered {
        if needs_driver(signal.kind) && !driven.contains(&signal.name) {
            return Some(signal.name);
        }
    }
    None
}

/// The name of the first declaration that needs a driver and has none. Fails only for want of memory.
pub(crate) fn first_undriven(
    alloc: Global,
    drives: &[Drive],
    ordered: &[Signal],
) -> Result<Option<usize>, Memory>
    ensures { IfOk result (λ name. name ≡ option_map (λ (s : Signal). s.name) (find (λ (s : Signal). needs_driver s.kind && not (list_any (λ (x : checks.Drive). x.name == s.name) (map drive_view drives.now))) ordered.now)) }
{
    let driven = driven_names(alloc, drives)?;
    Ok(first_outside(&driven, ordered))
}

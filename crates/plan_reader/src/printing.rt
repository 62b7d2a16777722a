// Plans as files.
ghost use Rattle.std.specs.Prelude.{◌≡◌, [], Ok, IfOk, OnOk};
ghost use Rattle.mr_values.specs.declared.plan.Plan.{Plan};
ghost use Rattle.toml.specs.View.{view, items_view, table_view};
ghost use Rattle.plan_reader.specs.Documents.{Says};
ghost use Rattle.plan_reader.specs.Versions.{IsVersioned};
ghost use Rattle.plan_reader.specs.Printed.{with_value, with_number, with_word, with_form, with_kind, number_items, mode_word, element_members, element_items, plan_members};

use crate::keys::{Key, key_text};
use mr_values::{Element, Form, Memory, Mode, Plan};
use std::alloc::Global;
use toml::{Table, Value};

/// The text of a plan file of this version that reads as the plan, with all keys and with the taps in it. A plan that
/// clips or rounds halves to even has version 2. Fails only for want of memory.
pub fn plan_text(alloc: Global, version: u8, plan: &Plan) -> Result<Vec<u8>, Memory>
    requires { IsVersioned version plan.now.elements }
    ensures { IfOk result (λ text. Says text.items (Ok (record { version = version; plan = plan.now; files = [] }))) }
{
    let table = plan_table(alloc, version, plan)?;
    match toml::table_to_string(alloc, &table) {
        Ok(text) => copied(alloc, text.as_str()),
        Err(_) => Err(Memory),
    }
}

fn copied(alloc: Global, text: &str) -> Result<Vec<u8>, Memory>
    ensures { IfOk result (λ bytes. bytes.items ≡ text.now) }
{
    let bytes = Vec::from_slice(alloc, text.as_bytes())?;
    Ok(bytes)
}

fn plan_table(alloc: Global, version: u8, plan: &Plan) -> Result<Table, Memory>
    ensures { IfOk result (λ table. table_view table ≡ plan_members version plan.now) }
{
    let mut table = Table::new(alloc);
    put_number(alloc, &mut table, Key::Version, i64::from(version))?;
    put_number(alloc, &mut table, Key::Width, plan.width)?;
    put_number(alloc, &mut table, Key::Ticks, plan.ticks)?;
    let elements = element_values(alloc, plan.elements.as_slice())?;
    put(alloc, &mut table, Key::Element, Value::Array(elements))?;
    Ok(table)
}

fn element_values(alloc: Global, elements: &[Element]) -> Result<Vec<Value>, Memory>
    ensures { IfOk result (λ values. items_view values.items ≡ element_items elements.now) }
{
    let mut values = Vec::new(alloc);
    for element in elements {
        let table = element_table(alloc, element)?;
        values.push(Value::Table(table))?;
    }
    Ok(values)
}

fn element_table(alloc: Global, element: &Element) -> Result<Table, Memory>
    ensures { IfOk result (λ table. table_view table ≡ element_members element.now) }
{
    match element {
        Element::Up { factor } => rate_table(alloc, "up", *factor),
        Element::Down { factor } => rate_table(alloc, "down", *factor),
        Element::Filter { taps, form } => filter_table(alloc, taps.as_slice(), *form),
        Element::CicDown {
            factor,
            stages,
            delay,
        } => cic_table(alloc, "cic_down", *factor, *stages, *delay),
        Element::CicUp {
            factor,
            stages,
            delay,
        } => cic_table(alloc, "cic_up", *factor, *stages, *delay),
        Element::Round { shift, mode } => round_table(alloc, *shift, *mode),
        Element::Clip { bits } => clip_table(alloc, *bits),
    }
}

fn clip_table(alloc: Global, bits: i64) -> Result<Table, Memory>
    ensures { IfOk result (λ table. table_view table ≡ element_members (Element.Clip bits)) }
{
    let mut table = kind_table(alloc, "clip")?;
    put_number(alloc, &mut table, Key::Bits, bits)?;
    Ok(table)
}

fn rate_table(alloc: Global, kind: &str, factor: i64) -> Result<Table, Memory>
    ensures { IfOk result (λ table. table_view table ≡ with_number Key.Factor factor (with_kind kind.now)) }
{
    let mut table = kind_table(alloc, kind)?;
    put_number(alloc, &mut table, Key::Factor, factor)?;
    Ok(table)
}

fn cic_table(
    alloc: Global,
    kind: &str,
    factor: i64,
    stages: i64,
    delay: i64,
) -> Result<Table, Memory>
    ensures { IfOk result (λ table. table_view table ≡ with_number Key.Delay delay (with_number Key.Stages stages (with_number Key.Factor factor (with_kind kind.now)))) }
{
    let mut table = kind_table(alloc, kind)?;
    put_number(alloc, &mut table, Key::Factor, factor)?;
    put_number(alloc, &mut table, Key::Stages, stages)?;
    put_number(alloc, &mut table, Key::Delay, delay)?;
    Ok(table)
}

fn round_table(alloc: Global, shift: i64, mode: Mode) -> Result<Table, Memory>
    ensures { IfOk result (λ table. table_view table ≡ element_members (Element.Round shift mode)) }
{
    let mut table = kind_table(alloc, "round")?;
    put_number(alloc, &mut table, Key::Shift, shift)?;
    put_word(alloc, &mut table, Key::Mode, mode_word(mode))?;
    Ok(table)
}

fn filter_table(alloc: Global, taps: &[i64], form: Form) -> Result<Table, Memory>
    ensures { IfOk result (λ table. table_view table ≡ element_members (Element.Filter taps.now form)) }
{
    let mut table = kind_table(alloc, "filter")?;
    let values = number_values(alloc, taps)?;
    put(alloc, &mut table, Key::Taps, Value::Array(values))?;
    put_form(alloc, &mut table, form)?;
    Ok(table)
}

fn put_form(alloc: Global, table: &mut Table, form: Form) -> Result<(), Memory>
    ensures { OnOk result (table_view table.new ≡ with_form form (table_view table.old)) }
{
    match form {
        Form::Parallel => put_word(alloc, table, Key::Form, "parallel"),
        Form::Symmetric => put_word(alloc, table, Key::Form, "symmetric"),
        Form::HalfBand => put_word(alloc, table, Key::Form, "half_band"),
        Form::Folded { slots } => {
            put_word(alloc, table, Key::Form, "folded")?;
            put_number(alloc, table, Key::Slots, slots)
        }
        Form::Distributed { group } => {
            put_word(alloc, table, Key::Form, "distributed")?;
            put_number(alloc, table, Key::Group, group)
        }
    }
}

fn number_values(alloc: Global, numbers: &[i64]) -> Result<Vec<Value>, Memory>
    ensures { IfOk result (λ values. items_view values.items ≡ number_items numbers.now) }
{
    let mut values = Vec::new(alloc);
    for number in numbers {
        values.push(Value::Integer(*number))?;
    }
    Ok(values)
}

fn mode_word(mode: Mode) -> &'static str
    ensures { result.now ≡ mode_word mode }
{
    match mode {
        Mode::HalfUp => "half_up",
        Mode::HalfEven => "half_even",
        Mode::Floor => "floor",
    }
}

// A table with the kind of an element.
fn kind_table(alloc: Global, kind: &str) -> Result<Table, Memory>
    ensures { IfOk result (λ table. table_view table ≡ with_kind kind.now) }
{
    let mut table = Table::new(alloc);
    put_word(alloc, &mut table, Key::Kind, kind)?;
    Ok(table)
}

fn put_word(alloc: Global, table: &mut Table, key: Key, word: &str) -> Result<(), Memory>
    ensures { OnOk result (table_view table.new ≡ with_word key word.now (table_view table.old)) }
{
    let value = Value::string(alloc, word)?;
    put(alloc, table, key, value)
}

fn put_number(alloc: Global, table: &mut Table, key: Key, number: i64) -> Result<(), Memory>
    ensures { OnOk result (table_view table.new ≡ with_number key number (table_view table.old)) }
{
    put(alloc, table, key, Value::Integer(number))
}

fn put(alloc: Global, table: &mut Table, key: Key, value: Value) -> Result<(), Memory>
    ensures { OnOk result (table_view table.new ≡ with_value key (view value) (table_view table.old)) }
{
    let name = String::from_str(alloc, key_text(key))?;
    table.insert(name, value)?;
    Ok(())
}

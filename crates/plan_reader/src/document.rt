// A TOML document as a plan.
ghost use Rattle.std.specs.Prelude.{◌≡◌, ◌⊎◌, ◌≤◌, ◌^◌, ◌++◌, Ok, Err, OnOk, IfErr, IfOk, MatchResult, option_map, string_bytes};
ghost use Rattle.toml.specs.Data.{as_table};
ghost use Rattle.toml.specs.View.{view, items_view, table_view};
ghost use Rattle.plan_reader.specs.Fields.{key_text, items_at, numbers_of, value_at};
ghost use Rattle.plan_reader.specs.Shapes.{element_of, file_of, text_of, taps_of};
ghost use Rattle.plan_reader.specs.Documents.{in_element, no_other, element_with, element_from, element_value, elements_from, file_list, tables_at, version_of, sizes_of, top_of, plan_of};
ghost use Rattle.plan_reader.specs.Answers.{Gives, GivesElements};

use crate::fault::{FieldWhy, PlanReadFault};
use crate::fields::{are_tables, first_other, items_at, number_at, number_or, value_at};
use crate::keys::{FieldFault, Key, key_text};
use crate::plan_texts::{PlanText, TapFile, TapFiles};
use crate::shape::{Shape, TapSource, keys_of, shape_of};
use mr_values::{Element, Elements, Memory, Plan, Taps, Text};
use std::alloc::Global;
use toml::{Table, Value};

/// The version and the numbers of a plan beside its elements.
#[derive(Clone, Copy, Debug, PartialEq, Eq)]
pub struct Top {
    pub version: u8,
    pub width: i64,
    pub ticks: i64,
}

/// An element, and the name of its tap file if it has one.
#[derive(Debug, Drop)]
pub struct ReadElement {
    pub element: Element,
    pub file: Option<Text>,
}

/// The plan that a document says. Fails with the first wrong field, and for want of memory.
pub fn plan_of(alloc: Global, table: &Table) -> Result<PlanText, PlanReadFault>
    ensures { Gives (plan_of (table_view table.now)) result }
{
    let top = top_of(alloc, table)?;
    let (elements, files) = elements_of(alloc, top.version, items_at(table, Key::Element))?;
    Ok(PlanText {
        version: top.version,
        plan: Plan {
            width: top.width,
            ticks: top.ticks,
            elements: Elements::from_vec(elements),
        },
        files: TapFiles::from_vec(files),
    })
}

fn top_of(alloc: Global, table: &Table) -> Result<Top, PlanReadFault>
    ensures { Gives (top_of (table_view table.now)) result }
{
    let found = in_element(alloc, 0, number_at(table, Key::Version))?;
    let version = version_of(found)?;
    let top = in_element(alloc, 0, sizes_of(table, version))?;
    no_other(
        alloc,
        0,
        &[Key::Version, Key::Width, Key::Ticks, Key::Element],
        table,
    )?;
    Ok(top)
}

// One of the versions that are read.
fn version_of(found: i64) -> Result<u8, PlanReadFault>
    ensures { result ≡ version_of found }
{
    if found == 1 {
        Ok(1)
    } else if found == 2 {
        Ok(2)
    } else {
        Err(PlanReadFault::Version { found })
    }
}

fn sizes_of(table: &Table, version: u8) -> Result<Top, FieldFault>
    ensures { result ≡ sizes_of version (table_view table.now) }
{
    let width = number_at(table, Key::Width)?;
    let ticks = number_or(table, Key::Ticks, 1)?;
    tables_at(table)?;
    Ok(Top {
        version,
        width,
        ticks,
    })
}

fn tables_at(table: &Table) -> Result<(), FieldFault>
    ensures { result ≡ tables_at (table_view table.now) }
{
    let Some(value) = value_at(table, Key::Element) else {
        return Err(FieldFault {
            key: Key::Element,
            why: FieldWhy::Missing,
        });
    };
    let Some(values) = value.as_array() else {
        return Err(FieldFault {
            key: Key::Element,
            why: FieldWhy::WrongType,
        });
    };
    if are_tables(values.as_slice()) {
        Ok(())
    } else {
        Err(FieldFault {
            key: Key::Element,
            why: FieldWhy::WrongType,
        })
    }
}

fn elements_of(
    alloc: Global,
    version: u8,
    values: &[Value],
) -> Result<(Vec<Element>, Vec<TapFile>), PlanReadFault>
    ensures { GivesElements (elements_from version 1 (items_view values.now)) result }
{
    let mut elements = Vec::new(alloc);
    let mut files = Vec::new(alloc);
    for (index, value) in values.iter().enumerate() {
        if index >= u32::MAX as usize {
            return Err(PlanReadFault::Memory);
        }
        let number = index as u32 + 1;
        let read = element_value(alloc, version, number, value)?;
        elements.push(read.element)?;
        push_file(&mut files, number, read.file)?;
    }
    Ok((elements, files))
}

fn push_file(files: &mut Vec<TapFile>, number: u32, file: Option<Text>) -> Result<(), PlanReadFault>
    ensures ok { OnOk result (files.new.items ≡ files.old.items ++ file_list number file) }
    ensures err { IfErr result (λ fault. fault ≡ PlanReadFault.Memory) }
{
    match file {
        Some(name) => {
            files.push(TapFile {
                element: number,
                name,
            })?;
            Ok(())
        }
        None => Ok(()),
    }
}

fn element_value(
    alloc: Global,
    version: u8,
    number: u32,
    value: &Value,
) -> Result<ReadElement, PlanReadFault>
    ensures { Gives (element_value version number (as_table (view value.now))) result }
{
    match value.as_table() {
        Some(table) => element_from(alloc, version, number, table),
        None => Err(field_fault(alloc, 0, key_text(Key::Element), FieldWhy::WrongType)),
    }
}

fn element_from(
    alloc: Global,
    version: u8,
    number: u32,
    table: &Table,
) -> Result<ReadElement, PlanReadFault>
    ensures { Gives (element_from version number (table_view table.now)) result }
{
    let shape = in_element(alloc, number, shape_of(table, version))?;
    no_other(alloc, number, keys_of(shape), table)?;
    let element = element_of(alloc, shape, table)?;
    let file = file_of(alloc, shape, table)?;
    Ok(ReadElement { element, file })
}

fn element_of(alloc: Global, shape: Shape, table: &Table) -> Result<Element, Memory>
    ensures { IfOk result (λ element. element ≡ element_of shape (table_view table.now)) }
{
    Ok(match shape {
        Shape::Up { factor } => Element::Up { factor },
        Shape::Down { factor } => Element::Down { factor },
        Shape::Filter { source, form } => Element::Filter {
            taps: taps_of(alloc, source, table)?,
            form,
        },
        Shape::CicDown {
            factor,
            stages,
            delay,
        } => Element::CicDown {
            factor,
            stages,
            delay,
        },
        Shape::CicUp {
            factor,
            stages,
            delay,
        } => Element::CicUp {
            factor,
            stages,
            delay,
        },
        Shape::Round { shift, mode } => Element::Round { shift, mode },
        Shape::Clip { bits } => Element::Clip { bits },
    })
}

fn taps_of(alloc: Global, source: TapSource, table: &Table) -> Result<Taps, Memory>
    ensures { IfOk result (λ taps. taps ≡ taps_of source (table_view table.now)) }
{
    match source {
        TapSource::Listed => {
            let numbers = numbers_of(alloc, items_at(table, Key::Taps))?;
            Ok(Taps::from_vec(numbers))
        }
        TapSource::InFile => Ok(Taps::from_vec(Vec::new(alloc))),
    }
}

fn numbers_of(alloc: Global, values: &[Value]) -> Result<Vec<i64>, Memory>
    ensures { IfOk result (λ numbers. numbers.items ≡ numbers_of (items_view values.now)) }
{
    let mut numbers = Vec::new(alloc);
    for value in values {
        if let Some(number) = value.as_integer() {
            numbers.push(number)?;
        }
    }
    Ok(numbers)
}

fn file_of(alloc: Global, shape: Shape, table: &Table) -> Result<Option<Text>, Memory>
    ensures { IfOk result (λ file. file ≡ file_of shape (table_view table.now)) }
{
    match shape {
        Shape::Filter {
            source: TapSource::InFile,
            ..
        } => text_of(alloc, value_at(table, Key::TapsFile)),
        _ => Ok(None),
    }
}

fn text_of(alloc: Global, found: Option<&Value>) -> Result<Option<Text>, Memory>
    ensures { IfOk result (λ text. text ≡ text_of (option_map (λ v. view v.now) found.entry)) }
{
    let Some(value) = found else {
        return Ok(None);
    };
    match value.as_str() {
        Some(name) => {
            let text = Text::from_str(alloc, name)?;
            Ok(Some(text))
        }
        None => Ok(None),
    }
}

// The first key of a table that is none of these, as a fault.
fn no_other(alloc: Global, number: u32, keys: &[Key], table: &Table) -> Result<(), PlanReadFault>
    ensures { Gives (no_other number keys.now (table_view table.now)) result }
{
    match first_other(table, keys) {
        Some(name) => Err(field_fault(alloc, number, name.as_str(), FieldWhy::Unknown)),
        None => Ok(()),
    }
}

// A wrong field of the element of this number.
fn in_element<T: Drop>(
    alloc: Global,
    number: u32,
    found: Result<T, FieldFault>,
) -> Result<T, PlanReadFault>
    ensures { Gives (in_element number found) result }
{
    match found {
        Ok(value) => Ok(value),
        Err(fault) => Err(field_fault(alloc, number, key_text(fault.key), fault.why)),
    }
}

fn field_fault(alloc: Global, element: u32, field: &str, why: FieldWhy) -> PlanReadFault
    ensures { (result ≡ PlanReadFault.Memory) ⊎ (result ≡ PlanReadFault.Field element field.now why) }
{
    match Text::from_str(alloc, field) {
        Ok(field) => PlanReadFault::Field {
            element,
            field,
            why,
        },
        Err(Memory) => PlanReadFault::Memory,
    }
}

// An element of a plan file: its kind, its numbers, and where its taps stand.
ghost use Rattle.std.specs.Prelude.{◌≡◌, option_map};
ghost use Rattle.toml.specs.Data.{as_array};
ghost use Rattle.toml.specs.View.{view, table_view};
ghost use Rattle.plan_reader.specs.Shapes.{kind_of, mode_of, kind_at, mode_at, form_of, form_at, listed_source, is_number_list, file_named, file_source, source_at, shape_of_kind, shape_of, filter_keys, keys_of};

use crate::fault::FieldWhy;
use crate::fields::{are_numbers, number_at, number_or, value_at};
use crate::keys::{FieldFault, Key};
use mr_values::{Form, Mode};
use toml::{Table, Value};

#[derive(Clone, Copy, Debug, PartialEq, Eq)]
pub enum Kind {
    Up,
    Down,
    Filter,
    CicDown,
    CicUp,
    Round,
    Clip,
}

/// Where the taps of a filter stand: in the plan file, or in a file of their own.
#[derive(Clone, Copy, Debug, PartialEq, Eq)]
pub enum TapSource {
    Listed,
    InFile,
}

/// An element without its taps.
#[derive(Clone, Copy, Debug, PartialEq, Eq)]
pub enum Shape {
    Up {
        factor: i64,
    },
    Down {
        factor: i64,
    },
    Filter {
        source: TapSource,
        form: Form,
    },
    CicDown {
        factor: i64,
        stages: i64,
        delay: i64,
    },
    CicUp {
        factor: i64,
        stages: i64,
        delay: i64,
    },
    Round {
        shift: i64,
        mode: Mode,
    },
    Clip {
        bits: i64,
    },
}

/// The kind and the numbers that a table says in a plan of this version, or its first wrong field.
pub fn shape_of(table: &Table, version: u8) -> Result<Shape, FieldFault>
    ensures { result ≡ shape_of version (table_view table.now) }
{
    let kind = kind_at(table, version)?;
    shape_of_kind(table, version, kind)
}

fn shape_of_kind(table: &Table, version: u8, kind: Kind) -> Result<Shape, FieldFault>
    ensures { result ≡ shape_of_kind version kind (table_view table.now) }
{
    match kind {
        Kind::Up => Ok(Shape::Up {
            factor: number_at(table, Key::Factor)?,
        }),
        Kind::Down => Ok(Shape::Down {
            factor: number_at(table, Key::Factor)?,
        }),
        Kind::Filter => Ok(Shape::Filter {
            source: source_at(table)?,
            form: form_at(table)?,
        }),
        Kind::CicDown => Ok(Shape::CicDown {
            factor: number_at(table, Key::Factor)?,
            stages: number_at(table, Key::Stages)?,
            delay: number_or(table, Key::Delay, 1)?,
        }),
        Kind::CicUp => Ok(Shape::CicUp {
            factor: number_at(table, Key::Factor)?,
            stages: number_at(table, Key::Stages)?,
            delay: number_or(table, Key::Delay, 1)?,
        }),
        Kind::Round => Ok(Shape::Round {
            shift: number_at(table, Key::Shift)?,
            mode: mode_at(table, version)?,
        }),
        Kind::Clip => Ok(Shape::Clip {
            bits: number_at(table, Key::Bits)?,
        }),
    }
}

/// The keys that an element may have.
pub fn keys_of(shape: Shape) -> &'static [Key]
    ensures { result.now ≡ keys_of shape }
{
    match shape {
        Shape::Up { .. } => &[Key::Kind, Key::Factor],
        Shape::Down { .. } => &[Key::Kind, Key::Factor],
        Shape::Filter { form, .. } => filter_keys(form),
        Shape::CicDown { .. } => &[Key::Kind, Key::Factor, Key::Stages, Key::Delay],
        Shape::CicUp { .. } => &[Key::Kind, Key::Factor, Key::Stages, Key::Delay],
        Shape::Round { .. } => &[Key::Kind, Key::Shift, Key::Mode],
        Shape::Clip { .. } => &[Key::Kind, Key::Bits],
    }
}

fn filter_keys(form: Form) -> &'static [Key]
    ensures { result.now ≡ filter_keys form }
{
    match form {
        Form::Folded { .. } => &[Key::Kind, Key::Taps, Key::TapsFile, Key::Form, Key::Slots],
        Form::Distributed { .. } => &[Key::Kind, Key::Taps, Key::TapsFile, Key::Form, Key::Group],
        Form::Parallel => &[Key::Kind, Key::Taps, Key::TapsFile, Key::Form],
        Form::Symmetric => &[Key::Kind, Key::Taps, Key::TapsFile, Key::Form],
        Form::HalfBand => &[Key::Kind, Key::Taps, Key::TapsFile, Key::Form],
    }
}

fn kind_at(table: &Table, version: u8) -> Result<Kind, FieldFault>
    ensures { result ≡ kind_at version (table_view table.now) }
{
    let Some(value) = value_at(table, Key::Kind) else {
        return Err(FieldFault {
            key: Key::Kind,
            why: FieldWhy::Missing,
        });
    };
    let Some(word) = value.as_str() else {
        return Err(FieldFault {
            key: Key::Kind,
            why: FieldWhy::WrongType,
        });
    };
    match kind_of(word, version) {
        Some(kind) => Ok(kind),
        None => Err(FieldFault {
            key: Key::Kind,
            why: FieldWhy::BadWord,
        }),
    }
}

fn kind_of(word: &str, version: u8) -> Option<Kind>
    ensures { result ≡ kind_of version word.now }
{
    if word == "up" {
        Some(Kind::Up)
    } else if word == "down" {
        Some(Kind::Down)
    } else if word == "filter" {
        Some(Kind::Filter)
    } else if word == "cic_down" {
        Some(Kind::CicDown)
    } else if word == "cic_up" {
        Some(Kind::CicUp)
    } else if word == "round" {
        Some(Kind::Round)
    } else if version == 2 && word == "clip" {
        Some(Kind::Clip)
    } else {
        None
    }
}

fn mode_at(table: &Table, version: u8) -> Result<Mode, FieldFault>
    ensures { result ≡ mode_at version (table_view table.now) }
{
    let Some(value) = value_at(table, Key::Mode) else {
        return Ok(Mode::HalfUp);
    };
    let Some(word) = value.as_str() else {
        return Err(FieldFault {
            key: Key::Mode,
            why: FieldWhy::WrongType,
        });
    };
    match mode_of(word, version) {
        Some(mode) => Ok(mode),
        None => Err(FieldFault {
            key: Key::Mode,
            why: FieldWhy::BadWord,
        }),
    }
}

fn mode_of(word: &str, version: u8) -> Option<Mode>
    ensures { result ≡ mode_of version word.now }
{
    if word == "half_up" {
        Some(Mode::HalfUp)
    } else if word == "floor" {
        Some(Mode::Floor)
    } else if version == 2 && word == "half_even" {
        Some(Mode::HalfEven)
    } else {
        None
    }
}

fn form_at(table: &Table) -> Result<Form, FieldFault>
    ensures { result ≡ form_at (table_view table.now) }
{
    let Some(value) = value_at(table, Key::Form) else {
        return Ok(Form::Parallel);
    };
    match value.as_str() {
        Some(word) => form_of(table, word),
        None => Err(FieldFault {
            key: Key::Form,
            why: FieldWhy::WrongType,
        }),
    }
}

fn form_of(table: &Table, word: &str) -> Result<Form, FieldFault>
    ensures { result ≡ form_of word.now (table_view table.now) }
{
    if word == "parallel" {
        Ok(Form::Parallel)
    } else if word == "symmetric" {
        Ok(Form::Symmetric)
    } else if word == "half_band" {
        Ok(Form::HalfBand)
    } else if word == "folded" {
        Ok(Form::Folded {
            slots: number_at(table, Key::Slots)?,
        })
    } else if word == "distributed" {
        Ok(Form::Distributed {
            group: number_at(table, Key::Group)?,
        })
    } else {
        Err(FieldFault {
            key: Key::Form,
            why: FieldWhy::BadWord,
        })
    }
}

fn source_at(table: &Table) -> Result<TapSource, FieldFault>
    ensures { result ≡ source_at (table_view table.now) }
{
    let file = value_at(table, Key::TapsFile);
    match value_at(table, Key::Taps) {
        Some(taps) => listed_source(taps, file),
        None => file_source(file),
    }
}

fn listed_source(taps: &Value, file: Option<&Value>) -> Result<TapSource, FieldFault>
    ensures { result ≡ listed_source (view taps.now) (option_map (λ v. view v.now) file.entry) }
{
    if !is_number_list(taps) {
        return Err(FieldFault {
            key: Key::Taps,
            why: FieldWhy::WrongType,
        });
    }
    match file {
        Some(_) => Err(FieldFault {
            key: Key::TapsFile,
            why: FieldWhy::Both,
        }),
        None => Ok(TapSource::Listed),
    }
}

fn is_number_list(value: &Value) -> bool
    ensures { result ≡ is_number_list (as_array (view value.now)) }
{
    match value.as_array() {
        Some(values) => are_numbers(values.as_slice()),
        None => false,
    }
}

fn file_source(file: Option<&Value>) -> Result<TapSource, FieldFault>
    ensures { result ≡ file_source (option_map (λ v. view v.now) file.entry) }
{
    let Some(value) = file else {
        return Err(FieldFault {
            key: Key::Taps,
            why: FieldWhy::Missing,
        });
    };
    match value.as_str() {
        Some(name) => file_named(name),
        None => Err(FieldFault {
            key: Key::TapsFile,
            why: FieldWhy::WrongType,
        }),
    }
}

fn file_named(name: &str) -> Result<TapSource, FieldFault>
    ensures { result ≡ file_named (Some name.now) }
{
    if name.is_empty() {
        Err(FieldFault {
            key: Key::TapsFile,
            why: FieldWhy::BadWord,
        })
    } else {
        Ok(TapSource::InFile)
    }
}

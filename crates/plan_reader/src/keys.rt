// The keys of a plan's tables.
ghost use Rattle.std.specs.Prelude.{◌≡◌};
ghost use Rattle.plan_reader.specs.Fields.{key_text};

use crate::fault::FieldWhy;

/// A key of the top table or of an element.
#[derive(Clone, Copy, Debug, PartialEq, Eq)]
pub enum Key {
    Version,
    Width,
    Ticks,
    Element,
    Kind,
    Factor,
    Taps,
    TapsFile,
    Form,
    Slots,
    Group,
    Stages,
    Delay,
    Shift,
    Mode,
    Bits,
}

/// What is wrong with a table, and at which of its keys.
#[derive(Clone, Copy, Debug, PartialEq, Eq)]
pub struct FieldFault {
    pub key: Key,
    pub why: FieldWhy,
}

/// How a key is spelled.
pub fn key_text(key: Key) -> &'static str
    ensures { result.now ≡ key_text key }
{
    match key {
        Key::Version => "version",
        Key::Width => "width",
        Key::Ticks => "ticks",
        Key::Element => "element",
        Key::Kind => "kind",
        Key::Factor => "factor",
        Key::Taps => "taps",
        Key::TapsFile => "taps_file",
        Key::Form => "form",
        Key::Slots => "slots",
        Key::Group => "group",
        Key::Stages => "stages",
        Key::Delay => "delay",
        Key::Shift => "shift",
        Key::Mode => "mode",
        Key::Bits => "bits",
    }
}

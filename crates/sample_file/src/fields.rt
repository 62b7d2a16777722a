// The fields of a line.
ghost use Rattle.std.specs.Prelude.{◌≡◌, ◌≤◌, ◌∷◌, [], ◌<◌, ◌^◌, length, true, find, MatchOption};
ghost use Rattle.std.specs.List.{list_all, prefix_len};
ghost use Rattle.sample_file.specs.Fields.{is_blank, is_other, fields_of, is_skipped, is_numeral, values_of};

use crate::numbers::{is_numeral, number_of};

fn is_blank(byte: u8) -> bool
    ensures { result ≡ is_blank byte }
{
    byte == b' ' || byte == b'\t'
}

fn first_other(content: &[u8]) -> Option<u8>
    ensures { result ≡ find is_other content.now }
{
    content.iter().copied().find(|byte| !is_blank(*byte))
}

/// Whether a line is of blanks alone, or its first other byte is a `#`.
pub(crate) fn is_skipped(content: &[u8]) -> bool
    ensures { result ≡ is_skipped content.now }
{
    match first_other(content) {
        Some(byte) => byte == b'#',
        None => true,
    }
}

fn blanks_in_front(bytes: &[u8]) -> usize
    ensures count { result ≡ prefix_len is_blank bytes.now }
    ensures within { result ≤ length bytes.now }
{
    for (index, byte) in bytes.iter().enumerate() {
        if !is_blank(*byte) {
            return index;
        }
    }
    bytes.len()
}

fn others_in_front(bytes: &[u8]) -> usize
    ensures count { result ≡ prefix_len is_other bytes.now }
    ensures within { result ≤ length bytes.now }
{
    for (index, byte) in bytes.iter().enumerate() {
        if is_blank(*byte) {
            return index;
        }
    }
    bytes.len()
}

// The first field, and what stands behind it.
fn next_field(bytes: &[u8]) -> Option<(&[u8], &[u8])>
    ensures fields { MatchOption result (fields_of bytes.now ≡ []) (λ found. fields_of bytes.now ≡ found.0.now ∷ fields_of found.1.now) }
    ensures shorter { MatchOption result (Unit {0}) (λ found. length found.1.now < length bytes.now) }
{
    let (_, front) = bytes.split_at(blanks_in_front(bytes));
    if front.is_empty() {
        return None;
    }
    Some(front.split_at(others_in_front(front)))
}

/// How many fields there are.
pub(crate) fn count_fields(content: &[u8]) -> usize
    ensures { result ≡ length (fields_of content.now) }
{
    let mut count = 0;
    let mut rest = content;
    while let Some((_, behind)) = next_field(rest) {
        count += 1;
        rest = behind;
    }
    count
}

/// Whether each field is a sign, which may be missing, and digits.
pub(crate) fn are_numerals(content: &[u8]) -> bool
    ensures { result ≡ list_all is_numeral (fields_of content.now) }
{
    let mut rest = content;
    while let Some((field, behind)) = next_field(rest) {
        if !is_numeral(field) {
            return false;
        }
        rest = behind;
    }
    true
}

/// The numbers of one field or of three, where 128 bits hold them.
pub(crate) fn values_of(content: &[u8]) -> Option<[i128; 3]>
    requires { list_all is_numeral (fields_of content.now) ≡ true }
    ensures { result ≡ values_of (fields_of content.now) }
{
    let (first, rest) = next_field(content)?;
    match next_field(rest) {
        None => Some([number_of(first)?, 0, 0]),
        Some((second, rest)) => {
            let (third, rest) = next_field(rest)?;
            match next_field(rest) {
                None => Some([number_of(first)?, number_of(second)?, number_of(third)?]),
                Some(_) => None,
            }
        }
    }
}

// The numbers that fields are.
ghost use Rattle.std.specs.Prelude.{◌≡◌, true};
ghost use Rattle.std.specs.List.{list_all};
ghost use Rattle.std.specs.Char.{is_ascii_digit};
ghost use Rattle.std.specs.Str.Parse.{without_leading_sign};
ghost use Rattle.sample_file.specs.Fields.{is_numeral, number_of};

use std::str::from_utf8;

fn without_sign(field: &[u8]) -> &[u8]
    ensures { result.now ≡ without_leading_sign field.now }
{
    match field {
        [b'-', digits @ ..] => digits,
        [b'+', digits @ ..] => digits,
        _ => field,
    }
}

fn are_digits(bytes: &[u8]) -> bool
    ensures { result ≡ list_all is_ascii_digit bytes.now }
{
    bytes.iter().all(|byte| byte.is_ascii_digit())
}

/// Whether a field is a sign, which may be missing, and one or more digits.
pub(crate) fn is_numeral(field: &[u8]) -> bool
    ensures { result ≡ is_numeral field.now }
{
    let digits = without_sign(field);
    !digits.is_empty() && are_digits(digits)
}

/// The number of a sign and digits, where 128 bits hold it.
pub(crate) fn number_of(field: &[u8]) -> Option<i128>
    requires { is_numeral field.now ≡ true }
    ensures { result ≡ number_of field.now }
{
    match from_utf8(field) {
        Ok(text) => match text.parse::<i128>() {
            Ok(number) => Some(number),
            Err(_) => None,
        },
        Err(_) => None,
    }
}

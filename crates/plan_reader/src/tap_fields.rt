// The number of a field of a tap file.
ghost use Rattle.std.specs.Prelude.{◌≡◌, ◌≤◌, ◌^◌, ◌+◌, ◌*◌, true, nat_lt, if◌then◌else◌, length, Some, None};
ghost use Rattle.std.specs.List.{prefix_len, list_all};
ghost use Rattle.std.specs.Char.{is_ascii_digit, digit_value};
ghost use Rattle.std.specs.Str.Parse.{digits_value};
ghost use Rattle.plan_reader.specs.TapFields.{is_blank, held, with_sign, signed_tap, tap_behind, tap_of};
ghost use Rattle.plan_reader.specs.Magnitudes.{below_64};

use crate::fault::TapWhy;

/// The number of a field: blanks, a sign that may be missing, one or more digits, blanks. A blank is a space or a tab.
pub fn tap_of(field: &[u8]) -> Result<i64, TapWhy>
    ensures { result ≡ tap_of field.now }
{
    tap_behind(&field[blanks_in_front(field)..])
}

fn tap_behind(bytes: &[u8]) -> Result<i64, TapWhy>
    ensures { result ≡ tap_behind bytes.now }
{
    match bytes {
        [] => Err(TapWhy::NotNumber),
        [first, others @ ..] => {
            if *first == b'-' {
                signed_tap(true, others)
            } else if *first == b'+' {
                signed_tap(false, others)
            } else {
                signed_tap(false, bytes)
            }
        }
    }
}

fn signed_tap(negative: bool, bytes: &[u8]) -> Result<i64, TapWhy>
    ensures { result ≡ signed_tap negative bytes.now }
{
    let count = digits_in_front(bytes);
    if count == 0 || !are_blank(&bytes[count..]) {
        return Err(TapWhy::NotNumber);
    }
    match magnitude(&bytes[..count]) {
        Some(magnitude) => held(negative, magnitude),
        None => Err(TapWhy::TooLarge),
    }
}

fn held(negative: bool, magnitude: u64) -> Result<i64, TapWhy>
    ensures { result ≡ held (with_sign negative magnitude) }
{
    let number = if negative {
        -i128::from(magnitude)
    } else {
        i128::from(magnitude)
    };
    if number >= i128::from(i64::MIN) && number <= i128::from(i64::MAX) {
        Ok(number as i64)
    } else {
        Err(TapWhy::TooLarge)
    }
}

fn is_blank(byte: u8) -> bool
    ensures { result ≡ is_blank byte }
{
    byte == b' ' || byte == b'\t'
}

fn are_blank(bytes: &[u8]) -> bool
    ensures { result ≡ list_all is_blank bytes.now }
{
    bytes.iter().all(|byte| is_blank(*byte))
}

fn blanks_in_front(bytes: &[u8]) -> usize
    ensures count { result ≡ prefix_len is_blank bytes.now }
    ensures within { result ≤ length bytes.now }
{
    for (index, byte) in bytes.iter().enumerate() {
        if !is_blank(*byte) {
            return index;
        }
    }
    bytes.len()
}

fn digits_in_front(bytes: &[u8]) -> usize
    ensures count { result ≡ prefix_len is_ascii_digit bytes.now }
    ensures within { result ≤ length bytes.now }
{
    for (index, byte) in bytes.iter().enumerate() {
        if !byte.is_ascii_digit() {
            return index;
        }
    }
    bytes.len()
}

// The number of some digits, where it lies below 2^64.
fn magnitude(digits: &[u8]) -> Option<u64>
    requires { list_all is_ascii_digit digits.now ≡ true }
    ensures { result ≡ below_64 (digits_value 10 digits.now) }
{
    let mut number: u64 = 0;
    for digit in digits {
        match more(number, *digit) {
            Some(next) => number = next,
            None => return None,
        }
    }
    Some(number)
}

// One more digit behind a number.
fn more(number: u64, digit: u8) -> Option<u64>
    requires { is_ascii_digit digit ≡ true }
    ensures { result ≡ below_64 (number * 10 + digit_value digit) }
{
    let next = u128::from(number) * 10 + u128::from(digit - b'0');
    if next <= u128::from(u64::MAX) {
        Some(next as u64)
    } else {
        None
    }
}

// The kinds of bytes.
ghost use Rattle.std.specs.Prelude.{◌≡◌, ◌≤◌, ◌==◌, not, length};
ghost use Rattle.std.specs.List.{prefix_len};
ghost use Rattle.std.specs.Char.{digit_value};
ghost use Rattle.verilog_text.specs.Lexer as lexer;

/// Whether a name may begin with a byte.
pub fn is_letter(b: u8) -> bool
    ensures { result ≡ lexer.is_letter b }
{
    (b >= b'a' && b <= b'z') || (b >= b'A' && b <= b'Z') || b == b'_'
}

/// Whether a byte is a decimal digit.
pub fn is_digit(b: u8) -> bool
    ensures { result ≡ lexer.is_digit b }
{
    b >= b'0' && b <= b'9'
}

/// Whether a byte may stand in a name behind its first.
pub fn is_name_byte(b: u8) -> bool
    ensures { result ≡ lexer.is_name_byte b }
{
    is_letter(b) || is_digit(b) || b == b'$'
}

/// Whether a byte separates tokens.
pub fn is_blank(b: u8) -> bool
    ensures { result ≡ lexer.is_blank b }
{
    b == b' ' || b == b'\t' || b == b'\r' || b == b'\n'
}

/// Whether a byte is a digit of no known value.
pub fn is_unknown(b: u8) -> bool
    ensures { result ≡ lexer.is_unknown b }
{
    b == b'x' || b == b'X' || b == b'z' || b == b'Z' || b == b'?'
}

/// The value of a digit or a letter, 36 for another byte.
pub fn digit_value(b: u8) -> u8
    ensures value { result ≡ digit_value b }
    ensures within { result ≤ 36 }
{
    match b {
        b'0'..=b'9' => b - b'0',
        b'A'..=b'Z' => b - b'A' + 10,
        b'a'..=b'z' => b - b'a' + 10,
        _ => 36,
    }
}

/// Whether a byte may stand in the digits of a literal of this base behind the first.
pub fn is_more_in(base: u8, b: u8) -> bool
    ensures { result ≡ lexer.is_more_in base b }
{
    is_digit_in(base, b) || b == b'_'
}

/// Whether a byte is a digit of this base, or one of no known value.
pub fn is_digit_in(base: u8, b: u8) -> bool
    ensures { result ≡ lexer.is_digit_in base b }
{
    digit_value(b) < base || is_unknown(b)
}

/// How many bytes at the front may stand in a name.
pub fn name_len(bytes: &[u8]) -> usize
    ensures value { result ≡ prefix_len lexer.is_name_byte bytes.now }
    ensures within { result ≤ length bytes.now }
{
    bytes.iter().take_while(|b| is_name_byte(**b)).count()
}

/// How many decimal digits stand at the front.
pub fn digits_len(bytes: &[u8]) -> usize
    ensures value { result ≡ prefix_len lexer.is_digit bytes.now }
    ensures within { result ≤ length bytes.now }
{
    bytes.iter().take_while(|b| is_digit(**b)).count()
}

/// How many digits of this base, `_` among them, stand at the front.
pub fn more_len(base: u8, bytes: &[u8]) -> usize
    ensures value { result ≡ prefix_len (lexer.is_more_in base) bytes.now }
    ensures within { result ≤ length bytes.now }
{
    bytes.iter().take_while(|b| is_more_in(base, **b)).count()
}

/// How many bytes stand before the end of the line.
pub fn line_len(bytes: &[u8]) -> usize
    ensures value { result ≡ prefix_len (λ b. not (b == 10)) bytes.now }
    ensures within { result ≤ length bytes.now }
{
    bytes.iter().take_while(|b| **b != b'\n').count()
}

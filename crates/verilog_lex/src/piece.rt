// The longest piece at a place.
ghost use Rattle.std.specs.Prelude.{◌≡◌, ◌≢◌, ◌≤◌, true, false, length, take, slice_index, MatchOption};
ghost use Rattle.std.specs.Str.{IsAscii};
ghost use Rattle.verilog_text.specs.Lexer.{piece_of, word_piece, is_letter, is_digit, is_blank, IsLongest};
ghost use Rattle.verilog_lex.specs.Best.{IsNever};
ghost use Rattle.verilog_lex.specs.Found.{IsFound};

use crate::bytes::{is_blank, is_digit, name_len};
use crate::comment::comment_at;
use crate::found::Found;
use crate::mark::mark_at;
use crate::number::numeral_at;

/// The length of the word at the front.
pub fn word_len(bytes: &[u8]) -> usize
    requires some { 1 ≤ length bytes.now }
    requires letter { is_letter (slice_index bytes.now 0) ≡ true }
    ensures word { IsLongest bytes.now result (word_piece (take result bytes.now)) }
    ensures ascii { IsAscii (take result bytes.now) }
{
    1 + name_len(&bytes[1..])
}

// The longest piece at a byte that begins no word, number, separator or comment.
fn other_at(bytes: &[u8]) -> Option<(usize, Found)>
    requires some { 1 ≤ length bytes.now }
    requires no_letter { is_letter (slice_index bytes.now 0) ≡ false }
    requires no_digit { is_digit (slice_index bytes.now 0) ≡ false }
    requires no_blank { is_blank (slice_index bytes.now 0) ≡ false }
    requires no_slash { slice_index bytes.now 0 ≢ 47 }
    ensures { MatchOption result (IsNever piece_of bytes.now) (λ r. IsFound bytes.now r.0 r.1) }
{
    match mark_at(bytes) {
        Some((len, symbol)) => Some((len, Found::Piece(symbol))),
        None => None,
    }
}

/// The longest piece at the front, where no word begins, and its length, if one begins there.
pub fn piece_at(bytes: &[u8]) -> Option<(usize, Found)>
    requires some { 1 ≤ length bytes.now }
    requires no_letter { is_letter (slice_index bytes.now 0) ≡ false }
    ensures { MatchOption result (IsNever piece_of bytes.now) (λ r. IsFound bytes.now r.0 r.1) }
{
    let first = bytes[0];
    if is_digit(first) {
        let (len, symbol) = numeral_at(bytes);
        return Some((len, Found::Piece(symbol)));
    }
    if is_blank(first) {
        return Some((1, Found::Gap));
    }
    if first == b'/' {
        return Some(comment_at(&bytes[1..]));
    }
    other_at(bytes)
}

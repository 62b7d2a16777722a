// Comments.
ghost use Rattle.std.specs.Prelude.{◌≡◌, ◌≤◌, ◌∷◌, length, true, false, IfSome, IfNone};
ghost use Rattle.verilog_text.specs.Lexer as lexer;
ghost use Rattle.verilog_lex.specs.Found.{body_len, IsFound};

use crate::bytes::line_len;
use crate::found::{Found, Symbol};

// How many bytes the body of a comment has through its end, if it has one.
fn body_len(rest: &[u8]) -> Option<usize>
    ensures ended { IfSome result (λ n. (lexer.is_open rest.now ≡ false) × (n ≡ body_len rest.now) × (n ≤ length rest.now)) }
    ensures open { IfNone result (lexer.is_open rest.now ≡ true) }
{
    let mut left = rest;
    let mut len = 0;
    while let [a, after @ ..] = left {
        if let [b, ..] = after {
            if *a == b'*' && *b == b'/' {
                return Some(len + 2);
            }
        }
        left = after;
        len += 1;
    }
    None
}

/// What begins with a `/`, behind which these bytes stand.
pub fn comment_at(rest: &[u8]) -> (usize, Found)
    ensures { IsFound (47 ∷ rest.now) result.0 result.1 }
{
    let len = rest.len();
    let [b, after @ ..] = rest else {
        return (1, Found::Piece(Symbol::Outside));
    };
    if *b == b'/' {
        return (2 + line_len(after), Found::Gap);
    }
    if *b == b'*' {
        return match body_len(after) {
            Some(n) => (2 + n, Found::Gap),
            None => (1 + len, Found::Piece(Symbol::Unreadable)),
        };
    }
    (1, Found::Piece(Symbol::Outside))
}

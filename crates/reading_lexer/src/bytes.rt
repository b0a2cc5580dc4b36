//! The classes of bytes, and runs of them.

ghost use Rattle.std.specs.Prelude.{◌≡◌, ◌≤◌, ◌&&◌, ◌==◌, length};
ghost use Rattle.std.specs.List.{prefix_len};
ghost use Rattle.reading_tokens.specs.Shapes.{is_blank, is_digit, is_letter, is_word, is_base, is_dash, is_equal, in_line, begins_four, opens_comment};
ghost use Rattle.reading_tokens.specs.Tokens.{is_space};

use reading_tokens::{is_digit, is_letter, is_word};

pub fn is_blank(b: u8) -> bool
    ensures { result ≡ is_blank b }
{
    b == b' ' || b == b'\t' || b == b'\n' || b == b'\r' || b == 12
}

/// b, o or h in either case.
pub fn is_base(b: u8) -> bool
    ensures { result ≡ is_base b }
{
    b == b'b' || b == b'o' || b == b'h' || b == b'B' || b == b'O' || b == b'H'
}

/// How many bytes at the front are digits.
pub fn digits(text: &[u8]) -> usize
    ensures bound { result ≤ length text.now }
    ensures size { result ≡ prefix_len is_digit text.now }
{
    text.iter().take_while(|b| is_digit(**b)).count()
}

/// How many bytes at the front are letters.
pub fn letters(text: &[u8]) -> usize
    ensures bound { result ≤ length text.now }
    ensures size { result ≡ prefix_len is_letter text.now }
{
    text.iter().take_while(|b| is_letter(**b)).count()
}

/// How many bytes at the front belong to a word.
pub fn words(text: &[u8]) -> usize
    ensures bound { result ≤ length text.now }
    ensures size { result ≡ prefix_len is_word text.now }
{
    text.iter().take_while(|b| is_word(**b)).count()
}

/// How many bytes stand before the end of the line.
pub fn line(text: &[u8]) -> usize
    ensures bound { result ≤ length text.now }
    ensures size { result ≡ prefix_len in_line text.now }
{
    text.iter().take_while(|b| **b != b'\n').count()
}

/// How many bytes at the front are dashes.
pub fn dashes(text: &[u8]) -> usize
    ensures bound { result ≤ length text.now }
    ensures size { result ≡ prefix_len is_dash text.now }
{
    text.iter().take_while(|b| **b == b'-').count()
}

/// How many bytes at the front are equals signs.
pub fn equals(text: &[u8]) -> usize
    ensures bound { result ≤ length text.now }
    ensures size { result ≡ prefix_len is_equal text.now }
{
    text.iter().take_while(|b| **b == b'=').count()
}

/// How many bytes at the front are spaces and tabs.
pub fn spaces(text: &[u8]) -> usize
    ensures bound { result ≤ length text.now }
    ensures size { result ≡ prefix_len is_space text.now }
{
    text.iter()
        .take_while(|b| **b == b' ' || **b == b'\t')
        .count()
}

/// Whether this byte four times begins the text.
pub fn begins_four(x: u8, text: &[u8]) -> bool
    ensures { result ≡ begins_four x text.now }
{
    match text {
        [a, b, c, d, ..] => *a == x && *b == x && *c == x && *d == x,
        _ => false,
    }
}

/// Whether `(*` begins the text.
pub fn opens_comment(text: &[u8]) -> bool
    ensures { result ≡ opens_comment text.now }
{
    match text {
        [a, b, ..] => *a == b'(' && *b == b'*',
        _ => false,
    }
}

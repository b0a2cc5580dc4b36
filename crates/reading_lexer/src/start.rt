//! Where the module of a text begins.

ghost use Rattle.std.specs.Prelude.{◌≡◌, ◌≤◌, length, IfSome};
ghost use Rattle.std.specs.List.{prefix_len};
ghost use Rattle.reading_tokens.specs.Shapes.{is_dash};
ghost use Rattle.reading_tokens.specs.Tokens.{begins_word, begins_heading, begins_module, module_start};

use crate::bytes;
use reading_tokens::is_word;

/// Whether a letter, a digit or `_` begins the text.
fn begins_word(text: &[u8]) -> bool
    ensures { result ≡ begins_word text.now }
{
    match text {
        [b, ..] => is_word(*b),
        _ => false,
    }
}

/// Whether the word MODULE begins the text.
fn begins_heading(text: &[u8]) -> bool
    ensures { result ≡ begins_heading text.now }
{
    match text {
        [a, b, c, d, e, f, rest @ ..] => {
            *a == b'M'
                && *b == b'O'
                && *c == b'D'
                && *d == b'U'
                && *e == b'L'
                && *f == b'E'
                && !begins_word(rest)
        }
        _ => false,
    }
}

/// Whether a module begins where the text does, after so many dashes.
fn begins_module(text: &[u8], dashes: usize) -> bool
    requires within { dashes ≤ length text.now }
    requires run { dashes ≡ prefix_len is_dash text.now }
    ensures { result ≡ begins_module text.now }
{
    if !bytes::begins_four(b'-', text) {
        return false;
    }
    let behind = &text[dashes..];
    begins_heading(&behind[bytes::spaces(behind)..])
}

/// How many bytes stand before the first place where a module begins.
pub fn module_start(text: &[u8]) -> Option<usize>
    ensures start { result ≡ module_start text.now }
    ensures bound { IfSome result (λ n. n ≤ length text.now) }
{
    let mut at = 0;
    while at < text.len() {
        let rest = &text[at..];
        let dashes = bytes::dashes(rest);
        if begins_module(rest, dashes) {
            return Some(at);
        }
        at += dashes.max(1);
    }
    None
}

//! The bytes of names.

ghost use Rattle.std.specs.Prelude.{◌≡◌};
ghost use Rattle.std.specs.List.{list_any};
ghost use Rattle.reading_tokens.specs.Shapes.{begins_fair, is_digit, is_letter, is_word, is_word_start};

/// Whether it is a decimal digit.
pub fn is_digit(b: u8) -> bool
    ensures { result ≡ is_digit b }
{
    48 <= b && b < 58
}

/// Whether it is an ASCII letter.
pub fn is_letter(b: u8) -> bool
    ensures { result ≡ is_letter b }
{
    (65 <= b && b < 91) || (97 <= b && b < 123)
}

/// Whether it is a letter or `_`.
pub fn is_word_start(b: u8) -> bool
    ensures { result ≡ is_word_start b }
{
    is_letter(b) || b == b'_'
}

/// Whether it is a letter, a digit or `_`.
pub fn is_word(b: u8) -> bool
    ensures { result ≡ is_word b }
{
    is_word_start(b) || is_digit(b)
}

/// Whether a letter is among the bytes.
pub fn has_letter(word: &[u8]) -> bool
    ensures { result ≡ list_any is_letter word.now }
{
    word.iter().any(|b| is_letter(*b))
}

/// Whether `WF_` or `SF_` begins the text.
pub fn begins_fair(text: &[u8]) -> bool
    ensures { result ≡ begins_fair text.now }
{
    match text {
        [a, b, c, ..] => (*a == b'W' || *a == b'S') && *b == b'F' && *c == b'_',
        _ => false,
    }
}

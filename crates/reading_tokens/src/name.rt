//! The names of the language.

ghost use Rattle.std.specs.Prelude.{◌≡◌, ◌↔◌, IsTrue};
ghost use Rattle.std.specs.List.{list_all};
ghost use Rattle.reading_tokens.specs.Shapes.{is_word};
ghost use Rattle.reading_tokens.specs.Names.{IsName};
ghost use Rattle.reading_tokens.specs.NameTests.{is_plain_name, is_reserved, is_word_text};

use crate::bytes::{begins_fair, has_letter, is_word, is_word_start};
use crate::spellings::{Table, kind_of};

/// Whether the bytes are a name of the language.
pub fn is_name(name: &[u8]) -> bool
    ensures { IsTrue result ↔ IsName name.now }
{
    is_plain_name(name)
}

fn is_plain_name(name: &[u8]) -> bool
    ensures { result ≡ is_plain_name name.now }
{
    is_word_text(name) && has_letter(name) && !begins_fair(name) && !is_reserved(name)
}

/// Letters, digits and `_`, the first of them no digit.
fn is_word_text(name: &[u8]) -> bool
    ensures { result ≡ is_word_text name.now }
{
    match name {
        [] => false,
        [first, rest @ ..] => is_word_start(*first) && has_word_bytes_alone(rest),
    }
}

fn has_word_bytes_alone(bytes: &[u8]) -> bool
    ensures { result ≡ list_all is_word bytes.now }
{
    bytes.iter().all(|b| is_word(*b))
}

/// A reserved word, or one that is foreign to the profile.
fn is_reserved(word: &[u8]) -> bool
    ensures { result ≡ is_reserved word.now }
{
    kind_of(Table::Words, word).is_some()
}

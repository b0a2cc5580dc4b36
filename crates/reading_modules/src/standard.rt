//! The standard modules.

ghost use Rattle.std.specs.Prelude.{◌≡◌, ◌&&◌};
ghost use Rattle.std.specs.List.{list_any};
ghost use Rattle.std.specs.Str.{bytes_eq};
ghost use Rattle.reading_modules.specs.Standard.{is_among, is_standard, is_brought};

use base_core::Text;

const MODULES: [&[u8]; 5] = [
    b"Naturals",
    b"Integers",
    b"Sequences",
    b"FiniteSets",
    b"TLC",
];

const NATURALS: [&[u8]; 1] = [b"Nat"];

const INTEGERS: [&[u8]; 2] = [b"Nat", b"Int"];

const SEQUENCES: [&[u8]; 6] = [b"Seq", b"Len", b"Head", b"Tail", b"Append", b"SubSeq"];

const FINITE_SETS: [&[u8]; 2] = [b"IsFiniteSet", b"Cardinality"];

fn is_word_among(name: &[u8], words: &[&[u8]]) -> bool
    ensures { result ≡ list_any (λ word. bytes_eq word.now name.now) words.now }
{
    words.iter().any(|word| *word == name)
}

/// Whether this is the name of a standard module.
pub fn is_standard(name: &Text) -> bool
    ensures { result ≡ is_standard name.now }
{
    is_word_among(name.as_str().as_bytes(), &MODULES)
}

/// Whether a standard module is among those that are extended.
fn is_extended(standard: &[u8], extended: &[Text]) -> bool
    ensures { result ≡ is_among standard.now extended.now }
{
    extended
        .iter()
        .any(|other| other.as_str().as_bytes() == standard)
}

/// Whether a standard module is among those that are extended, and has that name among its own.
fn brings(extended: &[Text], standard: &[u8], names: &[&[u8]], name: &[u8]) -> bool
    ensures { result ≡ (is_among standard.now extended.now && list_any (λ word. bytes_eq word.now name.now) names.now) }
{
    is_extended(standard, extended) && is_word_among(name, names)
}

/// Whether one of the standard modules that are extended brings that name.
pub fn is_brought(extended: &[Text], name: &Text) -> bool
    ensures { result ≡ is_brought extended.now name.now }
{
    let name = name.as_str().as_bytes();
    if brings(extended, b"Naturals", &NATURALS, name) {
        return true;
    }
    if brings(extended, b"Integers", &INTEGERS, name) {
        return true;
    }
    if brings(extended, b"Sequences", &SEQUENCES, name) {
        return true;
    }
    brings(extended, b"FiniteSets", &FINITE_SETS, name)
}

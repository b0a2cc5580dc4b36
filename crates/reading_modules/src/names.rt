//! Lists of names.

ghost use Rattle.std.specs.Prelude.{◌≡◌};
ghost use Rattle.reading_modules.specs.Flattened.{number_of};
ghost use Rattle.reading_modules.specs.Standard.{is_among};

use base_core::Text;

/// Whether the name is among these.
pub fn is_among(name: &Text, names: &[Text]) -> bool
    ensures { result ≡ is_among name.now names.now }
{
    names.iter().any(|other| other.as_str() == name.as_str())
}

/// The place of the name among these, or behind them.
pub fn number_of(name: &Text, names: &[Text]) -> usize
    ensures { result ≡ number_of name.now names.now }
{
    for (i, other) in names.iter().enumerate() {
        if other.as_str() == name.as_str() {
            return i;
        }
    }
    names.len()
}

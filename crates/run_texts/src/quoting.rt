//! Texts in quotes, as JSON has them.

ghost use Rattle.std.specs.Prelude.{◌≡◌, ◌++◌, ◌↔◌, IsTrue, OnOk, string_bytes};
ghost use Rattle.serde_json.specs.Data.{string};
ghost use Rattle.serde_json.specs.Written.{compact_text};
ghost use Rattle.run_texts.specs.Quoting.{IsPlain};

use base_core::NoMemory;
use serde_json::Value as Json;
use std::alloc::Global;

/// Adds the text in quotes, with what JSON escapes.
pub(crate) fn push_quoted(alloc: Global, text: &mut String, inner: &str) -> Result<(), NoMemory>
    ensures { OnOk result (string_bytes text.new ≡ string_bytes text.old ++ compact_text (string inner.now)) }
{
    if is_plain(inner) {
        return push_plain(text, inner);
    }
    let json = Json::String(String::from_str(alloc, inner)?);
    let quoted = json.to_string(alloc)?;
    text.push_str(quoted.as_str())
}

/// Whether JSON escapes nothing of the text.
fn is_plain(inner: &str) -> bool
    ensures { IsTrue result ↔ IsPlain inner.now }
{
    inner
        .as_bytes()
        .iter()
        .all(|b| *b >= b' ' && *b != b'"' && *b != b'\\')
}

fn push_plain(text: &mut String, inner: &str) -> Result<(), NoMemory>
    requires { IsPlain inner.now }
    ensures { OnOk result (string_bytes text.new ≡ string_bytes text.old ++ compact_text (string inner.now)) }
{
    text.push_str("\"")?;
    text.push_str(inner)?;
    text.push_str("\"")
}

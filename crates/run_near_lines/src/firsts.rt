//! The first of some texts, in ascending order.

ghost use Rattle.std.specs.Prelude.{◌≡◌, ◌≤◌, IfOk, OnOk, length, string_bytes, take};
ghost use Rattle.run_near_lines.specs.Adding.{with_text};
ghost use Rattle.run_near_lines.specs.Texts.{near_told};

use base_core::{NoMemory, Text};
use std::alloc::Global;
use std::collections::BTreeSet;

/// Keeps a text, where it is one of the first `room`.
pub(crate) fn keep(texts: &mut BTreeSet<Text>, room: usize, text: Text) -> Result<(), NoMemory>
    requires { length texts.old.keys ≤ room }
    ensures { OnOk result (texts.new.keys ≡ take room (with_text texts.old.keys text)) }
{
    texts.insert(text)?;
    if texts.len() > room {
        drop(texts.pop_last());
    }
    Ok(())
}

/// What is told where these are the near lines, or the first of them.
pub(crate) fn near_told(
    alloc: Global,
    texts: &BTreeSet<Text>,
    most: u32,
) -> Result<String, NoMemory>
    ensures { IfOk result (λ told. string_bytes told ≡ near_told most texts.now.keys) }
{
    let mut told = String::new(alloc);
    if texts.is_empty() {
        told.push_str("NEAR NONE\n")?;
        return Ok(told);
    }
    let mut left = most;
    for text in texts {
        if left == 0 {
            told.push_str("NEAR MORE\n")?;
            return Ok(told);
        }
        told.push_str(text.as_str())?;
        left -= 1;
    }
    Ok(told)
}

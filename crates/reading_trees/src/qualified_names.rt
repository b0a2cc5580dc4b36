//! Qualified names.

ghost use Rattle.std.specs.Prelude.{◌≡◌, IfOk};
ghost use Rattle.reading_trees.specs.Grammar.{qualified};

use base_core::{NoMemory, Text};
use std::alloc::Global;

/// The name `I!N`, for the instance I and the name N of its module.
pub fn qualified(alloc: Global, instance: &Text, name: &Text) -> Result<Text, NoMemory>
    ensures { IfOk result (λ q. q ≡ qualified instance.now name.now) }
{
    let mut text = String::new(alloc);
    text.push_str(instance.as_str())?;
    text.push_str("!")?;
    text.push_str(name.as_str())?;
    Text::from_text(alloc, text.as_str())
}

ghost use Rattle.std.specs.Prelude.{◌≡◌, IfOk, string_bytes};
ghost use Rattle.run_texts.specs.GivenStates.{states_refusal};

use crate::logs::{refused_line, refused_told};
use base_core::NoMemory;
use states_files::{StateKind, StateRefusal};
use std::alloc::Global;

/// The line for a file of states of this name that is refused.
pub fn states_refusal(alloc: Global, name: &str, refused: &StateRefusal) -> Result<String, NoMemory>
    ensures { IfOk result (λ t. string_bytes t ≡ states_refusal name.now refused.now) }
{
    let line = refused.line;
    let kind = &refused.kind;
    match kind {
        StateKind::BadField(key) => refused_told(alloc, kind.code(), key.as_str(), name, line),
        StateKind::NotJson
        | StateKind::UnknownVariable
        | StateKind::MissingVariable
        | StateKind::BadValue => refused_line(alloc, kind.code(), name, line),
    }
}

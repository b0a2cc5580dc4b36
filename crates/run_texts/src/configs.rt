ghost use Rattle.std.specs.Prelude.{◌≡◌, IfOk, string_bytes};
ghost use Rattle.run_texts.specs.Configs.{config_refusal};

use crate::places::{refused_at, refused_detail};
use base_core::{Names, NoMemory, Place};
use reading_configuration::ConfigKind;
use std::alloc::Global;

/// The line for a configuration that is refused. Its file stands in the list behind the program's.
pub fn config_refusal(
    alloc: Global,
    files: &Names,
    kind: &ConfigKind,
    at: Place,
) -> Result<String, NoMemory>
    ensures { IfOk result (λ t. string_bytes t ≡ config_refusal files.now kind.now at) }
{
    match kind {
        ConfigKind::Syntax | ConfigKind::NoBehaviour => refused_at(alloc, files, kind.code(), at),
        ConfigKind::Unsupported(told) | ConfigKind::Twice(told) => {
            refused_detail(alloc, files, kind.code(), told.as_str(), at)
        }
    }
}

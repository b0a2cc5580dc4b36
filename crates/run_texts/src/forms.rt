ghost use Rattle.std.specs.Prelude.{◌≡◌, IfOk, string_bytes};
ghost use Rattle.run_texts.specs.Forms.{form_refusal};

use crate::places::{name_at, refused_detail};
use actions_meanings::FormFault;
use base_core::{Names, NoMemory};
use std::alloc::Global;

/// The line for a term that has no form as an action, with the names of the variables.
pub fn form_refusal(
    alloc: Global,
    files: &Names,
    variables: &Names,
    fault: FormFault,
) -> Result<String, NoMemory>
    ensures { IfOk result (λ t. string_bytes t ≡ form_refusal files.now variables.now fault) }
{
    match fault {
        FormFault::PrimeTooEarly(variable, at) | FormFault::NotFixed(variable, at) => {
            let name = name_at(variables, variable.0 as usize);
            refused_detail(alloc, files, fault.code(), name, at)
        }
        FormFault::NoMemory => String::from_str(alloc, ""),
    }
}

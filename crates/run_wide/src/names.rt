//! Lists of names.

ghost use Rattle.std.specs.Prelude.{◌≡◌, ◌++◌, OnOk};

use base_core::{Names, NoMemory, Text};

/// Adds names behind others.
pub(crate) fn add_names(names: &mut Names, more: &[Text]) -> Result<(), NoMemory>
    ensures { OnOk result (names.new ≡ names.old ++ more.now) }
{
    for name in more {
        let name = name.copy()?;
        names.push(name)?;
    }
    Ok(())
}

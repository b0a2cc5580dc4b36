//! The paths of modules.

ghost use Rattle.std.specs.Prelude.{◌↔◌, IsTrue};
ghost use Rattle.run_words.specs.Names.{IsModule};

use reading_modules::parts_of;
use reading_tokens::is_name;

/// Whether the path is that of a module's file, whose name is one of the language.
pub(crate) fn is_module(path: &str) -> bool
    ensures { IsTrue result ↔ IsModule path.now }
{
    match parts_of(path) {
        Some((_, name)) => is_name(name.as_bytes()),
        None => false,
    }
}

//! The library's modules, by the names of their files.

ghost use Rattle.std.specs.Prelude.{◌≡◌, ◌≢◌, ℕ, List, None, Some, MatchOption};
ghost use Rattle.reading_library.specs.Texts.{library};
ghost use Rattle.run_library.specs.Behind.{files_in};
ghost use Rattle.reading_modules.specs.Paths.{file_of};
ghost use Rattle.base_core.specs.Device.{found};

use reading_library::text_of;

/// The name of the module whose file in that folder has that name.
fn module_in<'a>(folder: &str, file: &'a str) -> Option<&'a str>
    ensures { MatchOption result ((name : List ℕ) → file.now ≢ file_of folder.now name) (λ name. file.now ≡ file_of folder.now name.now) }
{
    file.strip_prefix(folder)?.strip_suffix(".tla")
}

/// The text of the library's module whose file in that folder has that name.
#[tactic(auto, using(crate::proofs::Found::text_found, crate::proofs::Found::none_found))]
pub(crate) fn text_in(folder: &str, file: &str) -> Option<&'static str>
    ensures { MatchOption result (found file.now (files_in folder.now library) ≡ None) (λ text. found file.now (files_in folder.now library) ≡ Some text.now) }
{
    match module_in(folder, file) {
        Some(module) => text_of(module),
        None => None,
    }
}

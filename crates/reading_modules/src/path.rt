//! Names of files.

ghost use Rattle.std.specs.Prelude.{◌≡◌, ◌≢◌, ◌≤◌, ◌<◌, ◌-◌, ◌++◌, List, ℕ, IfOk, MatchOption, codes, length, slice_index};
ghost use Rattle.std.specs.Str.{IsCharBoundary};
ghost use Rattle.reading_modules.specs.Loads.{files_of};
ghost use Rattle.reading_modules.specs.Paths.{IsPath, file_of};

use base_core::{Names, NoMemory, Text};
use std::alloc::Global;

/// Where the part behind the last slash begins.
fn part_start(path: &str) -> usize
    ensures boundary { IsCharBoundary path.now result }
    ensures within { result ≤ length path.now }
    ensures behind { (k : ℕ) → result ≤ k → k < length path.now → slice_index path.now k ≢ 47 }
    ensures slash { 0 < result → slice_index path.now (result - 1) ≡ 47 }
{
    match path.rfind('/') {
        Some(slash) => slash + 1,
        None => 0,
    }
}

/// What stands before `.tla` at the end of a path, if that is there.
fn stem_of(path: &str) -> Option<&str>
    ensures { MatchOption result ((stem : List ℕ) → path.now ≢ stem ++ codes ".tla") (λ r. path.now ≡ r.now ++ codes ".tla") }
{
    path.strip_suffix(".tla")
}

/// The folder and the module's name in the path of a module's file, if it is such a path.
pub fn parts_of(path: &str) -> Option<(&str, &str)>
    ensures { MatchOption result ((folder name : List ℕ) → ¬ IsPath path.now folder name) (λ r. IsPath path.now r.0.now r.1.now) }
{
    let stem = stem_of(path)?;
    let (folder, name) = stem.split_at(part_start(stem));
    Some((folder, name))
}

/// The name of a module's file.
pub fn file_of(alloc: Global, folder: &str, name: &Text) -> Result<Text, NoMemory>
    ensures { IfOk result (λ t. t ≡ file_of folder.now name.now) }
{
    let mut file = String::from_str(alloc, folder)?;
    file.push_str(name.as_str())?;
    file.push_str(".tla")?;
    Text::from_text(alloc, file.as_str())
}

/// The names of the files of modules.
pub fn files_of(alloc: Global, folder: &str, modules: &Names) -> Result<Names, NoMemory>
    ensures { IfOk result (λ files. files ≡ files_of folder.now modules.now) }
{
    let mut files = Names::new(alloc);
    for name in modules.items() {
        files.push(file_of(alloc, folder, name)?)?;
    }
    Ok(files)
}

//! The library's modules, by their names.

ghost use Rattle.std.specs.Prelude.{◌≡◌, None, Some, MatchOption};
ghost use Rattle.reading_library.specs.Library.{is_library};
ghost use Rattle.reading_library.specs.Texts.{library};
ghost use Rattle.base_core.specs.Device.{found};

use crate::texts::{
    bags, bags_ext, bags_theorems, finite_set_theorems, finite_sets_ext, finite_sets_ext_theorems,
    folds, function_theorems, functions, jections, naturals_induction, sequence_theorems,
    sequences_ext, sequences_ext_theorems, tlaps, well_founded_induction,
};

/// The text of the library's module of that name.
#[tactic(auto, unfolding(crate::specs::Texts::library))]
pub fn text_of(name: &str) -> Option<&'static str>
    ensures { MatchOption result (found name.now library ≡ None) (λ text. found name.now library ≡ Some text.now) }
{
    match name {
        "Bags" => Some(bags()),
        "BagsExt" => Some(bags_ext()),
        "BagsTheorems" => Some(bags_theorems()),
        "FiniteSetTheorems" => Some(finite_set_theorems()),
        "FiniteSetsExt" => Some(finite_sets_ext()),
        "FiniteSetsExtTheorems" => Some(finite_sets_ext_theorems()),
        "Folds" => Some(folds()),
        "FunctionTheorems" => Some(function_theorems()),
        "Functions" => Some(functions()),
        "Jections" => Some(jections()),
        "NaturalsInduction" => Some(naturals_induction()),
        "SequenceTheorems" => Some(sequence_theorems()),
        "SequencesExt" => Some(sequences_ext()),
        "SequencesExtTheorems" => Some(sequences_ext_theorems()),
        "TLAPS" => Some(tlaps()),
        "WellFoundedInduction" => Some(well_founded_induction()),
        _ => None,
    }
}

/// Whether this is the name of a module of the library.
pub fn is_library(name: &str) -> bool
    ensures { result ≡ is_library name.now }
{
    text_of(name).is_some()
}

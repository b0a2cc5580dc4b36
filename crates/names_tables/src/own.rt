//! How a definition uses itself.

ghost use Rattle.std.specs.Prelude.{◌≡◌};
ghost use Rattle.names_tables.specs.Owns.{is_own_function, is_that, own_by};

use names_scopes::{ProgramNames, is_one_of, mentions};
use names_terms::Own;
use names_uses::definition_of;
use reading_trees::{Definition, DefinitionForm};

/// Whether the number is there and is that one.
fn is_that(index: usize, number: Option<usize>) -> bool
    ensures { result ≡ is_that index number }
{
    match number {
        Some(number) => number == index,
        None => false,
    }
}

/// Whether the definition of that index is a function that its own body applies: no parameter hides its name, which means it.
fn is_own_function(names: &ProgramNames, index: usize, definition: &Definition) -> bool
    ensures { result ≡ is_own_function names.now index definition.now }
{
    match definition.form {
        DefinitionForm::Operator | DefinitionForm::Constant => false,
        DefinitionForm::Function => {
            if is_one_of(&definition.name, definition.params.items()) {
                return false;
            }
            if mentions(&definition.name, &definition.body) {
                return is_that(index, definition_of(names, &definition.name));
            }
            false
        }
    }
}

/// How the definition of that index uses itself, of which it is known whether it does. The names tell definitions by their indices.
pub(crate) fn own_of(
    names: &ProgramNames,
    itself: bool,
    index: usize,
    definition: &Definition,
) -> Own
    ensures { result ≡ own_by names.now itself index definition.now }
{
    if is_own_function(names, index, definition) {
        return Own::Function;
    }
    if itself {
        return Own::Itself;
    }
    Own::Apart
}

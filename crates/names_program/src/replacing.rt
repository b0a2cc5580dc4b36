//! What a configuration puts in place of names.

ghost use Rattle.std.specs.Prelude.{◌≡◌, Some, map, option_map};
ghost use Rattle.names_program.specs.Names.{fitting_index, given_for, index_among, names_defined, put_for, replacement_among};

use base_core::Text;
use reading_trees::{Definition, Given, GivenAt};

/// What the configuration gives for a name.
fn given_for<'a>(givens: &'a [GivenAt], name: &Text) -> Option<&'a Given>
    ensures { option_map (λ g. g.now) result ≡ given_for givens.now name.now }
{
    for given in givens {
        if given.name == *name {
            return Some(&given.given);
        }
    }
    None
}

/// Where the first definition of that name stands, from 0.
pub fn definition_index(definitions: &[&Definition], name: &Text) -> Option<usize>
    ensures { result ≡ index_among (names_defined (map (λ d. d.now) definitions.now)) name.now }
{
    for (index, definition) in definitions.iter().enumerate() {
        if definition.name == *name {
            return Some(index);
        }
    }
    None
}

/// The index, if a definition stands there that takes so many arguments.
fn fitting(definitions: &[&Definition], needed: usize, index: Option<usize>) -> Option<usize>
    ensures { result ≡ fitting_index (map (λ d. d.now) definitions.now) needed index }
{
    match index {
        Some(index) => match definitions.get(index) {
            Some(definition) => {
                if definition.params.len() == needed {
                    return Some(index);
                }
                None
            }
            None => None,
        },
        None => None,
    }
}

/// The definition that is given, if it takes so many arguments.
fn put_for(definitions: &[&Definition], needed: usize, given: &Given) -> Option<usize>
    ensures { result ≡ put_for (map (λ d. d.now) definitions.now) needed (Some given.now) }
{
    match given {
        Given::Constant(_) => None,
        Given::Replaced(name, _) => fitting(
            definitions,
            needed,
            definition_index(definitions, name),
        ),
    }
}

/// The index of the definition that the configuration puts in place of a name that takes so many arguments.
pub(crate) fn replacement(
    givens: &[GivenAt],
    definitions: &[&Definition],
    name: &Text,
    needed: usize,
) -> Option<usize>
    ensures { result ≡ replacement_among givens.now (map (λ d. d.now) definitions.now) name.now needed }
{
    match given_for(givens, name) {
        Some(given) => put_for(definitions, needed, given),
        None => None,
    }
}

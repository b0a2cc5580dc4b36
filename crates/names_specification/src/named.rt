//! Operators by their names.

ghost use Rattle.std.specs.Prelude.{◌≡◌, is_some, map, option_map};
ghost use Rattle.names_program.specs.Names.{given_for};
ghost use Rattle.names_resolving.specs.Configured.{operator_named};
ghost use Rattle.names_specification.specs.Fair.{is_given, operator_kept};
ghost use Rattle.names_specification.specs.Standing.{AreDefinitions};

use base_core::Text;
use names_program::definition_index;
use reading_trees::{Config, Definition, GivenAt, Program};

/// A program with its configuration, and its definitions in the order of the text.
#[derive(Clone, Copy, Drop)]
pub(crate) struct Named<'a> {
    pub program: &'a Program,
    pub config: &'a Config,
    pub definitions: &'a [&'a Definition],
}

fn is_among(givens: &[GivenAt], name: &Text) -> bool
    ensures { result ≡ is_some (given_for givens.now name.now) }
{
    for given in givens {
        if given.name == *name {
            return true;
        }
    }
    false
}

/// Whether the configuration gives something for the name.
pub(crate) fn is_given(config: &Config, name: &Text) -> bool
    ensures { result ≡ is_given config.now name.now }
{
    is_among(config.givens.items(), name)
}

/// The definition without parameters that has the name.
fn operator_named<'a>(named: Named<'a>, name: &Text) -> Option<&'a Definition>
    requires { AreDefinitions named }
    ensures { option_map (λ d. d.now) result ≡ operator_named named.entry.program.now name.now }
{
    match definition_index(named.definitions, name) {
        Some(index) => match named.definitions.get(index) {
            Some(definition) => {
                if definition.params.len() == 0 {
                    return Some(*definition);
                }
                None
            }
            None => None,
        },
        None => None,
    }
}

/// The same, where the configuration gives nothing for the name.
pub(crate) fn operator_kept<'a>(named: Named<'a>, name: &Text) -> Option<&'a Definition>
    requires { AreDefinitions named }
    ensures { option_map (λ d. d.now) result ≡ operator_kept named.entry.program.now named.entry.config.now name.now }
{
    if is_given(named.config, name) {
        return None;
    }
    operator_named(named, name)
}

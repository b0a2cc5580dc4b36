//! What names mean where they are used.

ghost use Rattle.std.specs.Prelude.{◌≡◌, IfOk};
ghost use Rattle.names_terms.specs.TermViews.{node_view};
ghost use Rattle.names_scopes.specs.Scopes.{among, meaning_in, used};

use crate::meant::{Meant, Named};
use crate::program_names::ProgramNames;
use crate::scope::Scope;
use base_core::{NoMemory, Text};
use names_terms::{TermNode, Terms};

/// An equal meaning.
fn copy_meant(meant: &Meant) -> Result<Meant, NoMemory>
    ensures { IfOk result (λ m. m ≡ meant.now) }
{
    let copy = match meant {
        Meant::Slot(slot) => Meant::Slot(*slot),
        Meant::Variable(number) => Meant::Variable(*number),
        Meant::Known(value) => Meant::Known(value.copy()?),
        Meant::Set(set) => Meant::Set(*set),
        Meant::Standard(operator) => Meant::Standard(*operator),
        Meant::Definition(number) => Meant::Definition(*number),
    };
    Ok(copy)
}

/// What a name means in the program.
fn named(names: &ProgramNames, name: &Text) -> Result<Option<Named>, NoMemory>
    ensures { IfOk result (λ o. o ≡ among names.now name.now) }
{
    match names.get(name) {
        Some(entry) => {
            let meant = copy_meant(&entry.is.meant)?;
            Ok(Some(Named {
                needed: entry.is.needed,
                meant,
            }))
        }
        None => Ok(None),
    }
}

/// What a name means where it is used: an inner name hides an outer one.
pub fn meaning(names: &ProgramNames, scope: &Scope, name: &Text) -> Result<Option<Named>, NoMemory>
    ensures { IfOk result (λ o. o ≡ meaning_in names.now scope.now name.now) }
{
    match scope.meaning(name) {
        Some(found) => Ok(Some(found)),
        None => named(names, name),
    }
}

/// A use with these arguments.
pub fn used(meant: Meant, arguments: Terms) -> TermNode
    ensures { node_view result ≡ used meant arguments }
{
    match meant {
        Meant::Slot(slot) => TermNode::Slot(slot),
        Meant::Variable(number) => TermNode::Variable(number),
        Meant::Known(value) => TermNode::Known(value),
        Meant::Set(set) => TermNode::Named(set),
        Meant::Standard(operator) => TermNode::Standard(operator, arguments),
        Meant::Definition(number) => TermNode::Use(number, arguments),
    }
}

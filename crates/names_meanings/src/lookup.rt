//! What names mean that are used with arguments.

ghost use Rattle.std.specs.Prelude.{◌≡◌, ℕ, List, IfOk, IfErr};
ghost use Rattle.names_meanings.specs.Complaints.{counted};
ghost use Rattle.names_meanings.specs.Outcomes.{Complains, IsSought, needed_by, takes_in};
ghost use Rattle.names_terms.specs.declared.operator.Operator.{Operator};

use crate::fault::NameFault;
use base_core::{Place, Text};
use names_scopes::{Meant, Named, ProgramNames, Scope, meaning};

/// How many arguments a name takes: none where it means no operator.
fn needed_by(named: &Named) -> usize
    ensures { result ≡ needed_by named.now }
{
    match &named.meant {
        Meant::Standard(_) => named.needed,
        Meant::Definition(_) => named.needed,
        Meant::Slot(_) => 0,
        Meant::Variable(_) => 0,
        Meant::Known(_) => 0,
        Meant::Set(_) => 0,
    }
}

/// What a name means that is used with so many arguments, or why it means nothing there.
pub fn sought(
    names: &ProgramNames,
    scope: &Scope,
    name: &Text,
    at: Place,
    found: usize,
) -> Result<Meant, NameFault>
    ensures means { IfOk result (λ m. IsSought names.now scope.now name.now found m) }
    ensures refused { (ops : List Operator) → IfErr result (Complains (counted name.now at found (takes_in ops names.now scope.now name.now))) }
{
    match meaning(names, scope, name)? {
        Some(named) => {
            let needed = needed_by(&named);
            if needed == found {
                return Ok(named.meant);
            }
            Err(NameFault::WrongArity(name.copy()?, found, needed, at))
        }
        None => Err(NameFault::UnknownName(name.copy()?, at)),
    }
}

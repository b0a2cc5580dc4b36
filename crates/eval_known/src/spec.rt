ghost use Rattle.std.specs.Prelude.{All, IfOk};
ghost use Rattle.names_terms.specs.Lists.{terms_list};
ghost use Rattle.eval_meanings.specs.Laws.{KnowsValues};
ghost use Rattle.eval_known.specs.Known.{KnowBodies, KnowsSpecification};

use crate::walk::knows_values;
use base_core::NoMemory;
use names_terms::{Operators, Spec, Terms};
use std::alloc::Global;

/// Each known value in the definitions is a value.
fn knows_bodies(alloc: Global, operators: &Operators) -> Result<(), NoMemory>
    ensures { IfOk result (λ done. KnowBodies operators.now) }
{
    for operator in operators.items() {
        knows_values(alloc, &operator.body)?;
    }
    Ok(())
}

/// Each known value in the terms is a value.
fn knows_terms(alloc: Global, terms: &Terms) -> Result<(), NoMemory>
    ensures { IfOk result (λ done. All KnowsValues (terms_list terms.now)) }
{
    for term in terms.items() {
        knows_values(alloc, term)?;
    }
    Ok(())
}

/// Each known value in Init, in Next, in the assumptions and in the definitions of a specification is a value.
pub fn knows_specification(alloc: Global, spec: &Spec) -> Result<(), NoMemory>
    ensures { IfOk result (λ done. KnowsSpecification spec.now) }
{
    knows_values(alloc, &spec.init)?;
    knows_values(alloc, &spec.next)?;
    knows_terms(alloc, &spec.assumes)?;
    knows_bodies(alloc, &spec.operators)
}

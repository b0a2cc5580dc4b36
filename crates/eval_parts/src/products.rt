//! The parts of a product of sets.

ghost use Rattle.std.specs.Prelude.{◌≡◌, ◌∷◌, ◌++◌, [], IfOk, map};
ghost use Rattle.values_sets.specs.DescribedSets.{Product};
ghost use Rattle.eval_meanings.specs.Answers.{IsReady, Tells};
ghost use Rattle.eval_meanings.specs.Outcomes.{Each, Gives, Then};
ghost use Rattle.eval_meanings.specs.Sets.{parts_of, set_at};
ghost use Rattle.names_terms.specs.Terms.{place_of};
ghost use Rattle.eval_parts.specs.ReadyParts.{AreReady};

use base_core::Place;
use eval_meanings::{EvalFault, set_at};
use names_terms::{Operand, Term};
use std::alloc::{AllocError, Global};
use values_sets::{Described, DescribedNode, Parts};

/// The operands of a chain in their order: the first, those behind it, and the last.
pub fn operand_terms<'a>(
    alloc: Global,
    first: &'a Term,
    others: &'a [Operand],
    last: &'a Term,
) -> Result<Vec<&'a Term>, AllocError>
    ensures { IfOk result (λ terms. map (λ t. t.now) terms.items ≡ (first.now ∷ map (λ x. x.value) others.now) ++ last.now ∷ []) }
{
    let mut terms = Vec::new(alloc);
    terms.push(first)?;
    for other in others {
        terms.push(&other.value)?;
    }
    terms.push(last)?;
    Ok(terms)
}

/// A set that a term describes, beside the place of the term.
pub fn beside_place(term: &Term, set: Described) -> (Place, Described)
    ensures { result ≡ (place_of term.now, set) }
{
    (term.at, set)
}

/// The product of these parts, each of which must be a set, or else stands at its place in the fault.
pub fn product_of(alloc: Global, described: Vec<(Place, Described)>) -> Result<Described, EvalFault>
    requires { AreReady described.items }
    ensures fine { Tells result (Then (Each (λ d. set_at d.0 d.1) described.items) (λ es. Gives (Product (parts_of es)))) }
    ensures ready { IfOk result IsReady }
{
    let mut parts = Parts::new(alloc);
    for (at, set) in described {
        match set_at(set, at) {
            Ok(set) => parts.push(set)?,
            Err(fault) => return Err(fault),
        }
    }
    Ok(Described {
        node: DescribedNode::Product(parts),
    })
}

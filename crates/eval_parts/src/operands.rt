//! The operands of a term, and their places.

ghost use Rattle.std.specs.Prelude.{◌≡◌, [], ◌∷◌, IfOk, MatchOption, length, map};
ghost use Rattle.eval_meanings.specs.Sets.{first_operand, other_operands};
ghost use Rattle.names_terms.specs.Lists.{terms_list};
ghost use Rattle.names_terms.specs.Terms.{First, place_of};
ghost use Rattle.eval_parts.specs.Scenes.{HasMore, operand_item, makes_set};

use crate::lists::push;
use base_core::Place;
use names_terms::{Operand, Operands, Term, Terms};
use reading_trees::InfixOperator;
use std::alloc::{AllocError, Global};

/// The places of terms.
pub fn places_of(alloc: Global, terms: &Terms) -> Result<Vec<Place>, AllocError>
    ensures { IfOk result (λ places. places.items ≡ map place_of (terms_list terms.now)) }
{
    let mut places = Vec::new(alloc);
    for term in terms.items() {
        push(&mut places, place_at(term))?;
    }
    Ok(places)
}

/// The one operand before the last, if there is just one.
pub fn only(operands: &Operands) -> Option<&Term>
    ensures { MatchOption result (HasMore operands.now) (λ a. operands.now ≡ First a.now) }
{
    let (first, others) = operands.parts();
    if others.len() == 0 {
        return Some(first);
    }
    None
}

/// The place of a term.
pub fn place_at(term: &Term) -> Place
    ensures { result ≡ place_of term.now }
{
    term.at
}

/// The first operand of a chain.
pub fn first_of(operands: &Operands) -> &Term
    ensures { result.now ≡ first_operand operands.now }
{
    operands.parts().0
}

/// The operands behind the first.
pub fn others_of(operands: &Operands) -> &[Operand]
    ensures { map operand_item result.now ≡ other_operands operands.now }
{
    operands.parts().1
}

/// The one term.
pub fn only_term(terms: &Terms) -> &Term
    requires { length (terms_list terms.now) ≡ 1 }
    ensures { terms_list terms.now ≡ result.now ∷ [] }
{
    let items = terms.items();
    &items[0]
}

/// Whether an infix operator makes a set that is described.
pub fn makes_set(operator: InfixOperator) -> bool
    ensures { result ≡ makes_set operator }
{
    match operator {
        InfixOperator::Implies => false,
        InfixOperator::Equivalent => false,
        InfixOperator::LeadsTo => false,
        InfixOperator::And => false,
        InfixOperator::Or => false,
        InfixOperator::Member => false,
        InfixOperator::NotMember => false,
        InfixOperator::SubsetOrEqual => false,
        InfixOperator::Interval => true,
        InfixOperator::CartesianProduct => true,
        InfixOperator::Union => true,
        InfixOperator::Intersection => true,
        InfixOperator::Difference => true,
        InfixOperator::Equal => false,
        InfixOperator::NotEqual => false,
        InfixOperator::Less => false,
        InfixOperator::Greater => false,
        InfixOperator::LessOrEqual => false,
        InfixOperator::GreaterOrEqual => false,
        InfixOperator::MergedFunctions => false,
        InfixOperator::SingleFunction => false,
        InfixOperator::Plus => false,
        InfixOperator::Minus => false,
        InfixOperator::Times => false,
        InfixOperator::Quotient => false,
        InfixOperator::Remainder => false,
        InfixOperator::Power => false,
        InfixOperator::Concatenation => false,
    }
}

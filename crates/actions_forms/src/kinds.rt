//! How a term is taken apart as an action.

ghost use Rattle.std.specs.Prelude.{◌≡◌};
ghost use Rattle.base_core.specs.declared.place.Place.{Place};
ghost use Rattle.actions_meanings.specs.declared.which.Which.TheVariants as which;
ghost use Rattle.actions_meanings.specs.Forms.{target};
ghost use Rattle.names_terms.specs.declared.level.Level.{Level};
ghost use Rattle.names_terms.specs.Terms.{Infix, Placed, Postfix, Prefix, Quantified};
ghost use Rattle.names_terms.specs.TermViews.{node_view, step_view};
ghost use Rattle.actions_forms.specs.Kinds.{IsKind, IsSplit, is_equation};

use actions_early_reads::is_taken;
use actions_meanings::Which;
use names_terms::{Arms, Bounds, DefIds, Operands, Step, Steps, Term, TermNode, Terms};
use reading_trees::{InfixOperator, PrefixOperator, Quantifier};

/// A term that is taken apart, or one test.
pub enum Kind<'a> {
    Test,
    /// An equation or a membership, with the variable of whose value it speaks, its left side, and its right side.
    Given(InfixOperator, u16, &'a Term, &'a Term),
    Both(&'a Terms),
    OneOf(&'a Terms),
    Exists(&'a Bounds, &'a Term),
    Branch(&'a Term, &'a Term, &'a Term),
    Case(&'a Arms),
    CaseOther(&'a Arms, &'a Term),
    Scoped(&'a DefIds, &'a Term),
    Parenthesized(&'a Term),
    Call(usize, &'a Terms),
    BoxAction(&'a Term, &'a Term),
    AngleAction(&'a Term, &'a Term),
    Unchanged(&'a Term),
}

/// The parts of an IF.
#[derive(Clone, Copy, Drop)]
pub struct Split<'a> {
    pub test: &'a Term,
    pub then: &'a Term,
    pub other: &'a Term,
}

fn is_equation(operator: InfixOperator) -> bool
    ensures { result ≡ is_equation operator }
{
    match operator {
        InfixOperator::Equal | InfixOperator::Member => true,
        InfixOperator::Implies
        | InfixOperator::Equivalent
        | InfixOperator::LeadsTo
        | InfixOperator::And
        | InfixOperator::Or
        | InfixOperator::NotEqual
        | InfixOperator::Less
        | InfixOperator::Greater
        | InfixOperator::LessOrEqual
        | InfixOperator::GreaterOrEqual
        | InfixOperator::NotMember
        | InfixOperator::SubsetOrEqual
        | InfixOperator::MergedFunctions
        | InfixOperator::SingleFunction
        | InfixOperator::Union
        | InfixOperator::Intersection
        | InfixOperator::Difference
        | InfixOperator::Interval
        | InfixOperator::Plus
        | InfixOperator::Remainder
        | InfixOperator::Minus
        | InfixOperator::CartesianProduct
        | InfixOperator::Times
        | InfixOperator::Concatenation
        | InfixOperator::Quotient
        | InfixOperator::Power => false,
    }
}

/// The variable that a term is.
fn variable_in(node: &TermNode) -> Option<u16>
    ensures { (at : Place) (l : Level) → result ≡ target which.Init (Placed at l (node_view node.now)) }
{
    match node {
        TermNode::Variable(variable) => Some(variable.0),
        TermNode::Known(_) => None,
        TermNode::Named(_) => None,
        TermNode::Slot(_) => None,
        TermNode::Use(_, _) => None,
        TermNode::Standard(_, _) => None,
        TermNode::Parenthesized(_) => None,
        TermNode::Scoped(_, _) => None,
        TermNode::All(_) => None,
        TermNode::Any(_) => None,
        TermNode::Prefix(_, _) => None,
        TermNode::Infix(_, _, _) => None,
        TermNode::Postfix(_, _, _) => None,
        TermNode::SetOf(_) => None,
        TermNode::Filter(_, _) => None,
        TermNode::Map(_, _) => None,
        TermNode::Tuple(_) => None,
        TermNode::Function(_, _) => None,
        TermNode::FunctionSet(_, _) => None,
        TermNode::Record(_) => None,
        TermNode::RecordSet(_) => None,
        TermNode::Except(_, _) => None,
        TermNode::Quantified(_, _, _) => None,
        TermNode::Choose(_, _) => None,
        TermNode::If(_, _, _) => None,
        TermNode::Case(_, None) => None,
        TermNode::Case(_, Some(_)) => None,
        TermNode::BoxAction(_, _) => None,
        TermNode::AngleAction(_, _) => None,
        TermNode::Fairness(_, _) => None,
    }
}

/// The variable before the prime of a term that is one with a prime.
fn primed_in(node: &TermNode) -> Option<u16>
    ensures { (at : Place) (l : Level) → result ≡ target which.Action (Placed at l (node_view node.now)) }
{
    match node {
        TermNode::Postfix(base, steps, last) => primed_alone(base, steps, last),
        TermNode::Known(_) => None,
        TermNode::Named(_) => None,
        TermNode::Variable(_) => None,
        TermNode::Slot(_) => None,
        TermNode::Use(_, _) => None,
        TermNode::Standard(_, _) => None,
        TermNode::Parenthesized(_) => None,
        TermNode::Scoped(_, _) => None,
        TermNode::All(_) => None,
        TermNode::Any(_) => None,
        TermNode::Prefix(_, _) => None,
        TermNode::Infix(_, _, _) => None,
        TermNode::SetOf(_) => None,
        TermNode::Filter(_, _) => None,
        TermNode::Map(_, _) => None,
        TermNode::Tuple(_) => None,
        TermNode::Function(_, _) => None,
        TermNode::FunctionSet(_, _) => None,
        TermNode::Record(_) => None,
        TermNode::RecordSet(_) => None,
        TermNode::Except(_, _) => None,
        TermNode::Quantified(_, _, _) => None,
        TermNode::Choose(_, _) => None,
        TermNode::If(_, _, _) => None,
        TermNode::Case(_, None) => None,
        TermNode::Case(_, Some(_)) => None,
        TermNode::BoxAction(_, _) => None,
        TermNode::AngleAction(_, _) => None,
        TermNode::Fairness(_, _) => None,
    }
}

fn primed_alone(base: &Term, steps: &Steps, last: &Step) -> Option<u16>
    ensures { (at : Place) (l : Level) → result ≡ target which.Action (Placed at l (Postfix base.now steps.now (step_view last.now))) }
{
    match last {
        Step::Prime => {
            if steps.is_empty() {
                return variable_in(&*base.node);
            }
            None
        }
        Step::Index(_) => None,
        Step::Field(_) => None,
    }
}

/// The variable of whose value an equation or a membership with this left side speaks.
fn target(which: Which, term: &Term) -> Option<u16>
    ensures { result ≡ target which term.now }
{
    match which {
        Which::Init => variable_in(&*term.node),
        Which::Action => primed_in(&*term.node),
    }
}

fn infix_kind<'a>(
    which: Which,
    operator: InfixOperator,
    operands: &'a Operands,
    value: &'a Term,
) -> Kind<'a>
    ensures { IsKind which (Infix operator operands.now value.now) result }
{
    if !is_equation(operator) {
        return Kind::Test;
    }
    let (first, others) = operands.parts();
    if !others.is_empty() {
        return Kind::Test;
    }
    match target(which, first) {
        Some(variable) => Kind::Given(operator, variable, first, value),
        None => Kind::Test,
    }
}

fn prefix_kind<'a>(operator: PrefixOperator, term: &'a Term) -> Kind<'a>
    ensures { (w : Which) → IsKind w (Prefix operator term.now) result }
{
    match operator {
        PrefixOperator::Unchanged => Kind::Unchanged(term),
        PrefixOperator::Not
        | PrefixOperator::Enabled
        | PrefixOperator::Always
        | PrefixOperator::Eventually
        | PrefixOperator::Powerset
        | PrefixOperator::BigUnion
        | PrefixOperator::Domain
        | PrefixOperator::Negate => Kind::Test,
    }
}

fn quantified_kind<'a>(quantifier: Quantifier, bounds: &'a Bounds, body: &'a Term) -> Kind<'a>
    ensures { (w : Which) → IsKind w (Quantified quantifier bounds.now body.now) result }
{
    match quantifier {
        Quantifier::Exists => Kind::Exists(bounds, body),
        Quantifier::ForAll => Kind::Test,
    }
}

/// How a term is taken apart.
pub fn kind_of(which: Which, node: &TermNode) -> Kind<'_>
    ensures { IsKind which (node_view node.now) result }
{
    match node {
        TermNode::All(terms) => Kind::Both(terms),
        TermNode::Any(terms) => Kind::OneOf(terms),
        TermNode::Quantified(quantifier, bounds, body) => {
            quantified_kind(*quantifier, bounds, body)
        }
        TermNode::If(test, then, other) => Kind::Branch(test, then, other),
        TermNode::Case(arms, None) => Kind::Case(arms),
        TermNode::Case(arms, Some(other)) => Kind::CaseOther(arms, other),
        TermNode::Scoped(definitions, inner) => Kind::Scoped(definitions, inner),
        TermNode::Parenthesized(inner) => Kind::Parenthesized(inner),
        TermNode::Use(number, terms) => Kind::Call(number.0, terms),
        TermNode::BoxAction(action, subscript) => Kind::BoxAction(action, subscript),
        TermNode::AngleAction(action, subscript) => Kind::AngleAction(action, subscript),
        TermNode::Prefix(operator, term) => prefix_kind(*operator, term),
        TermNode::Infix(operator, operands, value) => {
            infix_kind(which, *operator, operands, value)
        }
        TermNode::Known(_) => Kind::Test,
        TermNode::Named(_) => Kind::Test,
        TermNode::Variable(_) => Kind::Test,
        TermNode::Slot(_) => Kind::Test,
        TermNode::Standard(_, _) => Kind::Test,
        TermNode::Postfix(_, _, _) => Kind::Test,
        TermNode::SetOf(_) => Kind::Test,
        TermNode::Filter(_, _) => Kind::Test,
        TermNode::Map(_, _) => Kind::Test,
        TermNode::Tuple(_) => Kind::Test,
        TermNode::Function(_, _) => Kind::Test,
        TermNode::FunctionSet(_, _) => Kind::Test,
        TermNode::Record(_) => Kind::Test,
        TermNode::RecordSet(_) => Kind::Test,
        TermNode::Except(_, _) => Kind::Test,
        TermNode::Choose(_, _) => Kind::Test,
        TermNode::Fairness(_, _) => Kind::Test,
    }
}

/// The parts of an IF that is taken apart.
pub fn split_of(which: Which, term: &Term) -> Option<Split<'_>>
    ensures { IsSplit which term.now result }
{
    if !is_taken(which, term.level) {
        return None;
    }
    match &*term.node {
        TermNode::If(test, then, other) => Some(Split { test, then, other }),
        TermNode::Known(_) => None,
        TermNode::Named(_) => None,
        TermNode::Variable(_) => None,
        TermNode::Slot(_) => None,
        TermNode::Use(_, _) => None,
        TermNode::Standard(_, _) => None,
        TermNode::Parenthesized(_) => None,
        TermNode::Scoped(_, _) => None,
        TermNode::All(_) => None,
        TermNode::Any(_) => None,
        TermNode::Prefix(_, _) => None,
        TermNode::Infix(_, _, _) => None,
        TermNode::Postfix(_, _, _) => None,
        TermNode::SetOf(_) => None,
        TermNode::Filter(_, _) => None,
        TermNode::Map(_, _) => None,
        TermNode::Tuple(_) => None,
        TermNode::Function(_, _) => None,
        TermNode::FunctionSet(_, _) => None,
        TermNode::Record(_) => None,
        TermNode::RecordSet(_) => None,
        TermNode::Except(_, _) => None,
        TermNode::Quantified(_, _, _) => None,
        TermNode::Choose(_, _) => None,
        TermNode::Case(_, None) => None,
        TermNode::Case(_, Some(_)) => None,
        TermNode::BoxAction(_, _) => None,
        TermNode::AngleAction(_, _) => None,
        TermNode::Fairness(_, _) => None,
    }
}

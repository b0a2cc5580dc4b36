//! Which form a term has as an action.

ghost use Rattle.std.specs.Prelude.{◌≡◌, ◌≤◌, ℕ, MatchOption, Some, length, option_copied, option_map};
ghost use Rattle.actions_meanings.specs.Forms.{form, infix_form, is_taken, meaning_form, target, unchanged_form};
ghost use Rattle.eval_meanings.specs.Unchanged.{behind};
ghost use Rattle.names_terms.specs.Terms.{First, Infix, Prefix, place_of};
ghost use Rattle.names_terms.specs.TermViews.{node_view};
ghost use Rattle.names_terms.specs.declared.level.Level.TheVariants.{State};
ghost use Rattle.base_core.specs.declared.place.Place.{Place};
ghost use Rattle.eval_parts.specs.Following.{followed};
ghost use Rattle.eval_parts.specs.Scenes.{HasMore};
ghost use Rattle.actions_rows.specs.Rows.{form_of, part_term, primed_variable_of, setting, variable_of};

use crate::part::Part;
use crate::stage::Stage;
use actions_meanings::Which;
use names_terms::{
    Arms, Bounds, DefId, Level, Operands, Operator, Operators, Step, Term, TermNode, Terms,
};
use reading_trees::{InfixOperator, PrefixOperator, Quantifier};
use states_core::VarId;

/// The form of a term as an action, with its parts.
#[derive(Clone, Copy, Drop)]
pub enum Row<'a> {
    /// It holds where its value is true.
    Test,
    /// The variable has the value of the term.
    Assign(VarId, &'a Term),
    /// The variable keeps its value.
    Keep(VarId),
    /// The variable has a member of the set that the term means.
    Choose(VarId, &'a Term),
    /// All of them hold.
    Both(&'a Terms),
    /// Each of them is unchanged, where so many slots are in scope.
    Unchanged(usize, &'a Terms),
    /// One of them holds.
    Either(&'a Terms),
    /// `[A]_v`.
    Boxed(&'a Term, &'a Term),
    /// `<<A>>_v`.
    Angled(&'a Term, &'a Term),
    /// The term holds for some values of the bound names.
    Exists(&'a Bounds, &'a Term),
    /// The second holds where the first is true, and the third where it is false.
    Branch(&'a Term, &'a Term, &'a Term),
    /// What stands behind the first test that is true holds, or the last.
    Case(&'a Arms, Option<&'a Term>),
    /// The term holds.
    Inside(&'a Term),
    /// The definition holds of the arguments.
    Call(DefId, &'a Terms),
}

/// The form of a part, where so many slots are in scope.
pub fn row_of<'a>(stage: Stage<'a>, slots: usize, part: Part<'a>) -> Row<'a>
    ensures { form_of (place_of (part_term part.entry)) result ≡ form (setting stage.entry) slots (part_term part.entry) }
{
    match part {
        Part::Plain(term) => term_row(stage, slots, term),
        Part::Unchanged(_, term) => unchanged_row(stage, slots, term),
    }
}

/// The form of a term of the text.
fn term_row<'a>(stage: Stage<'a>, slots: usize, term: &'a Term) -> Row<'a>
    ensures { form_of (place_of term.now) result ≡ form (setting stage.entry) slots term.now }
{
    if is_taken(stage.which, term.level) {
        return node_row(stage, slots, &*term.node);
    }
    Row::Test
}

/// Whether terms of that level are taken apart.
fn is_taken(which: Which, level: Level) -> bool
    ensures { result ≡ is_taken which level }
{
    match level {
        Level::Constant => false,
        Level::State => is_init(which),
        Level::Action => true,
        Level::Temporal => false,
    }
}

/// Whether a predicate of first states is taken apart, which takes apart terms of level 1 too.
fn is_init(which: Which) -> bool
    ensures { result ≡ is_taken which State }
{
    match which {
        Which::Init => true,
        Which::Action => false,
    }
}

/// The form of a term with this meaning that is taken apart.
fn node_row<'a>(stage: Stage<'a>, slots: usize, node: &'a TermNode) -> Row<'a>
    ensures { (at : Place) → form_of at result ≡ meaning_form (setting stage.entry) slots at (node_view node.now) }
{
    match node {
        TermNode::All(terms) => Row::Both(terms),
        TermNode::Any(terms) => Row::Either(terms),
        TermNode::Quantified(Quantifier::Exists, bounds, body) => Row::Exists(bounds, body),
        TermNode::Quantified(Quantifier::ForAll, _, _) => Row::Test,
        TermNode::If(test, holds, other) => Row::Branch(test, holds, other),
        TermNode::Case(arms, None) => Row::Case(arms, None),
        TermNode::Case(arms, Some(other)) => Row::Case(arms, Some(other)),
        TermNode::Scoped(_, inner) => Row::Inside(inner),
        TermNode::Parenthesized(inner) => Row::Inside(inner),
        TermNode::Use(number, arguments) => Row::Call(*number, arguments),
        TermNode::BoxAction(action, subscript) => Row::Boxed(action, subscript),
        TermNode::AngleAction(action, subscript) => Row::Angled(action, subscript),
        TermNode::Prefix(operator, operand) => prefix_row(stage, slots, *operator, operand),
        TermNode::Infix(operator, operands, last) => { infix_row(stage, *operator, operands, last) }
        TermNode::Known(_) => Row::Test,
        TermNode::Named(_) => Row::Test,
        TermNode::Variable(_) => Row::Test,
        TermNode::Slot(_) => Row::Test,
        TermNode::Standard(_, _) => Row::Test,
        TermNode::Postfix(_, _, _) => Row::Test,
        TermNode::SetOf(_) => Row::Test,
        TermNode::Filter(_, _) => Row::Test,
        TermNode::Map(_, _) => Row::Test,
        TermNode::Tuple(_) => Row::Test,
        TermNode::Function(_, _) => Row::Test,
        TermNode::FunctionSet(_, _) => Row::Test,
        TermNode::Record(_) => Row::Test,
        TermNode::RecordSet(_) => Row::Test,
        TermNode::Except(_, _) => Row::Test,
        TermNode::Choose(_, _) => Row::Test,
        TermNode::Fairness(_, _) => Row::Test,
    }
}

/// A prefix operator: UNCHANGED is taken apart.
fn prefix_row<'a>(
    stage: Stage<'a>,
    slots: usize,
    operator: PrefixOperator,
    operand: &'a Term,
) -> Row<'a>
    ensures { (at : Place) → form_of at result ≡ meaning_form (setting stage.entry) slots at (Prefix operator operand.now) }
{
    match operator {
        PrefixOperator::Unchanged => unchanged_row(stage, slots, operand),
        _ => Row::Test,
    }
}

/// UNCHANGED of a term, by what stands behind it.
fn unchanged_row<'a>(stage: Stage<'a>, slots: usize, term: &'a Term) -> Row<'a>
    ensures { (at : Place) → form_of at result ≡ unchanged_form at (behind (setting stage.entry).table (length (setting stage.entry).table) slots term.now) }
{
    let (kept, found) = behind(stage.operators, slots, term);
    match &*found.node {
        TermNode::Variable(number) => Row::Keep(*number),
        TermNode::Tuple(terms) => Row::Unchanged(kept, terms),
        _ => Row::Test,
    }
}

/// What stands behind a name of level 1 without arguments, and how many of the slots in scope are in scope there.
pub fn behind<'a>(operators: &'a Operators, slots: usize, term: &'a Term) -> (usize, &'a Term)
    ensures found { (result.0, result.1.now) ≡ behind operators.now (length operators.now) slots term.now }
    ensures kept { result.0 ≤ slots }
{
    let mut kept = slots;
    let mut found = term;
    for _ in 0..operators.len() {
        match followed(operators, found) {
            Some(operator) => {
                kept = kept.min(operator.outer);
                found = &operator.body;
            }
            None => return (kept, found),
        }
    }
    (kept, found)
}

/// The definition that a name of level 1 without arguments stands for, if the term is such a name.
fn followed<'a>(operators: &'a Operators, term: &Term) -> Option<&'a Operator>
    ensures { option_copied result ≡ followed operators.now term.now }
{
    if term.level != Level::State {
        return None;
    }
    match &*term.node {
        TermNode::Use(number, arguments) => {
            if arguments.len() > 0 {
                return None;
            }
            operators.get(number.0)
        }
        _ => None,
    }
}

/// An infix operator on two operands: an equation and a membership say the value of the variable on their left side, if one stands there.
fn infix_row<'a>(
    stage: Stage<'a>,
    operator: InfixOperator,
    operands: &'a Operands,
    last: &'a Term,
) -> Row<'a>
    ensures { (slots : ℕ) (at : Place) → form_of at result ≡ meaning_form (setting stage.entry) slots at (Infix operator operands.now last.now) }
{
    match only(operands) {
        Some(first) => pair_row(stage, operator, first, last),
        None => Row::Test,
    }
}

/// The one operand before the last, if there is just one.
fn only(operands: &Operands) -> Option<&Term>
    ensures { MatchOption result (HasMore operands.now) (λ a. operands.now ≡ First a.now) }
{
    let (first, others) = operands.parts();
    if others.len() == 0 {
        return Some(first);
    }
    None
}

fn pair_row<'a>(stage: Stage<'a>, operator: InfixOperator, first: &Term, last: &'a Term) -> Row<'a>
    ensures { (at : Place) → form_of at result ≡ infix_form operator (target stage.entry.which first.now) last.now }
{
    match target(stage.which, first) {
        Some(number) => target_row(operator, number, last),
        None => Row::Test,
    }
}

/// What the operator says of the variable on its left side.
fn target_row<'a>(operator: InfixOperator, number: VarId, last: &'a Term) -> Row<'a>
    ensures { (at : Place) → form_of at result ≡ infix_form operator (Some number.0) last.now }
{
    match operator {
        InfixOperator::Equal => Row::Assign(number, last),
        InfixOperator::Member => Row::Choose(number, last),
        _ => Row::Test,
    }
}

/// The variable of whose value an equation or a membership with this left side speaks: in Init a variable, in an action a primed one.
fn target(which: Which, term: &Term) -> Option<VarId>
    ensures { option_map (λ x. x.0) result ≡ target which term.now }
{
    match which {
        Which::Init => named(&*term.node),
        Which::Action => primed(&*term.node),
    }
}

/// The variable that a term is.
fn named(node: &TermNode) -> Option<VarId>
    ensures { option_map (λ x. x.0) result ≡ variable_of (node_view node.now) }
{
    match node {
        TermNode::Variable(number) => Some(*number),
        _ => None,
    }
}

/// The variable that stands before a prime, if it is all that does.
fn primed(node: &TermNode) -> Option<VarId>
    ensures { option_map (λ x. x.0) result ≡ primed_variable_of (node_view node.now) }
{
    match node {
        TermNode::Postfix(base, steps, last) => {
            if !steps.is_empty() {
                return None;
            }
            match last {
                Step::Prime => named(&*base.node),
                _ => None,
            }
        }
        _ => None,
    }
}

//! What terms leave fixed, row by row.

ghost use Rattle.std.specs.Prelude.{◌≡◌, ◌<◌, MatchResult, OnOk};
ghost use Rattle.base_core.specs.declared.place.Place.{Place};
ghost use Rattle.reading_trees.specs.declared.operators.Quantifier.TheVariants as quantifier;
ghost use Rattle.names_terms.specs.Lists.{terms_list};
ghost use Rattle.names_terms.specs.Terms.{All, AngleAction, Any, BoxAction, Case, CaseOther, If, Quantified, Use};
ghost use Rattle.actions_forms.specs.Endings.{Remembers};
ghost use Rattle.actions_forms.specs.Says.{ArmsStop, CaseStops, ForkStops, IsFork, SaysAnywhere, SaysAt, SaysBody, SaysClosed, SaysFixed, TellsArms, TellsCase};
ghost use Rattle.actions_early_reads.specs.Sets.{shown};

use crate::arms::{Arm, boxed, push_arm, together, together_with};
use crate::checks::{given, tested, unless_early, unless_primed, unless_sets, unless_terms};
use crate::endings::Endings;
use crate::forks::{Fork, closed, first_fork, push_fork};
use crate::keeping::unchanged;
use crate::kinds::{Kind, kind_of, split_of};
use actions_early_reads::{Walk, is_taken};
use actions_meanings::FormFault;
use base_core::Place;
use names_terms::{Arms, Bounds, Term, Terms};
use states_core::VarSet;

/// What a term leaves fixed that uses definitions below a bound alone, where these are fixed before.
#[cycle(fixed)]
pub fn fixed_in<'a>(
    walk: &Walk<'a>,
    endings: &mut Endings,
    bound: usize,
    term: &'a Term,
    before: VarSet,
) -> Result<VarSet, FormFault>
    requires known { Remembers walk.now endings.old }
    ensures says { SaysFixed walk.now bound (shown before) term.now result }
    ensures known { OnOk result (Remembers walk.now endings.new) }
{
    if !is_taken(walk.which, term.level) {
        return tested(walk, bound, term, before);
    }
    match kind_of(walk.which, &*term.node) {
        Kind::Test => tested(walk, bound, term, before),
        Kind::Given(operator, variable, left, value) => given(walk, bound, variable, value, before),
        Kind::Both(terms) => in_order(walk, endings, bound, terms, before),
        Kind::OneOf(terms) => one_of(walk, endings, bound, terms, before),
        Kind::Exists(bounds, body) => exists(walk, endings, bound, bounds, body, before),
        Kind::Branch(test, then, other) => conditional(
            walk, endings, bound, test, then, other, before,
        ),
        Kind::Case(arms) => case(walk, endings, bound, arms, before),
        Kind::CaseOther(arms, other) => case_other(walk, endings, bound, arms, other, before),
        Kind::Scoped(definitions, inner) => fixed_in(walk, endings, bound, inner, before),
        Kind::Parenthesized(inner) => fixed_in(walk, endings, bound, inner, before),
        Kind::Call(number, terms) => call(walk, endings, bound, number, terms, before),
        Kind::BoxAction(action, subscript) => {
            box_action(walk, endings, bound, term.at, action, subscript, before)
        }
        Kind::AngleAction(action, subscript) => {
            angle_action(walk, endings, bound, term.at, action, subscript, before)
        }
        Kind::Unchanged(inner) => unchanged(walk, bound, term.at, inner, before),
    }
}

/// Terms that must all hold, from left to right.
#[cycle(fixed)]
fn in_order<'a>(
    walk: &Walk<'a>,
    endings: &mut Endings,
    bound: usize,
    terms: &'a Terms,
    before: VarSet,
) -> Result<VarSet, FormFault>
    requires known { Remembers walk.now endings.old }
    ensures says { SaysAnywhere walk.now bound (shown before) (All terms.now) result }
    ensures known { OnOk result (Remembers walk.now endings.new) }
{
    let mut set = before;
    let items = terms.items();
    for item in items {
        match fixed_in(walk, endings, bound, item, set) {
            Ok(more) => set = more,
            Err(fault) => return Err(fault),
        }
    }
    Ok(set)
}

/// Terms of which one must hold.
#[cycle(fixed)]
fn one_of<'a>(
    walk: &Walk<'a>,
    endings: &mut Endings,
    bound: usize,
    terms: &'a Terms,
    before: VarSet,
) -> Result<VarSet, FormFault>
    requires known { Remembers walk.now endings.old }
    ensures says { SaysAnywhere walk.now bound (shown before) (Any terms.now) result }
    ensures known { OnOk result (Remembers walk.now endings.new) }
{
    match arms_of(walk, endings, bound, terms, before) {
        Ok(arms) => together(before, &arms, walk.variables),
        Err(fault) => Err(fault),
    }
}

/// What each of the terms leaves fixed, from the same set.
#[cycle(fixed)]
fn arms_of<'a>(
    walk: &Walk<'a>,
    endings: &mut Endings,
    bound: usize,
    terms: &'a Terms,
    before: VarSet,
) -> Result<Vec<Arm>, FormFault>
    requires known { Remembers walk.now endings.old }
    ensures says { MatchResult result (λ v. TellsArms walk.now bound (shown before) (terms_list terms.now) v.items) (ArmsStop walk.now bound (shown before) (terms_list terms.now)) }
    ensures known { OnOk result (Remembers walk.now endings.new) }
{
    let mut arms = Vec::new(walk.alloc);
    let items = terms.items();
    for item in items {
        match fixed_in(walk, endings, bound, item, before) {
            Ok(set) => push_arm(&mut arms, item, set)?,
            Err(fault) => return Err(fault),
        }
    }
    Ok(arms)
}

/// A term for some values of bound names.
#[cycle(fixed)]
fn exists<'a>(
    walk: &Walk<'a>,
    endings: &mut Endings,
    bound: usize,
    bounds: &'a Bounds,
    body: &'a Term,
    before: VarSet,
) -> Result<VarSet, FormFault>
    requires known { Remembers walk.now endings.old }
    ensures says { SaysAnywhere walk.now bound (shown before) (Quantified quantifier.Exists bounds.now body.now) result }
    ensures known { OnOk result (Remembers walk.now endings.new) }
{
    match unless_sets(walk, bound, bounds, before) {
        Ok(()) => fixed_in(walk, endings, bound, body, before),
        Err(fault) => Err(fault),
    }
}

/// IF, and each IF that is the other arm of the one before it.
#[cycle(fixed)]
fn conditional<'a>(
    walk: &Walk<'a>,
    endings: &mut Endings,
    bound: usize,
    test: &'a Term,
    then: &'a Term,
    other: &'a Term,
    before: VarSet,
) -> Result<VarSet, FormFault>
    requires known { Remembers walk.now endings.old }
    ensures says { SaysAnywhere walk.now bound (shown before) (If test.now then.now other.now) result }
    ensures known { OnOk result (Remembers walk.now endings.new) }
{
    let first = fork(walk, endings, bound, test, then, other, before)?;
    let mut forks = first_fork(walk.alloc, first)?;
    let mut last = other;
    while let Some(inner) = split_of(walk.which, last) {
        match fork(
            walk,
            endings,
            bound,
            inner.test,
            inner.then,
            inner.other,
            before,
        ) {
            Ok(next) => {
                push_fork(&mut forks, next)?;
                last = inner.other;
            }
            Err(fault) => return Err(fault),
        }
    }
    last_arm(walk, endings, bound, forks, last, before)
}

/// The last of the other arms.
#[cycle(fixed)]
fn last_arm<'a>(
    walk: &Walk<'a>,
    endings: &mut Endings,
    bound: usize,
    forks: Vec<Fork>,
    last: &'a Term,
    before: VarSet,
) -> Result<VarSet, FormFault>
    requires known { Remembers walk.now endings.old }
    ensures says { SaysClosed walk.now bound (shown before) forks.items last.now result }
    ensures known { OnOk result (Remembers walk.now endings.new) }
{
    match fixed_in(walk, endings, bound, last, before) {
        Ok(set) => closed(walk.variables, before, forks, set),
        Err(fault) => Err(fault),
    }
}

/// The test of an IF, and its first arm.
#[cycle(fixed)]
fn fork<'a>(
    walk: &Walk<'a>,
    endings: &mut Endings,
    bound: usize,
    test: &'a Term,
    then: &'a Term,
    other: &'a Term,
    before: VarSet,
) -> Result<Fork, FormFault>
    requires known { Remembers walk.now endings.old }
    ensures says { MatchResult result (IsFork walk.now bound (shown before) test.now then.now other.now) (ForkStops walk.now bound (shown before) test.now then.now other.now) }
    ensures known { OnOk result (Remembers walk.now endings.new) }
{
    match unless_early(walk, bound, test, before) {
        Ok(()) => match fixed_in(walk, endings, bound, then, before) {
            Ok(set) => Ok(Fork {
                at: then.at,
                set,
                other: other.at,
            }),
            Err(fault) => Err(fault),
        },
        Err(fault) => Err(fault),
    }
}

/// CASE without OTHER.
#[cycle(fixed)]
fn case<'a>(
    walk: &Walk<'a>,
    endings: &mut Endings,
    bound: usize,
    arms: &'a Arms,
    before: VarSet,
) -> Result<VarSet, FormFault>
    requires known { Remembers walk.now endings.old }
    ensures says { SaysAnywhere walk.now bound (shown before) (Case arms.now) result }
    ensures known { OnOk result (Remembers walk.now endings.new) }
{
    match case_arms(walk, endings, bound, arms, before) {
        Ok(ended) => together(before, &ended, walk.variables),
        Err(fault) => Err(fault),
    }
}

/// CASE with OTHER.
#[cycle(fixed)]
fn case_other<'a>(
    walk: &Walk<'a>,
    endings: &mut Endings,
    bound: usize,
    arms: &'a Arms,
    other: &'a Term,
    before: VarSet,
) -> Result<VarSet, FormFault>
    requires known { Remembers walk.now endings.old }
    ensures says { SaysAnywhere walk.now bound (shown before) (CaseOther arms.now other.now) result }
    ensures known { OnOk result (Remembers walk.now endings.new) }
{
    match case_arms(walk, endings, bound, arms, before) {
        Ok(ended) => match fixed_in(walk, endings, bound, other, before) {
            Ok(set) => together_with(before, ended, other, set, walk.variables),
            Err(fault) => Err(fault),
        },
        Err(fault) => Err(fault),
    }
}

/// The arms of a CASE before its OTHER.
#[cycle(fixed)]
fn case_arms<'a>(
    walk: &Walk<'a>,
    endings: &mut Endings,
    bound: usize,
    arms: &'a Arms,
    before: VarSet,
) -> Result<Vec<Arm>, FormFault>
    requires known { Remembers walk.now endings.old }
    ensures says { MatchResult result (λ v. TellsCase walk.now bound (shown before) arms.now v.items) (CaseStops walk.now bound (shown before) arms.now) }
    ensures known { OnOk result (Remembers walk.now endings.new) }
{
    let mut ended = Vec::new(walk.alloc);
    let items = arms.items();
    for arm in items {
        match unless_early(walk, bound, &arm.test, before) {
            Ok(()) => match fixed_in(walk, endings, bound, &arm.value, before) {
                Ok(set) => push_arm(&mut ended, &arm.value, set)?,
                Err(fault) => return Err(fault),
            },
            Err(fault) => return Err(fault),
        }
    }
    Ok(ended)
}

/// A definition on arguments.
#[cycle(fixed)]
fn call<'a>(
    walk: &Walk<'a>,
    endings: &mut Endings,
    bound: usize,
    number: usize,
    terms: &'a Terms,
    before: VarSet,
) -> Result<VarSet, FormFault>
    requires known { Remembers walk.now endings.old }
    ensures says { SaysAnywhere walk.now bound (shown before) (Use number terms.now) result }
    ensures known { OnOk result (Remembers walk.now endings.new) }
{
    match unless_terms(walk, bound, terms, before) {
        Ok(()) => body(walk, endings, bound, number, before),
        Err(fault) => Err(fault),
    }
}

/// The body of a definition, which is walked once alone from each set.
#[cycle(fixed)]
fn body<'a>(
    walk: &Walk<'a>,
    endings: &mut Endings,
    bound: usize,
    number: usize,
    before: VarSet,
) -> Result<VarSet, FormFault>
    requires known { Remembers walk.now endings.old }
    ensures says { SaysBody walk.now bound (shown before) number result }
    ensures known { OnOk result (Remembers walk.now endings.new) }
{
    if number >= bound {
        return Ok(before);
    }
    match endings.after(number, before) {
        Some(set) => Ok(set),
        None => unknown_body(walk, endings, bound, number, before),
    }
}

/// The body of a definition that was not walked from that set.
#[cycle(fixed)]
fn unknown_body<'a>(
    walk: &Walk<'a>,
    endings: &mut Endings,
    bound: usize,
    number: usize,
    before: VarSet,
) -> Result<VarSet, FormFault>
    requires below { number < bound }
    requires known { Remembers walk.now endings.old }
    ensures says { SaysBody walk.now bound (shown before) number result }
    ensures known { OnOk result (Remembers walk.now endings.new) }
{
    match walk.operators.get(number) {
        Some(operator) => match fixed_in(walk, endings, number, &operator.body, before) {
            Ok(after) => endings.noted(number, before, after),
            Err(fault) => Err(fault),
        },
        None => Ok(before),
    }
}

/// `[A]_v`: the action, or that the subscript is UNCHANGED.
#[cycle(fixed)]
fn box_action<'a>(
    walk: &Walk<'a>,
    endings: &mut Endings,
    bound: usize,
    at: Place,
    action: &'a Term,
    subscript: &'a Term,
    before: VarSet,
) -> Result<VarSet, FormFault>
    requires known { Remembers walk.now endings.old }
    ensures says { SaysAt walk.now bound (shown before) at (BoxAction action.now subscript.now) result }
    ensures known { OnOk result (Remembers walk.now endings.new) }
{
    match fixed_in(walk, endings, bound, action, before) {
        Ok(set) => match unchanged(walk, bound, at, subscript, before) {
            Ok(same) => boxed(before, action, set, at, same, walk.variables),
            Err(fault) => Err(fault),
        },
        Err(fault) => Err(fault),
    }
}

/// `<<A>>_v`: the action, and that the subscript changes.
#[cycle(fixed)]
fn angle_action<'a>(
    walk: &Walk<'a>,
    endings: &mut Endings,
    bound: usize,
    at: Place,
    action: &'a Term,
    subscript: &'a Term,
    before: VarSet,
) -> Result<VarSet, FormFault>
    requires known { Remembers walk.now endings.old }
    ensures says { SaysAt walk.now bound (shown before) at (AngleAction action.now subscript.now) result }
    ensures known { OnOk result (Remembers walk.now endings.new) }
{
    match fixed_in(walk, endings, bound, action, before) {
        Ok(set) => match unless_primed(walk, at, subscript, set) {
            Ok(()) => Ok(set),
            Err(fault) => Err(fault),
        },
        Err(fault) => Err(fault),
    }
}

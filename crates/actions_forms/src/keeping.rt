//! UNCHANGED.

ghost use Rattle.std.specs.Prelude.{OnOk, MatchOption};
ghost use Rattle.names_terms.specs.Lists.{terms_list};
ghost use Rattle.actions_forms.specs.Endings.{RemembersKept};
ghost use Rattle.actions_forms.specs.Naming.{IsNamed};
ghost use Rattle.actions_forms.specs.Says.{SaysItems, SaysStays};
ghost use Rattle.actions_early_reads.specs.Follow.{IsBehind, IsBody};
ghost use Rattle.actions_early_reads.specs.Ready.{table_of};
ghost use Rattle.actions_early_reads.specs.Sets.{shown};

use crate::checks::{kept, still};
use crate::endings::Endings;
use actions_early_reads::{Shape, Walk, shape_of};
use actions_meanings::FormFault;
use base_core::Place;
use names_terms::{Level, Term, TermNode, Terms};
use states_core::VarSet;

/// The definition of level 1 without arguments that a term names, if it is below a bound.
fn named(bound: usize, term: &Term) -> Option<usize>
    ensures { IsBody bound term.now result }
{
    match term.level {
        Level::State => match &*term.node {
            TermNode::Use(number, terms) => {
                if terms.is_empty() && number.0 < bound {
                    return Some(number.0);
                }
                None
            }
            _ => None,
        },
        Level::Constant | Level::Action | Level::Temporal => None,
    }
}

/// The definition whose body stands behind a name, by way of as many names as there are.
fn last_named(walk: &Walk, bound: usize, term: &Term) -> Option<usize>
    ensures { MatchOption result (IsBehind (table_of walk.now) bound term.now bound term.now) (IsNamed (table_of walk.now) bound term.now) }
{
    match named(bound, term) {
        Some(number) => match walk.operators.get(number) {
            Some(operator) => match last_named(walk, number, &operator.body) {
                Some(last) => Some(last),
                None => Some(number),
            },
            None => None,
        },
        None => None,
    }
}

/// A term that is UNCHANGED at a place: a variable that is fixed then, a tuple of such terms, or one test.
pub fn unchanged<'a>(
    walk: &Walk<'a>,
    bound: usize,
    at: Place,
    term: &'a Term,
    before: VarSet,
) -> Result<VarSet, FormFault>
    ensures { SaysStays walk.now bound (shown before) at term.now result }
{
    let mut endings = Endings::new(walk.alloc);
    unchanged_in(walk, &mut endings, bound, at, term, before)
}

/// The same, where some is known of the tuples that names stand for.
#[cycle(keeping)]
fn unchanged_in<'a>(
    walk: &Walk<'a>,
    endings: &mut Endings,
    bound: usize,
    at: Place,
    term: &'a Term,
    before: VarSet,
) -> Result<VarSet, FormFault>
    requires known { RemembersKept walk.now at endings.old }
    ensures says { SaysStays walk.now bound (shown before) at term.now result }
    ensures known { OnOk result (RemembersKept walk.now at endings.new) }
{
    match last_named(walk, bound, term) {
        Some(number) => match endings.after(number, before) {
            Some(set) => Ok(set),
            None => unchanged_name(walk, endings, bound, number, at, term, before),
        },
        None => unchanged_term(walk, endings, bound, at, term, before),
    }
}

/// A name, by the body of the definition that stands behind it. What a tuple leaves fixed is noted.
#[cycle(keeping)]
fn unchanged_name<'a>(
    walk: &Walk<'a>,
    endings: &mut Endings,
    bound: usize,
    number: usize,
    at: Place,
    term: &'a Term,
    before: VarSet,
) -> Result<VarSet, FormFault>
    requires named { IsNamed (table_of walk.now) bound term.now number }
    requires known { RemembersKept walk.now at endings.old }
    ensures says { SaysStays walk.now bound (shown before) at term.now result }
    ensures known { OnOk result (RemembersKept walk.now at endings.new) }
{
    match walk.operators.get(number) {
        Some(operator) => {
            let found = &operator.body;
            match shape_of(&*found.node) {
                Shape::Variable(variable) => kept(walk.which, at, variable, before),
                Shape::Tuple(terms) => {
                    match unchanged_all(walk, endings, number, at, terms, before) {
                        Ok(after) => endings.noted(number, before, after),
                        Err(fault) => Err(fault),
                    }
                }
                Shape::Other => still(walk, bound, at, term, before),
            }
        }
        None => Ok(before),
    }
}

/// A term that is no name.
#[cycle(keeping)]
fn unchanged_term<'a>(
    walk: &Walk<'a>,
    endings: &mut Endings,
    bound: usize,
    at: Place,
    term: &'a Term,
    before: VarSet,
) -> Result<VarSet, FormFault>
    requires alone { IsBehind (table_of walk.now) bound term.now bound term.now }
    requires known { RemembersKept walk.now at endings.old }
    ensures says { SaysStays walk.now bound (shown before) at term.now result }
    ensures known { OnOk result (RemembersKept walk.now at endings.new) }
{
    match shape_of(&*term.node) {
        Shape::Variable(variable) => kept(walk.which, at, variable, before),
        Shape::Tuple(terms) => unchanged_all(walk, endings, bound, at, terms, before),
        Shape::Other => still(walk, bound, at, term, before),
    }
}

/// The parts of a tuple, from left to right.
#[cycle(keeping)]
fn unchanged_all<'a>(
    walk: &Walk<'a>,
    endings: &mut Endings,
    bound: usize,
    at: Place,
    terms: &'a Terms,
    before: VarSet,
) -> Result<VarSet, FormFault>
    requires known { RemembersKept walk.now at endings.old }
    ensures says { SaysItems walk.now bound (shown before) at terms.now (terms_list terms.now) result }
    ensures known { OnOk result (RemembersKept walk.now at endings.new) }
{
    let mut set = before;
    let items = terms.items();
    for item in items {
        match unchanged_in(walk, endings, bound, at, item, set) {
            Ok(more) => set = more,
            Err(fault) => return Err(fault),
        }
    }
    Ok(set)
}

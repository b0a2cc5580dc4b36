//! The values of bound names: the sets that they are bound over, and one combination of members after another, later names changing faster.

ghost use Rattle.std.specs.Prelude.{◌≡◌, ◌+◌, ◌<◌, ◌≤◌, ◌∷◌, ◌++◌, ◌↔◌, IfErr, IfOk, IsTrue, MatchOption, Ok, OnOk, Some, length, map, slice_get};
ghost use Rattle.eval_meanings.specs.Answers.{Tells};
ghost use Rattle.eval_meanings.specs.Binders.{ranges, times};
ghost use Rattle.eval_meanings.specs.Functions.{KeyOf};
ghost use Rattle.eval_meanings.specs.Outcomes.{Each};
ghost use Rattle.names_terms.specs.Terms.{place_of};
ghost use Rattle.eval_parts.specs.BoundSets.{HasMembers, bound_members, bound_value};
ghost use Rattle.eval_parts.specs.Scenes.{Stops};
ghost use Rattle.eval_parts.specs.Walks.{AllDiffer, AreWithin, at_places, first_places, from_places, left_from};

use crate::scene::first_slots;
use base_core::Place;
use eval_meanings::{EvalFault, expect_set, key_of};
use names_terms::Bound;
use std::alloc::{AllocError, Global};
use values_core::Value;

/// The value of the set of a bound: how many names go over it, and the place of its term.
#[derive(Drop)]
pub struct BoundSet {
    pub names: usize,
    pub at: Place,
    pub value: Value,
}

/// What a bound has for this value of its set.
pub fn bound_set(bound: &Bound, value: Value) -> BoundSet
    ensures { bound_value result ≡ ((bound.now.names, place_of bound.now.set), value) }
{
    BoundSet {
        names: bound.names,
        at: bound.set.at,
        value,
    }
}

/// That each of the values is a set.
pub fn expect_sets(sets: &[BoundSet]) -> Result<(), EvalFault>
    ensures fine { IfOk result (λ _. Each HasMembers (map bound_value sets.now) (Ok (map bound_members sets.now))) }
    ensures fault { IfErr result (Stops (Each HasMembers (map bound_value sets.now))) }
{
    for set in sets {
        match expect_set(&set.value, set.at) {
            Ok(()) => {}
            Err(fault) => return Err(fault),
        }
    }
    Ok(())
}

/// The members of the sets, once for each name.
pub fn member_lists<'a>(alloc: Global, sets: &'a [BoundSet]) -> Result<Vec<&'a [Value]>, AllocError>
    ensures members { IfOk result (λ lists. map (λ l. l.now) lists.items ≡ ranges (map bound_members sets.now)) }
    ensures differ { IfOk result (λ lists. AllDiffer (map (λ l. l.now) lists.items)) }
{
    let mut lists = Vec::new(alloc);
    for set in sets {
        set.value.is_value();
        push_times(&mut lists, set.value.members(), set.names)?;
    }
    Ok(lists)
}

/// Adds a list so many times.
fn push_times<'a>(
    lists: &mut Vec<&'a [Value]>,
    members: &'a [Value],
    count: usize,
) -> Result<(), AllocError>
    ensures { OnOk result (map (λ l. l.now) lists.new.items ≡ map (λ l. l.now) lists.old.items ++ times count members.now) }
{
    for _ in 0..count {
        lists.push(members)?;
    }
    Ok(())
}

/// The first place of each list.
pub fn start(alloc: Global, lists: &[&[Value]]) -> Result<Vec<usize>, AllocError>
    ensures { IfOk result (λ places. places.items ≡ first_places (map (λ l. l.now) lists.now)) }
{
    let mut places = Vec::with_capacity(alloc, lists.len())?;
    for _ in lists {
        places.push(0)?;
    }
    Ok(places)
}

/// Whether there is a combination at all: each list has a member.
pub fn has_combination(lists: &[&[Value]]) -> bool
    ensures { IsTrue result ↔ AreWithin (map (λ l. l.now) lists.now) (first_places (map (λ l. l.now) lists.now)) }
{
    for list in lists {
        if list.len() == 0 {
            return false;
        }
    }
    true
}

/// Goes on to the next combination, if there is one.
pub fn advance(lists: &[&[Value]], places: &mut Vec<usize>) -> bool
    requires { AreWithin (map (λ l. l.now) lists.now) places.old.items }
    ensures left { from_places (map (λ l. l.now) lists.now) places.old.items ≡ at_places (map (λ l. l.now) lists.now) places.old.items ∷ left_from result (map (λ l. l.now) lists.now) places.new.items }
    ensures within { IsTrue result → AreWithin (map (λ l. l.now) lists.now) places.new.items }
{
    next_places(lists, places)
}

/// Goes on to the next places, later ones changing faster; behind the last all are first again.
fn next_places(lists: &[&[Value]], places: &mut [usize]) -> bool
    requires { AreWithin (map (λ l. l.now) lists.now) places.old }
    ensures left { from_places (map (λ l. l.now) lists.now) places.old ≡ at_places (map (λ l. l.now) lists.now) places.old ∷ left_from result (map (λ l. l.now) lists.now) places.new }
    ensures within { IsTrue result → AreWithin (map (λ l. l.now) lists.now) places.new }
{
    let mut index = places.len();
    while index > 0 {
        index -= 1;
        match next_place(lists[index], places[index]) {
            Some(next) => {
                places[index] = next;
                return true;
            }
            None => places[index] = 0,
        }
    }
    false
}

/// The place behind this one, if there is one in the list.
fn next_place(list: &[Value], place: usize) -> Option<usize>
    requires { place < length list.now }
    ensures { MatchOption result (length list.now ≤ place + 1) (λ next. (next ≡ place + 1) × (next < length list.now)) }
{
    let next = place + 1;
    if next < list.len() {
        return Some(next);
    }
    None
}

/// The slots, and behind them the members at the places.
pub fn slots_with<'a>(
    alloc: Global,
    slots: &[&'a Value],
    lists: &[&'a [Value]],
    places: &[usize],
) -> Result<Vec<&'a Value>, AllocError>
    requires { AreWithin (map (λ l. l.now) lists.now) places.now }
    ensures { IfOk result (λ all. map (λ v. v.now) all.items ≡ map (λ v. v.now) slots.now ++ at_places (map (λ l. l.now) lists.now) places.now) }
{
    let mut all = first_slots(alloc, slots, slots.len(), places.len())?;
    push_chosen(&mut all, lists, places)?;
    Ok(all)
}

/// Adds the members at the places.
fn push_chosen<'a>(
    values: &mut Vec<&'a Value>,
    lists: &[&'a [Value]],
    places: &[usize],
) -> Result<(), AllocError>
    requires { AreWithin (map (λ l. l.now) lists.now) places.now }
    ensures { OnOk result (map (λ v. v.now) values.new.items ≡ map (λ v. v.now) values.old.items ++ at_places (map (λ l. l.now) lists.now) places.now) }
{
    for index in 0..lists.len() {
        values.push(member_at(lists[index], places[index]))?;
    }
    Ok(())
}

/// The member at a place.
fn member_at<'a>(list: &'a [Value], place: usize) -> &'a Value
    requires { place < length list.now }
    ensures { slice_get list.now place ≡ Some result.now }
{
    &list[place]
}

/// The key that the members at the places make.
pub fn key_with(
    alloc: Global,
    at: Place,
    lists: &[&[Value]],
    places: &[usize],
) -> Result<Value, EvalFault>
    requires { AreWithin (map (λ l. l.now) lists.now) places.now }
    ensures { Tells result (KeyOf at (at_places (map (λ l. l.now) lists.now) places.now)) }
{
    let mut chosen = Vec::new(alloc);
    push_chosen(&mut chosen, lists, places)?;
    let values = copies(alloc, &chosen)?;
    key_of(alloc, at, values)
}

fn copies(alloc: Global, values: &[&Value]) -> Result<Vec<Value>, AllocError>
    ensures { IfOk result (λ all. all.items ≡ map (λ v. v.now) values.now) }
{
    let mut all = Vec::with_capacity(alloc, values.len())?;
    for value in values {
        let copy = value.copy()?;
        all.push(copy)?;
    }
    Ok(all)
}

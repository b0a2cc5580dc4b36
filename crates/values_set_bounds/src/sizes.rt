//! Bounds of sets, by those of the sets that they are made of.

ghost use Rattle.std.specs.Prelude.{◌≡◌, ◌+◌, ◌*◌, ◌^◌, ◌≤◌, ◌≤ℤ◌, ◌+ℤ◌, pos, max, IfSome};
ghost use Rattle.values_core.specs.IsValue.{max_members};
ghost use Rattle.values_core.specs.Sets.{IsSet};
ghost use Rattle.values_sets.specs.DescribedSets.{Described, Functions, Interval, Listed, PowerOf, Union};
ghost use Rattle.values_set_bounds.specs.Bounds.{IsListedWithin};

use base_core::limits::MAX_MEMBERS;
use values_core::Value;

/// How deep a member of a set may be.
const MAX_INNER_LEVELS: u8 = 31;

/// How many members a set has at most, and how deep it is at most.
#[derive(Clone, Copy, Debug, Drop, PartialEq, Eq)]
pub struct Bounds {
    pub members: usize,
    pub levels: u8,
}

/// A value has its own size and depth.
pub(crate) fn of_value(all: &Value) -> Bounds
    requires { IsSet all.now }
    ensures { IsListedWithin (Listed all.now) result.members result.levels }
{
    all.is_value();
    Bounds {
        members: all.len(),
        levels: all.levels(),
    }
}

/// The integers from the first to the last, unless they are too many.
pub(crate) fn of_interval(first: i64, last: i64) -> Option<Bounds>
    ensures { IfSome result (λ b. IsListedWithin (Interval first last) b.members b.levels) }
{
    if first > last {
        return Some(Bounds {
            members: 0,
            levels: 1,
        });
    }
    match count_between(first, last) {
        Some(count) => Some(Bounds {
            members: count,
            levels: 1,
        }),
        None => None,
    }
}

/// How many integers there are from the first to the last, unless they are more than a set may have.
fn count_between(first: i64, last: i64) -> Option<usize>
    requires { first ≤ℤ last }
    ensures { IfSome result (λ n. (n ≤ max_members) × (first +ℤ pos n ≡ last +ℤ pos 1)) }
{
    match last.checked_sub(first) {
        Some(more) if more < 100_000 => Some(more as usize + 1),
        _ => None,
    }
}

/// The subsets of a set with these bounds.
pub(crate) fn of_subsets(inside: Bounds) -> Option<Bounds>
    ensures { IfSome result (λ b. (d : Described) → IsListedWithin d inside.members inside.levels → IsListedWithin (PowerOf d) b.members b.levels) }
{
    if inside.levels > MAX_INNER_LEVELS {
        return None;
    }
    match power(2, inside.members) {
        Some(members) => Some(Bounds {
            members,
            levels: inside.levels + 1,
        }),
        None => None,
    }
}

/// The functions from the domain into a set with these bounds.
pub(crate) fn of_functions(domain: &Value, inside: Bounds) -> Option<Bounds>
    requires { IsSet domain.now }
    ensures { IfSome result (λ b. (d : Described) → IsListedWithin d inside.members inside.levels → IsListedWithin (Functions domain.now d) b.members b.levels) }
{
    domain.is_value();
    let levels = domain.levels().max(inside.levels);
    if levels > MAX_INNER_LEVELS {
        return None;
    }
    match power(inside.members, domain.members().len()) {
        Some(members) => Some(Bounds {
            members,
            levels: levels + 1,
        }),
        None => None,
    }
}

/// The union of two sets with these bounds.
pub(crate) fn of_union(left: Bounds, right: Bounds) -> Option<Bounds>
    ensures { IfSome result (λ b. (c d : Described) → IsListedWithin c left.members left.levels → IsListedWithin d right.members right.levels → IsListedWithin (Union c d) b.members b.levels) }
{
    match left.members.checked_add(right.members) {
        Some(members) if members <= MAX_MEMBERS => Some(Bounds {
            members,
            levels: left.levels.max(right.levels),
        }),
        _ => None,
    }
}

/// One part more beside parts with these bounds.
pub(crate) fn beside(parts: Bounds, part: Bounds) -> Option<Bounds>
    ensures { IfSome result (λ b. (b.members ≡ parts.members * part.members) × (b.members ≤ max_members) × (b.levels ≡ max parts.levels part.levels) × (b.levels ≤ 31)) }
{
    let levels = parts.levels.max(part.levels);
    if levels > MAX_INNER_LEVELS {
        return None;
    }
    match product(parts.members, part.members) {
        Some(members) => Some(Bounds { members, levels }),
        None => None,
    }
}

/// What has parts with these bounds is one level deeper.
pub(crate) fn around(parts: Bounds) -> Bounds
    requires { parts.levels ≤ 31 }
    ensures members { result.members ≡ parts.members }
    ensures levels { result.levels ≡ parts.levels + 1 }
{
    Bounds {
        members: parts.members,
        levels: parts.levels + 1,
    }
}

/// The power, unless it is more than a set may have members.
fn power(base: usize, exponent: usize) -> Option<usize>
    ensures { IfSome result (λ n. (n ≡ base ^ exponent) × (n ≤ max_members)) }
{
    let mut members: usize = 1;
    for i in 0..exponent {
        match product(members, base) {
            Some(more) => members = more,
            None => return None,
        }
    }
    Some(members)
}

/// The product, unless it is more than a set may have members.
fn product(a: usize, b: usize) -> Option<usize>
    ensures { IfSome result (λ n. (n ≡ a * b) × (n ≤ max_members)) }
{
    match a.checked_mul(b) {
        Some(members) if members <= MAX_MEMBERS => Some(members),
        _ => None,
    }
}

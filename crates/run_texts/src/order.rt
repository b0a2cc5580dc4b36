ghost use Rattle.std.specs.Prelude.{◌≡◌, ◌≤◌, IfOk, OnOk, insert, length};
ghost use Rattle.std.specs.Ordering.{is_lt, nat_cmp};
ghost use Rattle.std.specs.Cmp.Lexicographic.{slice_cmp};
ghost use Rattle.run_texts.specs.States.{in_order, with_number};

use crate::places::name_at;
use base_core::{Names, NoMemory};
use std::alloc::Global;

/// The numbers of the variables of these names, in ascending order of the bytes of their names.
pub fn in_order(alloc: Global, names: &Names) -> Result<Vec<usize>, NoMemory>
    ensures { IfOk result (λ v. v.items ≡ in_order names.now) }
{
    let mut sorted = Vec::new(alloc);
    for number in 0..names.len() {
        insert_number(names, number, &mut sorted)?;
    }
    Ok(sorted)
}

/// Puts the number of a variable among those that stand there.
fn insert_number(names: &Names, number: usize, sorted: &mut Vec<usize>) -> Result<(), NoMemory>
    ensures { OnOk result (sorted.new.items ≡ with_number names.now number sorted.old.items) }
{
    let place = place_among(names, number, sorted.as_slice());
    sorted.insert(place, number)?;
    Ok(())
}

/// Where the number is to stand: before the first whose name is above its own.
fn place_among(names: &Names, number: usize, sorted: &[usize]) -> usize
    ensures within { result ≤ length sorted.now }
    ensures place { with_number names.now number sorted.now ≡ insert sorted.now result number }
{
    let name = name_at(names, number);
    for i in 0..sorted.len() {
        if is_below(name, name_at(names, sorted[i])) {
            return i;
        }
    }
    sorted.len()
}

/// Whether the bytes of `a` come before those of `b`.
fn is_below(a: &str, b: &str) -> bool
    ensures { result ≡ is_lt (slice_cmp nat_cmp a.now b.now) }
{
    a.cmp(b).is_lt()
}

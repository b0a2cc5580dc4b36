ghost use Rattle.std.specs.Prelude.{◌≡◌, ◌∷◌, ◌++◌, [], ◌<◌, ◌≤◌, ◌↔◌, IfOk, IsNone, IsSomeAnd, MatchOption, OnOk, length, map, reverse, slice_set, MatchBool};
ghost use Rattle.base_use_order.specs.Uses.{AreInOrder, IsOrder, IsWithin, SomeUsesItself, numbers_below, table_of};
ghost use Rattle.base_use_order.specs.Walks.{InTurn, Stands, left_to_take};

use crate::table::used_of;
use base_core::NoMemory;
use std::alloc::{AllocError, Global};

/// How far the walk is with a definition.
#[derive(Clone, Copy)]
enum Mark {
    /// It was not entered.
    New,
    /// It was entered and not left.
    Open,
    /// It is in the order.
    Done,
}

/// What is to be done with a definition.
#[derive(Clone, Copy)]
enum Task {
    /// What it uses is to be entered, and then it is to be left.
    Enter(usize),
    /// It is to be put into the order.
    Leave(usize),
}

#[derive(Drop)]
struct Walk {
    marks: Vec<Mark>,
    order: Vec<usize>,
    /// The next one last.
    tasks: Vec<Task>,
}

/// The definitions in an order in which what one uses stands before it, or nothing where one uses itself,
/// which no definition may (Lamport, *Specifying Systems*). Of several orders any may be given, but the
/// numbers stay as they are where they are in such an order already.
pub fn order(alloc: Global, uses: &[Vec<usize>]) -> Result<Option<Vec<usize>>, NoMemory>
    requires within { IsWithin (table_of uses.now) }
    ensures ordered { IfOk result (λ found. MatchOption found (SomeUsesItself (table_of uses.now)) (λ order. IsOrder (table_of uses.now) order.items)) }
    ensures exact { IfOk result (λ found. IsNone found ↔ SomeUsesItself (table_of uses.now)) }
    ensures kept { IfOk result (λ found. AreInOrder (table_of uses.now) → IsSomeAnd found (λ order. order.items ≡ numbers_below (length uses.now))) }
{
    let mut walk = begin(alloc, uses)?;
    while let Some(task) = walk.tasks.pop() {
        if step(&mut walk, uses, task)? {
            return Ok(None);
        }
    }
    Ok(Some(walk.order))
}

/// Each definition is to be entered, the first one next.
fn begin(alloc: Global, uses: &[Vec<usize>]) -> Result<Walk, AllocError>
    ensures stands { IfOk result (λ walk. Stands (table_of uses.now) walk.marks.items walk.order.items (reverse walk.tasks.items)) }
    ensures in_turn { IfOk result (λ walk. InTurn (length uses.now) walk.order.items (reverse walk.tasks.items)) }
{
    let marks = vec![in alloc; Mark::New; uses.len()]?;
    let mut tasks = Vec::new(alloc);
    for definition in (0..uses.len()).rev() {
        tasks.push(Task::Enter(definition))?;
    }
    Ok(Walk {
        marks,
        order: Vec::new(alloc),
        tasks,
    })
}

/// Does the task, which was taken from the tasks. Whether the walk came back to an open definition.
fn step(walk: &mut Walk, uses: &[Vec<usize>], task: Task) -> Result<bool, AllocError>
    requires within { IsWithin (table_of uses.now) }
    requires stands { Stands (table_of uses.now) walk.old.marks.items walk.old.order.items (task ∷ reverse walk.old.tasks.items) }
    ensures stands { IfOk result (λ back. MatchBool back (SomeUsesItself (table_of uses.now)) (Stands (table_of uses.now) walk.new.marks.items walk.new.order.items (reverse walk.new.tasks.items))) }
    ensures in_turn { OnOk result (AreInOrder (table_of uses.now) → InTurn (length uses.now) walk.old.order.items (task ∷ reverse walk.old.tasks.items) → InTurn (length uses.now) walk.new.order.items (reverse walk.new.tasks.items)) }
    ensures falls { OnOk result (left_to_take (table_of uses.now) walk.new.marks.items walk.new.tasks.items ≤ left_to_take (table_of uses.now) walk.old.marks.items walk.old.tasks.items) }
{
    match task {
        Task::Enter(definition) => match walk.marks[definition] {
            Mark::New => {
                enter(walk, used_of(uses, definition), definition)?;
                Ok(false)
            }
            Mark::Open => Ok(true),
            Mark::Done => Ok(false),
        },
        Task::Leave(definition) => {
            leave(walk, definition)?;
            Ok(false)
        }
    }
}

/// What the definition uses is next, and then it is to be left.
fn enter(walk: &mut Walk, used: &[usize], definition: usize) -> Result<(), AllocError>
    requires { definition < length walk.old.marks.items }
    ensures marks { OnOk result (walk.new.marks.items ≡ slice_set walk.old.marks.items definition Mark.Open) }
    ensures order { OnOk result (walk.new.order.items ≡ walk.old.order.items) }
    ensures tasks { OnOk result (walk.new.tasks.items ≡ (walk.old.tasks.items ++ Task.Leave definition ∷ []) ++ map Task.Enter used.now) }
{
    walk.marks[definition] = Mark::Open;
    walk.tasks.push(Task::Leave(definition))?;
    for next in used {
        walk.tasks.push(Task::Enter(*next))?;
    }
    Ok(())
}

/// The definition is behind what it uses.
fn leave(walk: &mut Walk, definition: usize) -> Result<(), AllocError>
    requires { definition < length walk.old.marks.items }
    ensures marks { OnOk result (walk.new.marks.items ≡ slice_set walk.old.marks.items definition Mark.Done) }
    ensures order { OnOk result (walk.new.order.items ≡ walk.old.order.items ++ definition ∷ []) }
    ensures tasks { OnOk result (walk.new.tasks.items ≡ walk.old.tasks.items) }
{
    walk.marks[definition] = Mark::Done;
    walk.order.push(definition)?;
    Ok(())
}

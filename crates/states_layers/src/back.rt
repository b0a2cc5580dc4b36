ghost use Rattle.std.specs.Prelude.{◌≡◌, ◌↔◌, ◌<◌, IsTrue, IfOk, length, take};
ghost use Rattle.states_layers.specs.Kept.{AllLinked, AllReached, EndsBehind, IsMark, Linked};

use crate::member::Member;
use crate::node::Node;
use crate::steps::Steps;
use states_core::{Behaviour, Mark, Shown};
use std::alloc::{AllocError, Global};

/// The states along the links to the last node, first to last. They are moved out of the nodes.
pub fn read_back<S: Steps>(
    alloc: Global,
    steps: &S,
    nodes: Vec<Node<S::Entry>>,
) -> Result<Behaviour, AllocError>
    requires links { AllLinked (S.system steps.now) nodes.items }
    requires reached { AllReached (S.system steps.now) nodes.items }
    requires some { 0 < length nodes.items }
    ensures { IfOk result (λ w. EndsBehind (S.system steps.now) nodes.items w) }
{
    let mut nodes = nodes;
    let mut states = Behaviour::new(alloc);
    loop {
        let node = nodes.pop().unwrap();
        let mark = mark_of(steps, &nodes, &node);
        let first = is_first(&node);
        let from = node.from as usize;
        states.push(Shown {
            mark,
            state: node.entry.into_state(),
        })?;
        if first {
            states.reverse();
            return Ok(states);
        }
        keep_first(&mut nodes, from + 1);
    }
}

/// Keeps so many of the nodes, and gives room back once more than half of it is empty: the states that were moved out need it.
fn keep_first<E: Member>(nodes: &mut Vec<Node<E>>, count: usize)
    ensures { nodes.new.items ≡ take count nodes.old.items }
{
    nodes.truncate(count);
    if nodes.len() < nodes.capacity() / 2 {
        nodes.shrink_to_fit();
    }
}

fn is_first<E>(node: &Node<E>) -> bool
    ensures { IsTrue result ↔ ((node.now.line ≡ 0) × (node.now.silents ≡ 0)) }
{
    node.line == 0 && node.silents == 0
}

/// How a node was reached from those before it.
fn mark_of<S: Steps>(steps: &S, nodes: &[Node<S::Entry>], node: &Node<S::Entry>) -> Mark
    requires linked { Linked (S.system steps.now) nodes.now node.now }
    requires reached { AllReached (S.system steps.now) nodes.now }
    ensures { IsMark (S.system steps.now) nodes.now node.now result }
{
    if node.silents > 0 {
        return Mark::Silent;
    }
    if node.line == 0 {
        return Mark::Init;
    }
    let from = &nodes[node.from as usize];
    Mark::Line(steps.at(node.line - 1, &from.entry, &node.entry))
}

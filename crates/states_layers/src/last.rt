ghost use Rattle.std.specs.Prelude.{◌≡◌, ◌<◌, IfOk, map};
ghost use Rattle.states_layers.specs.Found.{members_of};
ghost use Rattle.states_layers.specs.Gives.{IsSmall};
ghost use Rattle.states_layers.specs.Last.{AreLast};
ghost use Rattle.states_layers.specs.Says.{Says};
ghost use Rattle.states_layers.specs.Kept.{Gathers, IsStuck};

use crate::answer::Answer;
use crate::back::read_back;
use crate::layer::merge;
use crate::member::Member;
use crate::node::Node;
use crate::sharing::SharedValues;
use crate::steps::Steps;
use indexmap::IndexMap;
use std::alloc::{AllocError, Global};

/// The answer of a search, and what is handed out beside it: where not all lines are explained, the entries that the
/// explained lines and then some silent steps lead to, each once, in the order in which they were found.
#[derive(Drop)]
pub struct Searched<E> {
    pub answer: Answer,
    pub last: Vec<E>,
}

/// That the first `line` lines are explained and no more, by the node at `start`.
pub fn unexplained<S: Steps>(
    alloc: Global,
    steps: &S,
    nodes: Vec<Node<S::Entry>>,
    start: usize,
    line: u32,
) -> Result<Searched<S::Entry>, AllocError>
    requires small { IsSmall (S.system steps.now) }
    requires left { line < (S.system steps.now).count }
    requires stuck { IsStuck (S.system steps.now) line nodes.items start }
    ensures answered { IfOk result (λ searched. Says (S.system steps.now) searched.answer) }
    ensures last { IfOk result (λ searched. AreLast (S.system steps.now) searched.answer searched.last.items) }
{
    let mut nodes = nodes;
    let tail = nodes.split_off(start)?;
    let end = copy_node(alloc, &tail[0])?;
    let after = steps.expected(line, &end.entry);
    nodes.push(end)?;
    let behaviour = read_back(alloc, steps, nodes)?;
    let last = gather(alloc, tail)?;
    Ok(Searched {
        answer: Answer::NotExplained {
            prefix: line,
            of: steps.count(),
            after,
            behaviour,
        },
        last,
    })
}

fn copy_node<E: Member>(alloc: Global, node: &Node<E>) -> Result<Node<E>, AllocError>
    ensures { IfOk result (λ copied. copied ≡ node.now) }
{
    Ok(Node {
        line: node.line,
        silents: node.silents,
        entry: node.entry.copy(alloc)?,
        from: node.from,
    })
}

/// The entries of the nodes, each once.
fn gather<E: Member>(alloc: Global, nodes: Vec<Node<E>>) -> Result<Vec<E>, AllocError>
    ensures { IfOk result (λ entries. Gathers nodes.items entries.items) }
{
    let mut layer = IndexMap::new(alloc);
    let entries = entries_of(alloc, nodes)?;
    let most = entries.len();
    let mut values = SharedValues::new(alloc);
    merge(&mut layer, entries, 0, most, &mut values)?;
    into_entries(alloc, layer)
}

fn entries_of<E: Member>(alloc: Global, nodes: Vec<Node<E>>) -> Result<Vec<E>, AllocError>
    ensures { IfOk result (λ entries. entries.items ≡ map (λ x. x.entry) nodes.items) }
{
    let mut entries = Vec::with_capacity(alloc, nodes.len())?;
    for node in nodes {
        entries.push(node.entry)?;
    }
    Ok(entries)
}

pub fn into_entries<E: Member>(alloc: Global, layer: IndexMap<E, u32>) -> Result<Vec<E>, AllocError>
    ensures { IfOk result (λ entries. entries.items ≡ members_of layer.entries) }
{
    let mut entries = Vec::with_capacity(alloc, layer.len())?;
    for (entry, _) in layer {
        entries.push(entry)?;
    }
    Ok(entries)
}

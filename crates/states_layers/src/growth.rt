ghost use Rattle.std.specs.Prelude.{◌≡◌, ◌⊎◌, ◌≤◌, ◌<◌, ◌+◌, ◌-◌, ◌++◌, ℕ, List, IfOk, IfErr, OnOk, length, map};
ghost use Rattle.states_core.specs.Sets.{AreOf, IsList};
ghost use Rattle.states_core.specs.Runs.{Layer, Upto};
ghost use Rattle.states_layers.specs.Answers.{HasLayer};
ghost use Rattle.states_layers.specs.Gives.{Gives, IsSmall};
ghost use Rattle.states_layers.specs.Found.{all_from};
ghost use Rattle.states_layers.specs.Moves.{IsSource, line_of, silents_of, line_after, silents_after, IsOpen, Moves, MoveFaults, MoveSeen, entries, at_layer, IsRange, IsSourceAt, Part, Growing, Grown};
ghost use Rattle.states_layers.specs.Says.{IsStop, Expands};
ghost use Rattle.states_layers.specs.Kept.{AddsLayer, Kept, IsBehind, node, nodes_of};
ghost use Rattle.states_layers.specs.Repeats.{AllKnown};

use crate::answer::{Answer, Stop};
use crate::layer::merge;
use crate::member::Member;
use crate::node::{Move, Node};
use crate::repeats::{KnownSteps, is_repeated, silent_steps};
use crate::steps::{StepFault, Steps};
use indexmap::{IndexMap, IndexSet};
use std::alloc::{AllocError, Global};

/// How many lines the layer that a move leads to is after.
fn line_after_move(step: Move) -> u32
    requires { line_of step < u32.MAX }
    ensures { result ≡ line_after step }
{
    match step {
        Move::Wait { line, .. } => line,
        Move::Go { line } => line + 1,
    }
}

/// How many silent steps the layer that a move leads to is after.
fn silents_after_move(step: Move) -> u32
    requires { silents_after step ≤ u32.MAX }
    ensures { result ≡ silents_after step }
{
    match step {
        Move::Wait { silents, .. } => silents + 1,
        Move::Go { .. } => 0,
    }
}

/// The entries to which a move leads from a node. Those of a silent step are kept where the line may ask for them again.
fn list_steps<S: Steps>(
    alloc: Global,
    steps: &S,
    step: Move,
    node: &Node<S::Entry>,
    bound: u32,
    known: &mut KnownSteps<S::Entry>,
) -> Result<Vec<S::Entry>, StepFault>
    requires ready { S.ready steps.now }
    requires opens { IsOpen (S.system steps.now) step }
    requires source { IsSource step node.now.line node.now.silents }
    requires reached { Layer (S.system steps.now) node.now.line node.now.silents node.now.entry }
    requires known { AllKnown (S.system steps.now) S.Entry.eq known.old.lists.entries }
    ensures listed { Gives (Moves (S.system steps.now) step node.now.entry) (MoveFaults (S.system steps.now) step node.now.entry) (MoveSeen (S.system steps.now) step node.now.entry) bound result }
    ensures known { IfOk result (λ list. AllKnown (S.system steps.now) S.Entry.eq known.new.lists.entries) }
{
    match step {
        Move::Wait { silents, .. } => {
            let keeps = silents < steps.within().saturating_sub(2);
            silent_steps(alloc, steps, &node.entry, bound, known, keeps)
        }
        Move::Go { line } => steps.successors(alloc, line, &node.entry, bound),
    }
}

/// The entries to which a move leads from a node, or an answer.
fn expand<S: Steps>(
    alloc: Global,
    steps: &S,
    step: Move,
    node: &Node<S::Entry>,
    known: &mut KnownSteps<S::Entry>,
) -> Result<Vec<S::Entry>, Stop>
    requires ready { S.ready steps.now }
    requires small { IsSmall (S.system steps.now) }
    requires opens { IsOpen (S.system steps.now) step }
    requires source { IsSource step node.now.line node.now.silents }
    requires reached { Layer (S.system steps.now) node.now.line node.now.silents node.now.entry }
    requires known { AllKnown (S.system steps.now) S.Entry.eq known.old.lists.entries }
    ensures listed { IfOk result (λ list. Expands (S.system steps.now) step node.now.entry list.items) }
    ensures known { IfOk result (λ list. AllKnown (S.system steps.now) S.Entry.eq known.new.lists.entries) }
    ensures stopped { IfErr result (λ stop. IsStop (S.system steps.now) stop) }
{
    let line = line_after_move(step);
    let silents = silents_after_move(step);
    let bound = steps.limit();
    match list_steps(alloc, steps, step, node, bound, known) {
        Ok(list) => Ok(list),
        Err(StepFault::Eval(fault)) => Err(Stop::Answered(Answer::Fault {
            after: node.line,
            silent: node.silents,
            state: node.entry.state().copy(alloc)?,
            kind: fault.kind,
            at: fault.at,
        })),
        Err(StepFault::TooMany) => Err(Stop::Answered(Answer::LayerLimit {
            after: line,
            silent: silents,
        })),
        Err(StepFault::NoMemory) => Err(Stop::NoMemory),
    }
}

/// Whether a layer of this size is within the limits, beside the nodes of the layers before it.
fn check_size<S: Steps>(
    steps: &S,
    nodes: &[Node<S::Entry>],
    size: usize,
    line: u32,
    silents: u32,
) -> Result<(), Stop>
    requires layer { HasLayer (S.system steps.now) line silents }
    ensures limit { OnOk result (size ≤ (S.system steps.now).limit) }
    ensures total { OnOk result (length nodes.now + size ≤ (S.system steps.now).total) }
    ensures stopped { IfErr result (λ stop. (xs : List S.Entry) → size ≤ length xs → AreOf (Layer (S.system steps.now) line silents) xs
        → AreOf (Upto (S.system steps.now) line silents) (entries nodes.now ++ at_layer line silents xs) → IsStop (S.system steps.now) stop) }
{
    if size > steps.limit() as usize {
        return Err(Stop::Answered(Answer::LayerLimit {
            after: line,
            silent: silents,
        }));
    }
    let total = steps.total() as usize;
    if nodes.len() > total || size > total - nodes.len() {
        return Err(Stop::Answered(Answer::TotalLimit {
            after: line,
            silent: silents,
        }));
    }
    Ok(())
}

/// Adds the entries to which a move leads from the node of that index to the layer.
fn grow_by<S: Steps>(
    alloc: Global,
    steps: &S,
    nodes: &[Node<S::Entry>],
    index: usize,
    step: Move,
    layer: &mut IndexMap<S::Entry, u32>,
    known: &mut KnownSteps<S::Entry>,
) -> Result<(), Stop>
    requires ready { S.ready steps.now }
    requires small { IsSmall (S.system steps.now) }
    requires opens { IsOpen (S.system steps.now) step }
    requires kept { IsList (Upto (S.system steps.now) (line_of step) (silents_of (S.system steps.now) step)) (entries nodes.now) }
    requires room { length nodes.now ≤ (S.system steps.now).total }
    requires within { index < length nodes.now }
    requires source { IsSourceAt step nodes.now index }
    requires part { Part (S.system steps.now) step nodes.now layer.old.entries }
    requires known { AllKnown (S.system steps.now) S.Entry.eq known.old.lists.entries }
    ensures grows { OnOk result ((from : ℕ) → Growing (S.system steps.now) step nodes.now from index layer.old.entries → Growing (S.system steps.now) step nodes.now from (index + 1) layer.new.entries) }
    ensures known { OnOk result (AllKnown (S.system steps.now) S.Entry.eq known.new.lists.entries) }
    ensures stopped { IfErr result (λ stop. IsStop (S.system steps.now) stop) }
{
    let line = line_after_move(step);
    let silents = silents_after_move(step);
    let limit = steps.limit() as usize;
    let node = &nodes[index];
    let list = expand(alloc, steps, step, node, known)?;
    merge(layer, list, index as u32, limit, &mut known.values)?;
    check_size(steps, nodes, layer.len(), line, silents)?;
    Ok(())
}

/// The layer that a move leads to. An entry that several layers of a line have is gone on from once.
fn grow<S: Steps>(
    alloc: Global,
    steps: &S,
    nodes: &[Node<S::Entry>],
    from: usize,
    step: Move,
    known: &mut KnownSteps<S::Entry>,
) -> Result<IndexMap<S::Entry, u32>, Stop>
    requires ready { S.ready steps.now }
    requires small { IsSmall (S.system steps.now) }
    requires opens { IsOpen (S.system steps.now) step }
    requires kept { IsList (Upto (S.system steps.now) (line_of step) (silents_of (S.system steps.now) step)) (entries nodes.now) }
    requires range { IsRange step nodes.now from }
    requires room { length nodes.now ≤ (S.system steps.now).total }
    requires known { AllKnown (S.system steps.now) S.Entry.eq known.old.lists.entries }
    ensures whole { IfOk result (λ layer. Grown (S.system steps.now) step nodes.now layer.entries) }
    ensures known { IfOk result (λ layer. AllKnown (S.system steps.now) S.Entry.eq known.new.lists.entries) }
    ensures stopped { IfErr result (λ stop. IsStop (S.system steps.now) stop) }
{
    let may_repeat = matches!(step, Move::Go { .. }) && steps.within() > 1;
    let mut gone = IndexSet::new(alloc);
    let mut layer = IndexMap::new(alloc);
    let mut index = from;
    while index < nodes.len() {
        let node = &nodes[index];
        if is_repeated(&mut gone, &node.entry, may_repeat)? {
            index += 1;
            continue;
        }
        grow_by(alloc, steps, nodes, index, step, &mut layer, known)?;
        index += 1;
    }
    Ok(layer)
}

/// Puts a layer behind the nodes.
fn keep<E: Member>(
    nodes: &mut Vec<Node<E>>,
    layer: IndexMap<E, u32>,
    line: u32,
    silents: u32,
) -> Result<(), AllocError>
    ensures { OnOk result (nodes.new.items ≡ nodes.old.items ++ nodes_of line silents layer.entries) }
{
    for (entry, from) in layer {
        nodes.push(Node {
            line,
            silents,
            entry,
            from,
        })?;
    }
    Ok(())
}

/// The entries to which a move leads from the last of the nodes alone, which are the layer: they are listed each once, so that no table of them is made.
fn list_alone<S: Steps>(
    alloc: Global,
    steps: &S,
    nodes: &[Node<S::Entry>],
    from: usize,
    step: Move,
    known: &mut KnownSteps<S::Entry>,
) -> Result<Vec<S::Entry>, Stop>
    requires ready { S.ready steps.now }
    requires small { IsSmall (S.system steps.now) }
    requires opens { IsOpen (S.system steps.now) step }
    requires kept { IsList (Upto (S.system steps.now) (line_of step) (silents_of (S.system steps.now) step)) (entries nodes.now) }
    requires range { IsRange step nodes.now from }
    requires alone { length nodes.now ≡ from + 1 }
    requires known { AllKnown (S.system steps.now) S.Entry.eq known.old.lists.entries }
    ensures grown { IfOk result (λ list. Grown (S.system steps.now) step nodes.now (all_from from list.items)) }
    ensures known { IfOk result (λ list. AllKnown (S.system steps.now) S.Entry.eq known.new.lists.entries) }
    ensures stopped { IfErr result (λ stop. IsStop (S.system steps.now) stop) }
{
    let line = line_after_move(step);
    let silents = silents_after_move(step);
    let node = &nodes[from];
    let list = expand(alloc, steps, step, node, known)?;
    check_size(steps, nodes, list.len(), line, silents)?;
    Ok(list)
}

/// Puts a layer behind the nodes whose entries all come from one of them.
fn keep_alone<E: Member>(
    nodes: &mut Vec<Node<E>>,
    list: Vec<E>,
    from: u32,
    line: u32,
    silents: u32,
) -> Result<(), AllocError>
    ensures { OnOk result (nodes.new.items ≡ nodes.old.items ++ map (λ s. node line silents s from) list.items) }
{
    for entry in list {
        nodes.push(Node {
            line,
            silents,
            entry,
            from,
        })?;
    }
    Ok(())
}

/// Puts the layer behind the nodes that a move leads to from the last of them alone.
fn add_alone<S: Steps>(
    alloc: Global,
    steps: &S,
    nodes: &mut Vec<Node<S::Entry>>,
    from: usize,
    step: Move,
    known: &mut KnownSteps<S::Entry>,
) -> Result<(), Stop>
    requires ready { S.ready steps.now }
    requires small { IsSmall (S.system steps.now) }
    requires opens { IsOpen (S.system steps.now) step }
    requires kept { IsList (Upto (S.system steps.now) (line_of step) (silents_of (S.system steps.now) step)) (entries nodes.old.items) }
    requires range { IsRange step nodes.old.items from }
    requires room { length nodes.old.items ≤ (S.system steps.now).total }
    requires alone { length nodes.old.items ≡ from + 1 }
    requires known { AllKnown (S.system steps.now) S.Entry.eq known.old.lists.entries }
    ensures added { OnOk result (AddsLayer (S.system steps.now) step nodes.old.items nodes.new.items) }
    ensures known { OnOk result (AllKnown (S.system steps.now) S.Entry.eq known.new.lists.entries) }
    ensures stopped { IfErr result (λ stop. IsStop (S.system steps.now) stop) }
{
    let line = line_after_move(step);
    let silents = silents_after_move(step);
    let list = list_alone(alloc, steps, nodes, from, step, known)?;
    keep_alone(nodes, list, from as u32, line, silents)?;
    Ok(())
}

/// Puts the layer behind the nodes that a move leads to from those from an index on.
fn add_layer<S: Steps>(
    alloc: Global,
    steps: &S,
    nodes: &mut Vec<Node<S::Entry>>,
    from: usize,
    step: Move,
    known: &mut KnownSteps<S::Entry>,
) -> Result<(), Stop>
    requires ready { S.ready steps.now }
    requires small { IsSmall (S.system steps.now) }
    requires opens { IsOpen (S.system steps.now) step }
    requires kept { IsList (Upto (S.system steps.now) (line_of step) (silents_of (S.system steps.now) step)) (entries nodes.old.items) }
    requires range { IsRange step nodes.old.items from }
    requires room { length nodes.old.items ≤ (S.system steps.now).total }
    requires known { AllKnown (S.system steps.now) S.Entry.eq known.old.lists.entries }
    ensures added { OnOk result (AddsLayer (S.system steps.now) step nodes.old.items nodes.new.items) }
    ensures known { OnOk result (AllKnown (S.system steps.now) S.Entry.eq known.new.lists.entries) }
    ensures stopped { IfErr result (λ stop. IsStop (S.system steps.now) stop) }
{
    if nodes.len().saturating_sub(from) == 1 {
        return add_alone(alloc, steps, nodes, from, step, known);
    }
    let layer = grow(alloc, steps, nodes, from, step, known)?;
    keep(
        nodes,
        layer,
        line_after_move(step),
        silents_after_move(step),
    )?;
    Ok(())
}

/// Grows one more layer behind the nodes, and gives the size of the largest layer so far.
pub fn advance<S: Steps>(
    alloc: Global,
    steps: &S,
    nodes: &mut Vec<Node<S::Entry>>,
    from: usize,
    step: Move,
    widest: usize,
    known: &mut KnownSteps<S::Entry>,
) -> Result<usize, Stop>
    requires ready { S.ready steps.now }
    requires small { IsSmall (S.system steps.now) }
    requires opens { IsOpen (S.system steps.now) step }
    requires kept { Kept (S.system steps.now) (line_of step) (silents_of (S.system steps.now) step) nodes.old.items widest }
    requires range { IsRange step nodes.old.items from }
    requires known { AllKnown (S.system steps.now) S.Entry.eq known.old.lists.entries }
    ensures kept { IfOk result (λ wide. Kept (S.system steps.now) (line_after step) (silents_after step) nodes.new.items wide) }
    ensures behind { OnOk result (IsBehind (S.system steps.now) step nodes.old.items nodes.new.items) }
    ensures known { OnOk result (AllKnown (S.system steps.now) S.Entry.eq known.new.lists.entries) }
    ensures stopped { IfErr result (λ stop. IsStop (S.system steps.now) stop) }
{
    let held = nodes.len();
    add_layer(alloc, steps, nodes, from, step, known)?;
    let behind = nodes.len();
    Ok(greater(widest, behind - held))
}

fn greater(one: usize, other: usize) -> usize
    ensures first { one ≤ result }
    ensures second { other ≤ result }
    ensures either { (result ≡ one) ⊎ (result ≡ other) }
{
    if other > one { other } else { one }
}

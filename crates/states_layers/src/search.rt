ghost use Rattle.std.specs.Prelude.{◌≡◌, ◌-◌, ◌<◌, IfOk, IfErr, OnOk, length};
ghost use Rattle.states_core.specs.System.{Begins};
ghost use Rattle.states_core.specs.Sets.{IsList};
ghost use Rattle.states_layers.specs.Gives.{IsSmall};
ghost use Rattle.states_layers.specs.Answers.{IsAnswer};
ghost use Rattle.states_layers.specs.Last.{AreLast};
ghost use Rattle.states_layers.specs.Says.{Says, IsStop};
ghost use Rattle.states_layers.specs.Repeats.{AllKnown};
ghost use Rattle.states_layers.specs.Kept.{IsInitClear, Kept, Starts, Continues, first_of};

use crate::answer::{Answer, Stop};
use crate::assumptions::judge;
use crate::back::read_back;
use crate::growth::advance;
use crate::last::{Searched, unexplained};
use crate::member::Member;
use crate::node::{Move, Node};
use crate::repeats::KnownSteps;
use crate::steps::{StepFault, Steps};
use std::alloc::{AllocError, Global};

/// The nodes of the first layer.
fn begin<S: Steps>(alloc: Global, steps: &S) -> Result<Vec<Node<S::Entry>>, Stop>
    requires ready { S.ready steps.now }
    requires small { IsSmall (S.system steps.now) }
    ensures first { IfOk result (λ nodes. Kept (S.system steps.now) 0 0 nodes.items (length nodes.items)) }
    ensures some { IfOk result (λ nodes. Starts 0 nodes.items 0) }
    ensures stopped { IfErr result (λ stop. IsStop (S.system steps.now) stop) }
{
    let limit = steps.limit();
    match steps.initial(alloc, limit) {
        Ok(list) => first_nodes(alloc, steps, list),
        Err(StepFault::Eval(fault)) => Err(Stop::Answered(Answer::InitFault {
            kind: fault.kind,
            at: fault.at,
        })),
        Err(StepFault::TooMany) => Err(Stop::Answered(Answer::LayerLimit {
            after: 0,
            silent: 0,
        })),
        Err(StepFault::NoMemory) => Err(Stop::NoMemory),
    }
}

fn first_nodes<S: Steps>(
    alloc: Global,
    steps: &S,
    list: Vec<S::Entry>,
) -> Result<Vec<Node<S::Entry>>, Stop>
    requires listed { IsList (Begins (S.system steps.now)) list.items }
    requires clear { IsInitClear (S.system steps.now) }
    requires small { IsSmall (S.system steps.now) }
    ensures first { IfOk result (λ nodes. Kept (S.system steps.now) 0 0 nodes.items (length nodes.items)) }
    ensures some { IfOk result (λ nodes. Starts 0 nodes.items 0) }
    ensures stopped { IfErr result (λ stop. IsStop (S.system steps.now) stop) }
{
    if list.len() == 0 {
        return Err(Stop::Answered(Answer::NoInitial));
    }
    if list.len() > steps.limit() as usize {
        return Err(Stop::Answered(Answer::LayerLimit {
            after: 0,
            silent: 0,
        }));
    }
    if list.len() > steps.total() as usize {
        return Err(Stop::Answered(Answer::TotalLimit {
            after: 0,
            silent: 0,
        }));
    }
    Ok(first_items(alloc, list)?)
}

fn first_items<E: Member>(alloc: Global, list: Vec<E>) -> Result<Vec<Node<E>>, AllocError>
    ensures { IfOk result (λ nodes. nodes.items ≡ first_of list.items) }
{
    let mut nodes = Vec::with_capacity(alloc, list.len())?;
    for entry in list {
        nodes.push(Node {
            line: 0,
            silents: 0,
            entry,
            from: 0,
        })?;
    }
    Ok(nodes)
}

/// The layers of silent steps after a line.
fn wait<S: Steps>(
    alloc: Global,
    steps: &S,
    nodes: &mut Vec<Node<S::Entry>>,
    start: usize,
    line: u32,
    widest: usize,
    known: &mut KnownSteps<S::Entry>,
) -> Result<usize, Stop>
    requires ready { S.ready steps.now }
    requires small { IsSmall (S.system steps.now) }
    requires left { line < (S.system steps.now).count }
    requires kept { Kept (S.system steps.now) line 0 nodes.old.items widest }
    requires starts { Starts line nodes.old.items start }
    requires known { AllKnown (S.system steps.now) S.Entry.eq known.old.lists.entries }
    ensures kept { IfOk result (λ wide. Kept (S.system steps.now) line ((S.system steps.now).within - 1) nodes.new.items wide) }
    ensures starts { OnOk result (Continues line nodes.new.items start) }
    ensures known { OnOk result (AllKnown (S.system steps.now) S.Entry.eq known.new.lists.entries) }
    ensures stopped { IfErr result (λ stop. IsStop (S.system steps.now) stop) }
{
    let within = steps.within();
    let mut widest = widest;
    let mut from = start;
    let mut silents = 0;
    while silents + 1 < within {
        let end = nodes.len();
        widest = advance(
            alloc,
            steps,
            nodes,
            from,
            Move::Wait { line, silents },
            widest,
            known,
        )?;
        from = end;
        silents += 1;
    }
    Ok(widest)
}

fn search<S: Steps>(alloc: Global, steps: &S) -> Result<Searched<S::Entry>, Stop>
    requires ready { S.ready steps.now }
    requires small { IsSmall (S.system steps.now) }
    ensures answered { IfOk result (λ searched. Says (S.system steps.now) searched.answer) }
    ensures last { IfOk result (λ searched. AreLast (S.system steps.now) searched.answer searched.last.items) }
    ensures stopped { IfErr result (λ stop. IsStop (S.system steps.now) stop) }
{
    let count = steps.count();
    let mut nodes = begin(alloc, steps)?;
    let mut widest = nodes.len();
    let mut start = 0;
    let mut line = 0;
    while line < count {
        let mut known = KnownSteps::new(alloc);
        widest = wait(alloc, steps, &mut nodes, start, line, widest, &mut known)?;
        let end = nodes.len();
        let step = Move::Go { line };
        widest = advance(alloc, steps, &mut nodes, start, step, widest, &mut known)?;
        if nodes.len() == end {
            return Ok(unexplained(alloc, steps, nodes, start, line)?);
        }
        start = end;
        line += 1;
    }
    nodes.truncate(start + 1);
    let behaviour = read_back(alloc, steps, nodes)?;
    Ok(Searched {
        answer: Answer::Explained {
            behaviour,
            widest: widest as u32,
        },
        last: Vec::new(alloc),
    })
}

/// What a log says of a specification, whose assumptions are judged before all else; and, where not all lines are
/// explained, the entries that the first of them reach, in the order in which they were found.
pub fn search_entries<S: Steps>(alloc: Global, steps: &S) -> Result<Searched<S::Entry>, AllocError>
    requires ready { S.ready steps.now }
    requires small { IsSmall (S.system steps.now) }
    ensures answer { IfOk result (λ searched. IsAnswer (S.system steps.now) searched.answer) }
    ensures last { IfOk result (λ searched. AreLast (S.system steps.now) searched.answer searched.last.items) }
{
    if let Some(answer) = judge(alloc, steps)? {
        return Ok(Searched {
            answer,
            last: Vec::new(alloc),
        });
    }
    match search(alloc, steps) {
        Ok(searched) => Ok(searched),
        Err(Stop::Answered(answer)) => Ok(Searched {
            answer,
            last: Vec::new(alloc),
        }),
        Err(Stop::NoMemory) => Err(AllocError),
    }
}

/// What a log says of a specification, whose assumptions are judged before all else.
pub fn search_layers<S: Steps>(alloc: Global, steps: &S) -> Result<Answer, AllocError>
    requires ready { S.ready steps.now }
    requires small { IsSmall (S.system steps.now) }
    ensures { IfOk result (λ answer. IsAnswer (S.system steps.now) answer) }
{
    Ok(search_entries(alloc, steps)?.answer)
}

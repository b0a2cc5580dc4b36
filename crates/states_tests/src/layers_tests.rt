ghost use Rattle.std.specs.Prelude.{◌≡◌, ◌≤◌, ◌↔◌, false, true, IsTrue, IfOk, IfErr, OnOk};
ghost use Rattle.states_layers.specs.Gives.{Gives};
ghost use Rattle.states_layers.specs.Found.{AddsNew, members_of};
ghost use Rattle.states_tests.specs.Table.{Leads, IsEdge, Takes, IsRefused, none};

use base_core::{LineAt, Place};
use indexmap::IndexMap;
use states_core::{EvalKind, Fault, Mark, State};
use states_layers::{Answer, Member, StepFault, Steps, search_entries};
use std::alloc::{AllocError, Global};
use std::hash::{Hash, Hasher};
use std::marker::Model;
use std::rt::HostRuntime;
use values_core::Value;

/// What is searched: a state at a place. All of them have one hash.
#[derive(Drop, PartialEq, Eq)]
struct Placed {
    place: u32,
    state: State,
}

impl Model for Placed {
    ghost use Rattle.states_tests.specs.Table.{Spot, spot_code};

    ghost Value = { Spot };

    ghost coded = { spot_code };

    ghost view = { λ p. (p.place, p.state) };

    ghost inverse = { λ p. record { place = p.0; state = p.1 } };
}

impl Hash for Placed {
    ghost use Rattle.std.specs.Prelude.{[], refl};

    ghost hash_input = { λ p. [] };

    ghost respects_eq = { λ p q e. refl };

    fn hash<H: Hasher>(&self, _state: &mut H) {}
}

impl Member for Placed {
    ghost use Rattle.states_tests.specs.Table.{placed_same};

    ghost state_of = { λ p. p.1 };

    ghost same = { placed_same };

    fn state(&self) -> &State {
        &self.state
    }

    fn into_state(self) -> State {
        self.state
    }

    fn copy(&self, alloc: Global) -> Result<Placed, AllocError> {
        Ok(Placed {
            place: self.place,
            state: self.state.copy(alloc)?,
        })
    }
}

/// A step of this kind from a place and state to another, or a fault there.
#[derive(Drop)]
struct Edge {
    mark: Mark,
    from: Placed,
    to: Placed,
    faults: bool,
}

impl Model for Edge {
    ghost use Rattle.states_tests.specs.Table.{Edge, edge_code};

    ghost Value = { Edge };

    ghost coded = { edge_code };

    ghost view = { λ e. record { mark = e.mark; from = e.from; to = e.to; faults = e.faults } };
}

/// What is searched.
#[derive(Drop)]
struct Table {
    edges: Vec<Edge>,
    assumptions: Vec<Result<Option<Place>, Fault>>,
    assumes: usize,
    count: u32,
    within: u32,
    limit: u32,
    total: u32,
}

const FAULT: Fault = Fault {
    kind: EvalKind::Overflow,
    at: Place {
        file: 0,
        line: 3,
        col: 5,
    },
};

fn is_edge(edge: &Edge, mark: Mark, from: &Placed) -> bool
    ensures { IsTrue result ↔ IsEdge edge.now mark from.now }
{
    edge.mark == mark && edge.from.place == from.place && edge.from.state.same(&from.state)
}

// adds the entry where it is not there
fn add<E: Member>(found: &mut IndexMap<E, u32>, entry: E) -> Result<(), AllocError>
    ensures { OnOk result (AddsNew found.old.entries entry 0 found.new.entries) }
{
    found.entry(entry)?.or_insert(0);
    Ok(())
}

fn into_entries(alloc: Global, found: IndexMap<Placed, u32>) -> Result<Vec<Placed>, AllocError>
    ensures { IfOk result (λ entries. entries.items ≡ members_of found.entries) }
{
    let mut entries = Vec::with_capacity(alloc, found.len())?;
    for (entry, _) in found {
        entries.push(entry)?;
    }
    Ok(entries)
}

fn add_end(
    alloc: Global,
    found: &mut IndexMap<Placed, u32>,
    edge: &Edge,
    mark: Mark,
    from: &Placed,
) -> Result<(), StepFault>
    ensures ok { OnOk result (Takes edge.now mark from.now found.old.entries found.new.entries) }
    ensures err { IfErr result (λ fault. IsRefused edge.now mark from.now fault) }
{
    if is_edge(edge, mark, from) {
        if edge.faults {
            return Err(StepFault::Eval(FAULT));
        }
        add(found, edge.to.copy(alloc)?)?;
    }
    Ok(())
}

/// What the edges of a kind lead to.
fn listed(
    alloc: Global,
    edges: &[Edge],
    mark: Mark,
    from: &Placed,
    bound: u32,
) -> Result<Vec<Placed>, StepFault>
    ensures { Gives (Leads edges.now mark from.now false) (λ t f. Leads edges.now mark from.now true t) (λ t. Unit {0}) bound result }
{
    let mut found = IndexMap::new(alloc);
    for edge in edges {
        add_end(alloc, &mut found, edge, mark, from)?;
    }
    if found.len() > bound as usize {
        return Err(StepFault::TooMany);
    }
    Ok(into_entries(alloc, found)?)
}

impl Steps for Table {
    type Entry = Placed;

    ghost use Rattle.std.specs.Prelude.{refl};
    ghost use Rattle.states_tests.specs.Table.{system_of};

    ghost system = { λ x. system_of x.edges.items x.assumptions.items x.assumes x.count x.within x.limit x.total };

    ghost ready = { λ x. Unit {0} };

    fn count(&self) -> u32 {
        self.count
    }

    fn within(&self) -> u32 {
        self.within
    }

    fn limit(&self) -> u32 {
        self.limit
    }

    fn total(&self) -> u32 {
        self.total
    }

    fn at(&self, line: u32, _from: &Placed, to: &Placed) -> LineAt {
        LineAt {
            file: to.place,
            line,
        }
    }

    fn expected(&self, line: u32, from: &Placed) -> LineAt {
        LineAt {
            file: from.place,
            line,
        }
    }

    fn assumes(&self) -> usize {
        self.assumes
    }

    fn assumed(&self, _alloc: Global, index: usize) -> Result<Option<Place>, StepFault> {
        match self.assumptions.get(index) {
            None => Ok(None),
            Some(Ok(told)) => Ok(*told),
            Some(Err(fault)) => Err(StepFault::Eval(*fault)),
        }
    }

    fn initial(&self, alloc: Global, bound: u32) -> Result<Vec<Placed>, StepFault> {
        listed(alloc, &self.edges, Mark::Init, &nowhere(alloc), bound)
    }

    fn successors(
        &self,
        alloc: Global,
        line: u32,
        from: &Placed,
        bound: u32,
    ) -> Result<Vec<Placed>, StepFault> {
        listed(
            alloc,
            &self.edges,
            Mark::Line(LineAt { file: 1, line }),
            from,
            bound,
        )
    }

    fn silent(&self, alloc: Global, from: &Placed, bound: u32) -> Result<Vec<Placed>, StepFault> {
        listed(alloc, &self.edges, Mark::Silent, from, bound)
    }

    ghost shows = { λ x m. refl };
}

/// A step of this kind, from a state if it is no first one, to a state.
#[derive(Drop)]
struct Row(Mark, Option<u32>, u32);

/// How far the search came, and what it kept of that: the widest layer, or the lines that fit, or the layer that is too large.
#[derive(PartialEq, Eq, Drop)]
enum Outcome {
    Explained(u32),
    NotExplained(u32),
    TotalLimit(u32, u32),
    Other,
}

#[derive(Drop)]
struct Case<'a> {
    rows: &'a [Row],
    count: u32,
    within: u32,
    limit: u32,
    total: u32,
    outcome: Outcome,
    last: &'a [u32],
}

// the state of the last digit at the place of the digits before it
fn from_digits(alloc: Global, number: u32) -> Result<Placed, AllocError> {
    let mut values = Vec::new(alloc);
    values.push(Value::int(i64::from(number % 10)))?;
    Ok(Placed {
        place: number / 10,
        state: State::new(values),
    })
}

fn nowhere(alloc: Global) -> Placed
    ensures { result ≡ none }
{
    Placed {
        place: 0,
        state: State::new(Vec::new(alloc)),
    }
}

fn from_row(alloc: Global, row: &Row) -> Result<Edge, AllocError> {
    Ok(Edge {
        mark: row.0,
        from: match row.1 {
            Some(number) => from_digits(alloc, number)?,
            None => nowhere(alloc),
        },
        to: from_digits(alloc, row.2)?,
        faults: false,
    })
}

fn table_of(alloc: Global, case: &Case) -> Result<Table, AllocError>
    ensures { IfOk result (λ x. (x.count ≡ case.now.count) × (x.within ≡ case.now.within) × (x.limit ≡ case.now.limit) × (x.total ≡ case.now.total)) }
{
    let mut edges = Vec::new(alloc);
    for row in case.rows {
        edges.push(from_row(alloc, row)?)?;
    }
    Ok(Table {
        edges,
        assumes: 0,
        assumptions: Vec::new(alloc),
        count: case.count,
        within: case.within,
        limit: case.limit,
        total: case.total,
    })
}

fn outcome_of(answer: &Answer) -> Outcome {
    match answer {
        Answer::Explained { widest, .. } => Outcome::Explained(*widest),
        Answer::NotExplained { prefix, .. } => Outcome::NotExplained(*prefix),
        Answer::TotalLimit { after, silent } => Outcome::TotalLimit(*after, *silent),
        _ => Outcome::Other,
    }
}

fn is_placed(entry: &Placed, number: u32) -> bool {
    match entry.state.get(0) {
        Some(value) => {
            entry.place == number / 10 && value.as_int() == Some(i64::from(number % 10))
        }
        None => false,
    }
}

fn are_placed(entries: &[Placed], numbers: &[u32]) -> bool {
    entries.len() == numbers.len()
        && entries
            .iter()
            .zip(numbers.iter())
            .all(|(entry, number)| is_placed(entry, *number))
}

fn holds(alloc: Global, case: &Case) -> Result<bool, AllocError> {
    let table = table_of(alloc, case)?;
    if table.count > 200000
        || table.within < 1
        || table.within > 8
        || table.limit > 100000
        || table.total > 2000000
    {
        return Ok(false);
    }
    let searched = search_entries(alloc, &table)?;
    let last = are_placed(searched.last.as_slice(), case.last);
    Ok(outcome_of(&searched.answer) == case.outcome && last)
}

const FIRST_LINE: Mark = Mark::Line(LineAt { file: 1, line: 0 });

const SECOND_LINE: Mark = Mark::Line(LineAt { file: 1, line: 1 });

const BRANCHING: [Row; 5] = [
    Row(Mark::Init, None, 0),
    Row(FIRST_LINE, Some(0), 10),
    Row(FIRST_LINE, Some(0), 20),
    Row(FIRST_LINE, Some(0), 30),
    Row(SECOND_LINE, Some(20), 12),
];

const COUNTING: [Row; 5] = [
    Row(Mark::Init, None, 0),
    Row(Mark::Silent, Some(0), 1),
    Row(Mark::Silent, Some(1), 2),
    Row(Mark::Silent, Some(2), 3),
    Row(FIRST_LINE, Some(2), 3),
];

const TURNING: [Row; 5] = [
    Row(Mark::Init, None, 10),
    Row(Mark::Init, None, 20),
    Row(Mark::Silent, Some(10), 20),
    Row(Mark::Silent, Some(20), 30),
    Row(Mark::Silent, Some(30), 10),
];

/// The same state at several places, all of one hash; and limits on all layers together that are small.
const CASES: [Case<'static>; 6] = [
    Case {
        rows: &BRANCHING,
        count: 2,
        within: 1,
        limit: 3,
        total: 5,
        outcome: Outcome::Explained(3),
        last: &[],
    },
    Case {
        rows: &BRANCHING,
        count: 3,
        within: 1,
        limit: 3,
        total: 5,
        outcome: Outcome::NotExplained(2),
        last: &[12],
    },
    Case {
        rows: &BRANCHING,
        count: 2,
        within: 1,
        limit: 3,
        total: 3,
        outcome: Outcome::TotalLimit(1, 0),
        last: &[],
    },
    Case {
        rows: &COUNTING,
        count: 1,
        within: 3,
        limit: 10,
        total: 2,
        outcome: Outcome::TotalLimit(0, 2),
        last: &[],
    },
    Case {
        rows: &COUNTING,
        count: 1,
        within: 2,
        limit: 10,
        total: 100,
        outcome: Outcome::NotExplained(0),
        last: &[0, 1],
    },
    Case {
        rows: &TURNING,
        count: 1,
        within: 3,
        limit: 2,
        total: 6,
        outcome: Outcome::NotExplained(0),
        last: &[10, 20, 30],
    },
];

#[test]
fn entries_are_told_apart(rt: HostRuntime) {
    let alloc = rt.alloc();
    for case in &CASES {
        let held = holds(alloc, case) == Ok(true);
        let total = case.total;
        assert!(rt; held, "{total}");
    }
}

ghost use Rattle.std.specs.Prelude.{◌≡◌, ◌↔◌, IsTrue, IfOk};
ghost use Rattle.base_clock_order.specs.Orders.{clocks_of};
ghost use Rattle.base_cuts.specs.Cuts.{next, with_one};
ghost use Rattle.base_cuts.specs.Orders.{AreCountable, IsCut, IsMade, IsReadyAt, by_clock, by_vectors, in_sequence, start};
ghost use Rattle.base_cuts.specs.Views.{logs_of};

use crate::cut::Cut;
use crate::least::is_least;
use crate::sequence::stands_next;
use base_clock_order::LineRef;
use base_clocks::Stamps;
use std::alloc::{AllocError, Global};
use std::marker::Model;

/// What says in which orders the lines of several logs may stand.
#[derive(Drop)]
pub struct Order {
    rule: Rule,
}

/// One sequence of the lines of so many logs, or the clocks of each log, line by line: numbers or vectors.
#[derive(Drop)]
enum Rule {
    InSequence(usize, Vec<LineRef>),
    ByClock(Vec<Vec<i64>>),
    ByVectors(Vec<Vec<Stamps>>),
}

impl Model for Order {
    ghost use Rattle.base_cuts.specs.Orders.{Order as Allowed};

    ghost Value = { Allowed };

    ghost use Rattle.base_cuts.specs.Views.{order_of};

    ghost view = { λ o. order_of o.rule };
}

impl Order {
    /// The lines of so many logs in this order and no other.
    pub fn in_sequence(files: usize, lines: Vec<LineRef>) -> Order
        ensures { result ≡ in_sequence files lines.items }
    {
        Order {
            rule: Rule::InSequence(files, lines),
        }
    }

    /// Each order that the clocks of each log, given line by line, leave open.
    pub fn by_clock(clocks: Vec<Vec<i64>>) -> Order
        ensures { result ≡ by_clock (clocks_of clocks.items) }
    {
        Order {
            rule: Rule::ByClock(clocks),
        }
    }

    /// Each order that the vectors of each log, given line by line, leave open.
    pub fn by_vectors(vectors: Vec<Vec<Stamps>>) -> Order
        ensures { result ≡ by_vectors (logs_of vectors.items) }
    {
        Order {
            rule: Rule::ByVectors(vectors),
        }
    }

    /// The cut at which nothing is taken.
    pub fn start(&self, alloc: Global) -> Result<Cut, AllocError>
        ensures { IfOk result (λ cut. cut ≡ start self.now) }
    {
        match &self.rule {
            Rule::InSequence(files, _) => Cut::none(alloc, *files),
            Rule::ByClock(clocks) => Cut::none(alloc, clocks.len()),
            Rule::ByVectors(vectors) => Cut::none(alloc, vectors.len()),
        }
    }

    /// Whether the next line of the log of that number, from 0, is ready at the cut.
    pub fn ready(&self, cut: &Cut, file: usize) -> bool
        requires made { IsMade self.now }
        requires cut { IsCut self.now cut.now }
        ensures { IsTrue result ↔ IsReadyAt self.now cut.now (next cut.now file) }
    {
        match &self.rule {
            Rule::InSequence(_, lines) => stands_next(lines, cut, file),
            Rule::ByClock(clocks) => is_least(clocks, cut, file),
            Rule::ByVectors(vectors) => is_least(vectors, cut, file),
        }
    }

    /// The cut with the next line of that log, which is ready.
    pub fn take(&self, alloc: Global, cut: &Cut, file: usize) -> Result<Cut, AllocError>
        requires made { IsMade self.now }
        requires countable { AreCountable self.now }
        requires ready { IsReadyAt self.now cut.now (next cut.now file) }
        ensures { IfOk result (λ more. more ≡ with_one cut.now file) }
    {
        cut.with_one(alloc, file)
    }
}

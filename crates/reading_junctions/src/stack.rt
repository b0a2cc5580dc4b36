//! The open lists and constructs, the innermost on top.

ghost use Rattle.std.specs.Prelude.{◌≡◌, List, [], ◌∷◌, OnOk, MatchOption};
ghost use Rattle.reading_trees.specs.Opens.{left_of_some, is_left, is_item, some_list, ends_by_column, ends_by_closing, ends, reaches, without_list, without_cases, closed_by, opens_behind};
ghost use Rattle.reading_junctions.specs.Summary.{summary_of, innermost};

use crate::kinds::{belongs, finishes, is_end, opened_by};
use crate::summary::Summary;
use reading_tokens::{Kind, Token};
use reading_trees::{Bullet, Open};
use std::alloc::{AllocError, Global};
use std::marker::Model;

/// An open list or construct, with the summary of it and all around it.
#[derive(Clone, Copy)]
pub struct Entry {
    item: Open,
    summary: Summary,
}

/// What is open.
///
/// Each test of a token takes constant time, by the summary of the innermost entry.
#[derive(Drop)]
pub struct Stack {
    entries: Vec<Entry>,
}

impl Model for Stack {
    ghost use Rattle.std.specs.Prelude.{List, reverse};
    ghost use Rattle.reading_trees.specs.declared.construct.Open.{Open};

    ghost Value = { List Open };

    ghost use Rattle.reading_junctions.specs.Entries.{opens_of, AreSummed};

    ghost view = { λ s. opens_of (reverse s.entries.items) };

    ghost invariant = { λ s. AreSummed (reverse s.entries.items) };
}

impl Stack {
    pub fn new(alloc: Global) -> Stack
        ensures { result ≡ [] }
    {
        Stack {
            entries: Vec::new(alloc),
        }
    }

    fn summary(&self) -> Summary
        ensures { result ≡ summary_of self.now }
    {
        match self.entries.last() {
            Some(entry) => entry.summary,
            None => Summary::nothing_open(),
        }
    }

    fn push(&mut self, inner: Open) -> Result<(), AllocError>
        ensures { OnOk result (self.new ≡ inner ∷ self.old) }
    {
        let summary = self.summary().with_open(inner);
        self.entries.push(Entry {
            item: inner,
            summary,
        })?;
        Ok(())
    }

    fn pop(&mut self) -> Option<Open>
        ensures { MatchOption result ((self.old ≡ []) × (self.new ≡ [])) (λ inner. self.old ≡ inner ∷ self.new) }
    {
        match self.entries.pop() {
            Some(entry) => Some(entry.item),
            None => None,
        }
    }

    fn clear(&mut self)
        ensures { self.new ≡ [] }
    {
        self.entries.clear();
    }

    fn innermost(&self) -> Option<Open>
        ensures { result ≡ innermost self.now }
    {
        match self.entries.last() {
            Some(entry) => Some(entry.item),
            None => None,
        }
    }

    /// Whether a column is at or left of that of a list inside which a construct other than CASE is
    /// open.
    pub fn is_left(&self, col: u32) -> bool
        ensures { result ≡ is_left col self.now }
    {
        self.summary().is_left(col)
    }

    fn has_list(&self) -> bool
        ensures { result ≡ some_list self.now }
    {
        self.summary().has_list()
    }

    /// Whether a token is the next item of the innermost list.
    pub fn is_item(&self, token: &Token) -> bool
        ensures { result ≡ is_item token.now self.now }
    {
        self.summary().is_item(token)
    }

    fn ends_by_column(&self, col: u32) -> bool
        ensures { result ≡ ends_by_column col self.now }
    {
        self.summary().ends_by_column(col)
    }

    fn reaches(&self, operand: bool, kind: &Kind) -> bool
        ensures { result ≡ reaches operand kind.now self.now }
    {
        self.summary().reaches(operand, kind)
    }

    fn ends_by_closing(&self, operand: bool, kind: &Kind) -> bool
        ensures { result ≡ ends_by_closing operand kind.now self.now }
    {
        self.summary().ends_by_closing(operand, kind)
    }

    /// Whether the innermost list ends before a token.
    pub fn ends_before(&self, operand: bool, token: &Token) -> bool
        ensures { result ≡ ends operand token.now self.now }
    {
        if self.ends_by_column(token.place.col) && !self.is_item(token) {
            return true;
        }
        if self.ends_by_closing(operand, &token.kind) {
            return true;
        }
        is_end(&token.kind) && self.has_list()
    }

    /// Ends the innermost list, with what is open in it.
    pub fn end_list(&mut self)
        ensures { self.new ≡ without_list self.old }
    {
        while let Some(inner) = self.pop() {
            if matches!(inner, Open::List(_, _)) {
                return;
            }
        }
    }

    /// Ends the CASEs in the item of the innermost list.
    pub fn end_cases(&mut self)
        ensures { self.new ≡ without_cases self.old }
    {
        while let Some(Open::Case) = self.innermost() {
            self.pop();
        }
    }

    /// Ends the CASEs after the construct of a closing token, and the construct if it is finished.
    fn close(&mut self, operand: bool, kind: &Kind)
        ensures { self.new ≡ closed_by operand kind.now self.old }
    {
        while let Some(Open::Case) = self.innermost() {
            if belongs(operand, kind, Open::Case) {
                return;
            }
            self.pop();
        }
        if let Some(Open::Inside(construct)) = self.innermost() {
            if finishes(kind, construct) {
                self.pop();
            }
        }
    }

    /// Opens a list.
    pub fn open_list(&mut self, bullet: Bullet, col: u32) -> Result<(), AllocError>
        ensures { OnOk result (self.new ≡ Open.List bullet col ∷ self.old) }
    {
        self.push(Open::List(bullet, col))
    }

    /// Goes past a token that is no bullet.
    pub fn pass(&mut self, operand: bool, kind: &Kind) -> Result<(), AllocError>
        ensures { OnOk result (self.new ≡ opens_behind operand kind.now self.old) }
    {
        if is_end(kind) {
            self.clear();
            return Ok(());
        }
        if let Some(inner) = opened_by(kind) {
            return self.push(inner);
        }
        if self.reaches(operand, kind) {
            self.close(operand, kind);
        }
        Ok(())
    }
}

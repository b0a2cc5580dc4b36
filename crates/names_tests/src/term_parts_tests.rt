use base_core::{Place, Text};
use names_term_parts::{mentions_below, uses_smaller};
use names_terms::{DefId, DefIds, Level, Operator, Own, Term, TermNode, Terms};
use std::alloc::{AllocError, Global};
use std::rt::HostRuntime;

fn term(alloc: Global, node: TermNode) -> Result<Term, AllocError> {
    let at = Place {
        file: 0,
        line: 1,
        col: 60,
    };
    Term::new(alloc, at, Level::Temporal, node)
}

/// `LET d == .. IN F`, where d has this number and F number 2.
fn mentions(alloc: Global, number: DefId) -> Result<Term, AllocError> {
    let inner = term(alloc, TermNode::Use(DefId(2), Terms::new(alloc)))?;
    let mut numbers = DefIds::new(alloc);
    numbers.push(number)?;
    term(alloc, TermNode::Scoped(numbers, inner))
}

fn mentioned(alloc: Global) -> Result<bool, AllocError> {
    let outer = mentions(alloc, DefId(4))?;
    let inner = mentions(alloc, DefId(0))?;
    Ok(
        mentions_below(alloc, 5, &outer)?
            && !mentions_below(alloc, 4, &outer)?
            && mentions_below(alloc, 3, &inner)?
            && !mentions_below(alloc, 2, &inner)?,
    )
}

fn define(alloc: Global, table: &mut Vec<Operator>, node: TermNode) -> Result<(), AllocError> {
    let name = Text::from_text(alloc, "")?;
    let body = term(alloc, node)?;
    table.push(Operator {
        name,
        outer: 0,
        params: 0,
        level: Level::Temporal,
        own: Own::Apart,
        body,
    })?;
    Ok(())
}

/// A definition uses the one before it, and then itself.
fn ordered(alloc: Global) -> Result<bool, AllocError> {
    let mut table = Vec::new(alloc);
    define(alloc, &mut table, TermNode::Slot(0))?;
    define(
        alloc,
        &mut table,
        TermNode::Use(DefId(0), Terms::new(alloc)),
    )?;
    let before = uses_smaller(alloc, &table)?;
    define(
        alloc,
        &mut table,
        TermNode::Use(DefId(2), Terms::new(alloc)),
    )?;
    Ok(before && !uses_smaller(alloc, &table)?)
}

/// A definition that uses itself, with a body of this level.
fn recursive(alloc: Global, level: Level) -> Result<bool, AllocError> {
    let at = Place {
        file: 0,
        line: 1,
        col: 60,
    };
    let node = TermNode::Use(DefId(0), Terms::new(alloc));
    let body = Term::new(alloc, at, level, node)?;
    let mut table = Vec::new(alloc);
    table.push(Operator {
        name: Text::from_text(alloc, "")?,
        outer: 0,
        params: 0,
        level,
        own: Own::Itself,
        body,
    })?;
    uses_smaller(alloc, &table)
}

#[test]
fn definitions_of_smaller_numbers(rt: HostRuntime) {
    let alloc = rt.alloc();
    assert!(rt; mentioned(alloc) == Ok(true));
    assert!(rt; ordered(alloc) == Ok(true));
    assert!(rt; recursive(alloc, Level::Constant) == Ok(true));
    assert!(rt; recursive(alloc, Level::State) == Ok(false));
}

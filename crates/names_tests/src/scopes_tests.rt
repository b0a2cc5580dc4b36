use base_core::{Names, Place, Text};
use names_scopes::{
    Entry, Local, Meant, Named, ProgramNames, Scope, level_for, meaning, mentions, used,
};
use names_terms::{DefId, Level, Operators, TermNode, Terms};
use reading_trees::{Definition, DefinitionForm, Definitions, Expr, Node};
use states_core::VarId;
use std::alloc::{AllocError, Global};
use std::rt::HostRuntime;
use std::test::Fail;

const AT: Place = Place {
    file: 0,
    line: 1,
    col: 1,
};

fn text(alloc: Global, name: &str) -> Result<Text, AllocError> {
    Text::from_text(alloc, name)
}

fn is_slot(named: &Option<Named>, slot: usize) -> bool {
    match named {
        Some(named) => matches!(&named.meant, Meant::Slot(other) if *other == slot),
        None => false,
    }
}

fn is_definition(named: &Option<Named>, needed: usize) -> bool {
    match named {
        Some(named) => named.needed == needed && matches!(&named.meant, Meant::Definition(_)),
        None => false,
    }
}

fn is_variable(named: &Option<Named>, number: u16) -> bool {
    match named {
        Some(named) => matches!(&named.meant, Meant::Variable(other) if other.0 == number),
        None => false,
    }
}

/// `a`, the definition `f` of two parameters, and `b`.
fn scope_of(alloc: Global) -> Result<Scope, AllocError> {
    let mut scope = Scope::new(alloc);
    scope.push(Local::Bound(text(alloc, "a")?))?;
    scope.push(Local::Defined(text(alloc, "f")?, DefId(5), 2))?;
    scope.push(Local::Bound(text(alloc, "b")?))?;
    Ok(scope)
}

// An inner name hides an outer one, and behind a cut the outer one is back.
fn tell_scope(alloc: Global) -> Result<bool, AllocError> {
    let mut scope = scope_of(alloc)?;
    let a = text(alloc, "a")?;
    let outer = is_slot(&scope.meaning(&a), 0) && scope.slots() == 2;
    scope.push(Local::Bound(a.copy()?))?;
    let inner = is_slot(&scope.meaning(&a), 2) && scope.slots() == 3;
    let defined = is_definition(&scope.meaning(&text(alloc, "f")?), 2);
    let none = scope.meaning(&text(alloc, "z")?).is_none();
    scope.cut(3);
    Ok(outer && inner && defined && none && is_slot(&scope.meaning(&a), 0))
}

fn add_variable(
    alloc: Global,
    names: &mut ProgramNames,
    name: &str,
    number: u16,
) -> Result<(), AllocError> {
    names.push(Entry {
        name: text(alloc, name)?,
        is: Named {
            needed: 0,
            meant: Meant::Variable(VarId(number)),
        },
    })
}

// Of equal names of the program the first counts, and a name that is bound hides it.
fn tell_program(alloc: Global) -> Result<bool, AllocError> {
    let mut names = ProgramNames::new(alloc);
    add_variable(alloc, &mut names, "a", 3)?;
    add_variable(alloc, &mut names, "y", 4)?;
    add_variable(alloc, &mut names, "y", 5)?;
    let scope = scope_of(alloc)?;
    let first = is_variable(&meaning(&names, &scope, &text(alloc, "y")?)?, 4);
    let hidden = is_slot(&meaning(&names, &scope, &text(alloc, "a")?)?, 0);
    let none = meaning(&names, &scope, &text(alloc, "z")?)?.is_none();
    Ok(first && hidden && none)
}

fn name_of(alloc: Global, name: &str) -> Result<Expr, AllocError> {
    Ok(Expr::new(alloc, AT, Node::Name(text(alloc, name)?))?)
}

/// `LET f(p) == body IN last`
fn let_of(alloc: Global, body: &str, last: &str) -> Result<Expr, AllocError> {
    let mut params = Names::new(alloc);
    params.push(text(alloc, "p")?)?;
    let mut definitions = Definitions::new(alloc);
    definitions.push(Definition {
        name: text(alloc, "f")?,
        at: AT,
        params,
        form: DefinitionForm::Operator,
        body: name_of(alloc, body)?,
    })?;
    let last = name_of(alloc, last)?;
    Ok(Expr::new(alloc, AT, Node::Let(definitions, last))?)
}

fn mentioned(alloc: Global, name: &str, body: &str, last: &str) -> Result<bool, AllocError> {
    Ok(mentions(&text(alloc, name)?, &let_of(alloc, body, last)?))
}

// A LET hides its definitions and, in each, its parameters.
fn tell_mentions(alloc: Global) -> Result<bool, AllocError> {
    let in_body = mentioned(alloc, "x", "x", "f")?;
    let behind = mentioned(alloc, "x", "p", "x")?;
    let param = mentioned(alloc, "p", "p", "f")?;
    let param_behind = mentioned(alloc, "p", "p", "p")?;
    let defined = mentioned(alloc, "f", "f", "f")?;
    Ok(in_body && behind && !param && param_behind && !defined)
}

#[test]
fn names_have_their_meanings(rt: HostRuntime) -> Result<(), Fail> {
    assert!(rt; tell_scope(rt.alloc())?);
    assert!(rt; tell_program(rt.alloc())?);
    assert!(rt; tell_mentions(rt.alloc())?);
    Ok(())
}

#[test]
fn a_use_has_the_level_of_what_it_means(rt: HostRuntime) -> Result<(), Fail> {
    let table = Operators::new(rt.alloc());
    let variable = used(Meant::Variable(VarId(1)), Terms::new(rt.alloc()));
    assert!(rt; matches!(level_for(&table, &variable), Level::State));
    assert!(rt; matches!(&variable, TermNode::Variable(number) if number.0 == 1));
    Ok(())
}

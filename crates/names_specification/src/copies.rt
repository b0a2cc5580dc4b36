//! Copies of what a configuration gives.

ghost use Rattle.std.specs.Prelude.{◌≡◌, IfOk, map};
ghost use Rattle.reading_trees.specs.Literals.{lit_of};

use base_core::{Names, NoMemory, Text};
use reading_trees::{Given, GivenAt, Givens, Literal, Literals};
use std::alloc::Global;

/// An equal value of its own.
#[cycle(literal)]
fn copy_literal(alloc: Global, literal: &Literal) -> Result<Literal, NoMemory>
    ensures { IfOk result (λ copy. copy ≡ literal.now) }
{
    match literal {
        Literal::Number(number) => Ok(Literal::Number(*number)),
        Literal::Str(text) => Ok(Literal::Str(text.copy()?)),
        Literal::Truth(truth) => Ok(Literal::Truth(*truth)),
        Literal::Model(name) => Ok(Literal::Model(name.copy()?)),
        Literal::Set(members) => Ok(Literal::Set(copy_members(alloc, members)?)),
    }
}

#[cycle(literal)]
fn copy_members(alloc: Global, members: &Literals) -> Result<Literals, NoMemory>
    ensures { IfOk result (λ copy. copy ≡ members.now) }
{
    let mut copy = Literals::new(alloc);
    for member in members.items() {
        copy.push(copy_literal(alloc, member)?)?;
    }
    Ok(copy)
}

fn copy_given(alloc: Global, given: &Given) -> Result<Given, NoMemory>
    ensures { IfOk result (λ copy. copy ≡ given.now) }
{
    match given {
        Given::Constant(literal) => Ok(Given::Constant(copy_literal(alloc, literal)?)),
        Given::Replaced(name, at) => Ok(Given::Replaced(name.copy()?, *at)),
    }
}

fn copy_given_at(alloc: Global, given: &GivenAt) -> Result<GivenAt, NoMemory>
    ensures { IfOk result (λ copy. copy ≡ given.now) }
{
    Ok(GivenAt {
        name: given.name.copy()?,
        at: given.at,
        given: copy_given(alloc, &given.given)?,
    })
}

/// All that is given.
pub(crate) fn copy_givens(alloc: Global, givens: &Givens) -> Result<Givens, NoMemory>
    ensures { IfOk result (λ copy. copy ≡ givens.now) }
{
    let mut copy = Givens::new(alloc);
    for given in givens.items() {
        copy.push(copy_given_at(alloc, given)?)?;
    }
    Ok(copy)
}

/// The same names.
pub(crate) fn copy_names(alloc: Global, names: &Names) -> Result<Names, NoMemory>
    ensures { IfOk result (λ copy. copy ≡ names.now) }
{
    let mut copy = Names::new(alloc);
    for name in names.items() {
        copy.push(name.copy()?)?;
    }
    Ok(copy)
}

/// The same name, if there is one.
pub(crate) fn copy_name(name: &Option<Text>) -> Result<Option<Text>, NoMemory>
    ensures { IfOk result (λ copy. copy ≡ name.now) }
{
    match name {
        Some(name) => Ok(Some(name.copy()?)),
        None => Ok(None),
    }
}

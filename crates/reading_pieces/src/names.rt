//! The names that pieces declare.

ghost use Rattle.std.specs.Prelude.{◌≡◌, ◌++◌, IfOk, OnOk};
ghost use Rattle.reading_pieces.specs.Names.{first_name, name_in, names_in, names_of};

use crate::mark::{Mark, mark_of};
use base_core::{Names, NoMemory};
use reading_tokens::{Kind, Token};
use std::alloc::Global;

/// Adds the name that a token is, if it is one.
fn add_name(names: &mut Names, token: &Token) -> Result<(), NoMemory>
    ensures { OnOk result (names.new ≡ names.old ++ name_in token.now.kind) }
{
    match &token.kind {
        Kind::Name(name) => {
            names.push(name.copy()?)?;
            Ok(())
        }
        _ => Ok(()),
    }
}

/// Adds each name among the tokens.
fn add_names(names: &mut Names, tokens: &[Token]) -> Result<(), NoMemory>
    ensures { OnOk result (names.new ≡ names.old ++ names_in tokens.now) }
{
    for token in tokens {
        add_name(names, token)?;
    }
    Ok(())
}

/// Adds the first of the tokens, if it is a name.
fn add_first(names: &mut Names, tokens: &[Token]) -> Result<(), NoMemory>
    ensures { OnOk result (names.new ≡ names.old ++ first_name tokens.now) }
{
    match tokens {
        [first, ..] => add_name(names, first),
        _ => Ok(()),
    }
}

/// Adds the names that a piece declares.
#[tactic(auto, unfolding(crate::specs::Names::names_of))]
fn add_declared(names: &mut Names, piece: &[Token]) -> Result<(), NoMemory>
    ensures { OnOk result (names.new ≡ names.old ++ names_of piece.now) }
{
    match piece {
        [first, behind @ ..] => match mark_of(first) {
            Mark::Declare | Mark::Recursive => add_names(names, behind),
            Mark::Local => add_first(names, behind),
            Mark::Name => add_name(names, first),
            _ => Ok(()),
        },
        _ => Ok(()),
    }
}

/// The names that a piece declares.
pub fn names_of(alloc: Global, piece: &[Token]) -> Result<Names, NoMemory>
    ensures { IfOk result (λ names. names ≡ names_of piece.now) }
{
    let mut names = Names::new(alloc);
    add_declared(&mut names, piece)?;
    Ok(names)
}

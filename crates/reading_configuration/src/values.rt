//! The values of constants.

ghost use Rattle.std.specs.Prelude.{◌≡◌, IfOk, OnOk, Ok};
ghost use Rattle.reading_configuration.specs.Steps.{Goes, placed, value_step, negative_step, close_step, first_member_step, separator_step};

use crate::expects::{Assigned, Expects, Further};
use crate::fault::{Stop, syntax};
use crate::mark::Mark;
use crate::sets::Sets;
use base_core::limits::MAX_BRACES;
use reading_trees::{Config, Given, GivenAt, Literal, Literals};
use std::alloc::Global;

/// What comes behind a value: it is a member of the innermost open set, or the constant's value.
fn place(
    value: Literal,
    assigned: Assigned,
    mut sets: Sets,
    config: &mut Config,
) -> Result<Expects, Stop>
    ensures { Goes (Ok (placed value assigned sets config.old)) result config.new }
{
    match sets.pop() {
        Some(mut set) => {
            set.push(value)?;
            sets.push(set)?;
            Ok(Expects::Separator(assigned, sets))
        }
        None => {
            config.givens.push(GivenAt {
                name: assigned.name,
                at: assigned.at,
                given: Given::Constant(value),
            })?;
            Ok(Expects::Statement(Further::Assignment))
        }
    }
}

/// A value, or what begins one.
pub(crate) fn value(
    alloc: Global,
    assigned: Assigned,
    mut sets: Sets,
    mark: Mark,
    config: &mut Config,
) -> Result<Expects, Stop>
    ensures { Goes (value_step assigned sets config.old mark) result config.new }
{
    match mark {
        Mark::Name(name, _) => place(Literal::Model(name), assigned, sets, config),
        Mark::Number(number) => {
            if number < 0 {
                return Err(syntax());
            }
            place(Literal::Number(number), assigned, sets, config)
        }
        Mark::Str(text) => place(Literal::Str(text), assigned, sets, config),
        Mark::Truth(truth) => place(Literal::Truth(truth), assigned, sets, config),
        Mark::Minus => Ok(Expects::Number(assigned, sets)),
        Mark::Open => {
            if sets.len() == MAX_BRACES {
                return Err(syntax());
            }
            sets.push(Literals::new(alloc))?;
            Ok(Expects::FirstMember(assigned, sets))
        }
        _ => Err(syntax()),
    }
}

/// The number behind `-`.
pub(crate) fn negative(
    assigned: Assigned,
    sets: Sets,
    mark: Mark,
    config: &mut Config,
) -> Result<Expects, Stop>
    ensures { Goes (negative_step assigned sets config.old mark) result config.new }
{
    match mark {
        Mark::Number(number) => {
            if number < 0 {
                return Err(syntax());
            }
            place(Literal::Number(-number), assigned, sets, config)
        }
        _ => Err(syntax()),
    }
}

/// What comes behind `}`.
fn close(assigned: Assigned, mut sets: Sets, config: &mut Config) -> Result<Expects, Stop>
    ensures { Goes (close_step assigned sets config.old) result config.new }
{
    match sets.pop() {
        Some(set) => place(Literal::Set(set), assigned, sets, config),
        None => Err(syntax()),
    }
}

/// A first value behind `{`, or `}`.
pub(crate) fn first_member(
    alloc: Global,
    assigned: Assigned,
    sets: Sets,
    mark: Mark,
    config: &mut Config,
) -> Result<Expects, Stop>
    ensures { Goes (first_member_step assigned sets config.old mark) result config.new }
{
    match mark {
        Mark::Close => close(assigned, sets, config),
        mark => value(alloc, assigned, sets, mark, config),
    }
}

/// `,` and a further value, or `}`.
pub(crate) fn separator(
    assigned: Assigned,
    sets: Sets,
    mark: Mark,
    config: &mut Config,
) -> Result<Expects, Stop>
    ensures { Goes (separator_step assigned sets config.old mark) result config.new }
{
    match mark {
        Mark::Close => close(assigned, sets, config),
        Mark::Comma => Ok(Expects::Value(assigned, sets)),
        _ => Err(syntax()),
    }
}

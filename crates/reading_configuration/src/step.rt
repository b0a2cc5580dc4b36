//! What a configuration goes on with, mark by mark.

ghost use Rattle.std.specs.Prelude.{◌≡◌, true, codes, IfOk, OnOk, Ok};
ghost use Rattle.reading_configuration.specs.declared.expects.Expects.TheVariants.{Statement};
ghost use Rattle.reading_configuration.specs.declared.expects.Further.TheVariants.{Nothing};
ghost use Rattle.reading_configuration.specs.Keywords.{keyword_of};
ghost use Rattle.reading_configuration.specs.Given.{is_chosen, is_assigned, has_behaviour, line_of, with_unchecked, with_choice};
ghost use Rattle.reading_configuration.specs.Steps.{Goes, step, statement_step, word_step, further_step, assigned_step, choice_step, name_step, truth_step, first_step, sign_step, replacement_step, end_step};

use crate::expects::{Assigned, Expects, Further};
use crate::fault::{ConfigKind, Stop, syntax};
use crate::keyword::{Keyword, Listed, Part, keyword_of};
use crate::mark::Mark;
use crate::sets::Sets;
use crate::values;
use base_core::{Place, Text};
use reading_trees::{Config, Given, GivenAt};
use std::alloc::{AllocError, Global};

/// Whether something was given for the name.
fn is_assigned(name: &Text, config: &Config) -> bool
    ensures { result ≡ is_assigned name.now config.now.givens }
{
    config.givens.items().iter().any(|g| g.name == *name)
}

/// A name that is assigned.
fn assigned(name: Text, at: Place, config: &Config) -> Result<Expects, Stop>
    ensures { Goes (assigned_step true config.now name at) result config.now }
{
    if is_assigned(&name, config) {
        return Err(Stop::Refused(ConfigKind::Twice(name)));
    }
    Ok(Expects::Sign(Assigned { name, at }))
}

/// The first name that is assigned behind CONSTANT.
fn first(mark: Mark, config: &Config) -> Result<Expects, Stop>
    ensures { Goes (first_step true config.now mark) result config.now }
{
    match mark {
        Mark::Name(name, at) => assigned(name, at, config),
        _ => Err(syntax()),
    }
}

/// What a line of the report has for a name that is not checked.
fn line(alloc: Global, listed: Listed, name: &Text) -> Result<Text, AllocError>
    ensures { IfOk result (λ line. line ≡ line_of listed name.now) }
{
    let name = name.as_str();
    let line = match listed {
        Listed::Invariant => format!(in alloc; "INVARIANT {name}")?,
        Listed::Property => format!(in alloc; "PROPERTY {name}")?,
    };
    Text::from_text(alloc, line.as_str())
}

/// A name of a list.
fn listed(alloc: Global, listed: Listed, mark: Mark, config: &mut Config) -> Result<Expects, Stop>
    ensures { Goes (name_step listed config.old mark) result config.new }
{
    match mark {
        Mark::Name(name, _) => {
            let line = line(alloc, listed, &name)?;
            config.unchecked.push(line)?;
            Ok(Expects::Statement(Further::Name(listed)))
        }
        _ => Err(syntax()),
    }
}

/// The name behind INIT, NEXT or SPECIFICATION.
fn choice(part: Part, mark: Mark, config: &mut Config) -> Result<Expects, Stop>
    ensures { Goes (choice_step part config.old mark) result config.new }
{
    match mark {
        Mark::Name(name, _) => {
            match part {
                Part::Init => config.init = Some(name),
                Part::Next => config.next = Some(name),
                Part::Specification => config.specification = Some(name),
            }
            Ok(Expects::Statement(Further::Nothing))
        }
        _ => Err(syntax()),
    }
}

/// CHECK_DEADLOCK is not checked.
fn deadlock(alloc: Global, config: &mut Config) -> Result<Expects, Stop>
    ensures { Goes (Ok (Statement Nothing, with_unchecked config.old (codes "CHECK_DEADLOCK"))) result config.new }
{
    let line = Text::from_text(alloc, "CHECK_DEADLOCK")?;
    config.unchecked.push(line)?;
    Ok(Expects::Statement(Further::Nothing))
}

/// What stands behind CHECK_DEADLOCK.
fn truth(alloc: Global, mark: Mark, config: &mut Config) -> Result<Expects, Stop>
    ensures { Goes (truth_step config.old mark) result config.new }
{
    match mark {
        Mark::Truth(_) => deadlock(alloc, config),
        _ => Err(syntax()),
    }
}

/// `=` or `<-` behind a name that is assigned.
fn sign(alloc: Global, assigned: Assigned, mark: Mark, config: &Config) -> Result<Expects, Stop>
    ensures { Goes (sign_step assigned config.now mark) result config.now }
{
    match mark {
        Mark::Equal => Ok(Expects::Value(assigned, Sets::new(alloc))),
        Mark::Replaces => Ok(Expects::Replacement(assigned)),
        _ => Err(syntax()),
    }
}

/// The name behind `<-`.
fn replacement(assigned: Assigned, mark: Mark, config: &mut Config) -> Result<Expects, Stop>
    ensures { Goes (replacement_step assigned config.old mark) result config.new }
{
    match mark {
        Mark::Name(name, at) => {
            config.givens.push(GivenAt {
                name: assigned.name,
                at: assigned.at,
                given: Given::Replaced(name, at),
            })?;
            Ok(Expects::Statement(Further::Assignment))
        }
        _ => Err(syntax()),
    }
}

/// Whether the name behind this word was given.
fn is_chosen(part: Part, config: &Config) -> bool
    ensures { result ≡ is_chosen config.now part }
{
    match part {
        Part::Init => config.init.is_some(),
        Part::Next => config.next.is_some(),
        Part::Specification => config.specification.is_some(),
    }
}

/// A name that begins no statement.
fn further(
    alloc: Global,
    further: Further,
    name: Text,
    at: Place,
    config: &mut Config,
) -> Result<Expects, Stop>
    ensures { Goes (further_step true further config.old name at) result config.new }
{
    match further {
        Further::Nothing => Err(syntax()),
        Further::Name(list) => listed(alloc, list, Mark::Name(name, at), config),
        Further::Assignment => assigned(name, at, config),
    }
}

/// A name where a statement may begin.
fn word(
    alloc: Global,
    may: Further,
    name: Text,
    at: Place,
    config: &mut Config,
) -> Result<Expects, Stop>
    ensures { Goes (word_step true may config.old name at (keyword_of name)) result config.new }
{
    match keyword_of(name.as_str()) {
        Some(Keyword::Chooses(part)) => {
            if is_chosen(part, config) {
                return Err(Stop::Refused(ConfigKind::Twice(name)));
            }
            Ok(Expects::Choice(part))
        }
        Some(Keyword::Lists(listed)) => Ok(Expects::FirstName(listed)),
        Some(Keyword::Deadlock) => Ok(Expects::Truth),
        Some(Keyword::Unsupported) => Err(Stop::Refused(ConfigKind::Unsupported(name))),
        None => further(alloc, may, name, at, config),
    }
}

/// Whether there is SPECIFICATION alone, or INIT and NEXT without it.
fn has_behaviour(config: &Config) -> bool
    ensures { result ≡ has_behaviour config.now }
{
    if config.specification.is_some() {
        config.init.is_none() && config.next.is_none()
    } else {
        config.init.is_some() && config.next.is_some()
    }
}

/// The end of the text.
fn end(config: &Config) -> Result<Expects, Stop>
    ensures { Goes (end_step true config.now) result config.now }
{
    if has_behaviour(config) {
        Ok(Expects::Statement(Further::Nothing))
    } else {
        Err(Stop::Refused(ConfigKind::NoBehaviour))
    }
}

/// What stands where a statement may begin.
fn statement(alloc: Global, may: Further, mark: Mark, config: &mut Config) -> Result<Expects, Stop>
    ensures { Goes (statement_step true true may config.old mark) result config.new }
{
    match mark {
        Mark::Name(name, at) => word(alloc, may, name, at, config),
        Mark::Constants => Ok(Expects::FirstAssignment),
        Mark::End => end(config),
        _ => Err(syntax()),
    }
}

/// What the mark leads to.
pub(crate) fn step(
    alloc: Global,
    expects: Expects,
    mark: Mark,
    config: &mut Config,
) -> Result<Expects, Stop>
    ensures { Goes (step true true expects config.old mark) result config.new }
{
    match expects {
        Expects::Statement(may) => statement(alloc, may, mark, config),
        Expects::Choice(part) => choice(part, mark, config),
        Expects::FirstName(list) => listed(alloc, list, mark, config),
        Expects::Truth => truth(alloc, mark, config),
        Expects::FirstAssignment => first(mark, config),
        Expects::Sign(assigned) => sign(alloc, assigned, mark, config),
        Expects::Replacement(assigned) => replacement(assigned, mark, config),
        Expects::Value(assigned, sets) => values::value(alloc, assigned, sets, mark, config),
        Expects::Number(assigned, sets) => values::negative(assigned, sets, mark, config),
        Expects::FirstMember(assigned, sets) => {
            values::first_member(alloc, assigned, sets, mark, config)
        }
        Expects::Separator(assigned, sets) => values::separator(assigned, sets, mark, config),
    }
}

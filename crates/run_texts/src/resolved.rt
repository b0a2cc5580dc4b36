ghost use Rattle.std.specs.Prelude.{◌≡◌, ◌++◌, IfOk, OnOk, string_bytes};
ghost use Rattle.run_texts.specs.Places.{at_place, detail, found_needed, refused};
ghost use Rattle.run_texts.specs.Resolved.{level_number, found_allowed, names_refusal};

use crate::places::{
    push_at, push_detail, push_found_needed, refusal, refused_alone, refused_at, refused_detail,
};
use base_core::{Names, NoMemory, Place};
use names_resolving::ResolveFault;
use names_terms::Level;
use std::alloc::Global;

/// The line for a program that is no specification.
pub fn names_refusal(alloc: Global, files: &Names, fault: &ResolveFault) -> Result<String, NoMemory>
    ensures { IfOk result (λ t. string_bytes t ≡ names_refusal files.now fault.now) }
{
    match fault {
        ResolveFault::UnknownName(name, at)
        | ResolveFault::NoValue(name, at)
        | ResolveFault::Recursion(name, at)
        | ResolveFault::NotAVariable(name, at)
        | ResolveFault::NoSubstitute(name, at) => {
            refused_detail(alloc, files, fault.code(), name.as_str(), *at)
        }
        ResolveFault::WrongArity(name, found, needed, at) => {
            arity_refusal(
                alloc,
                files,
                fault.code(),
                name.as_str(),
                *found,
                *needed,
                *at,
            )
        }
        ResolveFault::LevelTooHigh(found, allowed, at) => {
            level_refusal(alloc, files, fault.code(), *found, *allowed, *at)
        }
        ResolveFault::PrimedArgument(at)
        | ResolveFault::NotTheShape(at)
        | ResolveFault::TooManyVariables(at) => refused_at(alloc, files, fault.code(), *at),
        ResolveFault::NoOperator(name) => refused_alone(alloc, fault.code(), name.as_str()),
        ResolveFault::NoMemory => String::from_str(alloc, ""),
    }
}

/// The line for a name with another number of arguments than it takes.
fn arity_refusal(
    alloc: Global,
    files: &Names,
    what: &str,
    name: &str,
    found: usize,
    needed: usize,
    at: Place,
) -> Result<String, NoMemory>
    ensures { IfOk result (λ t. string_bytes t ≡ refused what.now (detail name.now ++ found_needed found needed ++ at_place files.now at)) }
{
    let mut text = refusal(alloc, what)?;
    push_detail(&mut text, name)?;
    push_found_needed(&mut text, found, needed)?;
    push_at(&mut text, files, at)?;
    text.push_str("\n")?;
    Ok(text)
}

/// The line for a part of too high a level.
fn level_refusal(
    alloc: Global,
    files: &Names,
    what: &str,
    found: Level,
    allowed: Level,
    at: Place,
) -> Result<String, NoMemory>
    ensures { IfOk result (λ t. string_bytes t ≡ refused what.now (found_allowed found allowed ++ at_place files.now at)) }
{
    let mut text = refusal(alloc, what)?;
    push_levels(&mut text, found, allowed)?;
    push_at(&mut text, files, at)?;
    text.push_str("\n")?;
    Ok(text)
}

/// Adds a level, and the highest that there may be.
fn push_levels(text: &mut String, found: Level, allowed: Level) -> Result<(), NoMemory>
    ensures { OnOk result (string_bytes text.new ≡ string_bytes text.old ++ found_allowed found allowed) }
{
    let found = level_number(found);
    let allowed = level_number(allowed);
    write!(text, " found={found} allowed={allowed}")
}

/// A level as a number.
fn level_number(level: Level) -> u32
    ensures { result ≡ level_number level }
{
    match level {
        Level::Constant => 0,
        Level::State => 1,
        Level::Action => 2,
        Level::Temporal => 3,
    }
}

ghost use Rattle.std.specs.Prelude.{◌≡◌, [], ◌∷◌, IfOk};
ghost use Rattle.names_scopes.specs.Mentions.{is_one_of};
ghost use Rattle.names_resolving.specs.FaultCodes.{resolve_code};
ghost use Rattle.names_resolving.specs.Refusals.{before_mark, instance_names, of_level, of_name, told_name, without_mark};

use base_core::{NoMemory, Place, Text};
use names_meanings::NameFault;
use names_term_parts::LevelFault;
use names_terms::Level;
use reading_trees::{Unit, Units};
use std::alloc::Global;
use thiserror::Error;

/// Why a program with its configuration is no specification.
#[derive(Debug, Drop, Error)]
pub enum ResolveFault {
    /// The place of the 65th variable.
    #[error("{} at {}", self.code(), .0)]
    TooManyVariables(Place),
    #[error("{} {} at {}", self.code(), .0.as_str(), .1)]
    UnknownName(Text, Place),
    /// A name, how many arguments it has there, and how many it takes.
    #[error("{} {} at {}", self.code(), .0.as_str(), .3)]
    WrongArity(Text, usize, usize, Place),
    /// A definition that uses itself, at its name.
    #[error("{} {} at {}", self.code(), .0.as_str(), .1)]
    Recursion(Text, Place),
    /// A constant for which the configuration gives nothing, where it is declared.
    #[error("{} {} at {}", self.code(), .0.as_str(), .1)]
    NoValue(Text, Place),
    /// The level of a part, the highest that it may have, and the place of the term that has the part.
    #[error("{} at {}", self.code(), .2)]
    LevelTooHigh(Level, Level, Place),
    /// The place of an argument whose parameter stands under a prime.
    #[error("{} at {}", self.code(), .0)]
    PrimedArgument(Place),
    /// A name behind INIT, NEXT, SPECIFICATION or `--silent` that no definition without parameters has.
    #[error("{} {}", self.code(), .0.as_str())]
    NoOperator(Text),
    /// The definition behind SPECIFICATION, whose body is no conjunction that gives Init and Next.
    #[error("{} at {}", self.code(), .0)]
    NotTheShape(Place),
    /// A variable of the module of an instance whose substitute is no variable, at the substitute.
    #[error("{} {} at {}", self.code(), .0.as_str(), .1)]
    NotAVariable(Text, Place),
    /// A constant or variable of the module of an instance that has no substitute, at the instance.
    #[error("{} {} at {}", self.code(), .0.as_str(), .1)]
    NoSubstitute(Text, Place),
    #[error("out of memory")]
    NoMemory,
}

impl ResolveFault {
    /// The code and the name of the refusal.
    pub fn code(&self) -> &'static str
        ensures { result.now ≡ resolve_code self.now }
    {
        match self {
            ResolveFault::UnknownName(_, _) => "V1 UnknownName",
            ResolveFault::WrongArity(_, _, _, _) => "V2 WrongArity",
            ResolveFault::LevelTooHigh(_, _, _) => "V3 LevelTooHigh",
            ResolveFault::PrimedArgument(_) => "V4 PrimedArgument",
            ResolveFault::NoValue(_, _) => "V5 NoValue",
            ResolveFault::NotTheShape(_) => "V6 NotTheShape",
            ResolveFault::Recursion(_, _) => "V7 Recursion",
            ResolveFault::TooManyVariables(_) => "V8 TooManyVariables",
            ResolveFault::NoOperator(_) => "V9 NoOperator",
            ResolveFault::NotAVariable(_, _) => "V10 NotAVariable",
            ResolveFault::NoSubstitute(_, _) => "V11 NoSubstitute",
            ResolveFault::NoMemory => "",
        }
    }
}

impl From<NoMemory> for ResolveFault {
    ghost use Rattle.std.specs.Prelude.{◌≡◌};
    ghost use Rattle.names_resolving.specs.declared.fault.ResolveFault.TheVariants.{NoMemory as Wanting};

    ghost from_gives = { λ _ e. e ≡ Wanting };

    fn from(_e: NoMemory) -> ResolveFault {
        ResolveFault::NoMemory
    }
}

/// The part of a name before its first mark, or the whole name where it has none.
fn before_mark(name: &str) -> &str
    ensures { result.now ≡ before_mark name.now }
{
    match name.split_once('!') {
        Some((part, _)) => part,
        None => name,
    }
}

/// A name without the mark that it begins with.
fn without_mark(name: &str) -> &str
    ensures { result.now ≡ without_mark name.now }
{
    match name.strip_prefix('!') {
        Some(rest) => rest,
        None => name,
    }
}

/// Whether a unit is an instance of that name.
fn is_instance(unit: &Unit, name: &str) -> bool
    ensures { result ≡ is_one_of name.now (instance_names (unit.now ∷ [])) }
{
    match unit {
        Unit::Instance(made) => made.name.as_str() == name,
        Unit::Variables(_) => false,
        Unit::Constants(_) => false,
        Unit::Define(_) => false,
        Unit::Assume(_) => false,
        Unit::Recursive(_) => false,
        Unit::Passed => false,
    }
}

/// Whether an instance among these units has that name.
fn has_instance(units: &Units, name: &str) -> bool
    ensures { result ≡ is_one_of name.now (instance_names units.now) }
{
    for unit in units.items() {
        if is_instance(unit, name) {
            return true;
        }
    }
    false
}

/// The name that is told of one that means nothing in a program with these units.
fn told_name(alloc: Global, units: &Units, name: &Text) -> Result<Text, NoMemory>
    ensures { IfOk result (λ told. told ≡ told_name (instance_names units.now) name.now) }
{
    let text = name.as_str();
    if has_instance(units, before_mark(text)) {
        return name.copy();
    }
    Text::from_text(alloc, before_mark(without_mark(without_mark(text))))
}

/// What is wrong with a name of a program with these units.
pub(crate) fn of_name(
    alloc: Global,
    units: &Units,
    fault: NameFault,
) -> Result<ResolveFault, NoMemory>
    ensures { IfOk result (λ refusal. refusal ≡ of_name (instance_names units.now) fault) }
{
    match fault {
        NameFault::UnknownName(name, at) => {
            let told = told_name(alloc, units, &name)?;
            Ok(ResolveFault::UnknownName(told, at))
        }
        NameFault::WrongArity(name, found, needed, at) => {
            let told = Text::from_text(alloc, without_mark(name.as_str()))?;
            Ok(ResolveFault::WrongArity(told, found, needed, at))
        }
        NameFault::Recursion(name, at) => Ok(ResolveFault::Recursion(name, at)),
        NameFault::NoMemory => Ok(ResolveFault::NoMemory),
    }
}

/// What is wrong with a level.
pub(crate) fn of_level(fault: LevelFault) -> ResolveFault
    ensures { result ≡ of_level fault }
{
    match fault {
        LevelFault::TooHigh(found, allowed, at) => ResolveFault::LevelTooHigh(found, allowed, at),
        LevelFault::PrimedArgument(at) => ResolveFault::PrimedArgument(at),
    }
}

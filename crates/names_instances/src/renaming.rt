//! What stands for the names of a module.

ghost use Rattle.std.specs.Prelude.{◌≡◌, [], IfOk, map, Some};
ghost use Rattle.reading_trees.specs.Grammar.{qualified};
ghost use Rattle.names_instances.specs.Instances.{brings, declares, declares_operator, for_variable, names_in_unit, names_own, substitute_for, unknown};
ghost use Rattle.names_instances.specs.Renamed.{instance_names, renamed};

use crate::substitutes::Substitutes;
use base_core::{NoMemory, Text};
use names_scopes::Entry;
use reading_trees::{
    Declared, DeclaredNames, DeclaredOperators, Expr, Node, Unit, Units, qualified,
};
use std::alloc::Global;

/// What tells which names stand for those of a module in an instance of it.
#[derive(Drop)]
pub(crate) struct InstanceNames<'a> {
    /// The name of the instance.
    pub instance: &'a Text,
    /// The variables of the module.
    pub variables: Vec<&'a Declared>,
    /// The units of the module.
    pub units: &'a Units,
    pub with: &'a Substitutes,
    /// The names that standard modules bring to the module.
    pub standard: Vec<Entry>,
}

/// Which names of a tree become others, where nothing binds them.
#[derive(Drop)]
pub(crate) enum Renaming<'a> {
    Nothing,
    Instance(InstanceNames<'a>),
}

/// Whether a name is one of these that a module declares.
fn declares(declared: &[&Declared], name: &Text) -> bool
    ensures { result ≡ declares (map (λ d. d.now) declared.now) name.now }
{
    for other in declared {
        if other.name == *name {
            return true;
        }
    }
    false
}

/// Whether a name is that of a constant that a unit declares.
fn declares_constant(constants: &DeclaredNames, name: &Text) -> bool
    ensures { result ≡ declares constants.now name.now }
{
    for constant in constants.items() {
        if constant.name == *name {
            return true;
        }
    }
    false
}

/// Whether a name is that of an operator that a unit declares.
fn declares_operator(operators: &DeclaredOperators, name: &Text) -> bool
    ensures { result ≡ declares_operator operators.now name.now }
{
    for operator in operators.items() {
        if operator.name == *name {
            return true;
        }
    }
    false
}

/// Whether a unit defines a name, or declares it as a constant or an operator.
fn names_in_unit(unit: &Unit, name: &Text) -> bool
    ensures { result ≡ names_in_unit unit.now name.now }
{
    match unit {
        Unit::Define(definition) => definition.name == *name,
        Unit::Constants(constants) => declares_constant(constants, name),
        Unit::Recursive(operators) => declares_operator(operators, name),
        Unit::Variables(_) => false,
        Unit::Instance(_) => false,
        Unit::Assume(_) => false,
        Unit::Passed => false,
    }
}

/// Whether units of a module do so.
fn names_own(units: &Units, name: &Text) -> bool
    ensures { result ≡ names_own units.now name.now }
{
    for unit in units.items() {
        if names_in_unit(unit, name) {
            return true;
        }
    }
    false
}

/// Whether a name is one of these that standard modules bring.
fn brings(entries: &[Entry], name: &Text) -> bool
    ensures { result ≡ brings entries.now name.now }
{
    for entry in entries {
        if entry.name == *name {
            return true;
        }
    }
    false
}

/// The name `!y` of a variable y, which no bound name hides.
fn variable_name(alloc: Global, variable: &Text) -> Result<Text, NoMemory>
    ensures { IfOk result (λ q. q ≡ qualified [] variable.now) }
{
    let nothing = Text::from_text(alloc, "")?;
    qualified(alloc, &nothing, variable)
}

/// The name `!!n` of a name that means nothing in the module.
fn unknown(alloc: Global, name: &Text) -> Result<Text, NoMemory>
    ensures { IfOk result (λ q. q ≡ unknown name.now) }
{
    let marked = variable_name(alloc, name)?;
    variable_name(alloc, &marked)
}

/// What stands for a variable that has this substitute.
fn for_substitute(
    alloc: Global,
    instance: &Text,
    name: &Text,
    substitute: &Expr,
) -> Result<Text, NoMemory>
    ensures { IfOk result (λ q. q ≡ for_variable instance.now name.now (Some substitute.now)) }
{
    match &*substitute.node {
        Node::Name(variable) => variable_name(alloc, variable),
        _ => qualified(alloc, instance, name),
    }
}

impl InstanceNames<'_> {
    /// What stands for a variable of the module.
    fn for_variable(&self, alloc: Global, name: &Text) -> Result<Text, NoMemory>
        ensures { IfOk result (λ q. q ≡ for_variable self.now.instance.now name.now (substitute_for self.now.with.now name.now)) }
    {
        match self.with.get(name) {
            Some(substitute) => for_substitute(alloc, self.instance, name, substitute),
            None => qualified(alloc, self.instance, name),
        }
    }

    /// The qualified name that stands for a name of the module, or none where the name stays.
    fn stand_in(&self, alloc: Global, name: &Text) -> Result<Option<Text>, NoMemory>
        ensures { IfOk result (λ q. q ≡ instance_names self.now name.now) }
    {
        if declares(&self.variables, name) {
            return Ok(Some(self.for_variable(alloc, name)?));
        }
        if names_own(self.units, name) {
            return Ok(Some(qualified(alloc, self.instance, name)?));
        }
        if brings(&self.standard, name) {
            return Ok(None);
        }
        Ok(Some(unknown(alloc, name)?))
    }
}

impl Renaming<'_> {
    /// The qualified name that stands for a name where nothing binds it, or none where the name stays.
    pub fn stand_in(&self, alloc: Global, name: &Text) -> Result<Option<Text>, NoMemory>
        ensures { IfOk result (λ q. q ≡ renamed self.now name.now) }
    {
        match self {
            Renaming::Nothing => Ok(None),
            Renaming::Instance(names) => names.stand_in(alloc, name),
        }
    }
}

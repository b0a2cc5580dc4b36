//! The names of a program while its definitions get their numbers.

ghost use Rattle.std.specs.Prelude.{◌≡◌, ◌++◌, ◌<◌, ◌≤◌, ℕ, IfOk, OnOk, List, [], None, Some, get_or, length};
ghost use Rattle.values_core.specs.Data.{Val};
ghost use Rattle.reading_trees.specs.declared.config.Config.{Config};
ghost use Rattle.reading_trees.specs.declared.module.Program.{Program};
ghost use Rattle.names_scopes.specs.Scopes.{among};
ghost use Rattle.names_scopes.specs.Standing.{AreIn, IsIn};
ghost use Rattle.names_program.specs.Names.{AreByDefinition, AreNames, Numbers, by_index, numbered, numbered_meant, numbers_of, only_definition, with_number};
ghost use Rattle.names_program.specs.Told.{defined_by, entry_if, told};

use base_core::{NoMemory, Text};
use names_scopes::{Entry, Meant, Named, ProgramNames};
use names_terms::DefId;
use std::alloc::Global;

/// The number of the definition of that index.
fn number_at(numbers: &[Option<usize>], index: usize) -> Option<usize>
    ensures { result ≡ numbers_of numbers.now index }
{
    match numbers.get(index) {
        Some(number) => *number,
        None => None,
    }
}

/// What is meant, each definition told by its number.
fn numbered_meant(meant: &Meant, numbers: &[Option<usize>]) -> Result<Option<Meant>, NoMemory>
    ensures { IfOk result (λ m. m ≡ numbered_meant (numbers_of numbers.now) meant.now) }
{
    match meant {
        Meant::Definition(index) => match number_at(numbers, index.0) {
            Some(number) => Ok(Some(Meant::Definition(DefId(number)))),
            None => Ok(None),
        },
        Meant::Slot(slot) => Ok(Some(Meant::Slot(*slot))),
        Meant::Variable(variable) => Ok(Some(Meant::Variable(*variable))),
        Meant::Known(value) => Ok(Some(Meant::Known(value.copy()?))),
        Meant::Set(set) => Ok(Some(Meant::Set(*set))),
        Meant::Standard(operator) => Ok(Some(Meant::Standard(*operator))),
    }
}

/// Adds the name, if it means something under the numbers.
fn add_meaning(
    names: &mut ProgramNames,
    name: &Text,
    is: &Named,
    numbers: &[Option<usize>],
) -> Result<(), NoMemory>
    ensures { OnOk result (names.new ≡ names.old ++ entry_if name.now (numbered (numbers_of numbers.now) (Some is.now))) }
{
    match numbered_meant(&is.meant, numbers)? {
        Some(meant) => {
            let name = name.copy()?;
            let needed = is.needed;
            names.push(Entry {
                name,
                is: Named { needed, meant },
            })
        }
        None => Ok(()),
    }
}

/// Adds the name with what it means among all names, if that is something under the numbers.
fn add_numbered_name(
    names: &mut ProgramNames,
    all: &ProgramNames,
    name: &Text,
    numbers: &[Option<usize>],
) -> Result<(), NoMemory>
    ensures { OnOk result (names.new ≡ names.old ++ entry_if name.now (numbered (numbers_of numbers.now) (among all.now name.now))) }
{
    match all.get(name) {
        Some(first) => add_meaning(names, name, &first.is, numbers),
        None => Ok(()),
    }
}

/// From names that tell definitions by their indices those that tell them by these numbers. A definition that has none hides what has its name.
pub fn numbered_names(
    alloc: Global,
    names: &ProgramNames,
    numbers: &[Option<usize>],
) -> Result<ProgramNames, NoMemory>
    ensures are { IfOk result (λ ns. (p : Program) (c : Config) (values : List Val) → AreNames p c values by_index names.now → AreNames p c values (numbers_of numbers.now) ns) }
    ensures within { IfOk result (λ ns. (count : ℕ) → ((i k : ℕ) → numbers_of numbers.now i ≡ Some k → k < count) → AreIn count ns) }
{
    let mut found = ProgramNames::new(alloc);
    for entry in names.items() {
        add_numbered_name(&mut found, names, &entry.name, numbers)?;
    }
    Ok(found)
}

/// Adds the name to the list of the definition that it means, if it means one.
fn add_to_definition(lists: &mut Vec<ProgramNames>, name: &Text, is: &Named) -> Result<(), NoMemory>
    requires within { IsIn (length lists.old.items) is.now.meant }
    ensures count { OnOk result (length lists.new.items ≡ length lists.old.items) }
    ensures added { OnOk result ((i : ℕ) → get_or lists.new.items i [] ≡ get_or lists.old.items i [] ++ entry_if name.now (only_definition i (Some is.now))) }
{
    match &is.meant {
        Meant::Definition(index) => {
            let name = name.copy()?;
            let meant = Meant::Definition(*index);
            let needed = is.needed;
            lists[index.0].push(Entry {
                name,
                is: Named { needed, meant },
            })
        }
        Meant::Slot(_) => Ok(()),
        Meant::Variable(_) => Ok(()),
        Meant::Known(_) => Ok(()),
        Meant::Set(_) => Ok(()),
        Meant::Standard(_) => Ok(()),
    }
}

/// Adds the name to the list of the definition that it means among all names, if it means one.
fn add_by_definition(
    lists: &mut Vec<ProgramNames>,
    all: &ProgramNames,
    name: &Text,
) -> Result<(), NoMemory>
    requires within { AreIn (length lists.old.items) all.now }
    ensures count { OnOk result (length lists.new.items ≡ length lists.old.items) }
    ensures added { OnOk result ((i : ℕ) → get_or lists.new.items i [] ≡ get_or lists.old.items i [] ++ entry_if name.now (only_definition i (among all.now name.now))) }
{
    match all.get(name) {
        Some(first) => add_to_definition(lists, name, &first.is),
        None => Ok(()),
    }
}

/// As many lists without a name.
fn empty_lists(alloc: Global, count: usize) -> Result<Vec<ProgramNames>, NoMemory>
    ensures count { IfOk result (λ ls. length ls.items ≡ count) }
    ensures empty { IfOk result (λ ls. (i : ℕ) → get_or ls.items i [] ≡ []) }
{
    let mut lists = Vec::with_capacity(alloc, count)?;
    for made in 0..count {
        lists.push(ProgramNames::new(alloc))?;
    }
    Ok(lists)
}

/// From names that tell so many definitions by their indices the names that mean each definition.
pub fn names_by_definition(
    alloc: Global,
    names: &ProgramNames,
    count: usize,
) -> Result<Vec<ProgramNames>, NoMemory>
    requires within { AreIn count names.now }
    ensures count { IfOk result (λ ls. length ls.items ≡ count) }
    ensures are { IfOk result (λ ls. (p : Program) (c : Config) (values : List Val) → AreNames p c values by_index names.now → AreByDefinition p c values ls.items) }
{
    let mut lists = empty_lists(alloc, count)?;
    for entry in names.items() {
        add_by_definition(&mut lists, names, &entry.name)?;
    }
    Ok(lists)
}

/// Adds the names for the definition of that number.
fn add_for(names: &mut ProgramNames, list: &ProgramNames, number: usize) -> Result<(), NoMemory>
    ensures { OnOk result (names.new ≡ names.old ++ defined_by number list.now) }
{
    for entry in list.items() {
        names.push(Entry {
            name: entry.name.copy()?,
            is: Named {
                needed: entry.is.needed,
                meant: Meant::Definition(DefId(number)),
            },
        })?;
    }
    Ok(())
}

/// Adds the names that mean the definition of that index, which has got this number. For all definitions together that takes a time in proportion
/// to the names. On a refusal some of them may have been added.
pub fn add_numbered(
    names: &mut ProgramNames,
    by_definition: &[ProgramNames],
    index: usize,
    number: usize,
) -> Result<(), NoMemory>
    ensures are { OnOk result ((p : Program) (c : Config) (values : List Val) (before : Numbers) → AreByDefinition p c values by_definition.now → before index ≡ None → AreNames p c values before names.old → AreNames p c values (with_number before index number) names.new) }
    ensures within { OnOk result ((before count : ℕ) → AreIn before names.old → before ≤ count → number < count → AreIn count names.new) }
{
    match by_definition.get(index) {
        Some(list) => add_for(names, list, number),
        None => Ok(()),
    }
}

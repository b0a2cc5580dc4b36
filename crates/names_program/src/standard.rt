//! The names that the standard modules bring.

ghost use Rattle.std.specs.Prelude.{◌≡◌, ◌++◌, IfOk, OnOk, option_map, slice_get};
ghost use Rattle.std.specs.List.{list_any};
ghost use Rattle.names_scopes.specs.Mentions.{is_one_of};
ghost use Rattle.names_program.specs.Standard.{brought, replaceable, standard_names};
ghost use Rattle.names_program.specs.StandardRows.{brought_at, brought_row, meant_of, modules_of, row_name};

use base_core::{Names, NoMemory, Text};
use names_scopes::{Entry, Meant, Named};
use names_terms::{NamedSet, StandardOperator};
use std::alloc::Global;

/// What a standard name means.
#[derive(Clone, Copy, Drop)]
enum StandardMeaning {
    Set(NamedSet),
    Operator(StandardOperator),
}

/// The module that has a name, where one that extends it brings it too.
#[derive(Clone, Copy, Drop)]
enum Home {
    Naturals,
    Integers,
    Sequences,
    FiniteSets,
}

/// A name, how many arguments it takes, what it means, and the module that has it.
#[derive(Clone, Copy, Drop)]
struct StandardRow(&'static str, usize, StandardMeaning, Home);

/// How many standard names there are.
const STANDARD_NAMES: usize = 10;

/// The standard names, by their number in the table.
#[tactic(auto, unfolding(crate::specs::Standard::standard_names))]
fn row_at(index: usize) -> Option<StandardRow>
    ensures { slice_get standard_names index ≡ option_map row_name result }
{
    match index {
        0 => Some(StandardRow(
            "Nat",
            0,
            StandardMeaning::Set(NamedSet::Nat),
            Home::Naturals,
        )),
        1 => Some(StandardRow(
            "Int",
            0,
            StandardMeaning::Set(NamedSet::Int),
            Home::Integers,
        )),
        2 => Some(StandardRow(
            "Seq",
            1,
            StandardMeaning::Operator(StandardOperator::Seq),
            Home::Sequences,
        )),
        3 => Some(StandardRow(
            "Len",
            1,
            StandardMeaning::Operator(StandardOperator::Len),
            Home::Sequences,
        )),
        4 => Some(StandardRow(
            "Head",
            1,
            StandardMeaning::Operator(StandardOperator::Head),
            Home::Sequences,
        )),
        5 => Some(StandardRow(
            "Tail",
            1,
            StandardMeaning::Operator(StandardOperator::Tail),
            Home::Sequences,
        )),
        6 => Some(StandardRow(
            "Append",
            2,
            StandardMeaning::Operator(StandardOperator::Append),
            Home::Sequences,
        )),
        7 => Some(StandardRow(
            "SubSeq",
            3,
            StandardMeaning::Operator(StandardOperator::SubSeq),
            Home::Sequences,
        )),
        8 => Some(StandardRow(
            "IsFiniteSet",
            1,
            StandardMeaning::Operator(StandardOperator::IsFiniteSet),
            Home::FiniteSets,
        )),
        9 => Some(StandardRow(
            "Cardinality",
            1,
            StandardMeaning::Operator(StandardOperator::Cardinality),
            Home::FiniteSets,
        )),
        _ => None,
    }
}

/// What a standard name means, as a name of the program.
fn meant(meaning: StandardMeaning) -> Meant
    ensures { result ≡ meant_of meaning }
{
    match meaning {
        StandardMeaning::Set(set) => Meant::Set(set),
        StandardMeaning::Operator(operator) => Meant::Standard(operator),
    }
}

/// Whether a module is extended.
fn is_extended(wanted: &str, extended: &Names) -> bool
    ensures { result ≡ is_one_of wanted.now extended.now }
{
    for other in extended.items() {
        if other.as_str() == wanted {
            return true;
        }
    }
    false
}

/// Whether an extended module brings the names of the module.
fn is_brought(home: Home, extended: &Names) -> bool
    ensures { result ≡ list_any (λ m. is_one_of m extended.now) (modules_of home) }
{
    match home {
        Home::Naturals => {
            if is_extended("Naturals", extended) {
                return true;
            }
            is_extended("Integers", extended)
        }
        Home::Integers => is_extended("Integers", extended),
        Home::Sequences => is_extended("Sequences", extended),
        Home::FiniteSets => is_extended("FiniteSets", extended),
    }
}

/// A standard name, as a name of the program.
fn entry(alloc: Global, row: StandardRow) -> Result<Entry, NoMemory>
    ensures { IfOk result (λ e. e ≡ brought_row row) }
{
    let name = Text::from_text(alloc, row.0)?;
    Ok(Entry {
        name,
        is: Named {
            needed: row.1,
            meant: meant(row.2),
        },
    })
}

/// Adds the standard name of that number, if an extended module brings it.
fn add(
    alloc: Global,
    found: &mut Vec<Entry>,
    index: usize,
    extended: &Names,
) -> Result<(), NoMemory>
    ensures { OnOk result (found.new.items ≡ found.old.items ++ brought_at extended.now (slice_get standard_names index)) }
{
    match row_at(index) {
        Some(row) => {
            if !is_brought(row.3, extended) {
                return Ok(());
            }
            found.push(entry(alloc, row)?)?;
            Ok(())
        }
        None => Ok(()),
    }
}

/// The names that the extended standard modules bring.
pub fn brought(alloc: Global, extended: &Names) -> Result<Vec<Entry>, NoMemory>
    ensures { IfOk result (λ es. es.items ≡ brought extended.now) }
{
    let mut found = Vec::new(alloc);
    for index in 0..STANDARD_NAMES {
        add(alloc, &mut found, index, extended)?;
    }
    Ok(found)
}

/// Whether a configuration may replace the standard name.
#[tactic(auto, unfolding(crate::specs::Standard::replaceable))]
pub(crate) fn is_replaceable(name: &Text) -> bool
    ensures { result ≡ is_one_of name.now replaceable }
{
    let name = name.as_str();
    if "Nat" == name {
        return true;
    }
    if "Int" == name {
        return true;
    }
    "Seq" == name
}

//! Which piece that was not read is needed, and by what.

ghost use Rattle.std.specs.Prelude.{◌≡◌, ◌∷◌, ◌<◌, ◌≤◌, ◌↔◌, [], IfOk, IsTrue, MatchOption, length, option_map};
ghost use Rattle.names_program.specs.InUnits.{variables_in};
ghost use Rattle.names_pruning.specs.Needed.{needed_names};
ghost use Rattle.names_pruning.specs.Pruning.{IsAskedFor, NoneIsAsked};
ghost use Rattle.run_wide.specs.Needing.{names_unread};
ghost use Rattle.run_wide.specs.Parts.{IsFirstAsking, IsFirstUnread, NoneAsks, StandsAt};

use crate::names::add_names;
use base_core::{Names, NoMemory, Text};
use names_pruning::{first_asked, needed_names};
use reading_modules::Noted;
use reading_trees::{Config, Program};
use reading_wide_modules::Unread;
use std::alloc::Global;
use std::slice;

/// Names that tell what may go.
#[derive(Drop)]
pub(crate) struct Asked {
    /// Those that the run needs.
    pub(crate) roots: Names,
    /// Those that pieces declare which were not read.
    pub(crate) unread: Names,
}

/// The names that pieces declare which were not read.
pub(crate) fn names_unread(alloc: Global, unread: &[Noted<Unread>]) -> Result<Names, NoMemory>
    ensures { IfOk result (λ names. names ≡ names_unread unread.now) }
{
    let mut names = Names::new(alloc);
    for noted in unread {
        add_names(&mut names, noted.note.names.items())?;
    }
    Ok(names)
}

/// The names that tell what may go.
pub(crate) fn names_asked(
    alloc: Global,
    config: &Config,
    silent: Option<&Text>,
    unread: &[Noted<Unread>],
) -> Result<Asked, NoMemory>
    ensures roots { IfOk result (λ a. a.roots ≡ needed_names config.now (option_map (λ n. n.now) silent.entry)) }
    ensures unread { IfOk result (λ a. a.unread ≡ names_unread unread.now) }
{
    let roots = needed_names(alloc, config, silent)?;
    let unread = names_unread(alloc, unread)?;
    Ok(Asked { roots, unread })
}

/// The piece that declares the name of that place among the names of all, by its index, and the name.
fn piece_at(unread: &[Noted<Unread>], place: usize) -> (usize, &Text)
    requires within { place < length (names_unread unread.now) }
    ensures { StandsAt unread.now place result.0 result.1.now }
{
    let mut rest = place;
    for (index, noted) in unread.iter().enumerate() {
        let names = noted.note.names.items();
        if rest < names.len() {
            return (index, &names[rest]);
        }
        rest -= names.len();
    }
    unreachable!()
}

/// The first piece that declares a name which is asked for, by its index, and the name.
pub(crate) fn first_needed<'a>(
    alloc: Global,
    program: &Program,
    config: &Config,
    unread: &'a [Noted<Unread>],
    asked: &Asked,
) -> Result<Option<(usize, &'a Text)>, NoMemory>
    requires few { length (variables_in program.now.units) ≤ 64 }
    requires names { asked.now.unread ≡ names_unread unread.now }
    ensures exact { IfOk result (λ found. MatchOption found (NoneIsAsked program.now config.now (names_unread unread.now) asked.now.roots) (λ f. IsFirstUnread program.now config.now asked.now.roots unread.now f.0 f.1.now)) }
{
    let found = first_asked(
        alloc,
        program,
        config,
        asked.unread.items(),
        asked.roots.items(),
    )?;
    match found {
        Some(place) => Ok(Some(piece_at(unread, place))),
        None => Ok(None),
    }
}

/// Whether the name is asked for by that one alone.
fn asks_alone(
    alloc: Global,
    program: &Program,
    config: &Config,
    root: &Text,
    name: &Text,
) -> Result<bool, NoMemory>
    requires few { length (variables_in program.now.units) ≤ 64 }
    ensures { IfOk result (λ b. IsTrue b ↔ IsAskedFor program.now config.now (root.now ∷ []) name.now) }
{
    let found = first_asked(
        alloc,
        program,
        config,
        slice::from_ref(name),
        slice::from_ref(root),
    )?;
    Ok(found.is_some())
}

/// The first of the names that asks for that one.
fn first_asking<'a>(
    alloc: Global,
    program: &Program,
    config: &Config,
    roots: &'a [Text],
    name: &Text,
) -> Result<Option<&'a Text>, NoMemory>
    requires few { length (variables_in program.now.units) ≤ 64 }
    ensures exact { IfOk result (λ found. MatchOption found (NoneAsks program.now config.now roots.now name.now) (λ root. IsFirstAsking program.now config.now roots.now name.now root.now)) }
{
    for root in roots {
        let asks = asks_alone(alloc, program, config, root, name)?;
        if asks {
            return Ok(Some(root));
        }
    }
    Ok(None)
}

/// The first of the names that asks for that one, which is asked for by all of them.
pub(crate) fn needed_by(
    alloc: Global,
    program: &Program,
    config: &Config,
    roots: &[Text],
    name: &Text,
) -> Result<Text, NoMemory>
    requires few { length (variables_in program.now.units) ≤ 64 }
    requires asked { IsAskedFor program.now config.now roots.now name.now }
    ensures { IfOk result (λ root. IsFirstAsking program.now config.now roots.now name.now root) }
{
    let found = first_asking(alloc, program, config, roots, name)?;
    match found {
        Some(root) => root.copy(),
        None => unreachable!(),
    }
}

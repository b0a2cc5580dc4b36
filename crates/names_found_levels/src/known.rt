//! The names of the program, found by a map.

ghost use Rattle.std.specs.Prelude.{◌≡◌, ◌∷◌, ◌++◌, [], List, IfOk, OnOk};
ghost use Rattle.names_found_levels.specs.Found.{AreFound, told_first};
ghost use Rattle.names_least_levels.specs.declared.told.NameLevel.{NameLevel};

use base_core::{NoMemory, Text};
use names_least_levels::{NameLevel, Told};
use std::alloc::Global;
use std::collections::HashMap;
use std::marker::Model;

/// The names of the program with when each is above level 0, seen as the list of them. Of equal names the first counts.
#[derive(Drop)]
pub struct KnownNames {
    names: Vec<NameLevel>,
    found: HashMap<Text, Told>,
}

impl Model for KnownNames {
    ghost use Rattle.std.specs.Prelude.{List};
    ghost use Rattle.names_least_levels.specs.declared.told.NameLevel.{NameLevel};
    ghost use Rattle.names_found_levels.specs.Found.{AreFound};

    ghost Value = { List NameLevel };

    ghost view = { λ n. n.names.items };

    ghost invariant = { λ n. AreFound n.names.items n.found };
}

/// Puts a name into the map, where it does not stand there yet.
fn put(found: &mut HashMap<Text, Told>, known: &NameLevel) -> Result<(), NoMemory>
    ensures { OnOk result ((before : List NameLevel) → AreFound before found.old → AreFound (before ++ known.now ∷ []) found.new) }
{
    match found.get(&known.name) {
        Some(_) => Ok(()),
        None => {
            let name = known.name.copy()?;
            found.insert(name, known.told)?;
            Ok(())
        }
    }
}

/// The names with a map beside them.
pub fn known_names(alloc: Global, names: &[NameLevel]) -> Result<KnownNames, NoMemory>
    ensures { IfOk result (λ k. k ≡ names.now) }
{
    let mut copies = Vec::new(alloc);
    let mut found = HashMap::new(alloc);
    for known in names {
        put(&mut found, known)?;
        let name = known.name.copy()?;
        copies.push(NameLevel {
            name,
            told: known.told,
        })?;
    }
    Ok(KnownNames {
        names: copies,
        found,
    })
}

impl KnownNames {
    /// When that name is above level 0, if it is one of them.
    pub fn get(&self, name: &Text) -> Option<Told>
        ensures { result ≡ told_first self.now name.now }
    {
        match self.found.get(name) {
            Some(told) => Some(*told),
            None => None,
        }
    }
}

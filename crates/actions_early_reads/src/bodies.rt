//! What was found in the bodies of definitions, so that none is walked twice.

ghost use Rattle.std.specs.Prelude.{◌≡◌, ℕ, IfOk, None, OnOk, Some, nat_eq};
ghost use Rattle.std.specs.HashMap.{Updates, get};

use actions_meanings::FormFault;
use base_core::NoMemory;
use indexmap::IndexMap;
use std::alloc::Global;

/// Of each definition whose body was walked, by its number, the first read in it that is too early.
#[derive(Drop)]
pub struct Bodies {
    pub found: IndexMap<usize, Option<FormFault>>,
}

impl Bodies {
    /// No body was walked.
    pub fn new(alloc: Global) -> Bodies
        ensures { (i : ℕ) → get nat_eq result.found i ≡ None }
    {
        Bodies {
            found: IndexMap::new(alloc),
        }
    }

    /// What was found in the body of that definition, if it was walked.
    pub fn of(&self, number: usize) -> Option<Option<FormFault>>
        ensures { result ≡ get nat_eq self.now.found number }
    {
        match self.found.get(&number) {
            Some(found) => Some(*found),
            None => None,
        }
    }

    /// Notes what was found in a body, and gives it.
    pub fn noted(
        &mut self,
        number: usize,
        found: Option<FormFault>,
    ) -> Result<Option<FormFault>, NoMemory>
        ensures given { IfOk result (λ o. o ≡ found) }
        ensures noted { OnOk result (Updates nat_eq self.old.found self.new.found number (Some found)) }
    {
        self.found.insert(number, found)?;
        Ok(found)
    }
}

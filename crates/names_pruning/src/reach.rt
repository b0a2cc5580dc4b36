//! Which definitions are bad, and which are needed.

ghost use Rattle.std.specs.Prelude.{◌≡◌, ◌↔◌, ℕ, IfOk, List, length};
ghost use Rattle.values_core.specs.Data.{Val};
ghost use Rattle.names_program.specs.InUnits.{definitions_in};
ghost use Rattle.names_program.specs.Names.{AreNames, by_index};
ghost use Rattle.base_use_order.specs.Reach.{IsReached};
ghost use Rattle.names_pruning.specs.Pruning.{IsBad, IsNeeded};

use crate::lost::lacking;
use crate::roots::roots_of;
use base_core::{NoMemory, Text};
use base_use_order::{leading, reached};
use names_program::definitions;
use names_scopes::ProgramNames;
use names_uses::uses;
use reading_trees::{Config, Program};
use std::alloc::Global;

/// For each definition, by its index, whether it has a name that means nothing or was not read, or uses one that does, directly or through
/// others.
pub fn bad_definitions(
    alloc: Global,
    program: &Program,
    config: &Config,
    names: &ProgramNames,
    unread: &[Text],
) -> Result<Vec<bool>, NoMemory>
    requires are { (values : List Val) × AreNames program.now config.now values by_index names.now }
    ensures sizes { IfOk result (λ r. length r.items ≡ length (definitions_in program.now.units)) }
    ensures exact { IfOk result (λ r. (i : ℕ) → IsReached r.items i ↔ IsBad program.now config.now unread.now i) }
{
    let definitions = definitions(alloc, &program.units)?;
    let lacking = lacking(alloc, names, unread, &definitions)?;
    let uses = uses(alloc, program, config, names)?;
    leading(alloc, &uses, &lacking)
}

/// For each definition, by its index, whether it has one of these names, or what has one uses it, directly or through others.
pub fn needed_definitions(
    alloc: Global,
    program: &Program,
    config: &Config,
    names: &ProgramNames,
    roots: &[Text],
) -> Result<Vec<bool>, NoMemory>
    requires are { (values : List Val) × AreNames program.now config.now values by_index names.now }
    ensures sizes { IfOk result (λ r. length r.items ≡ length (definitions_in program.now.units)) }
    ensures exact { IfOk result (λ r. (i : ℕ) → IsReached r.items i ↔ IsNeeded program.now config.now roots.now i) }
{
    let definitions = definitions(alloc, &program.units)?;
    let roots = roots_of(alloc, &definitions, roots)?;
    let uses = uses(alloc, program, config, names)?;
    reached(alloc, &uses, &roots)
}

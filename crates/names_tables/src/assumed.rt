//! What the assumptions of a program mean.

ghost use Rattle.std.specs.Prelude.{◌≡◌, List, All, IfOk, OnOk, length};
ghost use Rattle.values_core.specs.Data.{Val};
ghost use Rattle.names_term_parts.specs.Parts.{listed};
ghost use Rattle.names_term_parts.specs.Slots.{MentionsBelow, UsesSmaller};
ghost use Rattle.names_scopes.specs.Standing.{AreIn};
ghost use Rattle.names_meanings.specs.Outcomes.{Grows, named_in};
ghost use Rattle.names_program.specs.InUnits.{assumptions_in};
ghost use Rattle.names_program.specs.Names.{AreNames, numbers_of};
ghost use Rattle.names_tables.specs.NameFaults.{HasFineNames};
ghost use Rattle.names_tables.specs.Tables.{AreMeant, IsTable};

use crate::table::Table;
use crate::term::term_of;
use base_core::{Names, NoMemory};
use names_program::assumptions;
use names_terms::Terms;
use reading_trees::{Config, Program};
use std::alloc::Global;

/// What the assumptions mean, in the order of the text, over the table of the program, which grows by the definitions of their LETs.
/// On a refusal nothing is said of the table.
pub fn assumption_terms(
    alloc: Global,
    program: &Program,
    config: &Config,
    table: &mut Table,
) -> Result<Terms, NoMemory>
    requires fine { HasFineNames program.now config.now }
    requires tabled { (values : List Val) × AreNames program.now config.now values (numbers_of table.old.numbers.items) table.old.names × IsTable program.now config.now values (numbers_of table.old.numbers.items) table.old.operators }
    requires known { AreIn (length table.old.operators) table.old.names }
    ensures meant { IfOk result (λ ts. (values : List Val) → AreNames program.now config.now values (numbers_of table.old.numbers.items) table.old.names → AreMeant program.now config.now values (numbers_of table.old.numbers.items) table.new.operators (assumptions_in program.now.units) (listed ts)) }
    ensures below { IfOk result (λ ts. All (MentionsBelow (length table.new.operators)) (listed ts)) }
    ensures numbers { OnOk result (table.new.numbers ≡ table.old.numbers) }
    ensures names { OnOk result (table.new.names ≡ table.old.names) }
    ensures grown { OnOk result (Grows table.old.operators table.new.operators) }
    ensures unnamed { OnOk result (named_in table.new.operators ≡ named_in table.old.operators) }
    ensures smaller { OnOk result (UsesSmaller table.new.operators) }
{
    let params = Names::new(alloc);
    let trees = assumptions(alloc, &program.units)?;
    let mut terms = Terms::new(alloc);
    for tree in &trees {
        let term = term_of(alloc, &table.names, &params, &mut table.operators, tree)?;
        terms.push(term)?;
    }
    Ok(terms)
}

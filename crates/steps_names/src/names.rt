ghost use Rattle.std.specs.Prelude.{◌≡◌, IfOk, length, true};
ghost use Rattle.std.specs.Coded.{Coded-set};
ghost use Rattle.names_terms.specs.OperatorsCode.{operators_code};
ghost use Rattle.names_specification_laws.specs.IsSpec.{IsSpec};
ghost use Rattle.actions_early_reads.specs.Ready.{IsReady};
ghost use Rattle.steps_names.specs.Walks.{is_action};

use crate::forms::{has_form, named_body, updated};
use crate::searching::{operator_named, variable_named};
use actions_early_reads::{Walk, all_reads};
use actions_form_laws::operator_law;
use actions_meanings::Which;
use base_core::NoMemory;
use logs_lines::SpecNames;
use logs_updates::Updates;
use names_terms::Spec;
use states_core::VarId;
use std::alloc::Global;

/// What a specification tells a reader of logs.
#[derive(Drop)]
pub struct LogNames<'a> {
    pub spec: &'a Spec,
    walk: Walk<'a>,
    pub ghost ordered: { ∥ IsSpec spec.now ∥₁ },
    ghost action: { is_action walk.which ≡ true },
    ghost count: { walk.variables ≡ length spec.now.variables },
    ghost table: { walk.operators.now ≡ spec.now.operators } by { Coded-set operators_code walk.operators.now spec.now.operators },
    ghost ready: { ∥ IsReady walk ∥₁ },
}

impl<'a> LogNames<'a> {
    /// The names of a specification, with what each of its definitions reads.
    pub fn new(alloc: Global, spec: &'a Spec) -> Result<LogNames<'a>, NoMemory>
        requires { IsSpec spec.now }
        ensures { IfOk result (λ names. names.spec.now ≡ spec.now) }
    {
        let reads = all_reads(alloc, &spec.operators)?;
        let walk = Walk {
            alloc,
            which: Which::Action,
            variables: spec.variables.len() as u16,
            operators: &spec.operators,
            reads,
        };
        Ok(LogNames { spec, walk })
    }
}

impl<'a> SpecNames for LogNames<'a> {
    ghost use Rattle.steps_names.specs.Names.{names_of};

    ghost setting = { λ names. names_of names.spec.now };

    fn operator(&self, name: &str) -> Option<(usize, usize)> {
        operator_named(self.spec, name)
    }

    fn variable(&self, name: &str, guess: usize) -> Option<VarId> {
        variable_named(self.spec, name, guess)
    }

    fn has_form(&self, operator: usize, updates: &Updates) -> Result<bool, NoMemory> {
        let spec = self.spec;
        operator_law();
        match updated(spec.variables.len(), updates) {
            None => Ok(false),
            Some(before) => match named_body(&spec.operators, operator) {
                None => Ok(false),
                Some(body) => has_form(&self.walk, operator, body, before),
            },
        }
    }
}

//! The specification of a program with its configuration as they stand.

ghost use Rattle.std.specs.Prelude.{◌≡◌, IfOk, IfErr, option_map};
ghost use Rattle.names_tables.specs.Values.{AreSpelled};
ghost use Rattle.names_resolving.specs.Resolved.{IsOneForm};
ghost use Rattle.run_wide.specs.Parts.{IsAsItStands, IsRefusedSo};

use base_core::{NoMemory, Text};
use names_resolving::ResolveFault;
use names_specification::resolve_by;
use names_terms::Spec;
use reading_trees::{Config, Program};
use std::alloc::Global;

/// A specification, with the program and the configuration that it is of.
#[derive(Drop)]
pub struct Resolution {
    pub program: Program,
    pub config: Config,
    pub spec: Spec,
}

/// Why there is none.
#[derive(Drop)]
pub enum ResolutionFault {
    /// Names or levels of this program with this configuration are refused.
    Names(Program, Config, ResolveFault),
    /// A piece that was not read is needed: its index, and the name of those that the run needs that asks for it.
    Piece(usize, Text),
    NoMemory,
}

impl From<NoMemory> for ResolutionFault {
    ghost use Rattle.std.specs.Prelude.{◌≡◌};
    ghost use Rattle.run_wide.specs.declared.resolution.ResolutionFault.TheVariants.{NoMemory as Wanting};

    ghost from_gives = { λ _ e. e ≡ Wanting };

    fn from(_e: NoMemory) -> ResolutionFault {
        ResolutionFault::NoMemory
    }
}

/// The specification of a program with its configuration as they stand.
pub(crate) fn as_it_stands(
    alloc: Global,
    wide: bool,
    silent: Option<&Text>,
    program: Program,
    config: Config,
) -> Result<Resolution, ResolutionFault>
    requires spelled { AreSpelled config.givens }
    requires form { IsOneForm config }
    ensures accepted { IfOk result (IsAsItStands wide program config (option_map (λ n. n.now) silent.entry)) }
    ensures refused { IfErr result (IsRefusedSo wide program config (option_map (λ n. n.now) silent.entry)) }
{
    match resolve_by(alloc, wide, &program, &config, silent) {
        Ok(spec) => Ok(Resolution {
            program,
            config,
            spec,
        }),
        Err(ResolveFault::NoMemory) => Err(ResolutionFault::NoMemory),
        Err(fault) => Err(ResolutionFault::Names(program, config, fault)),
    }
}

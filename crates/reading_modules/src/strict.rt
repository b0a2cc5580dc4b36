//! The text of a module, read strictly.

ghost use Rattle.std.specs.Prelude.{◌≤◌, length, IfOk, IfErr};
ghost use Rattle.reading_modules.specs.Refusals.{module_limit, LaidAs, SpelledBy, Misspells, StopsBy};

use crate::fault::{LoadWhy, Stop};
use reading_expressions::ParseFault;
use reading_junctions::{LayFault, lay};
use reading_lexer::{LexFault, lex};
use reading_trees::{Laid, Module, tokens_end_once};
use reading_units::{laid_ends_once, module};
use std::alloc::Global;

/// The tokens of a module's text, with their junction lists marked.
fn laid_of(alloc: Global, number: u32, bytes: &[u8]) -> Result<Vec<Laid>, Stop>
    requires { length bytes.now ≤ module_limit }
    ensures laid { IfOk result (λ laid. LaidAs number bytes.now laid.items) }
    ensures refused { IfErr result (StopsBy (Misspells number bytes.now)) }
{
    tokens_end_once();
    match lex(alloc, number, bytes) {
        Ok(tokens) => match lay(alloc, tokens) {
            Ok(laid) => Ok(laid),
            Err(LayFault::LeftOfList(place)) => Err(Stop::Refused(LoadWhy::Lay(place))),
            Err(LayFault::NoMemory) => Err(Stop::NoMemory),
        },
        Err(LexFault::Refused(why, place)) => Err(Stop::Refused(LoadWhy::Lex(why, place))),
        Err(LexFault::NoMemory) => Err(Stop::NoMemory),
    }
}

/// The module that bytes spell.
pub fn spelled(alloc: Global, number: u32, bytes: &[u8]) -> Result<Module, Stop>
    requires { length bytes.now ≤ module_limit }
    ensures spelled { IfOk result (SpelledBy number bytes.now) }
    ensures refused { IfErr result (StopsBy (Misspells number bytes.now)) }
{
    let laid = laid_of(alloc, number, bytes)?;
    tokens_end_once();
    laid_ends_once();
    match module(alloc, &laid) {
        Ok(module) => Ok(module),
        Err(ParseFault::NoMemory) => Err(Stop::NoMemory),
        Err(fault) => Err(Stop::Refused(LoadWhy::Parse(fault))),
    }
}

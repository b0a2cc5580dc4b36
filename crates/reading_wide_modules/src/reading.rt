//! A module, and what of it is not read.

ghost use Rattle.std.specs.Prelude.{◌≡◌, ◌≤◌, length, IfOk, IfErr};
ghost use Rattle.reading_modules.specs.Refusals.{Misspells, StopsBy, module_limit};
ghost use Rattle.reading_wide_modules.specs.Wide.{MisspelledWide, PartsOf, SpelledWide};

use crate::parted::read_parted;
use crate::unread::Unread;
use reading_lexer::{LexFault, lex};
use reading_modules::{LoadWhy, SpelledModule, Stop, spelled};
use reading_tokens::one_outcome;
use reading_trees::tokens_end_once;
use std::alloc::Global;

/// The module of bytes that spell none, in pieces, or else their refusal.
fn parted_or(
    alloc: Global,
    number: u32,
    bytes: &[u8],
    why: LoadWhy,
) -> Result<SpelledModule<Unread>, Stop>
    requires limit { length bytes.now ≤ module_limit }
    requires misspelled { Misspells number bytes.now why }
    ensures read { IfOk result (λ w. PartsOf number bytes.now w.module w.notes.items) }
    ensures refused { IfErr result (StopsBy (MisspelledWide number bytes.now)) }
{
    tokens_end_once();
    one_outcome();
    match lex(alloc, number, bytes) {
        Ok(tokens) => match read_parted(alloc, &tokens)? {
            Some(read) => Ok(read),
            None => Err(Stop::Refused(why)),
        },
        Err(LexFault::Refused(_, _)) => Err(Stop::Refused(why)),
        Err(LexFault::NoMemory) => Err(Stop::NoMemory),
    }
}

/// Reads the module that bytes spell. Where they spell none, it is read in pieces, and those that can not be read are told; where they have
/// no pieces either, the refusal is that of the whole.
pub fn read_wide(alloc: Global, number: u32, bytes: &[u8]) -> Result<SpelledModule<Unread>, Stop>
    requires { length bytes.now ≤ module_limit }
    ensures read { IfOk result (λ w. SpelledWide number bytes.now w.module w.notes.items) }
    ensures refused { IfErr result (StopsBy (MisspelledWide number bytes.now)) }
{
    match spelled(alloc, number, bytes) {
        Ok(module) => Ok(SpelledModule {
            module,
            notes: Vec::new(alloc),
        }),
        Err(Stop::Refused(why)) => parted_or(alloc, number, bytes, why),
        Err(Stop::NoMemory) => Err(Stop::NoMemory),
    }
}

//! The configuration of a text.

ghost use Rattle.std.specs.Prelude.{◌≡◌, ◌≤◌, ◌^◌, length, IfOk};
ghost use Rattle.reading_configuration.specs.Given.{nothing_given};
ghost use Rattle.reading_trees.specs.Laid.{EndsOnce};
ghost use Rattle.reading_configuration.specs.Reads.{Answers, OfTokens, Reads};
ghost use Rattle.reading_configuration.specs.Steps.{IsAt, Takes, ReadsTo};

use crate::expects::{Expects, Further};
use crate::fault::{ConfigFault, ConfigKind, Stop};
use crate::mark::mark_of;
use crate::step::step;
use base_core::{Names, Place, Text};
use reading_lexer::{LexFault, lex_plain};
use reading_tokens::Token;
use reading_trees::{Config, Givens, tokens_end_once};
use std::alloc::{AllocError, Global};

/// The configuration that gives nothing.
fn nothing_given(alloc: Global, name: &str) -> Result<Config, AllocError>
    ensures { IfOk result (λ c. c ≡ nothing_given name.now) }
{
    Ok(Config {
        file: Text::from_text(alloc, name)?,
        init: None,
        next: None,
        specification: None,
        givens: Givens::new(alloc),
        unchecked: Names::new(alloc),
    })
}

/// The refusal at this place.
fn refused(stop: Stop, place: Place) -> ConfigFault
    ensures { IsAt stop place result }
{
    match stop {
        Stop::Refused(kind) => ConfigFault::Refused(kind, place),
        Stop::NoMemory => ConfigFault::NoMemory,
    }
}

/// What comes of one token.
fn take(
    alloc: Global,
    expects: Expects,
    token: &Token,
    config: &mut Config,
) -> Result<Expects, ConfigFault>
    ensures { Takes expects config.old token.now result config.new }
{
    let mark = mark_of(token)?;
    match step(alloc, expects, mark, config) {
        Ok(next) => Ok(next),
        Err(stop) => Err(refused(stop, token.place)),
    }
}

/// What comes of tokens.
fn read(alloc: Global, name: &str, tokens: &[Token]) -> Result<Config, ConfigFault>
    ensures { ReadsTo name.now tokens.now result }
{
    let mut config = nothing_given(alloc, name)?;
    let mut expects = Expects::Statement(Further::Nothing);
    for token in tokens {
        expects = take(alloc, expects, token, &mut config)?;
    }
    Ok(config)
}

/// The configuration of tokens, of which the last and no other is the End, as those of a text are. `name` is the name of their file.
pub fn of_tokens(alloc: Global, name: &str, tokens: &[Token]) -> Result<Config, ConfigFault>
    requires { EndsOnce tokens.now }
    ensures { Answers (OfTokens name.now tokens.now) result }
{
    read(alloc, name, tokens)
}

/// The configuration of a text, in the form of TLC's configuration file as this project's profile has it.
/// `file` is the number of the text's file, and `name` its name.
pub fn config(alloc: Global, file: u32, name: &str, bytes: &[u8]) -> Result<Config, ConfigFault>
    requires { length bytes.now ≤ 2 ^ 28 }
    ensures { Answers (Reads file name.now bytes.now) result }
{
    tokens_end_once();
    match lex_plain(alloc, file, bytes) {
        Ok(tokens) => read(alloc, name, &tokens),
        Err(LexFault::Refused(_, place)) => Err(ConfigFault::Refused(ConfigKind::Syntax, place)),
        Err(LexFault::NoMemory) => Err(ConfigFault::NoMemory),
    }
}

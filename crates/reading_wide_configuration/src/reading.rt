//! The configuration of a text, with what it says of a search passed over.

ghost use Rattle.std.specs.Prelude.{◌≡◌, ◌≤◌, ◌^◌, Ok, length};
ghost use Rattle.reading_trees.specs.Laid.{EndsOnce};
ghost use Rattle.reading_configuration.specs.Reads.{Answers};
ghost use Rattle.reading_wide_configuration.specs.Wide.{OfRemaining, OfTokensWide, ReadsBy, ReadsWide, also_told};

use crate::passing::pass_over;
use base_core::Names;
use reading_configuration::{ConfigFault, ConfigKind, config, of_tokens};
use reading_lexer::{LexFault, lex_plain};
use reading_tokens::Token;
use reading_trees::{Config, tokens_end_once};
use std::alloc::Global;

/// The configuration with these lines behind all else that is not checked.
fn told_behind(mut config: Config, lines: &Names) -> Result<Config, ConfigFault>
    ensures { Answers (λ o. o ≡ Ok (also_told lines.now config)) result }
{
    for line in lines.items() {
        config.unchecked.push(line.copy()?)?;
    }
    Ok(config)
}

/// The configuration of those tokens that remain.
fn of_remaining(alloc: Global, name: &str, tokens: &[Token]) -> Result<Config, ConfigFault>
    requires { EndsOnce tokens.now }
    ensures { Answers (OfRemaining name.now tokens.now) result }
{
    let passed = pass_over(alloc, tokens)?;
    match of_tokens(alloc, name, &passed.tokens) {
        Ok(config) => told_behind(config, &passed.lines),
        Err(fault) => Err(fault),
    }
}

/// The configuration of tokens as they stand, or else of those that remain.
fn of_tokens_wide(alloc: Global, name: &str, tokens: &[Token]) -> Result<Config, ConfigFault>
    requires { EndsOnce tokens.now }
    ensures { Answers (OfTokensWide name.now tokens.now) result }
{
    match of_tokens(alloc, name, tokens) {
        Ok(config) => Ok(config),
        Err(ConfigFault::Refused(_, _)) => of_remaining(alloc, name, tokens),
        Err(ConfigFault::NoMemory) => Err(ConfigFault::NoMemory),
    }
}

/// The configuration of a text, in the form of TLC's configuration file, where what it says of a search alone may be passed over. `file` is the number of the
/// text's file, and `name` its name.
pub fn config_wide(
    alloc: Global,
    file: u32,
    name: &str,
    bytes: &[u8],
) -> Result<Config, ConfigFault>
    requires { length bytes.now ≤ 2 ^ 28 }
    ensures { Answers (ReadsWide file name.now bytes.now) result }
{
    tokens_end_once();
    match lex_plain(alloc, file, bytes) {
        Ok(tokens) => of_tokens_wide(alloc, name, &tokens),
        Err(LexFault::Refused(_, place)) => Err(ConfigFault::Refused(ConfigKind::Syntax, place)),
        Err(LexFault::NoMemory) => Err(ConfigFault::NoMemory),
    }
}

/// The configuration of a text, with the word `--wide` or without it.
pub fn config_by(
    alloc: Global,
    wide: bool,
    file: u32,
    name: &str,
    bytes: &[u8],
) -> Result<Config, ConfigFault>
    requires { length bytes.now ≤ 2 ^ 28 }
    ensures { Answers (ReadsBy wide file name.now bytes.now) result }
{
    if wide {
        config_wide(alloc, file, name, bytes)
    } else {
        config(alloc, file, name, bytes)
    }
}

//! The reader of expressions and of definitions.

ghost use Rattle.reading_open_rows.specs.Does.{frames_in};
ghost use Rattle.reading_open_rows.specs.Unfinished.{unfinished};
ghost use Rattle.reading_machine.specs.Beginnings.{BegunDefinition, FittingBegun, FittingBegunDefinition};
ghost use Rattle.std.specs.Prelude.{◌≡◌, ◌<◌, IfOk, IfErr, drop, length, nat_lt};
ghost use Rattle.reading_trees.specs.Begun.{Begun};
ghost use Rattle.reading_trees.specs.Fits.{Fits, Spells};
ghost use Rattle.reading_trees.specs.Grammar.{◌⨟◌, DefinitionRest, token};
ghost use Rattle.reading_tokens.specs.declared.token.Kind.TheVariants as kinds;
ghost use Rattle.reading_expressions.specs.Ended.{IsRead};
ghost use Rattle.reading_expressions.specs.Nesting.{Shallow, ShallowDefinition, deepest};
ghost use Rattle.reading_expressions.specs.Refusals.{GoesAsFar, IsRefused};
ghost use Rattle.reading_expressions.specs.Refused.{Refuses};
ghost use Rattle.reading_expressions.specs.Unended.{EndedDefinition, EndedText, IsUnended};

use crate::fault::ParseFault;
use crate::refusing::{fault_at, place_of};
use base_core::limits::MAX_UNFINISHED;
use reading_machine::{Mode, Scope};
use reading_open_rows::{Stack, Stepped, unfinished_at};
use reading_token_steps::step;
use reading_trees::{Definition, Expr, Laid};
use std::alloc::Global;

/// What was read, and the index behind it.
#[derive(Drop)]
pub enum Ended {
    Expression(Expr, usize),
    Definition(Definition, usize),
}

/// Whether a token stands inside too many unfinished constructs.
fn is_too_deep(stack: &Stack, mode: &Mode) -> bool
    ensures { result ≡ nat_lt deepest (unfinished (frames_in stack.now) mode.now) }
{
    stack.unfinished.saturating_add(unfinished_at(mode)) > MAX_UNFINISHED
}

/// Reads from an index on, until an expression or a definition ends before a token.
fn read(alloc: Global, laid: &[Laid], from: usize, start: Mode) -> Result<Ended, ParseFault>
    requires { from < length laid.now }
    ensures read { IfOk result (λ r. IsRead laid.now from start r) }
    ensures refused { IfErr result (λ e. Refuses laid.now from start e) }
{
    let mut stack = Stack::new(alloc);
    let mut mode = start;
    let mut last = place_of(&laid[from]);
    for i in from..laid.len() {
        let next = &laid[i];
        last = place_of(next);
        let deep = is_too_deep(&stack, &mode);
        match step(alloc, next, &mut stack, mode)? {
            Stepped::Reads(behind) => {
                if deep {
                    drop(behind);
                    return Err(ParseFault::TooNested(last));
                }
                mode = behind;
            }
            Stepped::Stops => return Err(fault_at(laid, i)),
            Stepped::Clashes(p, q) => return Err(ParseFault::Conflict(p, q)),
            Stepped::Ends(e) => return Ok(Ended::Expression(e, i)),
            Stepped::EndsDefinition(definition) => return Ok(Ended::Definition(definition, i)),
        }
    }
    drop(mode);
    Err(ParseFault::Expected(last))
}

/// Reads the expression that begins at an index and goes as far as it can, and gives it with the index behind it.
///
/// It ends before the first token that no text goes on through. A refusal is that of the earliest token that has one.
pub fn expression(alloc: Global, laid: &[Laid], from: usize) -> Result<(Expr, usize), ParseFault>
    requires { from < length laid.now }
    ensures spelled { IfOk result (λ r. Spells r.0 (drop from laid.now) (drop r.1 laid.now)) }
    ensures ahead { IfOk result (λ r. from < r.1) }
    ensures within { IfOk result (λ r. r.1 < length laid.now) }
    ensures far { IfOk result (λ r. GoesAsFar Begun FittingBegun Shallow laid.now from r.1) }
    ensures refused { IfErr result (λ e. IsRefused Begun FittingBegun Shallow (drop from laid.now) e) }
    ensures unended { IfErr result (λ e. IsUnended EndedText (drop from laid.now) e) }
{
    match read(alloc, laid, from, Mode::Want)? {
        Ended::Expression(e, behind) => Ok((e, behind)),
        Ended::Definition(_, behind) => Err(fault_at(laid, behind)),
    }
}

/// Reads the definition that begins at an index, up to the end of its body, and gives it with the index behind it.
pub fn definition(
    alloc: Global,
    laid: &[Laid],
    from: usize,
) -> Result<(Definition, usize), ParseFault>
    requires { from < length laid.now }
    ensures spelled { IfOk result (λ r. (token r.0.at (kinds.Name r.0.name) ⨟ DefinitionRest r.0.params r.0.form r.0.body) (drop from laid.now) (drop r.1 laid.now)) }
    ensures fits { IfOk result (λ r. Fits r.0.body) }
    ensures ahead { IfOk result (λ r. from < r.1) }
    ensures within { IfOk result (λ r. r.1 < length laid.now) }
    ensures far { IfOk result (λ r. GoesAsFar BegunDefinition FittingBegunDefinition ShallowDefinition laid.now from r.1) }
    ensures refused { IfErr result (λ e. IsRefused BegunDefinition FittingBegunDefinition ShallowDefinition (drop from laid.now) e) }
    ensures unended { IfErr result (λ e. IsUnended EndedDefinition (drop from laid.now) e) }
{
    match read(alloc, laid, from, Mode::DefinitionName(Scope::Unit))? {
        Ended::Definition(definition, behind) => Ok((definition, behind)),
        Ended::Expression(_, behind) => Err(fault_at(laid, behind)),
    }
}

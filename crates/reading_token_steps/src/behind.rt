//! Tokens behind a primary. A frame that waits no longer is let go by `drop`, whose proof is made once: where it ends by itself, the drop of each
//! kind of frame is proved anew.

ghost use Rattle.reading_open_rows.specs.Does.{Does, frames_in};
ghost use Rattle.reading_machine.specs.Machine.{body_of, call_step, form_of, infix_of_symbol, infix_or, instance_step, is_case_mark, item_closes, list_closes, name_closes, parameters_of, same_bullet, symbol_follows, word_closes};
ghost use Rattle.std.specs.Prelude.{◌≡◌, ◌∷◌, IfOk, List, Ok};
ghost use Rattle.reading_trees.specs.Trees as tree;
ghost use Rattle.reading_token_steps.specs.Kept.{kept_behind, kept_closes, kept_follows, kept_kind_closes, kept_laid_closes};

use crate::named::symbol_at;
use base_core::{Names, NoMemory, Place, Text};
use reading_machine::{Form, Frame, Mode, Scope};
use reading_open_rows::{Joined, Stack, Stepped, infix_of_symbol, infix_step, pop, settle, want};
use reading_row_symbols::{Member, join_member, symbol_closes, with_step};
use reading_tokens::{Kind, Symbol, Word};
use reading_trees::{
    Bullet, Changes, Definition, DefinitionForm, Definitions, Expr, Exprs, Laid, Node, Step,
};
use std::alloc::Global;

/// A definition with its body.
fn defined(
    alloc: Global,
    name: Text,
    at: Place,
    form: Form,
    e: Expr,
) -> Result<Definition, NoMemory>
    ensures named { IfOk result (λ d. d.name ≡ name) }
    ensures placed { IfOk result (λ d. d.at ≡ at) }
    ensures parameters { IfOk result (λ d. d.params ≡ parameters_of form) }
    ensures formed { IfOk result (λ d. d.form ≡ form_of form) }
    ensures body { IfOk result (λ d. d.body ≡ body_of form e) }
{
    match form {
        Form::Operator(params) => Ok(Definition {
            name,
            at,
            params,
            form: DefinitionForm::Operator,
            body: e,
        }),
        Form::Function(q, bounds) => {
            let node = Node::Function(bounds, e);
            Ok(Definition {
                name,
                at,
                params: Names::new(alloc),
                form: DefinitionForm::Function,
                body: Expr::new(alloc, q, node)?,
            })
        }
    }
}

/// EXCEPT behind `[x \in E`.
fn except_begins(
    alloc: Global,
    member: Member,
    stack: &mut Stack,
    e: Expr,
) -> Result<Stepped, NoMemory>
    ensures { IfOk result (λ r. Does r (frames_in stack.new) (word_closes Word.Except (Frame.MaybeFunction member.at member.name member.name_at member.member_at) (frames_in stack.old) e)) }
{
    let at = member.at;
    let q = member.member_at;
    let _ = &stack.frames;
    match join_member(alloc, member, e)? {
        Joined::Joins(whole) => Ok(Stepped::Reads(Mode::ExceptMark(
            at,
            whole,
            Changes::new(alloc),
        ))),
        Joined::Meets(p) => Ok(Stepped::Clashes(q, p)),
    }
}

/// IN behind the last definition of a LET, with the definitions before it.
fn let_body(
    alloc: Global,
    at: Place,
    mut definitions: Definitions,
    definition: (Text, Place, Form),
    stack: &mut Stack,
    e: Expr,
) -> Result<Stepped, NoMemory>
    ensures { IfOk result (λ r. Does r (frames_in stack.new) (word_closes Word.In (Frame.DefinitionBody (Scope.Let at definitions) definition.0 definition.1 definition.2) (frames_in stack.old) e)) }
{
    let (name, place, form) = definition;
    definitions.push(defined(alloc, name, place, form, e)?)?;
    want(stack, Frame::LetBody(at, definitions))
}

/// THEN behind the test of an IF.
fn then_closes(frame: Frame, stack: &mut Stack, e: Expr) -> Result<Stepped, NoMemory>
    ensures { IfOk result (λ r. Does r (frames_in stack.new) (word_closes Word.Then frame (frames_in stack.old) e)) }
{
    match frame {
        Frame::IfTest(at) => want(stack, Frame::IfThen(at, e)),
        other => {
            drop(other);
            Ok(Stepped::Stops)
        }
    }
}

/// ELSE behind the first branch of an IF.
fn else_closes(frame: Frame, stack: &mut Stack, e: Expr) -> Result<Stepped, NoMemory>
    ensures { IfOk result (λ r. Does r (frames_in stack.new) (word_closes Word.Else frame (frames_in stack.old) e)) }
{
    match frame {
        Frame::IfThen(at, test) => want(stack, Frame::IfElse(at, test, e)),
        other => {
            drop(other);
            Ok(Stepped::Stops)
        }
    }
}

/// EXCEPT behind `[E`.
fn except_closes(
    alloc: Global,
    frame: Frame,
    stack: &mut Stack,
    e: Expr,
) -> Result<Stepped, NoMemory>
    ensures { IfOk result (λ r. Does r (frames_in stack.new) (word_closes Word.Except frame (frames_in stack.old) e)) }
{
    match frame {
        Frame::Bracket(at) => Ok(Stepped::Reads(Mode::ExceptMark(at, e, Changes::new(alloc)))),
        Frame::MaybeFunction(at, name, name_at, member_at) => except_begins(
            alloc,
            Member {
                at,
                name,
                name_at,
                member_at,
            },
            stack,
            e,
        ),
        other => {
            drop(other);
            Ok(Stepped::Stops)
        }
    }
}

/// IN behind a definition.
fn in_closes(alloc: Global, frame: Frame, stack: &mut Stack, e: Expr) -> Result<Stepped, NoMemory>
    ensures { IfOk result (λ r. Does r (frames_in stack.new) (word_closes Word.In frame (frames_in stack.old) e)) }
{
    match frame {
        Frame::DefinitionBody(scope, name, place, form) => match scope {
            Scope::Let(at, definitions) => {
                let_body(alloc, at, definitions, (name, place, form), stack, e)
            }
            Scope::Unit => Ok(Stepped::Stops),
        },
        other => {
            drop(other);
            Ok(Stepped::Stops)
        }
    }
}

/// A word at the innermost frame that waits.
fn word_closes(
    alloc: Global,
    word: Word,
    frame: Frame,
    stack: &mut Stack,
    e: Expr,
) -> Result<Stepped, NoMemory>
    ensures { IfOk result (λ r. Does r (frames_in stack.new) (word_closes word frame (frames_in stack.old) e)) }
{
    match word {
        Word::Then => then_closes(frame, stack, e),
        Word::Else => else_closes(frame, stack, e),
        Word::Except => except_closes(alloc, frame, stack, e),
        Word::In => in_closes(alloc, frame, stack, e),
        _ => {
            drop(frame);
            Ok(Stepped::Stops)
        }
    }
}

/// A name at the innermost frame that waits begins another definition of a LET.
fn name_closes(
    alloc: Global,
    next: &Text,
    q: Place,
    frame: Frame,
    e: Expr,
) -> Result<Stepped, NoMemory>
    ensures { IfOk result (λ r. (fs : List Frame) → Does r fs (name_closes next.now q frame fs e)) }
{
    match frame {
        Frame::DefinitionBody(scope, name, place, form) => match scope {
            Scope::Let(at, mut definitions) => {
                definitions.push(defined(alloc, name, place, form, e)?)?;
                let scope = Scope::Let(at, definitions);
                Ok(Stepped::Reads(Mode::DefinitionNamed(scope, next.copy()?, q)))
            }
            Scope::Unit => Ok(Stepped::Stops),
        },
        other => {
            drop(other);
            Ok(Stepped::Stops)
        }
    }
}

pub fn same_bullet(a: Bullet, b: Bullet) -> bool
    ensures { result ≡ same_bullet a b }
{
    match (a, b) {
        (Bullet::And, Bullet::And) => true,
        (Bullet::Or, Bullet::Or) => true,
        _ => false,
    }
}

/// A further item of a junction list.
fn item_closes(
    bullet: Bullet,
    frame: Frame,
    stack: &mut Stack,
    e: Expr,
) -> Result<Stepped, NoMemory>
    ensures { IfOk result (λ r. Does r (frames_in stack.new) (item_closes bullet frame (frames_in stack.old) e)) }
{
    match frame {
        Frame::Junction(own, at, mut items) => {
            if !same_bullet(own, bullet) {
                return Ok(Stepped::Stops);
            }
            items.push(e)?;
            want(stack, Frame::Junction(own, at, items))
        }
        other => {
            drop(other);
            Ok(Stepped::Stops)
        }
    }
}

/// The end of a junction list.
fn list_closes(alloc: Global, frame: Frame, e: Expr) -> Result<Stepped, NoMemory>
    ensures { IfOk result (λ r. (fs : List Frame) → Does r fs (list_closes frame fs e)) }
{
    match frame {
        Frame::Junction(bullet, at, mut items) => {
            items.push(e)?;
            let node = Node::Junction(bullet, items);
            Ok(Stepped::Reads(Mode::Have(Expr::new(alloc, at, node)?)))
        }
        other => {
            drop(other);
            Ok(Stepped::Stops)
        }
    }
}

/// A token that no row has here.
fn stops(frame: Frame, _e: Expr) -> Result<Stepped, NoMemory>
    ensures { result ≡ Ok Stepped.Stops }
{
    drop(frame);
    Ok(Stepped::Stops)
}

#[tactic(auto, unfolding(crate::specs::Kept::kept_kind_closes))]
fn kind_closes(
    alloc: Global,
    kind: &Kind,
    q: Place,
    frame: Frame,
    stack: &mut Stack,
    e: Expr,
) -> Result<Stepped, NoMemory>
    ensures { IfOk result (λ r. Does r (frames_in stack.new) (kept_kind_closes kind.now q frame (frames_in stack.old) e)) }
{
    match kind {
        Kind::Symbol(symbol) => symbol_closes(alloc, *symbol, frame, stack, e),
        Kind::Word(word) => word_closes(alloc, *word, frame, stack, e),
        Kind::Name(name) => name_closes(alloc, name, q, frame, e),
        Kind::Number(_) => stops(frame, e),
        Kind::Str(_) => stops(frame, e),
        Kind::Dashes => stops(frame, e),
        Kind::Equals => stops(frame, e),
        Kind::Fair => stops(frame, e),
        Kind::Foreign(_) => stops(frame, e),
        Kind::End => stops(frame, e),
    }
}

fn laid_closes(
    alloc: Global,
    laid: &Laid,
    frame: Frame,
    stack: &mut Stack,
    e: Expr,
) -> Result<Stepped, NoMemory>
    ensures { IfOk result (λ r. Does r (frames_in stack.new) (kept_laid_closes laid.now frame (frames_in stack.old) e)) }
{
    match laid {
        Laid::Plain(token) => kind_closes(alloc, &token.kind, token.place, frame, stack, e),
        Laid::ListOpen(_, _) => {
            drop(frame);
            Ok(Stepped::Stops)
        }
        Laid::ListItem(bullet, _) => item_closes(*bullet, frame, stack, e),
        Laid::ListClose(_) => list_closes(alloc, frame, e),
    }
}

/// The body of a definition at a token: of a unit, the definition ends before it.
fn body_closes(
    alloc: Global,
    laid: &Laid,
    scope: Scope,
    definition: (Text, Place, Form),
    stack: &mut Stack,
    e: Expr,
) -> Result<Stepped, NoMemory>
    ensures { IfOk result (λ r. Does r (frames_in stack.new) (kept_closes laid.now (Frame.DefinitionBody scope definition.0 definition.1 definition.2 ∷ frames_in stack.old) e)) }
{
    let (name, at, form) = definition;
    match scope {
        Scope::Unit => {
            let definition = defined(alloc, name, at, form, e)?;
            Ok(Stepped::EndsDefinition(definition))
        }
        Scope::Let(place, definitions) => {
            let scope = Scope::Let(place, definitions);
            laid_closes(
                alloc,
                laid,
                Frame::DefinitionBody(scope, name, at, form),
                stack,
                e,
            )
        }
    }
}

/// A token at a frame that waits.
fn frame_closes(
    alloc: Global,
    laid: &Laid,
    frame: Frame,
    stack: &mut Stack,
    e: Expr,
) -> Result<Stepped, NoMemory>
    ensures { IfOk result (λ r. Does r (frames_in stack.new) (kept_closes laid.now (frame ∷ frames_in stack.old) e)) }
{
    match frame {
        Frame::DefinitionBody(scope, name, at, form) => {
            body_closes(alloc, laid, scope, (name, at, form), stack, e)
        }
        other => laid_closes(alloc, laid, other, stack, e),
    }
}

/// A token at the innermost frame that waits. Where none waits, the expression ends before it.
fn closes(alloc: Global, laid: &Laid, stack: &mut Stack, e: Expr) -> Result<Stepped, NoMemory>
    ensures { IfOk result (λ r. Does r (frames_in stack.new) (kept_closes laid.now (frames_in stack.old) e)) }
{
    match pop(stack) {
        Some(frame) => frame_closes(alloc, laid, frame, stack, e),
        None => Ok(Stepped::Ends(e)),
    }
}

fn is_case_mark(laid: &Laid) -> bool
    ensures { result ≡ is_case_mark laid.now }
{
    match laid {
        Laid::Plain(token) => match &token.kind {
            Kind::Symbol(Symbol::Always) => true,
            _ => false,
        },
        _ => false,
    }
}

/// A token that is no infix operator and no step.
fn behind(alloc: Global, laid: &Laid, stack: &mut Stack, e: Expr) -> Result<Stepped, NoMemory>
    ensures { IfOk result (λ r. Does r (frames_in stack.new) (kept_behind laid.now (frames_in stack.old) e)) }
{
    let whole = settle(alloc, is_case_mark(laid), stack, e)?;
    closes(alloc, laid, stack, whole)
}

/// `!` behind a name, which names an instance of a module, comes before a name of that module.
fn instance_step(stack: &mut Stack, e: Expr) -> Result<Stepped, NoMemory>
    ensures { IfOk result (λ r. Does r (frames_in stack.new) (instance_step e (frames_in stack.old))) }
{
    let _ = &stack.frames;
    let (at, node) = e.into_parts();
    match node {
        Node::Name(name) => Ok(Stepped::Reads(Mode::InstanceName(at, name))),
        other => {
            drop(other);
            Ok(Stepped::Stops)
        }
    }
}

/// `(` behind a qualified name begins its arguments, where it has none.
fn qualified_call(
    stack: &mut Stack,
    at: Place,
    name: Text,
    arguments: Exprs,
) -> Result<Stepped, NoMemory>
    ensures { IfOk result (λ r. Does r (frames_in stack.new) (call_step (tree.Qualified at name arguments) (frames_in stack.old))) }
{
    if arguments.is_empty() {
        return want(stack, Frame::QualifiedCall(name, at, arguments));
    }
    Ok(Stepped::Stops)
}

/// `(` behind a name begins its arguments.
fn call_step(alloc: Global, stack: &mut Stack, e: Expr) -> Result<Stepped, NoMemory>
    ensures { IfOk result (λ r. Does r (frames_in stack.new) (call_step e (frames_in stack.old))) }
{
    let (at, node) = e.into_parts();
    match node {
        Node::Name(name) => want(stack, Frame::Call(name, at, Exprs::new(alloc))),
        Node::Qualified(name, arguments) => qualified_call(stack, at, name, arguments),
        other => {
            drop(other);
            Ok(Stepped::Stops)
        }
    }
}

/// An infix operator, or a token for a row that waits.
fn operator_or(
    alloc: Global,
    laid: &Laid,
    symbol: Symbol,
    at: Place,
    stack: &mut Stack,
    e: Expr,
) -> Result<Stepped, NoMemory>
    ensures { IfOk result (λ r. Does r (frames_in stack.new) (infix_or (infix_of_symbol symbol) at (frames_in stack.old) e (kept_behind laid.now (frames_in stack.old) e))) }
{
    match infix_of_symbol(symbol) {
        Some(q) => infix_step(alloc, q, at, stack, e),
        None => behind(alloc, laid, stack, e),
    }
}

fn symbol_follows(
    alloc: Global,
    laid: &Laid,
    symbol: Symbol,
    at: Place,
    stack: &mut Stack,
    e: Expr,
) -> Result<Stepped, NoMemory>
    ensures { IfOk result (λ r. Does r (frames_in stack.new) (symbol_follows symbol at (frames_in stack.old) e (kept_behind laid.now (frames_in stack.old) e))) }
{
    match symbol {
        Symbol::Prime => {
            let whole = with_step(alloc, e, at, Step::Prime)?;
            Ok(Stepped::Reads(Mode::Have(whole)))
        }
        Symbol::OpenBracket => want(stack, Frame::Index(e, at, Exprs::new(alloc))),
        Symbol::Dot => Ok(Stepped::Reads(Mode::FieldName(e, at))),
        Symbol::OpenParenthesis => call_step(alloc, stack, e),
        Symbol::Exclamation => instance_step(stack, e),
        other => operator_or(alloc, laid, other, at, stack, e),
    }
}

/// What a token does behind a primary: it is a step, an infix operator, or for a row that waits.
pub fn follows(alloc: Global, laid: &Laid, stack: &mut Stack, e: Expr) -> Result<Stepped, NoMemory>
    ensures { IfOk result (λ r. Does r (frames_in stack.new) (kept_follows laid.now (frames_in stack.old) e)) }
{
    match symbol_at(laid) {
        Some((symbol, at)) => symbol_follows(alloc, laid, symbol, at, stack, e),
        None => behind(alloc, laid, stack, e),
    }
}

//! Which operator gives Init and Next.

ghost use Rattle.std.specs.Prelude.{◌≡◌, ◌++◌, ◌∷◌, [], IfOk, OnOk, map, not, option_map};
ghost use Rattle.std.specs.List.{filter};
ghost use Rattle.names_specification.specs.Fair.{is_fair};
ghost use Rattle.names_specification.specs.Behind.{deepest, only_name, specification_of, stands_for, unfair};
ghost use Rattle.names_specification.specs.Standing.{AreDefinitions};

use crate::conjuncts::conjuncts;
use crate::fair::is_fair;
use crate::named::{Named, is_given, operator_kept};
use base_core::limits::MAX_FAIR_DEPTH;
use base_core::{NoMemory, Text};
use names_program::definitions;
use reading_trees::{Config, Expr, Node, Program};
use std::alloc::Global;

/// The conjuncts of the tree that are no fairness.
fn unfair<'a>(alloc: Global, named: Named<'_>, tree: &'a Expr) -> Result<Vec<&'a Expr>, NoMemory>
    requires { AreDefinitions named }
    ensures { IfOk result (λ es. map (λ e. e.now) es.items ≡ unfair named.entry.program.now named.entry.config.now tree.now) }
{
    let parts = conjuncts(alloc, tree)?;
    let mut left = Vec::new(alloc);
    for part in &parts {
        add_unfair(alloc, named, &mut left, part)?;
    }
    Ok(left)
}

/// Adds the tree behind others, if it is no fairness.
fn add_unfair<'a>(
    alloc: Global,
    named: Named<'_>,
    left: &mut Vec<&'a Expr>,
    tree: &'a Expr,
) -> Result<(), NoMemory>
    requires { AreDefinitions named }
    ensures { OnOk result (map (λ e. e.now) left.new.items ≡ map (λ e. e.now) left.old.items ++ filter (λ e. not (is_fair deepest named.entry.program.now named.entry.config.now e)) (tree.now ∷ [])) }
{
    if is_fair(alloc, named, MAX_FAIR_DEPTH, tree)? {
        return Ok(());
    }
    left.push(tree)?;
    Ok(())
}

/// A single tree that is a name for which the configuration gives nothing.
fn only_name<'a>(config: &Config, trees: &[&'a Expr]) -> Option<&'a Text>
    ensures { option_map (λ n. n.now) result ≡ only_name config.now (map (λ e. e.now) trees.now) }
{
    if trees.len() != 1 {
        return None;
    }
    let tree: &Expr = trees[0];
    match &*tree.node {
        Node::Name(name) => {
            if is_given(config, name) {
                return None;
            }
            Some(name)
        }
        _ => None,
    }
}

/// The operator that the one of this name stands for.
fn stands_for<'a>(
    alloc: Global,
    named: Named<'a>,
    name: &Text,
) -> Result<Option<&'a Text>, NoMemory>
    requires { AreDefinitions named }
    ensures { IfOk result (λ o. option_map (λ n. n.now) o ≡ stands_for named.entry.program.now named.entry.config.now name.now) }
{
    match operator_kept(named, name) {
        Some(definition) => {
            let left = unfair(alloc, named, &definition.body)?;
            Ok(only_name(named.config, &left))
        }
        None => Ok(None),
    }
}

/// The name of the operator that gives Init and Next where SPECIFICATION has this name: the same, or the one that it stands for, directly or through others.
#[tactic(auto, using(crate::proofs::Lasts::last_by_one, crate::proofs::Lasts::last_at_none))]
pub(crate) fn specification_of(
    alloc: Global,
    program: &Program,
    config: &Config,
    name: &Text,
) -> Result<Text, NoMemory>
    ensures { IfOk result (λ n. n ≡ specification_of program.now config.now name.now) }
{
    let definitions = definitions(alloc, &program.units)?;
    let named = Named {
        program,
        config,
        definitions: &definitions,
    };
    let mut last = name.copy()?;
    let mut left = MAX_FAIR_DEPTH;
    while left > 0 {
        match stands_for(alloc, named, &last)? {
            Some(next) => last = next.copy()?,
            None => return Ok(last),
        }
        left -= 1;
    }
    Ok(last)
}

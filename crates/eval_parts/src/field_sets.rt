//! Sets of records of fields that are described.

ghost use Rattle.std.specs.Prelude.{◌≡◌, IfErr, IfOk, Ok, map};
ghost use Rattle.std.specs.List.{All};
ghost use Rattle.values_sets.specs.DescribedSets.{Records, fields_list};
ghost use Rattle.values_sets.specs.DescribedViews.{field_item};
ghost use Rattle.values_sets.specs.Soundness.{FieldsAreSound, IsSound, IsString};
ghost use Rattle.names_terms.specs.Terms.{place_of};
ghost use Rattle.eval_meanings.specs.Answers.{IsReady, Tells};
ghost use Rattle.eval_meanings.specs.Outcomes.{Each, Gives, Then};
ghost use Rattle.eval_meanings.specs.Sets.{fields_of};
ghost use Rattle.values_core.specs.Data.{string};
ghost use Rattle.values_core.specs.SetOperations.{AreDifferent};
ghost use Rattle.eval_parts.specs.Scenes.{Stops};
ghost use Rattle.eval_parts.specs.ChangePaths.{SetOfField, part_item};

use base_core::{Place, Text};
use eval_meanings::{EvalFault, set_at};
use names_terms::Field;
use std::alloc::{AllocError, Global};
use values_core::Value;
use values_sets::{Described, DescribedNode, Field as DescribedField, Fields as DescribedFields};

/// What a field means: its name, the place of its set, and the set, which may be none.
#[derive(Drop)]
pub struct Part {
    pub name: Text,
    pub at: Place,
    pub set: Described,
}

/// A field whose set is described.
pub fn part_of(field: &Field, set: Described) -> Result<Part, AllocError>
    ensures item { IfOk result (λ part. part_item part ≡ (field.now.name, place_of field.now.value, set)) }
    ensures set { IfOk result (λ part. part.set ≡ set) }
{
    let name = field.name.copy()?;
    Ok(Part {
        name,
        at: field.value.at,
        set,
    })
}

/// The set of records with these fields: each part must be a set, from left to right.
pub fn records_of(alloc: Global, parts: Vec<Part>) -> Result<Described, EvalFault>
    requires different { AreDifferent (map (λ p. p.name) parts.items) }
    requires ready { All (λ p. IsReady p.set) parts.items }
    ensures fine { Tells result (Then (Each SetOfField (map part_item parts.items)) (λ es. Gives (Records (fields_of es)))) }
    ensures ready { IfOk result IsReady }
{
    match sound_fields(alloc, parts) {
        Ok(fields) => Ok(Described {
            node: DescribedNode::Records(fields),
        }),
        Err(fault) => Err(fault),
    }
}

/// Fields whose parts are sets.
fn sound_fields(alloc: Global, parts: Vec<Part>) -> Result<DescribedFields, EvalFault>
    requires { All (λ p. IsReady p.set) parts.items }
    ensures fields { IfOk result (λ fs. Each SetOfField (map part_item parts.items) (Ok (fields_list fs))) }
    ensures sound { IfOk result FieldsAreSound }
    ensures fault { IfErr result (Stops (Each SetOfField (map part_item parts.items))) }
{
    let mut fields = DescribedFields::new(alloc);
    for part in parts {
        match sound_field(part) {
            Ok(field) => fields.push(field)?,
            Err(fault) => return Err(fault),
        }
    }
    Ok(fields)
}

/// A field whose part is a set.
fn sound_field(part: Part) -> Result<DescribedField, EvalFault>
    requires { IsReady part.set }
    ensures field { IfOk result (λ f. SetOfField (part_item part) (Ok (field_item f))) }
    ensures sound { IfOk result (λ f. IsString f.name × IsSound f.part) }
    ensures fault { IfErr result (Stops (SetOfField (part_item part))) }
{
    let Part { name, at, set } = part;
    match set_at(set, at) {
        Ok(set) => Ok(named_field(name, set)),
        Err(fault) => Err(fault),
    }
}

fn named_field(name: Text, set: Described) -> DescribedField
    ensures item { field_item result ≡ (string name, set) }
    ensures name { result.name ≡ string name }
    ensures part { result.part ≡ set }
{
    DescribedField {
        name: Value::string(name),
        part: set,
    }
}

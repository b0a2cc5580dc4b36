//! The sets that operators describe.

ghost use Rattle.std.specs.Prelude.{◌≡◌, [], ◌∷◌, ◌++◌, IfErr, IfOk, Ok, length, map, true, false};
ghost use Rattle.eval_meanings.specs.Answers.{IsReady, Tells, is_joining};
ghost use Rattle.eval_meanings.specs.Evaluates.{Evaluates, Describes};
ghost use Rattle.eval_meanings.specs.Meanings.{FunctionsDescribed, InfixDescribed, MeaningDescribes, SequencesDescribed, SubsetsDescribed};
ghost use Rattle.eval_meanings.specs.Outcomes.{Each, Then};
ghost use Rattle.eval_meanings.specs.Sets.{ChainDescribed, IntervalDescribed, Joined, first_operand, other_operands, FieldDescribed, RecordsDescribed, PartDescribed, ProductDescribed};
ghost use Rattle.names_terms.specs.Lists.{fields_list, terms_list};
ghost use Rattle.names_terms.specs.Terms.{First, Infix, Next, place_of, Prefix};
ghost use Rattle.names_terms.specs.TermViews.{field_item, node_view};
ghost use Rattle.values_core.specs.SetOperations.{AreDifferent};
ghost use Rattle.eval_meanings.specs.Reads.{InfixReads, PrefixReads, Reads, ReadsEach, is_chained};
ghost use Rattle.eval_parts.specs.Scenes.{Stops, context, table, makes_set};
ghost use Rattle.std.specs.List.{All};
ghost use Rattle.eval_parts.specs.ChangePaths.{part_item};
ghost use Rattle.eval_parts.specs.ReadyParts.{AreReady};

use crate::evaluate::{describe, describe_set, described_value, eval};
use base_core::Place;
use eval_meanings::EvalFault;
use eval_parts::{
    Part, Scene, beside_place, boxed, first_of, functions, interval_of, joined_at, joined_of,
    makes_set, only, only_term, operand_terms, others_of, part_of, place_at, product_of, push,
    records_of,
};
use names_terms::{Field, Fields, Operand, Operands, Term, TermNode, Terms};
use reading_trees::{InfixOperator, PrefixOperator};
use std::alloc::Global;
use values_sets::{Described, DescribedNode};

/// `SUBSET S`.
#[cycle(evaluate)]
pub(crate) fn describe_subsets(
    alloc: Global,
    scene: Scene<'_>,
    depth: u32,
    operand: &Term,
) -> Result<Described, EvalFault>
    requires { Reads (table scene) depth (context scene) operand.now }
    ensures fine { Tells result (SubsetsDescribed (Describes (table scene.entry) depth) (context scene.entry) operand.now) }
    ensures ready { IfOk result IsReady }
{
    match describe_set(alloc, scene, depth, operand) {
        Ok(part) => Ok(Described {
            node: DescribedNode::PowerOf(boxed(alloc, part)?),
        }),
        Err(fault) => Err(fault),
    }
}

/// `[S -> T]`.
#[cycle(evaluate)]
pub(crate) fn describe_functions(
    alloc: Global,
    scene: Scene<'_>,
    depth: u32,
    domain: &Term,
    range: &Term,
) -> Result<Described, EvalFault>
    requires domain { Reads (table scene) depth (context scene) domain.now }
    requires range { Reads (table scene) depth (context scene) range.now }
    ensures fine { Tells result (FunctionsDescribed (Evaluates (table scene.entry) depth) (Describes (table scene.entry) depth) (context scene.entry) domain.now range.now) }
    ensures ready { IfOk result IsReady }
{
    match eval(alloc, scene, depth, domain) {
        Ok(keys) => match describe(alloc, scene, depth, range) {
            Ok(part) => functions(alloc, keys, part, domain, range),
            Err(fault) => Err(fault),
        },
        Err(fault) => Err(fault),
    }
}

/// `a..b`.
#[cycle(evaluate)]
pub(crate) fn describe_interval(
    alloc: Global,
    scene: Scene<'_>,
    depth: u32,
    at: Place,
    first: &Term,
    last: &Term,
) -> Result<Described, EvalFault>
    requires first { Reads (table scene) depth (context scene) first.now }
    requires last { Reads (table scene) depth (context scene) last.now }
    ensures fine { Tells result (Then (Evaluates (table scene.entry) depth (context scene.entry) first.now) (λ v. Then (Evaluates (table scene.entry) depth (context scene.entry) last.now) (IntervalDescribed at (place_of first.now) (place_of last.now) v))) }
    ensures ready { IfOk result IsReady }
{
    let _ = at;
    match eval(alloc, scene, depth, first) {
        Ok(left) => match eval(alloc, scene, depth, last) {
            Ok(right) => interval_of(&left, &right, first, last),
            Err(fault) => Err(fault),
        },
        Err(fault) => Err(fault),
    }
}

/// Two parts joined by `\cup`, `\cap` or `\`.
#[cycle(evaluate)]
pub(crate) fn describe_two(
    alloc: Global,
    scene: Scene<'_>,
    depth: u32,
    at: Place,
    operator: InfixOperator,
    first: &Term,
    last: &Term,
) -> Result<Described, EvalFault>
    requires operator { is_joining operator ≡ true }
    requires first { Reads (table scene) depth (context scene) first.now }
    requires last { Reads (table scene) depth (context scene) last.now }
    ensures fine { Tells result (Then (Describes (table scene.entry) depth (context scene.entry) first.now) (λ d. ChainDescribed (Describes (table scene.entry) depth) (context scene.entry) operator (place_of first.now) d ((at, last.now) ∷ []))) }
    ensures ready { IfOk result IsReady }
{
    match describe(alloc, scene, depth, first) {
        Ok(left) => match describe(alloc, scene, depth, last) {
            Ok(right) => joined_of(alloc, operator, left, right, at, first, last),
            Err(fault) => Err(fault),
        },
        Err(fault) => Err(fault),
    }
}

/// `Seq(S)`.
#[cycle(evaluate)]
pub(crate) fn describe_sequences(
    alloc: Global,
    scene: Scene<'_>,
    depth: u32,
    arguments: &Terms,
) -> Result<Described, EvalFault>
    requires one { length (terms_list arguments.now) ≡ 1 }
    requires read { ReadsEach (Reads (table scene) depth) (context scene) (terms_list arguments.now) }
    ensures fine { Tells result (SequencesDescribed (Describes (table scene.entry) depth) (context scene.entry) (terms_list arguments.now)) }
    ensures ready { IfOk result IsReady }
{
    let argument = only_term(arguments);
    match describe_set(alloc, scene, depth, argument) {
        Ok(part) => Ok(Described {
            node: DescribedNode::SeqOf(boxed(alloc, part)?),
        }),
        Err(fault) => Err(fault),
    }
}

/// The set that a term with an infix operator describes.
#[cycle(evaluate)]
pub(crate) fn describe_infix(
    alloc: Global,
    scene: Scene<'_>,
    depth: u32,
    at: Place,
    node: &TermNode,
    operator: InfixOperator,
    operands: &Operands,
    last: &Term,
) -> Result<Described, EvalFault>
    requires node { node_view node.now ≡ Infix operator operands.now last.now }
    requires read { InfixReads (Reads (table scene) depth) (context scene) operator operands.now at last.now }
    ensures fine { Tells result (MeaningDescribes (table scene.entry) (Evaluates (table scene.entry) depth) (Describes (table scene.entry) depth) (context scene.entry) at (Infix operator operands.now last.now)) }
    ensures ready { IfOk result IsReady }
{
    if makes_set(operator) {
        return described_made(alloc, scene, depth, at, operator, operands, last);
    }
    described_plain(alloc, scene, depth, at, node, operator, operands, last)
}

/// A term whose infix operator makes no described set, as the value that it has.
#[cycle(evaluate)]
fn described_plain(
    alloc: Global,
    scene: Scene<'_>,
    depth: u32,
    at: Place,
    node: &TermNode,
    operator: InfixOperator,
    operands: &Operands,
    last: &Term,
) -> Result<Described, EvalFault>
    requires plain { makes_set operator ≡ false }
    requires node { node_view node.now ≡ Infix operator operands.now last.now }
    requires read { InfixReads (Reads (table scene) depth) (context scene) operator operands.now at last.now }
    ensures fine { Tells result (MeaningDescribes (table scene.entry) (Evaluates (table scene.entry) depth) (Describes (table scene.entry) depth) (context scene.entry) at (Infix operator operands.now last.now)) }
    ensures ready { IfOk result IsReady }
{
    described_value(alloc, scene, depth, at, node)
}

#[cycle(evaluate)]
fn described_made(
    alloc: Global,
    scene: Scene<'_>,
    depth: u32,
    at: Place,
    operator: InfixOperator,
    operands: &Operands,
    last: &Term,
) -> Result<Described, EvalFault>
    requires made { makes_set operator ≡ true }
    requires read { InfixReads (Reads (table scene) depth) (context scene) operator operands.now at last.now }
    ensures fine { Tells result (MeaningDescribes (table scene.entry) (Evaluates (table scene.entry) depth) (Describes (table scene.entry) depth) (context scene.entry) at (Infix operator operands.now last.now)) }
    ensures ready { IfOk result IsReady }
{
    describe_operands(alloc, scene, depth, at, operator, operands, last)
}

/// The set that an infix operator makes of its operands.
#[cycle(evaluate)]
fn describe_operands(
    alloc: Global,
    scene: Scene<'_>,
    depth: u32,
    at: Place,
    operator: InfixOperator,
    operands: &Operands,
    last: &Term,
) -> Result<Described, EvalFault>
    requires made { makes_set operator ≡ true }
    requires read { InfixReads (Reads (table scene) depth) (context scene) operator operands.now at last.now }
    ensures fine { Tells result (InfixDescribed (Evaluates (table scene.entry) depth) (Describes (table scene.entry) depth) (context scene.entry) operator operands.now last.now at) }
    ensures ready { IfOk result IsReady }
{
    match only(operands) {
        Some(first) => describe_pair(alloc, scene, depth, at, operator, first, last),
        None => describe_long(alloc, scene, depth, at, operator, operands, last),
    }
}

/// The set that an infix operator makes of two operands.
#[cycle(evaluate)]
fn describe_pair(
    alloc: Global,
    scene: Scene<'_>,
    depth: u32,
    at: Place,
    operator: InfixOperator,
    first: &Term,
    last: &Term,
) -> Result<Described, EvalFault>
    requires made { makes_set operator ≡ true }
    requires first { Reads (table scene) depth (context scene) first.now }
    requires last { Reads (table scene) depth (context scene) last.now }
    ensures fine { Tells result (InfixDescribed (Evaluates (table scene.entry) depth) (Describes (table scene.entry) depth) (context scene.entry) operator (First first.now) last.now at) }
    ensures ready { IfOk result IsReady }
{
    match operator {
        InfixOperator::Interval => describe_interval(alloc, scene, depth, at, first, last),
        InfixOperator::CartesianProduct => describe_product(alloc, scene, depth, first, &[], last),
        InfixOperator::Union => describe_two(alloc, scene, depth, at, operator, first, last),
        InfixOperator::Intersection => describe_two(alloc, scene, depth, at, operator, first, last),
        InfixOperator::Difference => describe_two(alloc, scene, depth, at, operator, first, last),
        InfixOperator::Implies => unreachable!(),
        InfixOperator::Equivalent => unreachable!(),
        InfixOperator::LeadsTo => unreachable!(),
        InfixOperator::And => unreachable!(),
        InfixOperator::Or => unreachable!(),
        InfixOperator::Member => unreachable!(),
        InfixOperator::NotMember => unreachable!(),
        InfixOperator::SubsetOrEqual => unreachable!(),
        InfixOperator::Equal => unreachable!(),
        InfixOperator::NotEqual => unreachable!(),
        InfixOperator::Less => unreachable!(),
        InfixOperator::Greater => unreachable!(),
        InfixOperator::LessOrEqual => unreachable!(),
        InfixOperator::GreaterOrEqual => unreachable!(),
        InfixOperator::MergedFunctions => unreachable!(),
        InfixOperator::SingleFunction => unreachable!(),
        InfixOperator::Plus => unreachable!(),
        InfixOperator::Minus => unreachable!(),
        InfixOperator::Times => unreachable!(),
        InfixOperator::Quotient => unreachable!(),
        InfixOperator::Remainder => unreachable!(),
        InfixOperator::Power => unreachable!(),
        InfixOperator::Concatenation => unreachable!(),
    }
}

/// A chain of `\cup`, `\cap` or `\`, as if nested to the left.
#[cycle(evaluate)]
pub(crate) fn describe_chain(
    alloc: Global,
    scene: Scene<'_>,
    depth: u32,
    at: Place,
    operator: InfixOperator,
    operands: &Operands,
    last: &Term,
) -> Result<Described, EvalFault>
    requires operator { is_joining operator ≡ true }
    requires first { Reads (table scene) depth (context scene) (first_operand operands.now) }
    requires others { ReadsEach (Reads (table scene) depth) (context scene) (map (λ e. e.1) (other_operands (Next operands.now at last.now))) }
    ensures fine { Tells result (Then (Describes (table scene.entry) depth (context scene.entry) (first_operand operands.now)) (λ d. ChainDescribed (Describes (table scene.entry) depth) (context scene.entry) operator (place_of (first_operand operands.now)) d (other_operands (Next operands.now at last.now)))) }
    ensures ready { IfOk result IsReady }
{
    let first = first_of(operands);
    match describe(alloc, scene, depth, first) {
        Ok(set) => describe_rest(alloc, scene, depth, at, operator, operands, last, set),
        Err(fault) => Err(fault),
    }
}

/// What a chain comes to behind the set that its first operand means.
#[cycle(evaluate)]
fn describe_rest(
    alloc: Global,
    scene: Scene<'_>,
    depth: u32,
    at: Place,
    operator: InfixOperator,
    operands: &Operands,
    last: &Term,
    set: Described,
) -> Result<Described, EvalFault>
    requires operator { is_joining operator ≡ true }
    requires others { ReadsEach (Reads (table scene) depth) (context scene) (map (λ e. e.1) (other_operands (Next operands.now at last.now))) }
    requires ready { IsReady set }
    ensures fine { Tells result (ChainDescribed (Describes (table scene.entry) depth) (context scene.entry) operator (place_of (first_operand operands.now)) set (other_operands (Next operands.now at last.now))) }
    ensures ready { IfOk result IsReady }
{
    let mut place = place_at(first_of(operands));
    let mut set = set;
    let others = others_of(operands);
    for other in others {
        match describe_next(
            alloc,
            scene,
            depth,
            operator,
            set,
            place,
            other.at,
            &other.value,
        ) {
            Ok(made) => set = made,
            Err(fault) => return Err(fault),
        }
        place = other.at;
    }
    describe_next(alloc, scene, depth, operator, set, place, at, last)
}

/// A set, whose term stands at a place, joined with the set that the next operand means.
#[cycle(evaluate)]
fn describe_next(
    alloc: Global,
    scene: Scene<'_>,
    depth: u32,
    operator: InfixOperator,
    set: Described,
    place: Place,
    at: Place,
    operand: &Term,
) -> Result<Described, EvalFault>
    requires operator { is_joining operator ≡ true }
    requires ready { IsReady set }
    requires read { Reads (table scene) depth (context scene) operand.now }
    ensures fine { Tells result (Then (Describes (table scene.entry) depth (context scene.entry) operand.now) (Joined operator at place (place_of operand.now) set)) }
    ensures ready { IfOk result IsReady }
{
    match describe(alloc, scene, depth, operand) {
        Ok(right) => joined_at(alloc, operator, set, right, at, place, operand),
        Err(fault) => Err(fault),
    }
}

/// The set that an infix operator makes of three operands or more.
#[cycle(evaluate)]
fn describe_long(
    alloc: Global,
    scene: Scene<'_>,
    depth: u32,
    at: Place,
    operator: InfixOperator,
    operands: &Operands,
    last: &Term,
) -> Result<Described, EvalFault>
    requires made { makes_set operator ≡ true }
    requires chained { is_chained operator ≡ true }
    requires first { Reads (table scene) depth (context scene) (first_operand operands.now) }
    requires others { ReadsEach (Reads (table scene) depth) (context scene) (map (λ e. e.1) (other_operands (Next operands.now at last.now))) }
    ensures fine { Tells result (InfixDescribed (Evaluates (table scene.entry) depth) (Describes (table scene.entry) depth) (context scene.entry) operator operands.now last.now at) }
    ensures ready { IfOk result IsReady }
{
    match operator {
        InfixOperator::CartesianProduct => {
            describe_product(
                alloc,
                scene,
                depth,
                first_of(operands),
                others_of(operands),
                last,
            )
        }
        InfixOperator::Union => {
            describe_chain(alloc, scene, depth, at, operator, operands, last)
        }
        InfixOperator::Intersection => {
            describe_chain(alloc, scene, depth, at, operator, operands, last)
        }
        InfixOperator::Difference => {
            describe_chain(alloc, scene, depth, at, operator, operands, last)
        }
        InfixOperator::Implies => unreachable!(),
        InfixOperator::Equivalent => unreachable!(),
        InfixOperator::LeadsTo => unreachable!(),
        InfixOperator::And => unreachable!(),
        InfixOperator::Or => unreachable!(),
        InfixOperator::Member => unreachable!(),
        InfixOperator::NotMember => unreachable!(),
        InfixOperator::SubsetOrEqual => unreachable!(),
        InfixOperator::Interval => unreachable!(),
        InfixOperator::Equal => unreachable!(),
        InfixOperator::NotEqual => unreachable!(),
        InfixOperator::Less => unreachable!(),
        InfixOperator::Greater => unreachable!(),
        InfixOperator::LessOrEqual => unreachable!(),
        InfixOperator::GreaterOrEqual => unreachable!(),
        InfixOperator::MergedFunctions => unreachable!(),
        InfixOperator::SingleFunction => unreachable!(),
        InfixOperator::Plus => unreachable!(),
        InfixOperator::Minus => unreachable!(),
        InfixOperator::Times => unreachable!(),
        InfixOperator::Quotient => unreachable!(),
        InfixOperator::Remainder => unreachable!(),
        InfixOperator::Power => unreachable!(),
        InfixOperator::Concatenation => unreachable!(),
    }
}

/// `[h : S, k : T]`.
#[cycle(evaluate)]
pub(crate) fn describe_records(
    alloc: Global,
    scene: Scene<'_>,
    depth: u32,
    fields: &Fields,
) -> Result<Described, EvalFault>
    requires different { AreDifferent (map (λ f. f.0) (fields_list fields.now)) }
    requires read { ReadsEach (Reads (table scene) depth) (context scene) (map (λ f. f.1) (fields_list fields.now)) }
    ensures fine { Tells result (RecordsDescribed (Describes (table scene.entry) depth) (context scene.entry) fields.now) }
    ensures ready { IfOk result IsReady }
{
    match describe_fields(alloc, scene, depth, fields) {
        Ok(parts) => records_of(alloc, parts),
        Err(fault) => Err(fault),
    }
}

/// What the fields of a set of records mean, from left to right.
#[cycle(evaluate)]
fn describe_fields(
    alloc: Global,
    scene: Scene<'_>,
    depth: u32,
    fields: &Fields,
) -> Result<Vec<Part>, EvalFault>
    requires { ReadsEach (Reads (table scene) depth) (context scene) (map (λ f. f.1) (fields_list fields.now)) }
    ensures parts { IfOk result (λ parts. Each (FieldDescribed (Describes (table scene.entry) depth) (context scene.entry)) (fields_list fields.now) (Ok (map part_item parts.items))) }
    ensures ready { IfOk result (λ parts. All (λ p. IsReady p.set) parts.items) }
    ensures fault { IfErr result (Stops (Each (FieldDescribed (Describes (table scene.entry) depth) (context scene.entry)) (fields_list fields.now))) }
{
    let mut parts = Vec::new(alloc);
    for field in fields.items() {
        match describe_field(alloc, scene, depth, field) {
            Ok(part) => push(&mut parts, part)?,
            Err(fault) => return Err(fault),
        }
    }
    Ok(parts)
}

#[cycle(evaluate)]
fn describe_field(
    alloc: Global,
    scene: Scene<'_>,
    depth: u32,
    field: &Field,
) -> Result<Part, EvalFault>
    requires { Reads (table scene) depth (context scene) field.now.value }
    ensures part { IfOk result (λ part. FieldDescribed (Describes (table scene.entry) depth) (context scene.entry) (field_item field.now) (Ok (part_item part))) }
    ensures ready { IfOk result (λ part. IsReady part.set) }
    ensures fault { IfErr result (Stops (FieldDescribed (Describes (table scene.entry) depth) (context scene.entry) (field_item field.now))) }
{
    match describe(alloc, scene, depth, &field.value) {
        Ok(set) => Ok(part_of(field, set)?),
        Err(fault) => Err(fault),
    }
}

/// The set that a term with a prefix operator describes.
#[cycle(evaluate)]
pub(crate) fn describe_prefix(
    alloc: Global,
    scene: Scene<'_>,
    depth: u32,
    at: Place,
    node: &TermNode,
    operator: PrefixOperator,
    operand: &Term,
) -> Result<Described, EvalFault>
    requires node { node_view node.now ≡ Prefix operator operand.now }
    requires read { PrefixReads (table scene) (Reads (table scene) depth) (context scene) operator at operand.now }
    ensures fine { Tells result (MeaningDescribes (table scene.entry) (Evaluates (table scene.entry) depth) (Describes (table scene.entry) depth) (context scene.entry) at (Prefix operator operand.now)) }
    ensures ready { IfOk result IsReady }
{
    match operator {
        PrefixOperator::Powerset => describe_subsets(alloc, scene, depth, operand),
        PrefixOperator::Not => described_value(alloc, scene, depth, at, node),
        PrefixOperator::Unchanged => described_value(alloc, scene, depth, at, node),
        PrefixOperator::Enabled => described_value(alloc, scene, depth, at, node),
        PrefixOperator::Always => described_value(alloc, scene, depth, at, node),
        PrefixOperator::Eventually => described_value(alloc, scene, depth, at, node),
        PrefixOperator::BigUnion => described_value(alloc, scene, depth, at, node),
        PrefixOperator::Domain => described_value(alloc, scene, depth, at, node),
        PrefixOperator::Negate => described_value(alloc, scene, depth, at, node),
    }
}

/// `S \X T` of the operands of a chain: the first, those behind it, and the last.
#[cycle(evaluate)]
pub(crate) fn describe_product(
    alloc: Global,
    scene: Scene<'_>,
    depth: u32,
    first: &Term,
    others: &[Operand],
    last: &Term,
) -> Result<Described, EvalFault>
    requires { ReadsEach (Reads (table scene) depth) (context scene) ((first.now ∷ map (λ x. x.value) others.now) ++ last.now ∷ []) }
    ensures fine { Tells result (ProductDescribed (Describes (table scene.entry) depth) (context scene.entry) ((first.now ∷ map (λ x. x.value) others.now) ++ last.now ∷ [])) }
    ensures ready { IfOk result IsReady }
{
    let terms = operand_terms(alloc, first, others, last)?;
    match describe_parts(alloc, scene, depth, &terms) {
        Ok(parts) => product_of(alloc, parts),
        Err(fault) => Err(fault),
    }
}

/// What each term describes, beside its place.
#[cycle(evaluate)]
pub(crate) fn describe_parts(
    alloc: Global,
    scene: Scene<'_>,
    depth: u32,
    terms: &[&Term],
) -> Result<Vec<(Place, Described)>, EvalFault>
    requires { ReadsEach (Reads (table scene) depth) (context scene) (map (λ t. t.now) terms.now) }
    ensures parts { IfOk result (λ parts. Each (PartDescribed (Describes (table scene.entry) depth) (context scene.entry)) (map (λ t. t.now) terms.now) (Ok parts.items)) }
    ensures ready { IfOk result (λ parts. AreReady parts.items) }
    ensures fault { IfErr result (Stops (Each (PartDescribed (Describes (table scene.entry) depth) (context scene.entry)) (map (λ t. t.now) terms.now))) }
{
    let mut parts = Vec::new(alloc);
    for term in terms {
        match describe_part(alloc, scene, depth, term) {
            Ok(part) => push(&mut parts, part)?,
            Err(fault) => return Err(fault),
        }
    }
    Ok(parts)
}

/// What a term describes, beside its place.
#[cycle(evaluate)]
fn describe_part(
    alloc: Global,
    scene: Scene<'_>,
    depth: u32,
    term: &Term,
) -> Result<(Place, Described), EvalFault>
    requires { Reads (table scene) depth (context scene) term.now }
    ensures fine { Tells result (PartDescribed (Describes (table scene.entry) depth) (context scene.entry) term.now) }
    ensures ready { IfOk result (λ part. IsReady part.1) }
{
    match describe(alloc, scene, depth, term) {
        Ok(set) => Ok(beside_place(term, set)),
        Err(fault) => Err(fault),
    }
}
